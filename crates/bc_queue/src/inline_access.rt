//! The way of a data unit under a hold of its key.

ghost use Rattle.std.specs.Prelude.{◌≡◌, ◌*◌, ◌<◌, length, Some, IfOk, IfErr};
ghost use Rattle.bc_base.specs.Lists.{At};
ghost use Rattle.bc_bio.specs.declared.access.Access.TheVariants as accesses;
ghost use Rattle.bc_bio.specs.Extent.{unit_sectors};
ghost use Rattle.bc_medium.specs.KeyedDisk.{Written, Faulted, Text};
ghost use Rattle.bc_medium.specs.Entries.{written_entry, read_entry, failed_entry, unit_name};
ghost use Rattle.bc_medium.specs.Medium.{Belongs, HasRoom, Accesses, AnswersSeen};
ghost use Rattle.bc_ufs.specs.Controllers.{via_by_device};
ghost use Rattle.bc_queue.specs.Queues.{PassHasHold, TakesUnder};

use crate::{QueuePass, Scratch, UnitAccess};
use bc_base::{Place, Store};
use bc_medium::{Fault, Medium, MediumPass, UnitAt};
use bc_profile::{Hold, SlotPass};
use bc_ufs::Controller;
use std::marker::Model;
use std::snapshot::Snapshot;
use std::sync::Wait;

/// The way to a medium through a controller, under one hold of a key.
#[derive(Drop)]
pub(crate) struct InlineAccess<'a, S: Store> {
    controller: &'a Controller,
    hold: &'a Hold,
    medium: &'a Medium<S>,
    /// The passes of the keyslots, with the hold: they stay as they are.
    slots: Snapshot<Vec<SlotPass>>,
}

impl<'a, S: Store> Model for InlineAccess<'a, S> {
    ghost use Rattle.bc_queue.specs.Queues.{InlineData};

    ghost Value = { InlineData S };

    ghost view = { λ a. record {
      controller = a.controller.now;
      hold = a.hold.now;
      medium = a.medium.now;
      slots = a.slots.value.items;
    } };
}

impl<'a, S: Store> InlineAccess<'a, S> {
    /// The way through this controller under this hold, for the pass that has it among these.
    pub(crate) fn new(
        controller: &'a Controller,
        hold: &'a Hold,
        medium: &'a Medium<S>,
        slots: &Vec<SlotPass>,
    ) -> InlineAccess<'a, S>
        ensures { result ≡ record {
          controller = controller.now;
          hold = hold.now;
          medium = medium.now;
          slots = slots.now.items;
        } }
    {
        InlineAccess {
            controller,
            hold,
            medium,
            slots: Snapshot::of(slots),
        }
    }

    /// Writes a unit.
    fn write_under<R: Wait>(
        &mut self,
        rt: &R,
        slots: &mut Vec<SlotPass>,
        units: &mut MediumPass<S>,
        scratch: &mut Scratch,
        at: &UnitAt,
        plain: Vec<u8>,
    ) -> Result<Place, (Fault, Vec<u8>)>
        requires hold { PassHasHold self.old slots.old.items }
        requires takes { TakesUnder S.owns self.old at.now.sector at.now.context }
        requires pass { Belongs self.old.medium units.old }
        requires caller { at.now.caller ≡ units.old.caller }
        requires length { length plain.items ≡ 512 * unit_sectors self.old.medium.keys.keys at.now.context }
        requires spare { HasRoom self.old.medium units.old at.now.sector }
        ensures same { self.new ≡ self.old }
        ensures slots { slots.new.items ≡ slots.old.items }
        ensures pass { Belongs self.old.medium units.new }
        ensures caller { units.new.caller ≡ units.old.caller }
        ensures performs { IfOk result (Accesses self.old.medium units.old units.new
            (written_entry at.now (via_by_device self.old.controller self.old.hold) plain.items)) }
        ensures performs_fault { IfErr result (λ fault. Accesses self.old.medium units.old units.new
            (failed_entry accesses.Write at.now (via_by_device self.old.controller self.old.hold)) fault.0.place) }
        ensures back { IfErr result (λ fault. fault.1.items ≡ plain.items) }
        ensures answer { IfOk result (AnswersSeen S.contents self.old.medium units.new (unit_name at.now) Written) }
        ensures answer_fault { IfErr result (λ fault.
            AnswersSeen S.contents self.old.medium units.new (unit_name at.now) Faulted fault.0.place) }
    {
        let device = usize::from(self.controller.device());
        let controller = self.controller;
        let medium = self.medium;
        let hold = self.hold;
        controller.write_with(
            rt,
            &mut slots[device],
            hold,
            medium,
            units,
            at,
            plain,
            &mut scratch.block,
            &mut scratch.last,
        )
    }

    /// Reads a unit.
    fn read_under<R: Wait>(
        &mut self,
        rt: &R,
        slots: &mut Vec<SlotPass>,
        units: &mut MediumPass<S>,
        scratch: &mut Scratch,
        at: &UnitAt,
        text: &mut [u8],
    ) -> Result<Place, Fault>
        requires hold { PassHasHold self.old slots.old.items }
        requires takes { TakesUnder S.owns self.old at.now.sector at.now.context }
        requires pass { Belongs self.old.medium units.old }
        requires caller { at.now.caller ≡ units.old.caller }
        requires length { length text.old ≡ 512 * unit_sectors self.old.medium.keys.keys at.now.context }
        requires spare { HasRoom self.old.medium units.old at.now.sector }
        ensures same { self.new ≡ self.old }
        ensures slots { slots.new.items ≡ slots.old.items }
        ensures pass { Belongs self.old.medium units.new }
        ensures caller { units.new.caller ≡ units.old.caller }
        ensures performs { IfOk result (Accesses self.old.medium units.old units.new
            (read_entry at.now (via_by_device self.old.controller self.old.hold))) }
        ensures performs_fault { IfErr result (λ fault. Accesses self.old.medium units.old units.new
            (failed_entry accesses.Read at.now (via_by_device self.old.controller self.old.hold)) fault.place) }
        ensures length { length text.new ≡ length text.old }
        ensures answer { IfOk result (AnswersSeen S.contents self.old.medium units.new (unit_name at.now)
            (Text text.new)) }
        ensures answer_fault { IfErr result (λ fault.
            AnswersSeen S.contents self.old.medium units.new (unit_name at.now) Faulted fault.place) }
    {
        let device = usize::from(self.controller.device());
        let controller = self.controller;
        let medium = self.medium;
        let hold = self.hold;
        controller.read_with(
            rt,
            &mut slots[device],
            hold,
            medium,
            units,
            at,
            text,
            &mut scratch.last,
        )
    }
}

impl<'a, S: Store, R: Wait> UnitAccess<R, QueuePass<S>> for InlineAccess<'a, S> {
    ghost use Rattle.std.specs.Prelude.{◌≡◌};
    ghost use Rattle.bc_medium.specs.Medium.{Belongs};
    ghost use Rattle.bc_ufs.specs.Controllers.{via_by_device};
    ghost use Rattle.bc_queue.specs.Queues.{facts_by, PassHasHold, TakesUnder};

    ghost facts = { λ a pass. facts_by S.contents a.medium (via_by_device a.controller a.hold) pass.units };

    ghost is_ready = { λ a pass. Belongs a.medium pass.units × (pass.units.caller ≡ pass.caller)
        × PassHasHold a pass.slots.items };

    ghost takes = { λ a sector context. TakesUnder S.owns a sector context };

    fn caller(&self, pass: &QueuePass<S>) -> u16 {
        pass.units.number()
    }

    fn write(
        &mut self,
        rt: &R,
        pass: &mut QueuePass<S>,
        at: &UnitAt,
        plain: Vec<u8>,
    ) -> Result<Place, (Fault, Vec<u8>)> {
        self.write_under(
            rt,
            &mut pass.slots,
            &mut pass.units,
            &mut pass.scratch,
            at,
            plain,
        )
    }

    fn read(
        &mut self,
        rt: &R,
        pass: &mut QueuePass<S>,
        at: &UnitAt,
        text: &mut [u8],
    ) -> Result<Place, Fault> {
        self.read_under(
            rt,
            &mut pass.slots,
            &mut pass.units,
            &mut pass.scratch,
            at,
            text,
        )
    }
}
