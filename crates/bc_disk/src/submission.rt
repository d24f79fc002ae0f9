//! Bios, submitted to a disk.

ghost use Rattle.std.specs.Prelude.{◌≡◌, ℕ, ◌+◌, ◌≤◌, ◌++◌, ◌∷◌, [], List, length, vec_len, vec_capacity};
ghost use Rattle.bc_bio.specs.Conditions.{AreFull, HasKey};
ghost use Rattle.bc_bio.specs.Windows.{IsRequest, count_units};
ghost use Rattle.bc_bio.specs.Requests.{tagged_bios};
ghost use Rattle.bc_bio.specs.declared.reply.Reply.{Reply};
ghost use Rattle.bc_queue.specs.Plugs.{AreRequests, IsOfWindow, IsPlug, bios_in, count_bios, no_bios};
ghost use Rattle.bc_medium.specs.declared.via.Via.TheVariants as ways;
ghost use Rattle.bc_medium.specs.Medium.{Belongs};
ghost use Rattle.bc_queue.specs.RequestUnits.{named_at};
ghost use Rattle.bc_queue.specs.Carrying.{ArePerformable, CarriesOut};
ghost use Rattle.bc_queue.specs.Queues.{HasSpareOfUnits, facts_by};
ghost use Rattle.bc_disk.specs.Soft.{GoesSoft};
ghost use Rattle.bc_disk.specs.Disks.{IsPassOf, events_left, facts_on, keys_in, pass_by};
ghost use Rattle.bc_disk.specs.Submissions.{AreTaken, AnswersBio, CarriesRequest, HasEntriesFor, LeavesEntries};
ghost use Rattle.bc_disk.specs.Submissions.{Submits};
ghost use Rattle.bc_disk.specs.Submissions.{IsWayFor, bare_bios, events_for, inline_events};

use crate::inline_way::carry_out_inline;
use crate::soft_access::SoftAccess;
use crate::{Disk, Pass};
use bc_base::{Gate, Store};
use bc_bio::{Bio, Reply, Request, bio_laws};
use bc_medium::order_laws;
use bc_pieces::piece_laws;
use bc_profile::hold_laws;
use bc_queue::{Plug, QueuePass, carry_out, request_laws};
use std::sync::Wait;

impl<S: Store> Disk<S> {
    /// Submits a bio, whose units have their bytes, and answers it. A refused bio is given back as it was. The units
    /// of another one are attempted in order, until one meets a fault: inline by the devices on which they lie, where
    /// every device supports the context's key, else by software, or in the clear without a context.
    ///
    /// The pass is one of this disk, with a spare of an entry for each unit on its shard, and of two events for each
    /// piece of an inline bio on its device.
    pub fn submit<G: Gate, R: Wait>(&self, rt: &R, pass: &mut Pass<S>, bio: Bio, gate: &G) -> Reply
        requires pass { IsPassOf self.now pass.old }
        requires key { HasKey (keys_in self.now) bio.context }
        requires full { AreFull (keys_in self.now) bio }
        requires entries { HasEntriesFor (facts_on S.contents self.now pass.old) (bio ∷ []) }
        requires events { (device : ℕ) →
            events_for self.now.targets (keys_in self.now) (bio ∷ []) device ≤ events_left self.now pass.old device }
        ensures pass { IsPassOf self.now pass.new }
        ensures answers { AnswersBio S.contents self.now pass.old pass.new bio result }
        ensures entries { LeavesEntries (facts_on S.contents self.now pass.old) (facts_on S.contents self.now pass.new)
            (bio ∷ []) }
        ensures events { (device : ℕ) → events_left self.now pass.old device ≤ events_left self.now pass.new device
            + events_for self.now.targets (keys_in self.now) (bio ∷ []) device }
    {
        if let Some(refusal) = self.refusal(&bio) {
            return Reply::Refused(refusal, bio);
        }
        piece_laws();
        pass.request.start(bio);
        self.carry_request_out(rt, &mut pass.queue, &mut pass.request, gate);
        pass.request.finish(&mut pass.replies);
        match pass.replies.pop() {
            Some(reply) => reply,
            None => unreachable!(),
        }
    }

    /// Submits the bios of a plug, request after request, and empties it into replies, in order. They go after those
    /// that `out` has, which has room for them.
    ///
    /// The pass is one of this disk, which refuses none of the bios, with the spare that [`Disk::submit`] asks for
    /// each bio, or less where bios run on.
    pub fn submit_plug<G: Gate, R: Wait>(
        &self,
        rt: &R,
        pass: &mut Pass<S>,
        plug: &mut Plug,
        gate: &G,
        out: &mut Vec<Reply>,
    )
        requires pass { IsPassOf self.now pass.old }
        requires plug { IsPlug plug.old }
        requires requests { AreRequests (keys_in self.now) plug.old.requests }
        requires window { IsOfWindow (keys_in self.now) plug.old.requests (tagged_bios (bios_in plug.old.requests)) }
        requires taken { AreTaken self.now (bios_in plug.old.requests) }
        requires entries { HasEntriesFor (facts_on S.contents self.now pass.old)
            (bare_bios (bios_in plug.old.requests)) }
        requires events { (device : ℕ) →
            events_for self.now.targets (keys_in self.now) (bare_bios (bios_in plug.old.requests)) device
            ≤ events_left self.now pass.old device }
        requires room { vec_len out.old + count_bios plug.old.requests ≤ vec_capacity out.old }
        ensures pass { IsPassOf self.now pass.new }
        ensures submits { (replies : List Reply) × (out.new.items ≡ out.old.items ++ replies)
            × Submits (facts_on S.contents self.now pass.old) (facts_on S.contents self.now pass.new)
            (bare_bios (bios_in plug.old.requests)) replies }
        ensures empty { plug.new ≡ no_bios }
        ensures room { vec_capacity out.new ≡ vec_capacity out.old }
        ensures entries { LeavesEntries (facts_on S.contents self.now pass.old) (facts_on S.contents self.now pass.new)
            (bare_bios (bios_in plug.old.requests)) }
        ensures events { (device : ℕ) → events_left self.now pass.old device ≤ events_left self.now pass.new device
            + events_for self.now.targets (keys_in self.now) (bare_bios (bios_in plug.old.requests)) device }
    {
        order_laws();
        hold_laws();
        request_laws();
        piece_laws();
        for n in 0..plug.requests() {
            let request = plug.request_mut(n);
            self.carry_request_out(rt, &mut pass.queue, request, gate);
        }
        plug.drain(out);
    }

    /// Carries out the data units of a request: by the devices, by software, or in the clear.
    fn carry_request_out<G: Gate, R: Wait>(
        &self,
        rt: &R,
        pass: &mut QueuePass<S>,
        request: &mut Request,
        gate: &G,
    )
        requires pass { IsPassOf self.now (pass_by pass.old.caller pass.old.slots.items pass.old.units) }
        requires some { 1 ≤ length request.old.bios }
        requires request { IsRequest (keys_in self.now) (tagged_bios request.old.bios) }
        requires taken { AreTaken self.now request.old.bios }
        requires entries { HasEntriesFor
            (facts_on S.contents self.now (pass_by pass.old.caller pass.old.slots.items pass.old.units))
            (bare_bios request.old.bios) }
        requires events { (device : ℕ) → inline_events self.now (tagged_bios request.old.bios) device
            ≤ events_left self.now (pass_by pass.old.caller pass.old.slots.items pass.old.units) device }
        ensures pass { IsPassOf self.now (pass_by pass.new.caller pass.new.slots.items pass.new.units) }
        ensures carries { CarriesRequest
            (facts_on S.contents self.now (pass_by pass.old.caller pass.old.slots.items pass.old.units))
            (facts_on S.contents self.now (pass_by pass.new.caller pass.new.slots.items pass.new.units))
            request.old request.new }
        ensures entries { LeavesEntries
            (facts_on S.contents self.now (pass_by pass.old.caller pass.old.slots.items pass.old.units))
            (facts_on S.contents self.now (pass_by pass.new.caller pass.new.slots.items pass.new.units))
            (bare_bios request.old.bios) }
        ensures events { (device : ℕ) →
            events_left self.now (pass_by pass.old.caller pass.old.slots.items pass.old.units) device
            ≤ events_left self.now (pass_by pass.new.caller pass.new.slots.items pass.new.units) device
            + inline_events self.now (tagged_bios request.old.bios) device }
    {
        let _devices = self.stack.children();
        bio_laws();
        piece_laws();
        match self.way_of(request) {
            Way::Plain => self.queue.dispatch_plain(rt, pass, request),
            Way::Soft => self.carry_out_soft(rt, pass, request),
            Way::Inline => carry_out_inline(rt, &self.queue, &self.stack, gate, pass, request),
        }
    }

    /// Carries out the data units of a request by software.
    fn carry_out_soft<R: Wait>(&self, rt: &R, pass: &mut QueuePass<S>, request: &mut Request)
        requires pass { Belongs self.now.queue.medium pass.old.units }
        requires request { IsRequest (keys_in self.now) (tagged_bios request.old.bios) }
        requires units { ArePerformable (keys_in self.now) (GoesSoft S.owns self.now) request.old.bios 0
            (count_units (tagged_bios request.old.bios)) }
        requires spare { HasSpareOfUnits self.now.queue pass.old.units request.old.bios 0
            (count_units (tagged_bios request.old.bios)) }
        ensures pass { Belongs self.now.queue.medium pass.new.units }
        ensures caller { pass.new.caller ≡ pass.old.caller }
        ensures slots { pass.new.slots.items ≡ pass.old.slots.items }
        ensures carries { CarriesOut (facts_by S.contents self.now.queue.medium ways.Soft pass.old.units)
            (facts_by S.contents self.now.queue.medium ways.Soft pass.new.units) request.old request.new 0
            (count_units (tagged_bios request.old.bios)) }
    {
        let units = request.units();
        let mut access = SoftAccess::new(self.queue.medium(), self.ciphers.as_slice());
        carry_out(
            rt,
            &mut access,
            &mut pass.units,
            self.keys(),
            request,
            0,
            units,
        );
    }

    /// How the data units of a request go.
    fn way_of(&self, request: &Request) -> Way
        requires request { IsRequest (keys_in self.now) (tagged_bios request.now.bios) }
        requires some { 1 ≤ count_units (tagged_bios request.now.bios) }
        requires key { HasKey (keys_in self.now) (named_at (keys_in self.now) request.now.bios 0).context }
        ensures { IsWayFor self.now.targets (keys_in self.now) (named_at (keys_in self.now) request.now.bios 0).context
            result }
    {
        let (_, _, _, context) = request.unit_at(self.keys(), 0);
        match context {
            Some(context) => {
                if self.is_inline(context.key) {
                    Way::Inline
                } else {
                    Way::Soft
                }
            }
            None => Way::Plain,
        }
    }
}

/// How the data units of a request go.
enum Way {
    Plain,
    Soft,
    Inline,
}
