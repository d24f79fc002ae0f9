//! A script that is being carried out: the shards of its disk, and the thread whose turn it is.

ghost use Rattle.std.specs.Prelude.{◌≡◌, ◌*◌, ◌<◌, ◌≤◌, length, false, Some, None, IfOk, IfSome, IsTrue, not};
ghost use Rattle.std.specs.Option.{option_map_or};
ghost use Rattle.bc_bio.specs.declared.access.Access.{Access};
ghost use Rattle.bc_bio.specs.BackRuns.{back_runs_on};
ghost use Rattle.bc_bio.specs.Extent.{unit_sectors, context_after, sector_at};
ghost use Rattle.bc_bio.specs.Conditions.{HasKey, IsPlaced};
ghost use Rattle.bc_bio.specs.BioUnits.{context_wrapped};
ghost use Rattle.bc_medium.specs.KeyedDisk.{enciphered, deciphered};
ghost use Rattle.bc_script.specs.declared.op.Op.{Op};
ghost use Rattle.bc_script.specs.Script.{keys_of, IsScript, IsText, max_bio_units, max_bio_sectors};
ghost use Rattle.bc_script.specs.Bios.{refusal_of, unsupported_of};
ghost use Rattle.bc_script.specs.Plan.{unit_at};
ghost use Rattle.bc_serial.specs.Standing.{IsPerformableBio, HasEntries, HasBegun, EvictsKey, ResetsDevice};
ghost use Rattle.bc_serial.specs.Standing.{answer_of_write, answer_of_read, unit_place_of};
ghost use Rattle.bc_serial.specs.InTurn.{AttemptsOn, GoesOver, HasOpen, HasOpenAt, PerformsBio, ReachesUnit, via_in};

use crate::ciphers::Ciphers;
use crate::keyslots::Keyslots;
use crate::runs_on::back_runs_on;
use crate::unit_access::{read_unit, write_unit};
use bc_base::{BLOCK_SECTORS, RamStore};
use bc_bio::{Context, Extent, Refusal, bio_laws};
use bc_key::{KeyNo, Keys};
use bc_medium::{Shards, UnitAt, Via, order_laws};
use bc_report::Answer;
use bc_script::{Script, Text};
use bc_section::{answer_of, text_of_unit};
use std::alloc::{AllocError, Global};
use std::marker::Model;

/// A script that is being carried out.
#[derive(Drop)]
pub(crate) struct Course<'s> {
    pub(crate) script: &'s Script,
    pub(crate) ciphers: Ciphers,
    pub(crate) shards: Shards<RamStore>,
    pub(crate) keyslots: Keyslots<'s>,
    /// Whose section it is.
    pub(crate) thread: u16,
    /// How many data units, evictions and resets more fit.
    pub(crate) left: u32,
}

impl<'s> Model for Course<'s> {
    ghost use Rattle.bc_serial.specs.Standing.{CourseData, IsCourse};

    ghost Value = { CourseData };

    ghost view = { λ c. record {
      script = c.script.now;
      shards = c.shards;
      thread = c.thread;
      left = c.left;
      journals = c.keyslots.journals;
      begun = c.keyslots.begun;
      opened = c.keyslots.opened;
    } };

    ghost invariant = { λ c. IsCourse c.script.now c.ciphers c.shards c.keyslots c.left };
}

impl Course<'_> {
    /// Begins the section of a thread.
    pub(crate) fn begin(&mut self, thread: u16)
        ensures { self.new ≡ record self.old { thread = thread; begun = self.old.journals; opened = None } }
    {
        self.keyslots.begin();
        self.thread = thread;
    }

    /// Gives back the hold that is open, if one is.
    pub(crate) fn put(&mut self)
        ensures { self.new ≡ record self.old { opened = None } }
    {
        self.keyslots.put();
    }

    /// Takes a key out of the keyslots of all devices, if it goes inline.
    pub(crate) fn evict(&mut self, key: KeyNo)
        requires key { key.0 < length (keys_of self.old.script) }
        requires spare { 1 ≤ self.old.left }
        ensures { EvictsKey self.old self.new key }
    {
        self.left -= 1;
        if self.keyslots.is_inline(key) {
            self.keyslots.evict(key);
        }
    }

    /// Has a device program its keyslots again.
    pub(crate) fn reset(&mut self, device: u8)
        requires device { device < length self.old.script.targets }
        requires spare { 1 ≤ self.old.left }
        ensures { ResetsDevice self.old self.new device }
    {
        self.left -= 1;
        self.keyslots.reset(device);
    }

    /// Does nothing, and states that each journal begins as it did when the section began.
    pub(crate) fn has_begun(&self)
        ensures { HasBegun self.now.begun self.now.journals }
    {
        self.keyslots.has_begun();
    }

    /// Does nothing, and states that the script keeps its rules, and that each device has a
    /// journal.
    pub(crate) fn has_devices(&self)
        ensures rules { IsScript self.now.script }
        ensures devices { length self.now.journals ≡ length self.now.script.targets }
    {
        self.keyslots.has_devices();
    }

    /// Why a bio is refused, if it is.
    pub(crate) fn refusal(&self, bio: &Extent) -> Option<Refusal>
        requires key { HasKey (keys_of self.now.script) bio.now.context }
        ensures refusal { result ≡ refusal_of self.now.script bio.now }
    {
        match bio.check(self.ciphers.keys(), BLOCK_SECTORS * self.script.blocks()) {
            Ok(()) => self.unsupported(bio.context),
            Err(error) => Some(Refusal::Bio(error)),
        }
    }

    /// Whether a context's key is refused, as neither every device nor a fallback takes it.
    fn unsupported(&self, context: Option<Context>) -> Option<Refusal>
        requires key { HasKey (keys_of self.now.script) context }
        ensures { result ≡ unsupported_of self.now.script context }
    {
        let Some(context) = context else {
            return None;
        };
        if self.keyslots.is_inline(context.key) || self.script.fallback() {
            return None;
        }
        Some(Refusal::Unsupported)
    }

    /// Whether a bio that isn't refused can be performed, which it always can.
    pub(crate) fn accepts(&self, bio: &Extent) -> bool
        requires key { HasKey (keys_of self.now.script) bio.now.context }
        requires units { bio.now.units ≤ max_bio_units }
        requires sectors { bio.now.units * unit_sectors (keys_of self.now.script) bio.now.context ≤ max_bio_sectors }
        requires unrefused { refusal_of self.now.script bio.now ≡ None }
        ensures yes { IsTrue result → IsPerformableBio self.now.script bio.now }
        ensures no { IsTrue (not result) → ⊥ }
    {
        bio.check(self.ciphers.keys(), BLOCK_SECTORS * self.script.blocks())
            .is_ok()
    }

    /// Whether a bio runs on at the back of the last one, if there is one.
    pub(crate) fn runs_on(&self, last: &Option<Extent>, bio: &Extent) -> bool
        requires last { IfSome last.now (IsPlaced (keys_of self.now.script)) }
        requires bio { IsPlaced (keys_of self.now.script) bio.now }
        ensures { result
            ≡ option_map_or (λ first. back_runs_on (keys_of self.now.script) first bio.now) last.now false }
    {
        match last {
            Some(first) => back_runs_on(self.ciphers.keys(), first, bio),
            None => false,
        }
    }

    /// Takes a hold for data unit number `unit` of a bio, where it goes inline and the hold that is
    /// open isn't of its key on its device. What fits is one less.
    fn reach(&mut self, bio: &Extent, unit: u64)
        requires performable { IsPerformableBio self.old.script bio.now }
        requires unit { unit < bio.now.units }
        requires spare { 1 ≤ self.old.left }
        ensures reaches { ReachesUnit self.old self.new bio.now unit }
        ensures rules { IsScript self.old.script }
        ensures entries { HasEntries self.new }
        ensures opened { HasOpenAt self.new bio.now.context (sector_at (keys_of self.new.script) bio.now unit) }
    {
        bio_laws();
        self.left -= 1;
        let Some(context) = bio.context else {
            return;
        };
        if !self.keyslots.is_inline(context.key) {
            return;
        }
        let sector = bio.sector_at(self.ciphers.keys(), unit);
        let Some(device) = self.keyslots.locate(sector) else {
            unreachable!()
        };
        if !self.keyslots.is_open(device, context.key) {
            self.keyslots.hold(device, context.key);
        }
    }

    /// How a data unit goes: in the clear, by software, or under the hold that is open.
    fn via(&self, context: Option<Context>) -> Via
        requires key { HasKey (keys_of self.now.script) context }
        requires opened { HasOpen self.now context }
        ensures { result ≡ via_in self.now context }
    {
        match context {
            Some(context) => {
                if self.keyslots.is_inline(context.key) {
                    self.keyslots.via()
                } else {
                    Via::Soft
                }
            }
            None => Via::Plain,
        }
    }

    /// Enciphers a data unit in place, by the hold that is open or by software; without a context
    /// it stays as it is.
    fn encipher(&self, context: Option<Context>, text: &mut [u8])
        requires key { HasKey (keys_of self.now.script) context }
        requires opened { HasOpen self.now context }
        requires length { length text.old ≡ 512 * unit_sectors (keys_of self.now.script) context }
        ensures { text.new ≡ enciphered (keys_of self.now.script) context text.old }
    {
        if let Some(under) = context {
            self.encipher_under(under, text);
        }
    }

    /// Enciphers a data unit in place under a context.
    fn encipher_under(&self, under: Context, text: &mut [u8])
        requires key { HasKey (keys_of self.now.script) (Some under) }
        requires opened { HasOpen self.now (Some under) }
        requires length { length text.old ≡ 512 * unit_sectors (keys_of self.now.script) (Some under) }
        ensures { text.new ≡ enciphered (keys_of self.now.script) (Some under) text.old }
    {
        if self.keyslots.is_inline(under.key) {
            self.keyslots.encipher(under, text);
        } else {
            self.ciphers.encipher(Some(under), text);
        }
    }

    /// Deciphers a data unit in place, by the hold that is open or by software; without a context
    /// it stays as it is.
    fn decipher(&self, context: Option<Context>, text: &mut [u8])
        requires key { HasKey (keys_of self.now.script) context }
        requires opened { HasOpen self.now context }
        requires length { length text.old ≡ 512 * unit_sectors (keys_of self.now.script) context }
        ensures { text.new ≡ deciphered (keys_of self.now.script) context text.old }
    {
        if let Some(under) = context {
            self.decipher_under(under, text);
        }
    }

    /// Deciphers a data unit in place under a context.
    fn decipher_under(&self, under: Context, text: &mut [u8])
        requires key { HasKey (keys_of self.now.script) (Some under) }
        requires opened { HasOpen self.now (Some under) }
        requires length { length text.old ≡ 512 * unit_sectors (keys_of self.now.script) (Some under) }
        ensures { text.new ≡ deciphered (keys_of self.now.script) (Some under) text.old }
    {
        if self.keyslots.is_inline(under.key) {
            self.keyslots.decipher(under, text);
        } else {
            self.ciphers.decipher(Some(under), text);
        }
    }

    /// Writes the data units of a bio, one after the other, until one meets a fault.
    pub(crate) fn write(
        &mut self,
        alloc: Global,
        op: u32,
        bio: &Extent,
        text: &Text,
        room: &mut [u8],
    ) -> Result<Answer, AllocError>
        requires access { bio.now.access ≡ Access.Write }
        requires performable { IsPerformableBio self.old.script bio.now }
        requires text { IsText (keys_of self.old.script) bio.now.context bio.now.units text.now }
        requires room { length room.old ≡ 131072 }
        requires spare { bio.now.units ≤ self.old.left }
        ensures room { length room.new ≡ length room.old }
        ensures performs { IfOk result (PerformsBio self.old self.new op
            (Op.Write bio.now.context bio.now.sector bio.now.units text.now) bio.now) }
    {
        order_laws();
        let mut fault = None;
        for unit in 0..bio.units {
            fault = self.write_next(alloc, op, bio, text, unit, room, fault)?;
        }
        match fault {
            Some(unit) => Ok(Answer::Fault(unit)),
            None => Ok(Answer::Wrote),
        }
    }

    /// Goes over data unit number `unit` of a bio: reaches it, and writes it where none before it
    /// met a fault. Returns the number of the one that met a fault, if one did.
    fn write_next(
        &mut self,
        alloc: Global,
        op: u32,
        bio: &Extent,
        text: &Text,
        unit: u64,
        room: &mut [u8],
        fault: Option<u32>,
    ) -> Result<Option<u32>, AllocError>
        requires access { bio.now.access ≡ Access.Write }
        requires performable { IsPerformableBio self.old.script bio.now }
        requires text { IsText (keys_of self.old.script) bio.now.context bio.now.units text.now }
        requires unit { unit < bio.now.units }
        requires room { length room.old ≡ 131072 }
        requires spare { 1 ≤ self.old.left }
        ensures room { length room.new ≡ length room.old }
        ensures goes_over { IfOk result (GoesOver self.old self.new bio.now unit
            (unit_at (keys_of self.old.script) op
            (Op.Write bio.now.context bio.now.sector bio.now.units text.now) bio.now unit)
            answer_of_write fault) }
    {
        self.reach(bio, unit);
        if fault.is_some() {
            return Ok(fault);
        }
        if self.write_unit(alloc, op, bio, text, unit, room)? {
            return Ok(None);
        }
        Ok(Some(unit as u32))
    }

    /// Writes data unit number `unit` of a bio. Tells whether it met no fault.
    fn write_unit(
        &mut self,
        alloc: Global,
        op: u32,
        bio: &Extent,
        text: &Text,
        unit: u64,
        room: &mut [u8],
    ) -> Result<bool, AllocError>
        requires access { bio.now.access ≡ Access.Write }
        requires performable { IsPerformableBio self.old.script bio.now }
        requires text { IsText (keys_of self.old.script) bio.now.context bio.now.units text.now }
        requires unit { unit < bio.now.units }
        requires room { length room.old ≡ 131072 }
        requires spare { HasEntries self.old }
        requires opened { HasOpenAt self.old bio.now.context (sector_at (keys_of self.old.script) bio.now unit) }
        ensures room { length room.new ≡ length room.old }
        ensures attempts { IfOk result (λ went. AttemptsOn self.old self.new
            (unit_at (keys_of self.old.script) op
            (Op.Write bio.now.context bio.now.sector bio.now.units text.now) bio.now unit)
            (answer_of_write went)) }
    {
        bio_laws();
        let keys = self.ciphers.keys();
        let size = bio.unit_bytes(keys);
        let at = unit_of_bio(keys, self.thread, op, bio, unit);
        let plain = text_of_unit(alloc, text, size, unit as usize)?;
        let place = &mut room[..size];
        place.copy_from_slice(&plain);
        self.encipher(at.context, place);
        let via = self.via(at.context);
        Ok(write_unit(&mut self.shards, self.ciphers.keys(), at, via, plain, place))
    }

    /// Reads the data units of a bio, one after the other, until one meets a fault.
    pub(crate) fn read(&mut self, op: u32, bio: &Extent, room: &mut [u8]) -> Answer
        requires access { bio.now.access ≡ Access.Read }
        requires performable { IsPerformableBio self.old.script bio.now }
        requires room { length room.old ≡ 131072 }
        requires spare { bio.now.units ≤ self.old.left }
        ensures room { length room.new ≡ length room.old }
        ensures performs { PerformsBio self.old self.new op
            (Op.Read bio.now.context bio.now.sector bio.now.units) bio.now result }
    {
        order_laws();
        let size = bio.unit_bytes(self.ciphers.keys());
        let mut fault = None;
        for unit in 0..bio.units {
            let start = unit as usize * size;
            fault = self.read_next(op, bio, unit, &mut room[start..start + size], fault);
        }
        match fault {
            Some(unit) => Answer::Fault(unit),
            None => answer_of(&room[..bio.units as usize * size]),
        }
    }

    /// Goes over data unit number `unit` of a bio: reaches it, and reads it into its place where
    /// none before it met a fault. Returns the number of the one that met a fault, if one did.
    fn read_next(
        &mut self,
        op: u32,
        bio: &Extent,
        unit: u64,
        place: &mut [u8],
        fault: Option<u32>,
    ) -> Option<u32>
        requires access { bio.now.access ≡ Access.Read }
        requires performable { IsPerformableBio self.old.script bio.now }
        requires unit { unit < bio.now.units }
        requires length { length place.old ≡ 512 * unit_sectors (keys_of self.old.script) bio.now.context }
        requires spare { 1 ≤ self.old.left }
        ensures length { length place.new ≡ length place.old }
        ensures goes_over { GoesOver self.old self.new bio.now unit
            (unit_at (keys_of self.old.script) op (Op.Read bio.now.context bio.now.sector bio.now.units) bio.now unit)
            (answer_of_read place.new) fault result }
    {
        self.reach(bio, unit);
        if fault.is_some() {
            return fault;
        }
        if self.read_unit(op, bio, unit, place) {
            return None;
        }
        Some(unit as u32)
    }

    /// Reads data unit number `unit` of a bio into its place. Tells whether it met no fault.
    fn read_unit(&mut self, op: u32, bio: &Extent, unit: u64, place: &mut [u8]) -> bool
        requires access { bio.now.access ≡ Access.Read }
        requires performable { IsPerformableBio self.old.script bio.now }
        requires unit { unit < bio.now.units }
        requires length { length place.old ≡ 512 * unit_sectors (keys_of self.old.script) bio.now.context }
        requires spare { HasEntries self.old }
        requires opened { HasOpenAt self.old bio.now.context (sector_at (keys_of self.old.script) bio.now unit) }
        ensures length { length place.new ≡ length place.old }
        ensures attempts { AttemptsOn self.old self.new
            (unit_at (keys_of self.old.script) op (Op.Read bio.now.context bio.now.sector bio.now.units) bio.now unit)
            (answer_of_read place.new result) }
    {
        bio_laws();
        let at = unit_of_bio(self.ciphers.keys(), self.thread, op, bio, unit);
        let via = self.via(at.context);
        if !read_unit(&mut self.shards, &at, via, place) {
            return false;
        }
        self.decipher(at.context, place);
        true
    }
}

/// Data unit number `unit` of a thread's bio, where it lies.
fn unit_of_bio(keys: &Keys, thread: u16, op: u32, bio: &Extent, unit: u64) -> UnitAt
    requires placed { IsPlaced keys.now.keys bio.now }
    requires unit { unit < bio.now.units }
    requires few { bio.now.units ≤ 256 }
    requires no_wrap { context_wrapped unit bio.now.context ≡ context_after unit bio.now.context }
    ensures { (operation : Op) → result ≡ unit_place_of thread (unit_at keys.now.keys op operation bio.now unit) }
{
    UnitAt {
        caller: thread,
        tag: op,
        unit: unit as u32,
        sector: bio.sector_at(keys, unit),
        context: bio.context_at(unit),
    }
}
