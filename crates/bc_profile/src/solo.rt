//! The keyslot manager for one caller.
//!
//! Each slot has a stamp, which says when it became idle last, so the least recently idle slot is
//! the one with the least stamp. All calls but [`Solo::open`] take no memory, and but
//! [`Solo::reset`] go over the slots once or twice.
ghost use Rattle.std.specs.Prelude.{◌≡◌, ◌+◌, ◌*◌, ◌<◌, ◌≤◌, [], ◌∷◌, length, Some, None, IfOk};
ghost use Rattle.bc_profile.specs.declared.limits.TheConstants.{MAX_SLOTS, MAX_EVENTS};
ghost use Rattle.bc_profile.specs.declared.event.Event.TheVariants as events;
ghost use Rattle.bc_profile.specs.SlotJournal.{InNoSlot, IsLawful, AllIdle};
ghost use Rattle.bc_profile.specs.Programmings.{Holds};
ghost use Rattle.bc_profile.specs.OneCaller.{slot_with, slot_for, first_idle, events_of_hold, events_of_eviction};
ghost use Rattle.bc_profile.specs.Solo.{HasSpare, opened_solo, solo_with_events, slots_of, row_in};

use crate::lists::{copies, numbers};
use crate::registers::{CLEARED, Row, program_again};
use crate::search::{least, slot_with};
use crate::{Event, Skips};
use bc_key::KeyNo;
use std::alloc::{AllocError, Global};
use std::marker::Model;

/// The keyslot manager of a device that has one caller.
#[derive(Drop)]
pub struct Solo {
    /// The register row of each key.
    rows: Vec<Row>,
    /// The key of each slot.
    keys: Vec<Option<u16>>,
    /// The place of the event that programmed each slot last.
    epochs: Vec<u32>,
    /// When each slot became idle last: a later time has a greater stamp.
    stamps: Vec<u32>,
    /// What stands in the registers of each slot.
    registers: Vec<Row>,
    journal: Vec<Event>,
    /// How many events the journal may have.
    quota: u32,
    held: Option<u16>,
}

impl Model for Solo {
    ghost use Rattle.std.specs.Prelude.{length, vec_capacity};
    ghost use Rattle.bc_profile.specs.Solo.{SoloData};
    ghost use Rattle.bc_profile.specs.Stamps.{IsSolo};

    ghost Value = { SoloData };

    ghost view = { λ s. record {
      count = length s.keys.items;
      rows = s.rows.items;
      journal = s.journal.items;
      held = s.held;
      quota = s.quota;
    } };

    ghost invariant = { λ s. IsSolo s.keys.items s.epochs.items s.stamps.items s.rows.items s.registers.items
        s.journal.items s.held s.quota (vec_capacity s.journal) };
}

impl Solo {
    /// A device with `slots` slots, 1 to [`MAX_SLOTS`], none of which has a key. `rows` has the
    /// register row of each key at the key's number, and the journal has room for `events` events.
    ///
    /// # Errors
    ///
    /// Where there is no memory for them.
    pub fn open(alloc: Global, slots: u16, rows: Vec<Row>, events: u32) -> Result<Solo, AllocError>
        requires some { 1 ≤ slots }
        requires few { slots ≤ MAX_SLOTS }
        requires events { events < MAX_EVENTS }
        ensures { IfOk result (λ solo. solo ≡ opened_solo slots rows.items events) }
    {
        let count = usize::from(slots);
        Ok(Solo {
            rows,
            keys: copies(alloc, None, count)?,
            epochs: copies(alloc, 0, count)?,
            stamps: numbers(alloc, slots)?,
            registers: copies(alloc, CLEARED, count)?,
            journal: Vec::with_capacity(alloc, events as usize)?,
            quota: events,
            held: None,
        })
    }

    /// How many events more the journal has room for.
    pub fn spare(&self) -> u32
        ensures { length self.now.journal + result ≡ self.now.quota }
    {
        self.quota - self.journal.len() as u32
    }

    /// Takes a hold of the key: its slot, and the place in the journal of the event that programmed
    /// the slot with it. Where no slot has the key, the least recently idle slot is programmed with
    /// it first.
    ///
    /// Paired with [`Solo::put`] of the slot, and no other hold is taken before it. The key has a
    /// row, and the journal has room for two events, of which one is kept for the call of `put`.
    pub fn hold(&mut self, key: KeyNo) -> (u16, u32)
        requires free { self.old.held ≡ None }
        requires key { key.0 < length self.old.rows }
        requires spare { HasSpare self.old 2 }
        ensures records { self.new ≡
            solo_with_events self.old (events_of_hold (slots_of self.old) key.0) (Some result.0) }
        ensures slot { result.0 ≡ slot_for (slots_of self.old) key.0 }
        ensures holds { Holds self.new.count self.new.journal key.0 result.0 result.1 }
    {
        if let Some(slot) = slot_with(self.keys.as_slice(), key.0) {
            self.held = Some(slot as u16);
            return (slot as u16, self.epochs[slot]);
        }
        self.program(key)
    }

    /// Programs the least recently idle slot with the key, which no slot has, and holds it.
    fn program(&mut self, key: KeyNo) -> (u16, u32)
        requires free { self.old.held ≡ None }
        requires key { key.0 < length self.old.rows }
        requires nowhere { slot_with (slots_of self.old) key.0 ≡ None }
        requires spare { HasSpare self.old 2 }
        ensures records { self.new ≡
            solo_with_events self.old (events.Program result.0 key.0 [] ∷ []) (Some result.0) }
        ensures slot { result.0 ≡ first_idle (slots_of self.old) }
        ensures holds { Holds self.new.count self.new.journal key.0 result.0 result.1 }
    {
        let slot = least(self.stamps.as_slice());
        let event = self.journal.len() as u32;
        self.keys[slot] = Some(key.0);
        self.epochs[slot] = event;
        self.registers[slot] = self.rows[usize::from(key.0)];
        self.journal.push_reserved(Event::Program {
            slot: slot as u16,
            key: key.0,
            skipped: Skips::new(),
        });
        self.held = Some(slot as u16);
        (slot as u16, event)
    }

    /// What is in the registers of the slot: the row of its key, or zeros where it has none.
    pub fn row(&self, slot: u16) -> Row
        requires { slot < self.now.count }
        ensures { result ≡ row_in self.now slot }
    {
        self.registers[usize::from(slot)]
    }

    /// Gives back the hold of the slot, which is idle from now on and keeps its key.
    pub fn put(&mut self, slot: u16)
        requires { self.old.held ≡ Some slot }
        ensures { self.new ≡ solo_with_events self.old (events.Idle slot ∷ []) None }
    {
        let stamp = (self.keys.len() + self.journal.len()) as u32;
        self.stamps[usize::from(slot)] = stamp;
        self.journal.push_reserved(Event::Idle { slot });
        self.held = None;
    }

    /// Takes the key out of its slot and clears the registers, if a slot has it. No slot is held,
    /// the key has a row, and the journal has room for an event.
    pub fn evict(&mut self, key: KeyNo)
        requires free { self.old.held ≡ None }
        requires key { key.0 < length self.old.rows }
        requires spare { HasSpare self.old 1 }
        ensures records { self.new ≡
            solo_with_events self.old (events_of_eviction (slots_of self.old) key.0) None }
        ensures gone { InNoSlot (slots_of self.new) key.0 }
    {
        if let Some(slot) = slot_with(self.keys.as_slice(), key.0) {
            self.keys[slot] = None;
            self.registers[slot] = CLEARED;
            self.journal.push_reserved(Event::Evict {
                slot: slot as u16,
                key: key.0,
            });
        }
    }

    /// Resets the device: clears the registers of all slots, and programs each slot that has a key
    /// with it again. Slots keep their keys, and stay in the order in which they became idle. No
    /// slot is held, and the journal has room for an event.
    pub fn reset(&mut self)
        requires free { self.old.held ≡ None }
        requires spare { HasSpare self.old 1 }
        ensures { self.new ≡ solo_with_events self.old (events.Reset ∷ []) None }
    {
        program_again(
            self.registers.as_mut_slice(),
            self.keys.as_slice(),
            self.rows.as_slice(),
        );
        self.journal.push_reserved(Event::Reset);
    }

    /// The journal. It is lawful, and at its end all slots are idle where none is held.
    pub fn close(self) -> Vec<Event>
        ensures journal { result.items ≡ self.journal }
        ensures lawful { IsLawful self.count self.journal }
        ensures all_idle { self.held ≡ None → AllIdle self.count self.journal }
    {
        let Solo { journal, .. } = self;
        journal
    }
}
