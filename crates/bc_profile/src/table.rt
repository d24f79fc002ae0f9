//! The slots of a device that has many callers, as a plain value.
ghost use Rattle.std.specs.Prelude.{◌≡◌, ◌<◌, ◌≤◌, ◌==◌, length, IfOk, IsSome};
ghost use Rattle.std.specs.List.{list_all};
ghost use Rattle.bc_profile.specs.declared.limits.TheConstants.{MAX_SLOTS};
ghost use Rattle.bc_profile.specs.SlotJournal.{without, key_of};
ghost use Rattle.bc_profile.specs.SlotTable.{TakesSlot, GivesBack, TableEmpties, new_table, one_more, refs_of};

use crate::lists::copies;
use crate::search::{first_free, slot_with};
use crate::{MAX_SLOTS, Skips};
use arrayvec::ArrayVec;
use std::alloc::{AllocError, Global};
use std::marker::Model;

/// The slots of a device, and how many references each has.
#[derive(Drop)]
pub(crate) struct SlotTable {
    /// The key of each slot.
    keys: Vec<Option<u16>>,
    /// The idle slots, and those that got a hold while they were idle; the least recently idle one
    /// first.
    list: ArrayVec<u16, MAX_SLOTS>,
    /// The references of each slot.
    refs: Vec<u16>,
}

impl Model for SlotTable {
    ghost use Rattle.bc_profile.specs.SlotTable.{TableData, IsTable};

    ghost Value = { TableData };

    ghost view = { λ t. record { slots = record { keys = t.keys.items; list = t.list.items }; refs = t.refs.items } };

    ghost invariant = { λ t. IsTable (record { keys = t.keys.items; list = t.list.items }) t.refs.items };
}

/// How a hold was taken.
#[derive(Drop)]
pub(crate) enum Took {
    /// Of the slot that has the key.
    Found(u16),
    /// Of this slot, which was programmed with the key; those before it in the idle order are held.
    Programmed(u16, Skips),
    /// Not at all: no slot has the key, and each is held.
    None,
}

/// How a key was taken out.
#[derive(Drop)]
pub(crate) enum Emptied {
    /// No slot has it.
    Nowhere,
    /// Not at all: its slot has so many references.
    Held(u16, u16),
    /// Of this slot.
    Taken(u16),
}

/// Takes a slot off the list.
fn take_off(list: &mut ArrayVec<u16, MAX_SLOTS>, slot: u16)
    ensures { list.new.items ≡ without slot list.old.items }
{
    list.retain(|other| *other != slot)
}

/// One reference more, as far as they can be counted.
fn counted(refs: u16) -> u16
    ensures { result ≡ one_more refs }
{
    if refs == u16::MAX { refs } else { refs + 1 }
}

impl SlotTable {
    /// So many slots, all idle and without a key, 1 to [`MAX_SLOTS`].
    pub(crate) fn open(alloc: Global, slots: u16) -> Result<SlotTable, AllocError>
        requires few { slots ≤ MAX_SLOTS }
        ensures { IfOk result (λ table. table ≡ new_table slots) }
    {
        let mut list = ArrayVec::new();
        for slot in 0..slots {
            list.push(slot);
        }
        let count = slots as usize;
        Ok(SlotTable {
            keys: copies(alloc, None, count)?,
            list,
            refs: copies(alloc, 0, count)?,
        })
    }

    /// How many slots there are.
    pub(crate) fn count(&self) -> usize
        ensures count { result ≡ length self.now.slots.keys }
        ensures few { result ≤ MAX_SLOTS }
    {
        self.keys.len()
    }

    /// The key of a slot, which is there where the slot is held.
    pub(crate) fn key(&self, slot: usize) -> Option<u16>
        requires { slot < length self.now.slots.keys }
        ensures key { result ≡ key_of self.now.slots slot }
        ensures held { 1 ≤ refs_of self.now.refs slot → IsSome result }
    {
        self.keys[slot]
    }

    /// How many references a slot has.
    pub(crate) fn refs(&self, slot: usize) -> u16
        requires { slot < length self.now.slots.keys }
        ensures { result ≡ refs_of self.now.refs slot }
    {
        self.refs[slot]
    }

    /// Whether no slot is held.
    pub(crate) fn is_idle(&self) -> bool
        ensures { result ≡ list_all (λ refs. refs == 0) self.now.refs }
    {
        self.refs.iter().all(|refs| *refs == 0)
    }

    /// Takes a hold of the key.
    pub(crate) fn take_hold(&mut self, key: u16) -> Took
        ensures { TakesSlot self.old self.new key result }
    {
        if let Some(slot) = slot_with(self.keys.as_slice(), key) {
            self.refs[slot] = counted(self.refs[slot]);
            return Took::Found(slot as u16);
        }
        let Some((slot, skipped)) = first_free(self.list.as_slice(), self.refs.as_slice()) else {
            return Took::None;
        };
        self.keys[slot as usize] = Some(key);
        take_off(&mut self.list, slot);
        self.refs[slot as usize] = 1;
        Took::Programmed(slot, skipped)
    }

    /// Gives a hold of the slot back, and tells whether it is idle now.
    pub(crate) fn give_back(&mut self, slot: u16) -> bool
        requires { slot < length self.old.slots.keys }
        ensures { GivesBack self.old self.new slot result }
    {
        let refs = self.refs[slot as usize];
        if refs > 1 {
            self.refs[slot as usize] = refs - 1;
            return false;
        }
        self.refs[slot as usize] = 0;
        take_off(&mut self.list, slot);
        self.list.push(slot);
        true
    }

    /// Takes the key out of its slot, unless that one is held.
    pub(crate) fn take_out(&mut self, key: u16) -> Emptied
        ensures { TableEmpties self.old self.new key result }
    {
        let Some(slot) = slot_with(self.keys.as_slice(), key) else {
            return Emptied::Nowhere;
        };
        let refs = self.refs[slot];
        if refs > 0 {
            return Emptied::Held(slot as u16, refs);
        }
        self.keys[slot] = None;
        Emptied::Taken(slot as u16)
    }
}
