//! Holds of keys.
ghost use Rattle.std.specs.Prelude.{◌≡◌, ◌<◌, slice_index_or};

use crate::Row;
use bc_key::KeyNo;
use std::marker::Model;

/// A hold of a key: the slot that has it while the hold is there, and the place in the story of the
/// event that programmed the slot with it. A pass has one hold at most.
#[derive(Debug, Drop)]
pub struct Hold {
    slot: u16,
    key: u16,
    epoch: u32,
    /// The register row of the key.
    row: Row,
}

impl Model for Hold {
    ghost use Rattle.bc_profile.specs.Passes.{HoldFacts};

    ghost Value = { HoldFacts };

    ghost view = { λ h. record { slot = h.slot; key = h.key; epoch = h.epoch; row = h.row } };
}

impl Hold {
    /// Of these.
    pub(crate) fn new(slot: u16, key: u16, epoch: u32, row: Row) -> Hold
        ensures { result ≡ record { slot = slot; key = key; epoch = epoch; row = row } }
    {
        Hold {
            slot,
            key,
            epoch,
            row,
        }
    }

    /// The slot.
    pub fn slot(&self) -> u16
        ensures { result ≡ self.now.slot }
    {
        self.slot
    }

    /// The key.
    pub fn key(&self) -> KeyNo
        ensures { result.0 ≡ self.now.key }
    {
        KeyNo(self.key)
    }

    /// The place in the story of the event that programmed the slot with the key.
    pub fn epoch(&self) -> u32
        ensures { result ≡ self.now.epoch }
    {
        self.epoch
    }

    /// A register of the key's row.
    pub(crate) fn register(&self, register: u8) -> u32
        requires { register < 18 }
        ensures { result ≡ slice_index_or self.now.row register 0 }
    {
        self.row[register as usize]
    }

    /// The same hold, which a pass keeps to itself.
    pub(crate) fn again(&self) -> Hold
        ensures { result ≡ self.now }
    {
        Hold::new(self.slot, self.key, self.epoch, self.row)
    }
}
