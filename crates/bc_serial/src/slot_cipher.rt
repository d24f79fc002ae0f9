//! The cipher of a keyslot's registers.

use bc_modes::UnitCipher;
use bc_profile::Row;
use std::marker::Model;

/// What stood in a slot's registers when a hold of it was taken, and the cipher that it means to
/// the device. A key isn't expanded again while the slot has its row.
#[derive(Drop)]
pub(crate) struct SlotCipher {
    pub(crate) words: Row,
    pub(crate) cipher: UnitCipher,
}

impl Model for SlotCipher {
    ghost use Rattle.bc_serial.specs.Keyslots.{SlotCipherData};

    ghost Value = { SlotCipherData };

    ghost view = { λ c. record { words = c.words; parts = c.cipher } };
}
