//! What a keyslot manager records.

use crate::Skips;

/// One event of a device's journal. Slots and keys go by number.
#[derive(Debug, Drop, PartialEq, Eq)]
pub enum Event {
    /// The slot was programmed with the key, and the skipped slots were passed over.
    Program { slot: u16, key: u16, skipped: Skips },
    /// The last reference of the slot was given back.
    Idle { slot: u16 },
    /// The key was taken out of the slot.
    Evict { slot: u16, key: u16 },
    /// An eviction of the key found references on its slot, which keeps it.
    Busy { slot: u16, key: u16, refs: u16 },
    /// All slots were programmed again.
    Reset,
}
