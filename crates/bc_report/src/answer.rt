//! What an operation was answered.

use bc_bio::Refusal;

/// What an operation was answered.
#[derive(Clone, Copy, Debug, PartialEq, Eq)]
pub enum Answer {
    /// The bytes were written.
    Wrote,
    /// All bytes that were read are this one.
    ReadFill(u8),
    /// SHA-256 of the bytes that were read, which aren't all equal.
    ReadSum([u8; 32]),
    /// The data unit with this number, from 0, met a fault.
    Fault(u32),
    /// The bio was refused.
    Refused(Refusal),
    /// The key is in no keyslot.
    Evicted,
    /// The key is still in use: so many references were found on this slot of this device, the
    /// first that refused.
    Busy { device: u8, slot: u16, refs: u16 },
    /// The device's keyslots were programmed again.
    Reset,
    /// A plug was opened.
    Plug,
    /// The plug was closed.
    Unplug,
}
