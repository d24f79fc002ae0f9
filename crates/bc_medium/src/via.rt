//! How a data unit went.

/// How a data unit was enciphered on its way to the medium.
#[derive(Clone, Copy, Debug, PartialEq, Eq)]
pub enum Via {
    /// Not at all: its bio has no key.
    Plain,
    /// By software.
    Soft,
    /// By a device: in this slot, as the event with this number of the device's journal programmed
    /// it.
    Inline { device: u8, slot: u16, event: u32 },
}
