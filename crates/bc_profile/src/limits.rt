//! How much there is of a device.

/// A device has at most so many slots.
pub const MAX_SLOTS: usize = 32;

/// A slot has so many registers, and the register row of a key so many words.
pub const ROW_WORDS: usize = 18;

/// A journal has fewer events.
pub const MAX_EVENTS: u32 = 1_073_741_824;
