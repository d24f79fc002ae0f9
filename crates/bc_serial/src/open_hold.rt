//! A hold of a keyslot that is open.

/// A hold that was taken of a key on a device and not given back yet: its slot, and the place in
/// the device's journal of the event that programmed the slot with the key.
#[derive(Clone, Copy, Debug)]
pub(crate) struct OpenHold {
    pub(crate) device: u8,
    pub(crate) key: u16,
    pub(crate) slot: u16,
    pub(crate) event: u32,
}
