//! One device of a stack.
ghost use Rattle.std.specs.Prelude.{◌≡◌};
ghost use Rattle.bc_stack.specs.Devices.{has_sector};

use bc_base::BLOCK_SECTORS;
use bc_key::Caps;

/// A device of a stack: the blocks that it has, its keyslots, and what it supports.
#[derive(Clone, Copy, Debug, PartialEq, Eq)]
pub struct Target {
    /// Its first block, in blocks of 4096 bytes of the whole disk.
    pub first: u32,
    /// How many blocks it has.
    pub blocks: u32,
    /// How many keyslots it has.
    pub slots: u16,
    pub caps: Caps,
}

impl Target {
    /// Whether this sector of the disk lies on the device.
    pub(crate) fn has_sector(&self, sector: u32) -> bool
        ensures { result ≡ has_sector sector self.now }
    {
        let block = sector / BLOCK_SECTORS;
        self.first <= block && block - self.first < self.blocks
    }
}
