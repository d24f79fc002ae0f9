//! The geometry of a disk: sectors and blocks.

/// How many bytes a sector has. Disks, bios and data units are counted in sectors.
pub const SECTOR_BYTES: usize = 512;

/// How many sectors a block has. A block lies whole in one shard of the disk.
pub const BLOCK_SECTORS: u32 = 8;

/// How many bytes a block has. A disk is a whole number of blocks.
pub const BLOCK_BYTES: usize = SECTOR_BYTES * BLOCK_SECTORS as usize;
