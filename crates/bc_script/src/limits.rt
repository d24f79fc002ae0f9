//! The limits of the script language, and of what a script is carried out with.

/// The most bytes of a script's text: 16 MiB.
pub const MAX_TEXT: u64 = 16777216;

/// The most blocks of a disk, which has one at least.
pub const MAX_BLOCKS: u32 = 16384;

/// The last block that a disk may have, from 0.
pub const LAST_BLOCK: u32 = MAX_BLOCKS - 1;

/// The most devices of a script.
pub const MAX_DEVICES: usize = bc_stack::MAX_DEVICES;

/// The most keyslots of a device.
pub const MAX_SLOTS: usize = 32;

/// The greatest mask of data unit sizes, which has a bit for each of 512, 1024, 2048 and 4096
/// bytes.
pub const MAX_UNIT_MASK: u32 = 15;

/// The most bytes that a device takes of a data unit's number.
pub const MAX_DEVICE_DUN_BYTES: u32 = 8;

/// The most keys of a script.
pub const MAX_KEYS: usize = bc_key::MAX_KEYS as usize;

/// The most bytes of a key's name.
pub const MAX_NAME: usize = 16;

/// The most bytes of a key that are read. A key has 16 or 64, and one with another number of bytes
/// is refused as a key.
pub const MAX_KEY_BYTES: usize = 128;

/// The most fault lines of a script.
pub const MAX_FAULTS: usize = 1024;

/// The most shards of a disk, which has one at least.
pub const MAX_SHARDS: usize = 64;

/// The last shard that a disk may have, from 0.
pub const LAST_SHARD: u32 = MAX_SHARDS as u32 - 1;

/// The last place in a shard's order at which a fault may be planned, from 0. No shard's order has
/// more places, since all bios together have at most as many data units.
pub const LAST_ACCESS: u32 = MAX_UNITS - 1;

/// The most sections of a script.
pub const MAX_THREADS: usize = 16;

/// The most operations of all sections together.
pub const MAX_OPS: u32 = 65536;

/// The most pairs of a write and a read that each thread of a generated script has: 2048. All
/// threads together then have as many operations as a script may have.
pub const MAX_GENERATED: u32 = MAX_OPS / (2 * MAX_THREADS as u32);

/// The most data units of all bios together.
pub const MAX_UNITS: u32 = 65536;

/// The most data units of a bio.
pub const MAX_BIO_UNITS: u32 = 256;

/// The most sectors of a bio, in all its data units together.
pub const MAX_BIO_SECTORS: u32 = 256;

/// The most bios that a plug holds.
pub const MAX_PLUGGED: usize = 64;
