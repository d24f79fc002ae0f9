//! Data units, written to the shards of a disk and read from them, one at a time.

ghost use Rattle.std.specs.Prelude.{◌≡◌, ◌*◌, ◌/◌, List, length};
ghost use Rattle.bc_base.specs.RamStores.{owns};
ghost use Rattle.bc_key.specs.KeyData.{KeyData};
ghost use Rattle.bc_bio.specs.Extent.{unit_sectors};
ghost use Rattle.bc_bio.specs.Conditions.{HasKey};
ghost use Rattle.bc_medium.specs.KeyedDisk.{enciphered, deciphered};
ghost use Rattle.bc_medium.specs.Shards.{HaveKeys, Own, HasSpare};
ghost use Rattle.bc_serial.specs.Standing.{Attempted, entry_of_write, answer_of_write, entry_of_read};
ghost use Rattle.bc_serial.specs.Standing.{answer_of_read};

use bc_base::RamStore;
use bc_key::Keys;
use bc_medium::{Shards, UnitAt, Via};

/// Writes a data unit, whose bytes in the clear are `plain` and enciphered `cipher`. Tells whether
/// it met no fault.
pub(crate) fn write_unit(
    shards: &mut Shards<RamStore>,
    keys: &Keys,
    at: UnitAt,
    via: Via,
    plain: Vec<u8>,
    cipher: &[u8],
) -> bool
    requires key { HasKey keys.now.keys at.context }
    requires keys { HaveKeys keys.now.keys shards.old }
    requires length { length plain.items ≡ 512 * unit_sectors keys.now.keys at.context }
    requires whole { length cipher.now ≡ 512 * unit_sectors keys.now.keys at.context }
    requires cipher { cipher.now ≡ enciphered keys.now.keys at.context plain.items }
    requires sectors { Own owns shards.old at.sector (unit_sectors keys.now.keys at.context) }
    requires spare { HasSpare shards.old at.sector }
    ensures { Attempted keys.now.keys shards.old shards.new (entry_of_write at via plain.items result)
        (answer_of_write result) }
{
    match shards.write_unit(keys, at, via, plain, cipher) {
        Ok(_) => return true,
        Err(_) => return false,
    }
}

/// Reads a data unit as it stands. Tells whether it met no fault; where it met one the bytes of the
/// place mean nothing.
pub(crate) fn read_unit(
    shards: &mut Shards<RamStore>,
    at: &UnitAt,
    via: Via,
    place: &mut [u8],
) -> bool
    requires whole { length place.old ≡ 512 * (length place.old / 512) }
    requires sectors { Own owns shards.old at.now.sector (length place.old / 512) }
    requires spare { HasSpare shards.old at.now.sector }
    ensures length { length place.new ≡ length place.old }
    ensures attempted { (keys : List KeyData) → HaveKeys keys shards.old
        → length place.old ≡ 512 * unit_sectors keys at.now.context
        → Attempted keys shards.old shards.new (entry_of_read at.now via result)
        (answer_of_read (deciphered keys at.now.context place.new) result) }
{
    match shards.read_unit(*at, via, place) {
        Ok(_) => return true,
        Err(_) => return false,
    }
}
