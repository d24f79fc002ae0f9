//! Crypto configuration entries: a key as a controller's registers hold it, and the unit cipher
//! that they mean.
//!
//! A keyslot of a controller has an entry, of which the dwords 0 to 17 are kept. Whoever programs a
//! slot with a key makes the key's entry by [`entry_words`]; the controller then enciphers by what
//! stands in the registers, as [`cipher_of_words`] reads them. Nobody else makes or reads one.
ghost use Rattle.std.specs.Prelude.{◌≡◌, ◌↔◌, IfSome, IsSome, IsTrue, Ok, Err};
ghost use Rattle.bc_modes.specs.declared.entry.EntryError.TheVariants as errors;
ghost use Rattle.bc_modes.specs.Capabilities.{is_supported};
ghost use Rattle.bc_modes.specs.Entries.{entry_words, read_bytes, read_words, IsDisabled, HasBadCapability, HasBadUnitSize};
ghost use Rattle.bc_modes.specs.UnitCipher.{parts_of};

use crate::entry_bytes::{
    CAPABILITY_BYTE, ENABLE_BYTE, ENABLED, ENTRY_BYTES, ENTRY_WORDS, KEY_BYTES, UNIT_BYTE,
    bytes_of_words, entry_bytes, words_of_bytes,
};
use crate::{UfsCaps, UnitCipher};
use bc_key::Key;
use thiserror::Error;

/// Why an entry means no cipher, in the order of the tests of [`cipher_of_words`]: the first that
/// fails is answered.
#[derive(Clone, Copy, Debug, PartialEq, Eq, Error)]
pub enum EntryError {
    /// Bit 31 of dword 16 isn't set.
    #[error("the entry isn't enabled")]
    Disabled,
    /// The controller has no capability at the entry's index.
    #[error("the controller has no capability at the entry's index")]
    BadCapability,
    /// No data unit has the entry's size, or the capability doesn't have it.
    #[error("the entry's capability has no data unit of the entry's size")]
    BadUnitSize,
}

/// The entry of a key for a controller with these capabilities: its dwords 0 to 17. `None` where no
/// capability is of the key's mode and has its data unit; a key that the controller supports has an
/// entry. The index of the first such capability stands in it.
pub fn entry_words(key: &Key, caps: &UfsCaps) -> Option<[u32; ENTRY_WORDS]>
    ensures words { result ≡ entry_words key.now caps.now }
    ensures supported { IsTrue (is_supported caps.now key.now.config) → IsSome result }
    ensures reads_back { IfSome result (λ words. read_words words caps.now ≡ Ok (parts_of key.now)) }
{
    let config = key.config();
    let Some(index) = caps.index_for(config.mode, config.unit) else {
        return None;
    };
    Some(words_of_bytes(&entry_bytes(key, index)))
}

/// The unit cipher that an entry means to a controller with these capabilities: of its capability's
/// mode, its data unit's size and its key.
///
/// # Errors
///
/// The first that applies: `Disabled` where bit 31 of dword 16 isn't set, `BadCapability` where the
/// capability index is past the capabilities, `BadUnitSize` where byte 64 is none of 1, 2, 4 and 8
/// or the capability doesn't have that data unit.
pub fn cipher_of_words(words: &[u32; ENTRY_WORDS], caps: &UfsCaps) -> Result<UnitCipher, EntryError>
    ensures reads { result ≡ read_words words.now caps.now }
    ensures disabled { (result ≡ Err errors.Disabled) ↔ IsDisabled words.now }
    ensures bad_capability { (result ≡ Err errors.BadCapability) ↔ HasBadCapability words.now caps.now }
    ensures bad_unit_size { (result ≡ Err errors.BadUnitSize) ↔ HasBadUnitSize words.now caps.now }
{
    cipher_of_bytes(&bytes_of_words(words), caps)
}

/// The unit cipher that an entry's bytes mean, or the first test that fails.
fn cipher_of_bytes(bytes: &[u8; ENTRY_BYTES], caps: &UfsCaps) -> Result<UnitCipher, EntryError>
    ensures { result ≡ read_bytes bytes.now caps.now }
{
    if bytes[ENABLE_BYTE] & ENABLED == 0 {
        return Err(EntryError::Disabled);
    }
    let Some(capability) = caps.capability(bytes[CAPABILITY_BYTE]) else {
        return Err(EntryError::BadCapability);
    };
    let Some(unit) = capability.served_unit(bytes[UNIT_BYTE]) else {
        return Err(EntryError::BadUnitSize);
    };
    let mut raw = [0; KEY_BYTES];
    raw.copy_from_slice(&bytes[..KEY_BYTES]);
    Ok(UnitCipher::of_parts(capability.mode, unit, &raw))
}
