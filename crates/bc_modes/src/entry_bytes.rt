//! The 72 bytes of a crypto configuration entry, and its 18 dwords.
ghost use Rattle.std.specs.Prelude.{◌≡◌};
ghost use Rattle.bc_modes.specs.Entries.{bytes_of_words, entry_bytes, settings, words_of_bytes};

use bc_key::{DataUnit, Key};

/// How many dwords of an entry are kept.
pub const ENTRY_WORDS: usize = 18;

/// How many bytes they are.
pub(crate) const ENTRY_BYTES: usize = 72;

/// How many of these are for the key.
pub(crate) const KEY_BYTES: usize = 64;

/// Where the data unit's size stands, in sectors.
pub(crate) const UNIT_BYTE: usize = 64;

/// Where the capability index stands.
pub(crate) const CAPABILITY_BYTE: usize = 65;

/// Where the bit stands that enables the entry.
pub(crate) const ENABLE_BYTE: usize = 67;

/// That bit.
pub(crate) const ENABLED: u8 = 0x80;

/// The bytes of the entry of a key, under a capability index.
pub(crate) fn entry_bytes(key: &Key, index: u8) -> [u8; ENTRY_BYTES]
    ensures { result ≡ entry_bytes key.now index }
{
    let raw = key.raw();
    let mut bytes = [0; ENTRY_BYTES];
    bytes[..raw.len()].copy_from_slice(raw);
    bytes[KEY_BYTES..].copy_from_slice(&settings(key.config().unit, index));
    bytes
}

/// The bytes after the key.
fn settings(unit: DataUnit, index: u8) -> [u8; 8]
    ensures { result ≡ settings unit index }
{
    [unit.sectors() as u8, index, 0, ENABLED, 0, 0, 0, 0]
}

/// The dwords of an entry's bytes.
pub(crate) fn words_of_bytes(bytes: &[u8; ENTRY_BYTES]) -> [u32; ENTRY_WORDS]
    ensures { result ≡ words_of_bytes bytes.now }
{
    let (chunks, _) = bytes.as_chunks::<4>();
    let mut words = [0; ENTRY_WORDS];
    for i in 0..ENTRY_WORDS {
        words[i] = u32::from_le_bytes(chunks[i]);
    }
    words
}

/// The bytes of an entry's dwords.
pub(crate) fn bytes_of_words(words: &[u32; ENTRY_WORDS]) -> [u8; ENTRY_BYTES]
    ensures { result ≡ bytes_of_words words.now }
{
    let mut bytes = [0; ENTRY_BYTES];
    for i in 0..ENTRY_WORDS {
        bytes[4 * i..4 * i + 4].copy_from_slice(&words[i].to_le_bytes());
    }
    bytes
}
