//! Crypto configuration entries: dwords that were laid out by hand, and units that Python's
//! `cryptography` enciphered.
ghost use Rattle.std.specs.Prelude.{◌≡◌};

use crate::tests::{raw_key, text};
use crate::{EntryError, UfsCaps, cipher_of_words, entry_words};
use bc_key::{Caps, Dun, Key, KeyError, Mode};
use sha2::{Digest, Sha256};
use std::alloc::Global;
use std::test::Fail;

fn caps(xts: u8, essiv: u8) -> UfsCaps {
    UfsCaps::of(&Caps {
        xts,
        essiv,
        max_dun_bytes: 8,
    })
}

fn key(mode: Mode, unit: u32) -> Result<Key, KeyError> {
    let raw = raw_key(mode);
    let size = mode.key_size().min(64);
    Key::new(mode, &raw[..size], unit, 8)
}

/// Dwords 0, 3, 4, 15, 16 and 17 of a key's entry, if it has one.
fn dwords(mode: Mode, unit: u32, caps: &UfsCaps) -> Result<Option<[u32; 6]>, KeyError> {
    Ok(match entry_words(&key(mode, unit)?, caps) {
        Some(words) => Some([
            words[0], words[3], words[4], words[15], words[16], words[17],
        ]),
        None => None,
    })
}

#[test]
fn entries_of_keys(rt: HostRuntime) -> Result<(), Fail> {
    let xts = Mode::Aes256Xts;
    let essiv = Mode::Aes128CbcEssiv;
    let front = [0x03020100, 0x0f0e0d0c, 0x13121110, 0x3f3e3d3c];
    let short = [0x83828180, 0x8f8e8d8c, 0, 0];
    let cases = [
        (xts, 4096, (8, 0), front, Some(0x80000008)),
        (xts, 512, (15, 15), front, Some(0x80000001)),
        (xts, 2048, (8, 15), front, None),
        (xts, 1024, (0, 15), front, None),
        (essiv, 1024, (4, 2), short, Some(0x80000102)),
        (essiv, 2048, (0, 4), short, Some(0x80000004)),
        (essiv, 4096, (15, 7), short, None),
        (essiv, 512, (15, 0), short, None),
    ];
    for (mode, unit, masks, [a, b, c, d], last) in cases {
        let expected = match last {
            Some(dword) => Some([a, b, c, d, dword, 0]),
            None => None,
        };
        assert_eq!(rt; dwords(mode, unit, &caps(masks.0, masks.1))?, expected);
    }
    Ok(())
}

/// Why an entry with this dword 16 isn't read, by a controller that has XTS with data units of 4096
/// bytes.
fn error_of(dword: u32) -> Option<EntryError> {
    let mut words = [0xffffffff; 18];
    words[16] = dword;
    match cipher_of_words(&words, &caps(8, 0)) {
        Ok(_) => None,
        Err(error) => Some(error),
    }
}

/// Each error alone, and two and three at once; the reserved bits may be anything.
#[test]
fn errors_in_order(rt: HostRuntime) {
    let cases = [
        (0x80000008, None),
        (0xffff0008, None),
        (0x00000008, Some(EntryError::Disabled)),
        (0x80000108, Some(EntryError::BadCapability)),
        (0x80000001, Some(EntryError::BadUnitSize)),
        (0x80000003, Some(EntryError::BadUnitSize)),
        (0x7fffff03, Some(EntryError::Disabled)),
        (0x8000ff03, Some(EntryError::BadCapability)),
    ];
    for (dword, error) in cases {
        assert_eq!(rt; error_of(dword), error);
    }
}

/// The digest of a data unit that is enciphered by the cipher which the key's entry means.
fn enciphered_by_entry(
    alloc: Global,
    mode: Mode,
    bytes: u32,
    caps: &UfsCaps,
) -> Result<String, Fail> {
    let key = key(mode, bytes)?;
    let mut text = text(alloc, key.config().unit)?;
    if let Some(words) = entry_words(&key, caps) {
        if let Ok(cipher) = cipher_of_words(&words, caps) {
            cipher.encrypt(&Dun::from_words([0; 4]), text.as_mut_slice());
        }
    }
    Ok(hex::encode(alloc, Sha256::digest(text.as_slice()))?)
}

#[test]
fn ciphers_of_entries(rt: HostRuntime) -> Result<(), Fail> {
    let cases = [
        (
            Mode::Aes256Xts,
            4096,
            "64c40c7bc10a8cd83c87d99d173b94ca5010e76f73e85062108b7a187f485bb8",
        ),
        (
            Mode::Aes128CbcEssiv,
            512,
            "447edf0891104f2a4427f32e86f1c8d99151ad72e960025a29f921da30c88940",
        ),
    ];
    for (mode, bytes, digest) in cases {
        let found = enciphered_by_entry(rt.alloc(), mode, bytes, &caps(8, 1))?;
        assert_eq!(rt; found.as_str(), digest);
    }
    Ok(())
}

/// A mode without data units has no capability, and a controller asks for number bytes too.
#[test]
fn capabilities_of_controllers(rt: HostRuntime) -> Result<(), Fail> {
    let both = caps(8, 1);
    let [first, second] = both.capabilities() else {
        return Ok(assert!(rt; false));
    };
    assert_eq!(rt;
        [first.algorithm_id(), first.units, first.key_size_code()],
        [0, 8, 3]
    );
    assert_eq!(rt;
        [second.algorithm_id(), second.units, second.key_size_code()],
        [3, 1, 1]
    );
    assert_eq!(rt; caps(0, 1).capabilities(), [*second].as_slice());
    let raw = raw_key(Mode::Aes256Xts);
    for (dun_bytes, supported) in [(8, true), (9, false)] {
        let config = Key::new(Mode::Aes256Xts, &raw, 4096, dun_bytes)?.config();
        assert_eq!(rt; both.supports(&config), supported);
    }
    Ok(())
}
