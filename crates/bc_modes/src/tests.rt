//! Vectors from outside: IEEE 1619, and units that Python's `cryptography` enciphered.
ghost use Rattle.std.specs.Prelude.{◌≡◌, length, IfOk};
ghost use Rattle.bc_key.specs.DataUnits.{bytes_of};

use crate::tweak::next_tweak;
use crate::{UnitCipher, unit_laws};
use bc_key::{DataUnit, Dun, Key, Mode};
use sha2::{Digest, Sha256};
use std::alloc::{AllocError, Global};
use std::test::Fail;

const ZERO: [u64; 4] = [0; 4];

const WORDS: [u64; 4] = [
    0x0102030405060708,
    0x1112131415161718,
    0x2122232425262728,
    0x3132333435363738,
];

/// The last number of 128 bits.
const TOP: [u64; 4] = [u64::MAX, u64::MAX, 0, 0];

/// XTS: the bytes 00 to 3f. ESSIV: the bytes 80 to 8f, and after them bytes that aren't used.
pub(crate) fn raw_key(mode: Mode) -> [u8; 64] {
    let mut raw = [0xee; 64];
    match mode {
        Mode::Aes256Xts => {
            for i in 0..64 {
                raw[i] = i as u8;
            }
        }
        Mode::Aes128CbcEssiv => {
            for i in 0..16 {
                raw[i] = 0x80 + i as u8;
            }
        }
    }
    raw
}

/// Byte i is the lowest byte of 31·i / 8.
pub(crate) fn text(alloc: Global, unit: DataUnit) -> Result<Vec<u8>, AllocError>
    ensures { IfOk result (λ text. length text.items ≡ bytes_of unit) }
{
    let mut text = vec![in alloc; 0u8; unit.bytes() as usize]?;
    let mut product = 0u32;
    for byte in text.as_mut_slice().iter_mut() {
        *byte = (product >> 3 & 0xff) as u8;
        product = product.wrapping_add(31);
    }
    Ok(text)
}

/// The digest of the text, enciphered.
fn enciphered(
    alloc: Global,
    mode: Mode,
    unit: DataUnit,
    words: [u64; 4],
) -> Result<String, AllocError> {
    let cipher = UnitCipher::of_parts(mode, unit, &raw_key(mode));
    let mut text = text(alloc, unit)?;
    cipher.encrypt(&Dun::from_words(words), text.as_mut_slice());
    hex::encode(alloc, Sha256::digest(text.as_slice()))
}

#[test]
fn tweaks_double(rt: HostRuntime) {
    for (tweak, next) in [(0x01, 0x02), (0x80 << 120, 0x87), (0x80, 0x0100)] {
        assert_eq!(rt; next_tweak(tweak), next);
    }
}

/// Vector 10 of IEEE 1619, annex B.
#[test]
fn standard_vector(rt: HostRuntime) -> Result<(), Fail> {
    let alloc = rt.alloc();
    let digits =
        "27182818284590452353602874713526624977572470936999595749669676273141592653589793238462643383279502884197169399375105820974944592";
    let mut raw = [0; 64];
    hex::decode_to_slice(digits, &mut raw)?;
    let mut text = [0; 512];
    for i in 0..512 {
        text[i] = (i % 256) as u8;
    }
    let cipher = UnitCipher::of_parts(Mode::Aes256Xts, DataUnit::Bytes512, &raw);
    cipher.encrypt(&Dun::from_words([0xff, 0, 0, 0]), &mut text);
    assert_eq!(rt;
        hex::encode(alloc, &text[..16])?.as_str(),
        "1c3b3a102f770386e4836c99e370cf9b"
    );
    assert_eq!(rt;
        hex::encode(alloc, Sha256::digest(text.as_slice()))?.as_str(),
        "e97e974fa393af794f7a4684395814cf820de60a01eaec677d87b452e316b364"
    );
    Ok(())
}

#[test]
fn xts_units(rt: HostRuntime) -> Result<(), Fail> {
    let cases = [
        (
            DataUnit::Bytes512,
            ZERO,
            "8baa99afad7a2cea7b03eec0bacda8af8bf0d5c661f1e0572ff18e8297fef6e3",
        ),
        (
            DataUnit::Bytes512,
            WORDS,
            "58ec16e108028183b44f293cb12b7c4eb85a9b785e877f33cbcf61947d27f7dc",
        ),
        (
            DataUnit::Bytes512,
            TOP,
            "19a157157b8e9c9cb9b2a21a1f3a7c288e43a19ae36c602a65ae3444d5a969e4",
        ),
        (
            DataUnit::Bytes1024,
            WORDS,
            "fd0ba6832e07d5ae5db8879cac9c4b2f68b8438f7237750088e4aa1036e613dc",
        ),
        (
            DataUnit::Bytes2048,
            WORDS,
            "460d2a1f9fbac725a08ebd7c1ce393baa0316db9ef5b7a1a52325c26877fda76",
        ),
        (
            DataUnit::Bytes4096,
            ZERO,
            "64c40c7bc10a8cd83c87d99d173b94ca5010e76f73e85062108b7a187f485bb8",
        ),
        (
            DataUnit::Bytes4096,
            WORDS,
            "43bcea6f1c6907197a36229132be94168ba3b786e01af6af062e356a4ba3ee73",
        ),
        (
            DataUnit::Bytes4096,
            TOP,
            "7047898ea73cbd1b1d8a6b629fa6ce443b7c29735cddd5abab4340bd597b13e0",
        ),
    ];
    for (unit, words, digest) in cases {
        let found = enciphered(rt.alloc(), Mode::Aes256Xts, unit, words)?;
        assert_eq!(rt; found.as_str(), digest);
    }
    Ok(())
}

#[test]
fn essiv_units(rt: HostRuntime) -> Result<(), Fail> {
    let cases = [
        (
            DataUnit::Bytes512,
            ZERO,
            "447edf0891104f2a4427f32e86f1c8d99151ad72e960025a29f921da30c88940",
        ),
        (
            DataUnit::Bytes512,
            WORDS,
            "65a960fb22a718534ea6ab7dc76f9f097ec1c57afd3be37bb6e2fa06f46be798",
        ),
        (
            DataUnit::Bytes512,
            TOP,
            "ebce98662bb4895d833227237b6448947231f2523905a260254f156c2944d1f7",
        ),
        (
            DataUnit::Bytes1024,
            WORDS,
            "c67162087594b0a9fee02da5732ef9b4386b15d6b9179e441a9e59ed13ce838b",
        ),
        (
            DataUnit::Bytes2048,
            WORDS,
            "b85101c0ad312a9e232bb087f94491a2345cfdbdf86af9a84ee4f9acf9354487",
        ),
        (
            DataUnit::Bytes4096,
            ZERO,
            "076e2e3f015633ada4707adeddee2c47fc4c9907d50e4c05b68b65db23861bc7",
        ),
        (
            DataUnit::Bytes4096,
            WORDS,
            "9198d8fe7cb4556cc9312a7388b10ca7708ee299106297372989960d144d3107",
        ),
        (
            DataUnit::Bytes4096,
            TOP,
            "a923ac606bccf0251ad1b9ef52a1e37ac6f7785f7af379e0a7f6f67f36a31d88",
        ),
    ];
    for (unit, words, digest) in cases {
        let found = enciphered(rt.alloc(), Mode::Aes128CbcEssiv, unit, words)?;
        assert_eq!(rt; found.as_str(), digest);
    }
    Ok(())
}

/// There by the cipher of the parts, and back by the cipher of the key.
#[test]
fn units_come_back(rt: HostRuntime) -> Result<(), Fail> {
    let alloc = rt.alloc();
    unit_laws();
    for mode in [Mode::Aes256Xts, Mode::Aes128CbcEssiv] {
        for bytes in [512, 1024, 2048, 4096] {
            let raw = raw_key(mode);
            let size = mode.key_size().min(64);
            let key = Key::new(mode, &raw[..size], bytes, 16)?;
            let unit = key.config().unit;
            let dun = Dun::from_words(WORDS);
            let mut unit_text = text(alloc, unit)?;
            UnitCipher::of_parts(mode, unit, &raw).encrypt(&dun, unit_text.as_mut_slice());
            assert!(rt; unit_text.as_slice() != text(alloc, unit)?.as_slice());
            UnitCipher::of_key(&key).decrypt(&dun, unit_text.as_mut_slice());
            assert!(rt; unit_text.as_slice() == text(alloc, unit)?.as_slice());
        }
    }
    Ok(())
}
