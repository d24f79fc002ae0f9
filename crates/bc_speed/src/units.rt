//! Many data units, one after the other: unit i has the number i.
ghost use Rattle.std.specs.Prelude.{◌≡◌, ◌*◌, length, IfOk};
ghost use Rattle.bc_key.specs.DataUnits.{bytes_of};
ghost use Rattle.bc_speed.specs.Units.{each_unit, text_byte, texts_of, unit_digest, cipher_of_unit};

use crate::direction::Direction;
use bc_key::Dun;
use bc_modes::UnitCipher;
use sha2::{Digest, Sha256};
use std::alloc::{AllocError, Global};

/// After so many bytes those of [`texts`] come again.
pub const PERIOD: usize = 2048;

/// Texts of so many bytes, which are the same at each run.
pub fn texts(alloc: Global, bytes: usize) -> Result<Vec<u8>, AllocError>
    ensures texts { IfOk result (λ texts. texts.items ≡ texts_of bytes) }
    ensures size { IfOk result (λ texts. length texts.items ≡ bytes) }
{
    let mut texts = vec![in alloc; 0u8; bytes]?;
    fill(texts.as_mut_slice());
    Ok(texts)
}

/// Writes the texts.
fn fill(texts: &mut [u8])
    ensures { texts.new ≡ texts_of (length texts.old) }
{
    for i in 0..texts.len() {
        texts[i] = text_byte(i);
    }
}

/// Byte i of the texts: the lowest byte of 31·i / 8.
fn text_byte(i: usize) -> u8
    ensures { result ≡ text_byte i }
{
    (31 * (i % PERIOD) / 8 % 256) as u8
}

/// The number of a unit.
fn number(unit: usize) -> Dun
    ensures { result ≡ unit }
{
    Dun::from_words([unit as u64, 0, 0, 0])
}

/// Takes one data unit one way, in place.
pub fn carry_unit(way: Direction, cipher: &UnitCipher, dun: &Dun, text: &mut [u8])
    requires { length text.old ≡ bytes_of cipher.now.unit }
    ensures { text.new ≡ cipher_of_unit way cipher.now dun.now text.old }
{
    match way {
        Direction::Encrypt => cipher.encrypt(dun, text),
        Direction::Decrypt => cipher.decrypt(dun, text),
    }
}

/// Takes the units one way, in place.
pub fn carry_units(way: Direction, cipher: &UnitCipher, texts: &mut [u8], size: usize, units: usize)
    requires size { size ≡ bytes_of cipher.now.unit }
    requires whole { length texts.old ≡ units * size }
    ensures { texts.new ≡ each_unit (cipher_of_unit way cipher.now) size units texts.old }
{
    for unit in 0..units {
        carry_unit(
            way,
            cipher,
            &number(unit),
            &mut texts[unit * size..unit * size + size],
        );
    }
}

/// The digest of so many units of the texts, taken one way.
pub fn digest(
    alloc: Global,
    way: Direction,
    cipher: &UnitCipher,
    size: usize,
    units: u32,
) -> Result<[u8; 32], AllocError>
    requires { size ≡ bytes_of cipher.now.unit }
    ensures { IfOk result (λ digest. digest ≡ unit_digest way cipher.now size units) }
{
    let mut texts = texts(alloc, units as usize * size)?;
    carry_units(way, cipher, texts.as_mut_slice(), size, units as usize);
    Ok(Sha256::digest(texts.as_slice()))
}
