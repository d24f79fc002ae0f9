//! One data unit, from the words that a user writes.
ghost use Rattle.std.specs.Prelude.{◌≡◌, length, Some, None, IfOk, IfErr, OnOk, OnErr};
ghost use Rattle.std.specs.String.{string_bytes};
ghost use Rattle.bc_key.specs.DataUnits.{bytes_of, unit_of};
ghost use Rattle.bc_key.specs.KeyRefusal.{key_refusal};
ghost use Rattle.bc_unit.specs.Unit.{converted_unit, mode_of_size, ConvertsUnit, HasReason, IsNoKeyFor};
ghost use Rattle.bc_unit.specs.PrintedText.{digits_line, HasReasonInDigits, PrintsDigits};

use crate::direction::Direction;
use crate::refusal::Refusal;
use bc_base::BLOCK_BYTES;
use bc_key::{Dun, Key, Mode};
use bc_modes::UnitCipher;
use hex::FromHexError;
use std::alloc::{AllocError, Global};

/// What is printed of a data unit that is written in hexadecimal digits: the digits of what it
/// becomes, and a line feed.
///
/// # Errors
///
/// KEY or TEXT aren't pairs of hexadecimal digits, NUMBER isn't a number's text, KEY is no key for
/// a data unit of TEXT's length, or memory is out.
pub fn in_digits(
    alloc: Global,
    way: Direction,
    key: &str,
    number: &str,
    text: &str,
) -> Result<String, Refusal>
    ensures prints { IfOk result (λ line. PrintsDigits way key.now number.now text.now (string_bytes line)) }
    ensures refuses { IfErr result (HasReasonInDigits key.now number.now text.now) }
{
    let mut unit = match hex::decode(alloc, text) {
        Ok(unit) => unit,
        Err(FromHexError::OutOfMemory) => return Err(Refusal::Memory),
        Err(why) => return Err(Refusal::TextDigits(why)),
    };
    carry(alloc, way, key, number, unit.as_mut_slice())?;
    match line_of(alloc, unit.as_slice()) {
        Ok(line) => Ok(line),
        Err(_) => Err(Refusal::Memory),
    }
}

/// The digits of some bytes, and a line feed.
fn line_of(alloc: Global, bytes: &[u8]) -> Result<String, AllocError>
    ensures { IfOk result (λ line. string_bytes line ≡ digits_line bytes.now) }
{
    let mut line = hex::encode(alloc, bytes)?;
    line.push('\n')?;
    Ok(line)
}

/// Enciphers or deciphers one data unit in place.
///
/// # Errors
///
/// KEY isn't pairs of hexadecimal digits, NUMBER isn't a number's text, KEY is no key for a data
/// unit of this length, or memory is out. The text stays as it was.
pub fn carry(
    alloc: Global,
    way: Direction,
    key: &str,
    number: &str,
    text: &mut [u8],
) -> Result<(), Refusal>
    ensures carries { OnOk result (ConvertsUnit way key.now number.now text.old text.new) }
    ensures refuses { IfErr result (HasReason key.now number.now (length text.old)) }
    ensures same { OnErr result (text.new ≡ text.old) }
{
    let raw = match hex::decode(alloc, key) {
        Ok(raw) => raw,
        Err(FromHexError::OutOfMemory) => return Err(Refusal::Memory),
        Err(why) => return Err(Refusal::KeyDigits(why)),
    };
    let key = key_for(raw.as_slice(), text.len())?;
    let Some(dun) = Dun::from_hex(number.as_bytes()) else {
        return Err(Refusal::Number);
    };
    carry_under(way, &key, &dun, text);
    Ok(())
}

/// The key of these bytes, for data units of `size` bytes. Its length tells the mode.
fn key_for(raw: &[u8], size: usize) -> Result<Key, Refusal>
    ensures mode { IfOk result (λ key. mode_of_size (length raw.now) ≡ Some key.config.mode) }
    ensures raw { IfOk result (λ key. key.raw ≡ raw.now) }
    ensures unit { IfOk result (λ key. unit_of size ≡ Some key.config.unit) }
    ensures accepted { IfOk result (λ key. key_refusal key.config.mode raw.now size 16 ≡ None) }
    ensures refuses { IfErr result (IsNoKeyFor raw.now size) }
{
    let Some(mode) = mode_of_size(raw.len()) else {
        return Err(Refusal::KeySize { got: raw.len() });
    };
    if size > BLOCK_BYTES {
        return Err(Refusal::TextSize { got: size });
    }
    match Key::new(mode, raw, size as u32, 16) {
        Ok(key) => Ok(key),
        Err(error) => Err(Refusal::Key(error)),
    }
}

/// The mode of a key with so many bytes.
fn mode_of_size(size: usize) -> Option<Mode>
    ensures { result ≡ mode_of_size size }
{
    match size {
        64 => Some(Mode::Aes256Xts),
        16 => Some(Mode::Aes128CbcEssiv),
        _ => None,
    }
}

/// Takes one data unit one way under a key, in place.
fn carry_under(way: Direction, key: &Key, dun: &Dun, text: &mut [u8])
    requires { length text.old ≡ bytes_of key.now.config.unit }
    ensures { text.new ≡ converted_unit way key.now.config.mode key.now.raw dun.now text.old }
{
    let cipher = UnitCipher::of_key(key);
    match way {
        Direction::Encrypt => cipher.encrypt(dun, text),
        Direction::Decrypt => cipher.decrypt(dun, text),
    }
}
