//! Data units under one key: enciphered, and deciphered again.
ghost use Rattle.std.specs.Prelude.{◌≡◌, ◌==◌, length};
ghost use Rattle.bc_key.specs.DataUnits.{bytes_of};
ghost use Rattle.bc_key.specs.DataUnitNumber.{number_after};
ghost use Rattle.bc_modes.specs.UnitCipher.{enc};

use bc_key::{Dun, Key};
use bc_modes::{UnitCipher, unit_laws};

/// Enciphers two data units that lie one after the other, the second under the number that follows. Each has
/// the size of a data unit of the key, in bytes.
pub fn encipher_two(key: &Key, number: &Dun, first: &mut [u8], second: &mut [u8])
    requires first { length first.old ≡ bytes_of key.now.config.unit }
    requires second { length second.old ≡ bytes_of key.now.config.unit }
    ensures first { first.new ≡ enc key.now number.now first.old }
    ensures second { second.new ≡ enc key.now (number_after number.now 1) second.old }
{
    let cipher = UnitCipher::of_key(key);
    cipher.encrypt(number, first);
    cipher.encrypt(&number.plus(1), second);
}

/// Enciphers a data unit and deciphers it again under the same number, which gives the text back. Tells whether the text is a
/// data unit of the key.
#[tactic(auto, using(crate::proofs::DataUnits::undone))]
pub fn there_and_back(key: &Key, number: &Dun, text: &mut [u8]) -> bool
    ensures unit { result ≡ (length text.old == bytes_of key.now.config.unit) }
    ensures same { text.new ≡ text.old }
{
    if text.len() != key.config().unit.bytes() as usize {
        return false;
    }
    unit_laws();
    let cipher = UnitCipher::of_key(key);
    cipher.encrypt(number, text);
    cipher.decrypt(number, text);
    true
}
