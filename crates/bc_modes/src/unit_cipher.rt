//! Unit ciphers: one key's way to encipher and decipher a data unit.
ghost use Rattle.std.specs.Prelude.{◌≡◌, length, take};
ghost use Rattle.bc_key.specs.DataUnits.{bytes_of};
ghost use Rattle.bc_key.specs.KeyData.{key_size};
ghost use Rattle.bc_modes.specs.UnitCipher.{decipher_unit, encipher_unit, parts_of};

use crate::essiv::Essiv;
use crate::xts::Xts;
use bc_key::{DataUnit, Dun, Key, Mode};
use std::marker::Model;

/// What enciphers and deciphers the data units of one key. Its round keys are expanded once, when
/// it is made.
///
/// A contract sees the mode, the data unit's size and the key's bytes.
#[derive(Drop)]
pub struct UnitCipher {
    unit: DataUnit,
    schedules: Schedules,
}

/// The expanded key of a mode.
#[derive(Drop)]
enum Schedules {
    Xts(Xts),
    Essiv(Essiv),
}

impl Model for UnitCipher {
    ghost use Rattle.bc_modes.specs.UnitCipher.{CipherParts};

    ghost Value = { CipherParts };

    ghost use Rattle.bc_modes.specs.Schedules.{mode_of_schedules, raw_of};

    ghost view = { λ cipher.
        record { mode = mode_of_schedules cipher.schedules; unit = cipher.unit; raw = raw_of cipher.schedules } };

    ghost use Rattle.std.specs.Prelude.{◌≡◌, length};
    ghost use Rattle.bc_key.specs.KeyData.{key_size};

    ghost invariant = { λ cipher. length (raw_of cipher.schedules) ≡ key_size (mode_of_schedules cipher.schedules) };
}

impl UnitCipher {
    /// The cipher of a key.
    pub fn of_key(key: &Key) -> UnitCipher
        ensures { result ≡ parts_of key.now }
    {
        let config = key.config();
        let bytes = key.raw();
        let mut raw = [0; 64];
        raw[..bytes.len()].copy_from_slice(bytes);
        UnitCipher::of_parts(config.mode, config.unit, &raw)
    }

    /// The cipher of a mode, a data unit's size and a key's bytes, of which the mode takes as many
    /// as its keys have: all 64, or the first 16.
    pub fn of_parts(mode: Mode, unit: DataUnit, raw: &[u8; 64]) -> UnitCipher
        ensures mode { result.mode ≡ mode }
        ensures unit { result.unit ≡ unit }
        ensures raw { result.raw ≡ take (key_size mode) raw.now }
    {
        let schedules = match mode {
            Mode::Aes256Xts => Schedules::Xts(Xts::new(raw)),
            Mode::Aes128CbcEssiv => {
                let mut key = [0; 16];
                key.copy_from_slice(&raw[..16]);
                Schedules::Essiv(Essiv::new(&key))
            }
        };
        UnitCipher { unit, schedules }
    }

    /// Enciphers one data unit in place, under its number: XTS after IEEE 1619 section 5, or CBC with
    /// ESSIV. `text` has the data unit's size in bytes.
    pub fn encrypt(&self, dun: &Dun, text: &mut [u8])
        requires { length text.old ≡ bytes_of self.now.unit }
        ensures size { length self.now.raw ≡ key_size self.now.mode }
        ensures enciphers { text.new ≡ encipher_unit self.now.mode self.now.raw dun.now text.old }
    {
        match &self.schedules {
            Schedules::Xts(xts) => xts.encrypt(dun, text),
            Schedules::Essiv(essiv) => essiv.encrypt(dun, text),
        }
    }

    /// Deciphers one data unit in place, as [`UnitCipher::encrypt`] enciphered it under the same number.
    /// `text` has the data unit's size in bytes.
    pub fn decrypt(&self, dun: &Dun, text: &mut [u8])
        requires { length text.old ≡ bytes_of self.now.unit }
        ensures size { length self.now.raw ≡ key_size self.now.mode }
        ensures deciphers { text.new ≡ decipher_unit self.now.mode self.now.raw dun.now text.old }
    {
        match &self.schedules {
            Schedules::Xts(xts) => xts.decrypt(dun, text),
            Schedules::Essiv(essiv) => essiv.decrypt(dun, text),
        }
    }
}
