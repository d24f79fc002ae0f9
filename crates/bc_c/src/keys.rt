//! Keys by the numbers that cross to C.
ghost use Rattle.std.specs.Prelude.{◌≡◌, ◌≢◌, Some, IfOk, IfErr};
ghost use Rattle.bc_key.specs.DataUnits.{bytes_of};
ghost use Rattle.bc_c.specs.Status.{key_status, mode_of_number, number_of_error};

use bc_key::{Key, KeyError, Mode};

/// The status of a mode's number that no mode has.
const NO_MODE: u32 = 5;

/// The mode with this number.
fn mode_of_number(number: u32) -> Option<Mode>
    ensures { result ≡ mode_of_number number }
{
    match number {
        1 => Some(Mode::Aes256Xts),
        2 => Some(Mode::Aes128CbcEssiv),
        _ => None,
    }
}

/// The number of an error.
fn number_of_error(error: KeyError) -> u32
    ensures number { result ≡ number_of_error error }
    ensures some { result ≢ 0 }
{
    match error {
        KeyError::Size { .. } => 1,
        KeyError::Unit { .. } => 2,
        KeyError::DunBytes { .. } => 3,
        KeyError::EqualHalves => 4,
    }
}

/// The key, or the status of what is none. `mode` is Linux's number of the mode, `unit` a data unit's
/// size in bytes.
///
/// # Errors
///
/// The status of the first test that fails: no mode has this number, or [`Key::new`] refuses the key.
/// It is never 0.
pub fn key_of(mode: u32, unit: u32, number_bytes: u8, raw: &[u8]) -> Result<Key, u32>
    ensures status { IfOk result (λ key. key_status mode unit number_bytes raw.now ≡ 0) }
    ensures mode { IfOk result (λ key. mode_of_number mode ≡ Some key.config.mode) }
    ensures unit { IfOk result (λ key. bytes_of key.config.unit ≡ unit) }
    ensures raw { IfOk result (λ key. key.raw ≡ raw.now) }
    ensures refused { IfErr result (λ status. status ≡ key_status mode unit number_bytes raw.now) }
    ensures some { IfErr result (λ status. status ≢ 0) }
{
    let Some(mode) = mode_of_number(mode) else {
        return Err(NO_MODE);
    };
    match Key::new(mode, raw, unit, number_bytes) {
        Ok(key) => Ok(key),
        Err(error) => Err(number_of_error(error)),
    }
}
