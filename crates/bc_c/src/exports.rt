//! What C calls.
ghost use Rattle.std.specs.Prelude.{◌≡◌, ◌≢◌, length};
ghost use Rattle.bc_key.specs.Words.{number_of};
ghost use Rattle.bc_c.specs.Status.{call_status, key_status};
ghost use Rattle.bc_c.specs.Units.{AreCarried};
ghost use Rattle.bc_c.specs.declared.direction.Direction.TheVariants.{Encrypt, Decrypt};

use crate::direction::Direction;
use crate::keys::key_of;
use crate::units::{NUMBER_BYTES, carry_units, runs_out};
use bc_key::Dun;
use bc_modes::UnitCipher;

/// The status of a call that did what it was to do.
const DONE: u32 = 0;

/// The status of a buffer that isn't whole data units.
const NOT_WHOLE: u32 = 6;

/// The status of numbers of which some has more than 16 bytes.
const RUNS_OUT: u32 = 7;

/// A data unit number: its four words, the least significant first.
#[repr(C)]
#[derive(Clone, Copy)]
pub struct BlkcryptNumber {
    pub words: [u64; 4],
}

/// Whether a key is one: 0, or the number of the first test that it fails. A mode is 1 for
/// AES-256-XTS or 2 for AES-128-CBC-ESSIV, `unit` a data unit's size in bytes, `number_bytes` how
/// many bytes the numbers of its data units may have, and `raw` the key's bytes. The tests 1 to 4 are
/// those of [`Key::new`](bc_key::Key::new) in its order, and 5 comes before them: the mode is neither.
#[unsafe(no_mangle)]
pub extern "C" fn blkcrypt_check_key(mode: u32, unit: u32, number_bytes: u8, raw: &[u8]) -> u32
    ensures { result ≡ key_status mode unit number_bytes raw.now }
{
    match key_of(mode, unit, number_bytes, raw) {
        Ok(_) => DONE,
        Err(status) => status,
    }
}

/// Enciphers whole consecutive data units in place, each under the number that follows. Mode, unit
/// and key are those of [`blkcrypt_check_key`], with numbers of 16 bytes. Gives 0, or else the number
/// of the first test that the call fails, and then the buffer is as it was: the key's tests, then 6
/// where the buffer isn't whole data units, and 7 where some number has more than 16 bytes.
#[unsafe(no_mangle)]
pub extern "C" fn blkcrypt_encrypt_units(
    mode: u32,
    unit: u32,
    raw: &[u8],
    first: &BlkcryptNumber,
    texts: &mut [u8],
) -> u32
    ensures status { result ≡ call_status mode unit raw.now (number_of first.now.words) (length texts.old) }
    ensures enciphers { result ≡ 0 →
        AreCarried Encrypt mode unit raw.now (number_of first.now.words) texts.old texts.new }
    ensures untouched { result ≢ 0 → texts.new ≡ texts.old }
{
    carry(Direction::Encrypt, mode, unit, raw, first, texts)
}

/// Deciphers whole consecutive data units in place, each under the number that follows. Mode, unit
/// and key are those of [`blkcrypt_check_key`], with numbers of 16 bytes. Gives 0, or else the number
/// of the first test that the call fails, and then the buffer is as it was: the key's tests, then 6
/// where the buffer isn't whole data units, and 7 where some number has more than 16 bytes.
#[unsafe(no_mangle)]
pub extern "C" fn blkcrypt_decrypt_units(
    mode: u32,
    unit: u32,
    raw: &[u8],
    first: &BlkcryptNumber,
    texts: &mut [u8],
) -> u32
    ensures status { result ≡ call_status mode unit raw.now (number_of first.now.words) (length texts.old) }
    ensures deciphers { result ≡ 0 →
        AreCarried Decrypt mode unit raw.now (number_of first.now.words) texts.old texts.new }
    ensures untouched { result ≢ 0 → texts.new ≡ texts.old }
{
    carry(Direction::Decrypt, mode, unit, raw, first, texts)
}

/// Takes the data units of a call one way, in place, or gives the number of the first test that the
/// call fails.
fn carry(
    way: Direction,
    mode: u32,
    unit: u32,
    raw: &[u8],
    first: &BlkcryptNumber,
    texts: &mut [u8],
) -> u32
    ensures status { result ≡ call_status mode unit raw.now (number_of first.now.words) (length texts.old) }
    ensures carries { result ≡ 0 → AreCarried way mode unit raw.now (number_of first.now.words) texts.old texts.new }
    ensures untouched { result ≢ 0 → texts.new ≡ texts.old }
{
    let key = match key_of(mode, unit, NUMBER_BYTES, raw) {
        Ok(key) => key,
        Err(status) => return status,
    };
    let first = Dun::from_words(first.words);
    let size = key.config().unit.bytes() as usize;
    if texts.len() % size != 0 {
        return NOT_WHOLE;
    }
    let units = texts.len() / size;
    if runs_out(&first, units) {
        return RUNS_OUT;
    }
    let cipher = UnitCipher::of_key(&key);
    carry_units(way, &cipher, &first, texts, size, units);
    DONE
}
