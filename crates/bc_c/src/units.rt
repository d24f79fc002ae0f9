//! Data units, one after the other: each has the number that follows.
ghost use Rattle.std.specs.Prelude.{◌≡◌, ◌+◌, ◌*◌, ◌^◌, ◌<◌, false, length};
ghost use Rattle.bc_key.specs.DataUnits.{bytes_of};
ghost use Rattle.bc_c.specs.Status.{runs_out};
ghost use Rattle.bc_c.specs.Units.{converted_unit, each_unit};

use crate::direction::Direction;
use bc_key::Dun;
use bc_modes::UnitCipher;

/// The numbers of data units may have so many bytes.
pub const NUMBER_BYTES: u8 = 16;

/// Whether some of `units` consecutive data units, of which the first has the number `first`, has a
/// number of more than [`NUMBER_BYTES`] bytes.
pub fn runs_out(first: &Dun, units: usize) -> bool
    ensures { result ≡ runs_out first.now units }
{
    units > 0 && !first.fits(units as u64, NUMBER_BYTES)
}

/// The number of unit `i`.
fn number(first: &Dun, i: usize) -> Dun
    requires { first.now + i < 2 ^ 256 }
    ensures { result ≡ first.now + i }
{
    first.plus(i as u64)
}

/// Takes one data unit one way, in place.
fn carry_unit(way: Direction, cipher: &UnitCipher, dun: &Dun, text: &mut [u8])
    requires { length text.old ≡ bytes_of cipher.now.unit }
    ensures { text.new ≡ converted_unit way cipher.now.mode cipher.now.raw dun.now text.old }
{
    match way {
        Direction::Encrypt => cipher.encrypt(dun, text),
        Direction::Decrypt => cipher.decrypt(dun, text),
    }
}

/// Enciphers or deciphers `units` consecutive data units of `size` bytes in place, each under the number
/// that follows; `first` is the first one's. The size is the cipher's, `texts` has just these units, and
/// [`runs_out`] answers `false`.
#[tactic(auto, using(crate::proofs::Loops::no_wrap))]
pub fn carry_units(
    way: Direction,
    cipher: &UnitCipher,
    first: &Dun,
    texts: &mut [u8],
    size: usize,
    units: usize,
)
    requires size { size ≡ bytes_of cipher.now.unit }
    requires whole { length texts.old ≡ units * size }
    requires numbers { runs_out first.now units ≡ false }
    ensures { texts.new ≡
        each_unit (λ i. converted_unit way cipher.now.mode cipher.now.raw (first.now + i)) size units texts.old }
{
    for i in 0..units {
        carry_unit(
            way,
            cipher,
            &number(first, i),
            &mut texts[i * size..i * size + size],
        );
    }
}
