//! Tweaks: what XTS adds to a block before and after its encipherment.
//!
//! A tweak is a polynomial of 128 coefficients, here the bits of a `u128`. The next block's tweak
//! is this one times x.
ghost use Rattle.std.specs.Prelude.{◌≡◌};
ghost use Rattle.std.specs.Int.{w128, to_le_bytes};
ghost use Rattle.bc_modes.specs.Tweak.{tweak_at};
ghost use Rattle.bc_modes.specs.Xts.{tweak_bytes};

use crate::piece::PIECE;
use std::simd::prelude::*;

/// How many blocks a piece has.
const BLOCKS: usize = 8;

/// What a lane of 64 bits counts to.
const LANE: u128 = 1 << 64;

/// The next block's tweak: this one times x, where x^128 is x^7 + x^2 + x + 1 (IEEE 1619, 5.2).
#[inline(always)]
#[tactic(auto, using(crate::proofs::Doubling::next_is))]
pub(crate) fn next_tweak(tweak: u128) -> u128
    ensures { result ≡ tweak_at tweak 1 }
{
    (tweak << 1) ^ ((tweak >> 127) * 0x87)
}

/// The bytes of a tweak, the lowest first. They are made of two lanes, since the bytes of a vector
/// are stored at once.
#[inline(always)]
fn bytes_of(tweak: u128) -> [u8; 16]
    ensures { result ≡ to_le_bytes w128 tweak }
{
    u64x2::from_array([(tweak % LANE) as u64, (tweak / LANE) as u64])
        .to_le_bytes()
        .to_array()
}

/// The tweaks of eight blocks, of which `first` is the first one's, and the tweak of the block
/// after them.
#[inline(always)]
pub(crate) fn tweaks_from(first: u128) -> ([u8; PIECE], u128)
    ensures tweaks { result.0 ≡ tweak_bytes first 8 }
    ensures next { result.1 ≡ tweak_at first 8 }
{
    let mut tweaks = [0; PIECE];
    let mut tweak = first;
    for block in 0..BLOCKS {
        tweaks[16 * block..16 * block + 16].copy_from_slice(&bytes_of(tweak));
        tweak = next_tweak(tweak);
    }
    (tweaks, tweak)
}
