//! Round keys in bit slices, each of them in all eight blocks: a byte of a slice is all ones or
//! zeros. The constant of the S-box is added to each but the first.

ghost use Rattle.std.specs.Prelude.{◌≡◌, ℕ, ◌+◌, ◌*◌, ◌<◌, ◌≤◌, length, slice_index};
ghost use Rattle.std.specs.Int.{bit_at};
ghost use Rattle.bc_aes.specs.Columns.{state_bytes, schedule_bytes};
ghost use Rattle.bc_aes.specs.KeyExpansion.{round_key};
ghost use Rattle.bc_aes.specs.Slices.{slices_of, vector_of};
ghost use Rattle.bc_aes.specs.SlicedRounds.{key_in_slices, AreRoundKeys};

use crate::columns::store;
use crate::rounds::{added, key_of_round};
use crate::slices::{Slices, by_rows};
use std::simd::prelude::*;

/// The lowest bit of each byte, in all its bits.
#[inline(always)]
fn spread(bits: u8x16) -> u8x16
    ensures spreads { (p k : ℕ) → p < 16 → k < 8 → bit_at (slice_index result p) k ≡ bit_at (slice_index bits p) 0 }
{
    u8x16::splat(0) - (bits & u8x16::splat(1))
}

/// Eight times the same vector.
#[inline(always)]
fn in_all_blocks(block: u8x16) -> Slices
    ensures holds { (k : ℕ) → k < 8 → vector_of (slices_of result) k ≡ block }
{
    Slices {
        s0: spread(block),
        s1: spread(block >> 1),
        s2: spread(block >> 2),
        s3: spread(block >> 3),
        s4: spread(block >> 4),
        s5: spread(block >> 5),
        s6: spread(block >> 6),
        s7: spread(block >> 7),
    }
}

/// The key of a round, with the constant but for the first.
fn key_with_constant(schedule: &[u32], round: usize) -> [u32; 4]
    requires { 4 * round + 4 ≤ length schedule.now }
    ensures holds { state_bytes result ≡ key_in_slices round (round_key (schedule_bytes schedule.now) round) }
{
    let key = key_of_round(schedule, round);
    if round == 0 {
        key
    } else {
        added(key, [0x63636363; 4])
    }
}

/// No block at all, to fill an array with before it takes round keys.
pub(crate) fn zeros() -> Slices {
    let zeros = u8x16::splat(0);
    Slices {
        s0: zeros,
        s1: zeros,
        s2: zeros,
        s3: zeros,
        s4: zeros,
        s5: zeros,
        s6: zeros,
        s7: zeros,
    }
}

/// Puts the round keys of a schedule of four words a round into slices.
pub(crate) fn slice_keys(schedule: &[u32], keys: &mut [Slices])
    requires { length schedule.now ≡ 4 * length keys.old }
    ensures slices { AreRoundKeys (schedule_bytes schedule.now) keys.new }
{
    for round in 0..keys.len() {
        let block = store(key_with_constant(schedule, round));
        keys[round] = in_all_blocks(by_rows(u8x16::from_array(block)));
    }
}
