//! The parts of a round on eight blocks in bit slices, but for the S-box.
//!
//! Byte 4r + c of a slice is row r, column c, so that a turn of all columns moves words of 32 bits.

ghost use Rattle.std.specs.Prelude.{◌≡◌, [], ◌∷◌};
ghost use Rattle.std.specs.Simd.Lanes.{pick_l};
ghost use Rattle.bc_aes.specs.State.{shift_rows, inv_shift_rows, mix_columns, inv_mix_columns, add_round_key};
ghost use Rattle.bc_aes.specs.Slices.{slices_of, EachSlicedBlock};
ghost use Rattle.bc_aes.specs.SlicedRounds.{turned, doubled, EachSlicedByKey};

use crate::slices::Slices;
use std::simd::prelude::*;

/// Each row r moves left by r columns.
#[inline(always)]
fn rows_shifted(slice: u8x16) -> u8x16
    ensures { result ≡
        pick_l 0 slice (0 ∷ 1 ∷ 2 ∷ 3 ∷ 5 ∷ 6 ∷ 7 ∷ 4 ∷ 10 ∷ 11 ∷ 8 ∷ 9 ∷ 15 ∷ 12 ∷ 13 ∷ 14 ∷ []) }
{
    slice.swizzle([0, 1, 2, 3, 5, 6, 7, 4, 10, 11, 8, 9, 15, 12, 13, 14])
}

/// Each row r moves right by r columns.
#[inline(always)]
fn rows_unshifted(slice: u8x16) -> u8x16
    ensures { result ≡
        pick_l 0 slice (0 ∷ 1 ∷ 2 ∷ 3 ∷ 7 ∷ 4 ∷ 5 ∷ 6 ∷ 10 ∷ 11 ∷ 8 ∷ 9 ∷ 13 ∷ 14 ∷ 15 ∷ 12 ∷ []) }
{
    slice.swizzle([0, 1, 2, 3, 7, 4, 5, 6, 10, 11, 8, 9, 13, 14, 15, 12])
}

/// Each column moves up by one row.
#[inline(always)]
fn columns_turned(slice: u8x16) -> u8x16
    ensures { result ≡
        pick_l 0 slice (4 ∷ 5 ∷ 6 ∷ 7 ∷ 8 ∷ 9 ∷ 10 ∷ 11 ∷ 12 ∷ 13 ∷ 14 ∷ 15 ∷ 0 ∷ 1 ∷ 2 ∷ 3 ∷ []) }
{
    slice.swizzle([4, 5, 6, 7, 8, 9, 10, 11, 12, 13, 14, 15, 0, 1, 2, 3])
}

/// Each column moves up by two rows.
#[inline(always)]
fn columns_turned_twice(slice: u8x16) -> u8x16
    ensures { result ≡
        pick_l 0 slice (8 ∷ 9 ∷ 10 ∷ 11 ∷ 12 ∷ 13 ∷ 14 ∷ 15 ∷ 0 ∷ 1 ∷ 2 ∷ 3 ∷ 4 ∷ 5 ∷ 6 ∷ 7 ∷ []) }
{
    slice.swizzle([8, 9, 10, 11, 12, 13, 14, 15, 0, 1, 2, 3, 4, 5, 6, 7])
}

// Slices, each moved in the same way.
macro_rules! each_slice {
    ($q:ident, $moved:ident) => {
        Slices {
            s0: $moved($q.s0),
            s1: $moved($q.s1),
            s2: $moved($q.s2),
            s3: $moved($q.s3),
            s4: $moved($q.s4),
            s5: $moved($q.s5),
            s6: $moved($q.s6),
            s7: $moved($q.s7),
        }
    };
}

/// ShiftRows of each block (FIPS 197, 5.1.2).
#[inline(always)]
pub(crate) fn shift_rows(q: Slices) -> Slices
    ensures shifts { EachSlicedBlock shift_rows (slices_of q) (slices_of result) }
{
    each_slice!(q, rows_shifted)
}

/// InvShiftRows of each block (FIPS 197, 5.3.1).
#[inline(always)]
pub(crate) fn inv_shift_rows(q: Slices) -> Slices
    ensures shifts_back { EachSlicedBlock inv_shift_rows (slices_of q) (slices_of result) }
{
    each_slice!(q, rows_unshifted)
}

/// The next row's byte in each place of each block.
#[inline(always)]
fn turned(q: Slices) -> Slices
    ensures turns { EachSlicedBlock (turned 1) (slices_of q) (slices_of result) }
{
    each_slice!(q, columns_turned)
}

/// The byte of the row after the next in each place of each block.
#[inline(always)]
fn turned_twice(q: Slices) -> Slices
    ensures turns { EachSlicedBlock (turned 2) (slices_of q) (slices_of result) }
{
    each_slice!(q, columns_turned_twice)
}

/// Each byte multiplied by x: the bits move up by one, and the highest comes back where the
/// reduction has a term.
#[inline(always)]
fn doubled(q: Slices) -> Slices
    ensures doubles { EachSlicedBlock doubled (slices_of q) (slices_of result) }
{
    Slices {
        s0: q.s7,
        s1: q.s0 ^ q.s7,
        s2: q.s1,
        s3: q.s2 ^ q.s7,
        s4: q.s3 ^ q.s7,
        s5: q.s4,
        s6: q.s5,
        s7: q.s6,
    }
}

/// AddRoundKey of each block, with the same block of the key (FIPS 197, 5.1.4).
#[inline(always)]
pub(crate) fn add(q: Slices, key: Slices) -> Slices
    ensures adds { EachSlicedByKey add_round_key (slices_of q) (slices_of key) (slices_of result) }
{
    Slices {
        s0: q.s0 ^ key.s0,
        s1: q.s1 ^ key.s1,
        s2: q.s2 ^ key.s2,
        s3: q.s3 ^ key.s3,
        s4: q.s4 ^ key.s4,
        s5: q.s5 ^ key.s5,
        s6: q.s6 ^ key.s6,
        s7: q.s7 ^ key.s7,
    }
}

/// MixColumns of each block (FIPS 197, 5.1.3). With t the sum of a row and the next, the new row is
/// 2t plus the next row plus the t of two rows further.
#[inline(always)]
pub(crate) fn mix_columns(q: Slices) -> Slices
    ensures mixes { EachSlicedBlock mix_columns (slices_of q) (slices_of result) }
{
    let next = turned(q);
    let sums = add(q, next);
    add(add(doubled(sums), next), turned_twice(sums))
}

/// InvMixColumns of each block (FIPS 197, 5.3.3), as MixColumns of each row plus 4 times the sum of
/// it and the row after the next.
#[inline(always)]
pub(crate) fn inv_mix_columns(q: Slices) -> Slices
    ensures unmixes { EachSlicedBlock inv_mix_columns (slices_of q) (slices_of result) }
{
    mix_columns(add(q, doubled(doubled(add(q, turned_twice(q))))))
}
