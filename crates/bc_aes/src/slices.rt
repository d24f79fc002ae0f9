//! Eight blocks in bit slices, row after row: bit k of byte 4r + c of slice j is bit j of row r,
//! column c of block k. So one operation on a slice is that operation on one bit of each of 128
//! bytes, and rows move as words of 32 bits.

ghost use Rattle.std.specs.Prelude.{◌≡◌, ℕ, ◌*◌, ◌<◌, [], length, take, slice_index_or};
ghost use Rattle.bc_aes.specs.Blocks.{block};
ghost use Rattle.bc_aes.specs.Slices.{slices_of, vector_of, by_rows, sliced_block, AreBytes, Exchanged};

use std::simd::prelude::*;

/// Eight blocks of 16 bytes, as eight slices: slice j has bit j of each byte.
#[derive(Clone, Copy)]
pub(crate) struct Slices {
    pub(crate) s0: u8x16,
    pub(crate) s1: u8x16,
    pub(crate) s2: u8x16,
    pub(crate) s3: u8x16,
    pub(crate) s4: u8x16,
    pub(crate) s5: u8x16,
    pub(crate) s6: u8x16,
    pub(crate) s7: u8x16,
}

/// The slices with bits i + 1 of the first and bits i of the second exchanged, for even i.
#[inline(always)]
fn exchanged_1(a: u8x16, b: u8x16) -> (u8x16, u8x16)
    ensures exchanges { Exchanged 1 a b result.0 result.1 }
    ensures from_bytes { AreBytes a × AreBytes b }
    ensures to_bytes { AreBytes result.0 × AreBytes result.1 }
{
    let moved = ((a >> 1) ^ b) & u8x16::splat(0x55);
    (a ^ (moved << 1), b ^ moved)
}

/// The slices with pairs of bits exchanged in the same way.
#[inline(always)]
fn exchanged_2(a: u8x16, b: u8x16) -> (u8x16, u8x16)
    ensures exchanges { Exchanged 2 a b result.0 result.1 }
    ensures from_bytes { AreBytes a × AreBytes b }
    ensures to_bytes { AreBytes result.0 × AreBytes result.1 }
{
    let moved = ((a >> 2) ^ b) & u8x16::splat(0x33);
    (a ^ (moved << 2), b ^ moved)
}

/// The slices with the upper half of each byte of the first and the lower half of each of the
/// second exchanged.
#[inline(always)]
fn exchanged_4(a: u8x16, b: u8x16) -> (u8x16, u8x16)
    ensures exchanges { Exchanged 4 a b result.0 result.1 }
    ensures from_bytes { AreBytes a × AreBytes b }
    ensures to_bytes { AreBytes result.0 × AreBytes result.1 }
{
    let moved = ((a >> 4) ^ b) & u8x16::splat(0x0f);
    (a ^ (moved << 4), b ^ moved)
}

/// Eight blocks in slices from the blocks, and the blocks from the slices: the bits of each byte
/// change places with the eight vectors.
#[inline(always)]
fn transposed(q: Slices) -> Slices
    ensures into_slices { (k : ℕ) → k < 8 → vector_of (slices_of result) k ≡ slice_index_or (slices_of q) k [] }
    ensures into_blocks { (k : ℕ) → k < 8 → slice_index_or (slices_of result) k [] ≡ vector_of (slices_of q) k }
{
    let Slices {
        s0: a,
        s1: b,
        s2: c,
        s3: d,
        s4: e,
        s5: f,
        s6: g,
        s7: h,
    } = q;
    let (a, b) = exchanged_1(a, b);
    let (c, d) = exchanged_1(c, d);
    let (e, f) = exchanged_1(e, f);
    let (g, h) = exchanged_1(g, h);
    let (a, c) = exchanged_2(a, c);
    let (b, d) = exchanged_2(b, d);
    let (e, g) = exchanged_2(e, g);
    let (f, h) = exchanged_2(f, h);
    let (a, e) = exchanged_4(a, e);
    let (b, f) = exchanged_4(b, f);
    let (c, g) = exchanged_4(c, g);
    let (d, h) = exchanged_4(d, h);
    Slices {
        s0: a,
        s1: b,
        s2: c,
        s3: d,
        s4: e,
        s5: f,
        s6: g,
        s7: h,
    }
}

/// The bytes of a block row after row, and the other way round.
#[inline(always)]
pub(crate) fn by_rows(block: u8x16) -> u8x16
    ensures { result ≡ by_rows block }
{
    block.swizzle([0, 4, 8, 12, 1, 5, 9, 13, 2, 6, 10, 14, 3, 7, 11, 15])
}

/// Block i of a piece, as a vector of its rows.
#[inline(always)]
fn vector_at(piece: &[u8], i: usize) -> u8x16
    requires place { i < 8 }
    requires size { length piece.now ≡ 128 }
    ensures holds { result ≡ by_rows (block piece.now i) }
{
    by_rows(u8x16::from_slice(&piece[16 * i..]))
}

/// Writes a vector as block i of a piece.
#[inline(always)]
fn put_vector(piece: &mut [u8], i: usize, vector: u8x16)
    requires place { i < 8 }
    requires size { length piece.old ≡ 128 }
    ensures before { take (16 * i) piece.new ≡ take (16 * i) piece.old }
    ensures here { block piece.new i ≡ vector }
{
    piece[16 * i..16 * i + 16].copy_from_slice(&vector.to_array());
}

/// A piece, eight blocks, taken into slices.
#[inline(always)]
pub(crate) fn from_blocks(piece: &[u8]) -> Slices
    requires { length piece.now ≡ 128 }
    ensures takes { (k : ℕ) → k < 8 → sliced_block (slices_of result) k ≡ block piece.now k }
{
    transposed(Slices {
        s0: vector_at(piece, 0),
        s1: vector_at(piece, 1),
        s2: vector_at(piece, 2),
        s3: vector_at(piece, 3),
        s4: vector_at(piece, 4),
        s5: vector_at(piece, 5),
        s6: vector_at(piece, 6),
        s7: vector_at(piece, 7),
    })
}

/// Writes the eight blocks that are in slices.
#[inline(always)]
pub(crate) fn to_blocks(q: Slices, piece: &mut [u8])
    requires { length piece.old ≡ 128 }
    ensures gives { (k : ℕ) → k < 8 → block piece.new k ≡ sliced_block (slices_of q) k }
{
    let blocks = transposed(q);
    put_vector(piece, 0, by_rows(blocks.s0));
    put_vector(piece, 1, by_rows(blocks.s1));
    put_vector(piece, 2, by_rows(blocks.s2));
    put_vector(piece, 3, by_rows(blocks.s3));
    put_vector(piece, 4, by_rows(blocks.s4));
    put_vector(piece, 5, by_rows(blocks.s5));
    put_vector(piece, 6, by_rows(blocks.s6));
    put_vector(piece, 7, by_rows(blocks.s7));
}
