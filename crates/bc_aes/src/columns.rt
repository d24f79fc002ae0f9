//! The state as four words of 32 bits, one for each column, with row 0 in the lowest byte.

ghost use Rattle.std.specs.Prelude.{◌≡◌, ◌+◌, ◌*◌, ◌/◌, ◌%◌, ◌^◌, ◌<◌, ◌≤◌, [], ◌∷◌, length, slice_index};
ghost use Rattle.std.specs.Int.{byte_at};
ghost use Rattle.bc_aes.specs.State.{sub_byte, inv_sub_byte, mixing_row, inv_mixing_row};
ghost use Rattle.bc_aes.specs.KeyExpansion.{rot_word, sub_word};
ghost use Rattle.bc_aes.specs.Columns.{column, state_bytes, part, mixed_column};

use crate::tables::{
    INV_SBOX, MIXED_ROW_0, MIXED_ROW_1, MIXED_ROW_2, MIXED_ROW_3, SBOX, UNMIXED_ROW_0,
    UNMIXED_ROW_1, UNMIXED_ROW_2, UNMIXED_ROW_3,
};

/// The byte at this shift, as an index of a table.
#[inline(always)]
pub(crate) fn byte(word: u32, shift: u32) -> usize
    requires { shift < 32 }
    ensures value { result ≡ word / 2 ^ shift % 256 }
    ensures below { result < 256 }
{
    ((word >> shift) & 0xff) as usize
}

/// What row 0 of this word adds to its column by SubBytes and MixColumns.
#[inline(always)]
fn mixed_row_0(word: u32) -> u32
    ensures adds { result ≡ part mixing_row 0 (sub_byte (byte_at 0 word)) }
{
    MIXED_ROW_0[byte(word, 0)]
}

/// What row 1 of this word adds to its column by SubBytes and MixColumns.
#[inline(always)]
fn mixed_row_1(word: u32) -> u32
    ensures adds { result ≡ part mixing_row 1 (sub_byte (byte_at 1 word)) }
{
    MIXED_ROW_1[byte(word, 8)]
}

/// What row 2 of this word adds to its column by SubBytes and MixColumns.
#[inline(always)]
fn mixed_row_2(word: u32) -> u32
    ensures adds { result ≡ part mixing_row 2 (sub_byte (byte_at 2 word)) }
{
    MIXED_ROW_2[byte(word, 16)]
}

/// What row 3 of this word adds to its column by SubBytes and MixColumns.
#[inline(always)]
fn mixed_row_3(word: u32) -> u32
    ensures adds { result ≡ part mixing_row 3 (sub_byte (byte_at 3 word)) }
{
    MIXED_ROW_3[byte(word, 24)]
}

/// What row 0 of this word adds to its column by InvSubBytes and InvMixColumns.
#[inline(always)]
fn unmixed_row_0(word: u32) -> u32
    ensures adds { result ≡ part inv_mixing_row 0 (inv_sub_byte (byte_at 0 word)) }
{
    UNMIXED_ROW_0[byte(word, 0)]
}

/// What row 1 of this word adds to its column by InvSubBytes and InvMixColumns.
#[inline(always)]
fn unmixed_row_1(word: u32) -> u32
    ensures adds { result ≡ part inv_mixing_row 1 (inv_sub_byte (byte_at 1 word)) }
{
    UNMIXED_ROW_1[byte(word, 8)]
}

/// What row 2 of this word adds to its column by InvSubBytes and InvMixColumns.
#[inline(always)]
fn unmixed_row_2(word: u32) -> u32
    ensures adds { result ≡ part inv_mixing_row 2 (inv_sub_byte (byte_at 2 word)) }
{
    UNMIXED_ROW_2[byte(word, 16)]
}

/// What row 3 of this word adds to its column by InvSubBytes and InvMixColumns.
#[inline(always)]
fn unmixed_row_3(word: u32) -> u32
    ensures adds { result ≡ part inv_mixing_row 3 (inv_sub_byte (byte_at 3 word)) }
{
    UNMIXED_ROW_3[byte(word, 24)]
}

/// SubBytes of the byte at this shift.
#[inline(always)]
fn substituted_byte(word: u32, shift: u32) -> u8
    requires { shift < 32 }
    ensures substitutes { result ≡ sub_byte (word / 2 ^ shift % 256) }
{
    SBOX[byte(word, shift)]
}

/// InvSubBytes of the byte at this shift.
#[inline(always)]
fn unsubstituted_byte(word: u32, shift: u32) -> u8
    requires { shift < 32 }
    ensures substitutes { result ≡ inv_sub_byte (word / 2 ^ shift % 256) }
{
    INV_SBOX[byte(word, shift)]
}

/// SubBytes and MixColumns of the column that has row r from the r-th of these words.
#[inline(always)]
pub(crate) fn mixed(a: u32, b: u32, c: u32, d: u32) -> u32
    ensures mixes { column result ≡ mixed_column mixing_row
        (sub_byte (byte_at 0 a)) (sub_byte (byte_at 1 b)) (sub_byte (byte_at 2 c)) (sub_byte (byte_at 3 d)) }
{
    mixed_row_0(a) ^ mixed_row_1(b) ^ mixed_row_2(c) ^ mixed_row_3(d)
}

/// InvSubBytes and InvMixColumns of the column that has row r from the r-th of these words.
#[inline(always)]
pub(crate) fn unmixed(a: u32, b: u32, c: u32, d: u32) -> u32
    ensures unmixes { column result ≡ mixed_column inv_mixing_row
        (inv_sub_byte (byte_at 0 a)) (inv_sub_byte (byte_at 1 b))
        (inv_sub_byte (byte_at 2 c)) (inv_sub_byte (byte_at 3 d)) }
{
    unmixed_row_0(a) ^ unmixed_row_1(b) ^ unmixed_row_2(c) ^ unmixed_row_3(d)
}

/// SubBytes of the column that has row r from the r-th of these words.
#[inline(always)]
pub(crate) fn substituted(a: u32, b: u32, c: u32, d: u32) -> u32
    ensures substitutes { column result ≡ sub_byte (byte_at 0 a) ∷ sub_byte (byte_at 1 b)
        ∷ sub_byte (byte_at 2 c) ∷ sub_byte (byte_at 3 d) ∷ [] }
{
    u32::from_le_bytes([
        substituted_byte(a, 0),
        substituted_byte(b, 8),
        substituted_byte(c, 16),
        substituted_byte(d, 24),
    ])
}

/// SubWord of RotWord.
#[inline(always)]
pub(crate) fn substituted_turned(word: u32) -> u32
    ensures substitutes { column result ≡ sub_word (rot_word (column word)) }
{
    u32::from_le_bytes([
        substituted_byte(word, 8),
        substituted_byte(word, 16),
        substituted_byte(word, 24),
        substituted_byte(word, 0),
    ])
}

/// InvSubBytes of the column that has row r from the r-th of these words.
#[inline(always)]
pub(crate) fn unsubstituted(a: u32, b: u32, c: u32, d: u32) -> u32
    ensures substitutes { column result ≡ inv_sub_byte (byte_at 0 a) ∷ inv_sub_byte (byte_at 1 b)
        ∷ inv_sub_byte (byte_at 2 c) ∷ inv_sub_byte (byte_at 3 d) ∷ [] }
{
    u32::from_le_bytes([
        unsubstituted_byte(a, 0),
        unsubstituted_byte(b, 8),
        unsubstituted_byte(c, 16),
        unsubstituted_byte(d, 24),
    ])
}

/// The word of four bytes of a list.
#[inline(always)]
pub(crate) fn word_at(bytes: &[u8], at: usize) -> u32
    requires { at + 4 ≤ length bytes.now }
    ensures holds { column result ≡ slice_index bytes.now at ∷ slice_index bytes.now (at + 1)
        ∷ slice_index bytes.now (at + 2) ∷ slice_index bytes.now (at + 3) ∷ [] }
{
    u32::from_le_bytes([bytes[at], bytes[at + 1], bytes[at + 2], bytes[at + 3]])
}

/// The columns of a block.
#[inline(always)]
pub(crate) fn load(block: &[u8; 16]) -> [u32; 4]
    ensures holds { state_bytes result ≡ block.now }
{
    [
        word_at(block, 0),
        word_at(block, 4),
        word_at(block, 8),
        word_at(block, 12),
    ]
}

/// The block of these columns.
#[inline(always)]
pub(crate) fn store(state: [u32; 4]) -> [u8; 16]
    ensures holds { result ≡ state_bytes state }
{
    let [a0, a1, a2, a3] = state[0].to_le_bytes();
    let [b0, b1, b2, b3] = state[1].to_le_bytes();
    let [c0, c1, c2, c3] = state[2].to_le_bytes();
    let [d0, d1, d2, d3] = state[3].to_le_bytes();
    [
        a0, a1, a2, a3, b0, b1, b2, b3, c0, c1, c2, c3, d0, d1, d2, d3,
    ]
}
