//! The cipher on eight blocks at a time, in bit slices.

ghost use Rattle.std.specs.Prelude.{◌≡◌, ℕ, ◌<◌, ◌≤◌, List, length};
ghost use Rattle.bc_aes.specs.Blocks.{EachBlock};
ghost use Rattle.bc_aes.specs.Slices.{slices_of, EachSlicedBlock};
ghost use Rattle.bc_aes.specs.SlicedRounds.{raised_round, raised_last_round, raised_inv_round, raised_inv_last_round};
ghost use Rattle.bc_aes.specs.SlicedRounds.{EachSlicedByKey, AreRoundKeys, encipher_by_keys, decipher_by_keys};

use crate::circuit::{inv_sub_bytes, sub_bytes};
use crate::layers::{add, inv_mix_columns, inv_shift_rows, mix_columns, shift_rows};
use crate::slices::{Slices, from_blocks, to_blocks};

/// SubBytes, ShiftRows, MixColumns and AddRoundKey. Bytes are moved before they go through the
/// S-box, which is the same.
#[inline(always)]
fn round(q: Slices, key: Slices) -> Slices
    ensures goes_on { EachSlicedByKey raised_round (slices_of q) (slices_of key) (slices_of result) }
{
    add(mix_columns(sub_bytes(shift_rows(q))), key)
}

/// SubBytes, ShiftRows and AddRoundKey.
#[inline(always)]
fn last_round(q: Slices, key: Slices) -> Slices
    ensures ends { EachSlicedByKey raised_last_round (slices_of q) (slices_of key) (slices_of result) }
{
    add(sub_bytes(shift_rows(q)), key)
}

/// InvShiftRows, InvSubBytes, AddRoundKey and InvMixColumns.
#[inline(always)]
fn inv_round(q: Slices, key: Slices) -> Slices
    ensures goes_on { EachSlicedByKey raised_inv_round (slices_of q) (slices_of key) (slices_of result) }
{
    inv_mix_columns(add(inv_sub_bytes(inv_shift_rows(q)), key))
}

/// InvShiftRows, InvSubBytes and AddRoundKey.
#[inline(always)]
fn inv_last_round(q: Slices, key: Slices) -> Slices
    ensures ends { EachSlicedByKey raised_inv_last_round (slices_of q) (slices_of key) (slices_of result) }
{
    add(inv_sub_bytes(inv_shift_rows(q)), key)
}

/// Eight blocks, enciphered (FIPS 197, 5.1).
#[inline(always)]
fn enciphered(keys: &[Slices], q: Slices) -> Slices
    requires { 2 ≤ length keys.now }
    ensures enciphers { (schedule : List ℕ) → AreRoundKeys schedule keys.now →
        EachSlicedBlock (encipher_by_keys keys.now schedule) (slices_of q) (slices_of result) }
{
    let mut state = add(q, keys[0]);
    for before in 0..keys.len() - 2 {
        let next = round(state, keys[before + 1]);
        state = next;
    }
    last_round(state, keys[keys.len() - 1])
}

/// Eight blocks, deciphered (FIPS 197, 5.3).
#[inline(always)]
fn deciphered(keys: &[Slices], q: Slices) -> Slices
    requires { 2 ≤ length keys.now }
    ensures deciphers { (schedule : List ℕ) → AreRoundKeys schedule keys.now →
        EachSlicedBlock (decipher_by_keys keys.now schedule) (slices_of q) (slices_of result) }
{
    let last = keys.len() - 1;
    let mut state = add(q, keys[last]);
    for before in 0..last - 1 {
        let next = inv_round(state, keys[last - (before + 1)]);
        state = next;
    }
    inv_last_round(state, keys[0])
}

/// Enciphers eight blocks in place under the round keys of a schedule, in slices.
#[inline(never)]
pub(crate) fn encrypt_eight(keys: &[Slices], piece: &mut [u8])
    requires long { 2 ≤ length keys.now }
    requires size { length piece.old ≡ 128 }
    ensures enciphers { (schedule : List ℕ) → AreRoundKeys schedule keys.now →
        EachBlock (encipher_by_keys keys.now schedule) piece.old piece.new }
{
    let state = enciphered(keys, from_blocks(piece));
    to_blocks(state, piece);
}

/// Deciphers eight blocks in place under the round keys of a schedule, in slices.
#[inline(never)]
pub(crate) fn decrypt_eight(keys: &[Slices], piece: &mut [u8])
    requires long { 2 ≤ length keys.now }
    requires size { length piece.old ≡ 128 }
    ensures deciphers { (schedule : List ℕ) → AreRoundKeys schedule keys.now →
        EachBlock (decipher_by_keys keys.now schedule) piece.old piece.new }
{
    let state = deciphered(keys, from_blocks(piece));
    to_blocks(state, piece);
}
