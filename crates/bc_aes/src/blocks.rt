//! Texts of whole blocks, under an expanded key: eight blocks at a time as far as they go, and the
//! rest one by one.

ghost use Rattle.std.specs.Prelude.{◌≡◌, ◌+◌, ◌*◌, ◌%◌, ◌≤◌, List, ℕ, length, take, drop, slice_range};
ghost use Rattle.bc_aes.specs.Blocks.{EachBlock};
ghost use Rattle.bc_aes.specs.Columns.{schedule_bytes, encipher_by_words, decipher_by_words, IsUnmixed};
ghost use Rattle.bc_aes.specs.SlicedRounds.{AreRoundKeys, encipher_by_keys, decipher_by_keys};

use crate::eight::{decrypt_eight, encrypt_eight};
use crate::rounds::{decrypt, encrypt};
use crate::slices::Slices;

/// The bytes from this place on.
#[inline(always)]
pub(crate) fn bytes_at<const N: usize>(text: &[u8], at: usize) -> [u8; N]
    requires { at + N ≤ length text.now }
    ensures holds { result ≡ slice_range text.now at (at + N) }
{
    let mut bytes = [0; N];
    bytes.copy_from_slice(&text[at..at + N]);
    bytes
}

/// Writes bytes from this place on.
#[inline(always)]
pub(crate) fn put_bytes(text: &mut [u8], at: usize, bytes: &[u8])
    requires { at + length bytes.now ≤ length text.old }
    ensures before { take at text.new ≡ take at text.old }
    ensures here { slice_range text.new at (at + length bytes.now) ≡ bytes.now }
    ensures after { drop (at + length bytes.now) text.new ≡ drop (at + length bytes.now) text.old }
{
    text[at..at + bytes.len()].copy_from_slice(bytes);
}

// Takes each block out of a text of whole blocks, does a step with it, and puts it back.
macro_rules! each_block {
    ($text:ident, $block:ident => $step:expr) => {
        for i in 0..$text.len() / 16 {
            let mut $block: [u8; 16] = bytes_at($text, 16 * i);
            $step;
            put_bytes($text, 16 * i, &$block);
        }
    };
}

/// Enciphers each block in place, one by one.
#[inline(always)]
fn encrypt_singly(schedule: &[u32], text: &mut [u8])
    requires long { 8 ≤ length schedule.now }
    requires whole_blocks { length text.old % 16 ≡ 0 }
    ensures enciphers { EachBlock (encipher_by_words schedule.now) text.old text.new }
{
    each_block!(text, block => encrypt(schedule, &mut block));
}

/// Enciphers each block in place, eight by eight.
#[inline(always)]
pub(crate) fn encrypt_pieces(keys: &[Slices], text: &mut [u8])
    requires long { 2 ≤ length keys.now }
    requires whole_pieces { length text.old % 128 ≡ 0 }
    ensures enciphers { (schedule : List ℕ) → AreRoundKeys schedule keys.now →
        EachBlock (encipher_by_keys keys.now schedule) text.old text.new }
{
    for i in 0..text.len() / 128 {
        encrypt_eight(keys, &mut text[128 * i..128 * i + 128]);
    }
}

/// Enciphers each block in place under a schedule and the same round keys in slices.
#[inline]
pub(crate) fn encrypt_each(schedule: &[u32], keys: &[Slices], text: &mut [u8])
    requires long { 8 ≤ length schedule.now }
    requires sliced { AreRoundKeys (schedule_bytes schedule.now) keys.now }
    requires all_rounds { length schedule.now ≡ 4 * length keys.now }
    requires whole_blocks { length text.old % 16 ≡ 0 }
    ensures enciphers { EachBlock (encipher_by_words schedule.now) text.old text.new }
{
    let pieces = text.len() / 128 * 128;
    encrypt_pieces(keys, &mut text[..pieces]);
    encrypt_singly(schedule, &mut text[pieces..]);
}

/// Deciphers each block in place, one by one.
#[inline(always)]
fn decrypt_singly(schedule: &[u32], unmixed_schedule: &[u32], raw: &mut [u8])
    requires long { 8 ≤ length schedule.now }
    requires unmixed { IsUnmixed schedule.now unmixed_schedule.now }
    requires whole_blocks { length raw.old % 16 ≡ 0 }
    ensures deciphers { EachBlock (decipher_by_words schedule.now) raw.old raw.new }
{
    each_block!(raw, block => decrypt(schedule, unmixed_schedule, &mut block));
}

/// Deciphers each block in place, eight by eight.
#[inline(always)]
pub(crate) fn decrypt_pieces(keys: &[Slices], raw: &mut [u8])
    requires long { 2 ≤ length keys.now }
    requires whole_pieces { length raw.old % 128 ≡ 0 }
    ensures deciphers { (schedule : List ℕ) → AreRoundKeys schedule keys.now →
        EachBlock (decipher_by_keys keys.now schedule) raw.old raw.new }
{
    for i in 0..raw.len() / 128 {
        decrypt_eight(keys, &mut raw[128 * i..128 * i + 128]);
    }
}

/// Deciphers each block in place under a schedule, the unmixed one and the round keys in slices.
#[inline]
pub(crate) fn decrypt_each(
    schedule: &[u32],
    unmixed_schedule: &[u32],
    keys: &[Slices],
    raw: &mut [u8],
)
    requires long { 8 ≤ length schedule.now }
    requires unmixed { IsUnmixed schedule.now unmixed_schedule.now }
    requires sliced { AreRoundKeys (schedule_bytes schedule.now) keys.now }
    requires all_rounds { length schedule.now ≡ 4 * length keys.now }
    requires whole_blocks { length raw.old % 16 ≡ 0 }
    ensures deciphers { EachBlock (decipher_by_words schedule.now) raw.old raw.new }
{
    let pieces = raw.len() / 128 * 128;
    decrypt_pieces(keys, &mut raw[..pieces]);
    decrypt_singly(schedule, unmixed_schedule, &mut raw[pieces..]);
}
