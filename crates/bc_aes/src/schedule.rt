//! Key expansion, into words of 32 bits.

ghost use Rattle.std.specs.Prelude.{◌≡◌, ◌+◌, ◌-◌, ◌*◌, ◌/◌, ◌<◌, ◌≤◌, ◌⊎◌, length, map, take};
ghost use Rattle.bc_aes.specs.KeyExpansion.{rounds, rot_word, sub_word, xor_word, rcon, added_word, key_expansion};
ghost use Rattle.bc_aes.specs.Columns.{column, schedule_bytes, unmixed_column, IsUnmixed};

use crate::columns::{substituted, substituted_turned, unmixed, word_at};
use crate::tables::RCON;

/// SubWord.
fn substituted_word(word: u32) -> u32
    ensures substitutes { column result ≡ sub_word (column word) }
{
    substituted(word, word, word, word)
}

/// The round constant of this number.
fn constant(number: usize) -> u32
    requires at_least_one { 1 ≤ number }
    requires at_most_ten { number ≤ 10 }
    ensures holds { column result ≡ rcon number }
{
    u32::from_le_bytes([RCON[number - 1], 0, 0, 0])
}

/// What is added to word i - nk to make word i, where this is word i - 1.
fn addend(nk: usize, i: usize, word: u32) -> u32
    requires key_size { (nk ≡ 4) ⊎ (nk ≡ 8) }
    requires below { i < 4 * (rounds nk + 1) }
    requires behind_key { nk ≤ i }
    ensures adds { column result ≡ added_word nk i (column word) }
{
    if i % nk == 0 {
        substituted_turned(word) ^ constant(i / nk)
    } else if nk == 8 && i % 8 == 4 {
        substituted_word(word)
    } else {
        word
    }
}

/// The key as the first words of its schedule.
fn begin(key: &[u8], schedule: &mut [u32])
    requires fits { length key.now / 4 ≤ length schedule.old }
    requires whole { length key.now ≡ 4 * (length key.now / 4) }
    ensures begins { schedule_bytes (take (length key.now / 4) schedule.new) ≡ key.now }
{
    for i in 0..key.len() / 4 {
        schedule[i] = word_at(key, 4 * i);
    }
}

/// Expands a key of 16 or 32 bytes into the words of its schedule, 44 or 60 (FIPS 197, 5.2).
pub(crate) fn expand(key: &[u8], schedule: &mut [u32])
    requires key_size { (length key.now ≡ 16) ⊎ (length key.now ≡ 32) }
    requires schedule_size { length schedule.old ≡ 4 * (rounds (length key.now / 4) + 1) }
    ensures expands { schedule_bytes schedule.new ≡ key_expansion (length key.now / 4) key.now }
{
    begin(key, schedule);
    let nk = key.len() / 4;
    for i in nk..schedule.len() {
        let word = schedule[i - nk] ^ addend(nk, i, schedule[i - 1]);
        schedule[i] = word;
    }
}

/// InvMixColumns of one column.
fn unmixed_word(word: u32) -> u32
    ensures unmixes { column result ≡ unmixed_column (column word) }
{
    let turned = substituted_word(word);
    unmixed(turned, turned, turned, turned)
}

/// Unmixes the words between the first and the last four, for decipherment (FIPS 197, 5.3.5).
pub(crate) fn unmix(schedule: &[u32], unmixed_schedule: &mut [u32])
    requires { length unmixed_schedule.old ≡ length schedule.now }
    ensures unmixes { IsUnmixed schedule.now unmixed_schedule.new }
{
    for (i, word) in schedule.iter().enumerate() {
        unmixed_schedule[i] = unmixed_word(*word);
    }
}
