//! The rounds of the cipher over a schedule of words, in either direction.

ghost use Rattle.std.specs.Prelude.{◌≡◌, ◌+◌, ◌-◌, ◌*◌, ◌/◌, ◌<◌, ◌≤◌, length};
ghost use Rattle.bc_aes.specs.Columns.{state_bytes, schedule_bytes, encipher_by_words, decipher_by_words, IsUnmixed};
ghost use Rattle.bc_aes.specs.KeyExpansion.{round_key};
ghost use Rattle.bc_aes.specs.Cipher as cipher;
ghost use Rattle.bc_aes.specs.State.{add_round_key, inv_mix_columns, inv_sub_bytes, inv_shift_rows};

use crate::columns::{load, mixed, store, substituted, unmixed, unsubstituted};

/// The words of a round.
#[inline(always)]
pub(crate) fn key_of_round(schedule: &[u32], round: usize) -> [u32; 4]
    requires { 4 * round + 4 ≤ length schedule.now }
    ensures holds { state_bytes result ≡ round_key (schedule_bytes schedule.now) round }
{
    let at = 4 * round;
    [
        schedule[at],
        schedule[at + 1],
        schedule[at + 2],
        schedule[at + 3],
    ]
}

/// AddRoundKey.
#[inline(always)]
pub(crate) fn added(state: [u32; 4], key: [u32; 4]) -> [u32; 4]
    ensures adds { state_bytes result ≡ add_round_key (state_bytes state) (state_bytes key) }
{
    [
        state[0] ^ key[0],
        state[1] ^ key[1],
        state[2] ^ key[2],
        state[3] ^ key[3],
    ]
}

/// A round: SubBytes, ShiftRows, MixColumns and AddRoundKey (FIPS 197, 5.1).
#[inline(always)]
fn round(state: [u32; 4], key: [u32; 4]) -> [u32; 4]
    ensures goes_on { state_bytes result ≡ cipher.round (state_bytes state) (state_bytes key) }
{
    let [a, b, c, d] = state;
    added(
        [
            mixed(a, b, c, d),
            mixed(b, c, d, a),
            mixed(c, d, a, b),
            mixed(d, a, b, c),
        ],
        key,
    )
}

/// The last round: SubBytes, ShiftRows and AddRoundKey (FIPS 197, 5.1).
#[inline(always)]
fn last_round(state: [u32; 4], key: [u32; 4]) -> [u32; 4]
    ensures ends { state_bytes result ≡ cipher.last_round (state_bytes state) (state_bytes key) }
{
    let [a, b, c, d] = state;
    added(
        [
            substituted(a, b, c, d),
            substituted(b, c, d, a),
            substituted(c, d, a, b),
            substituted(d, a, b, c),
        ],
        key,
    )
}

/// The state after the rounds that mix.
#[inline(always)]
fn mixing_rounds(schedule: &[u32], block: &[u8; 16]) -> [u32; 4]
    requires { 8 ≤ length schedule.now }
    ensures goes_on { state_bytes result ≡
        cipher.after_round (schedule_bytes schedule.now) block.now (length schedule.now / 4 - 2) }
{
    let mut state = added(load(block), key_of_round(schedule, 0));
    for before in 0..schedule.len() / 4 - 2 {
        let key = key_of_round(schedule, before + 1);
        let next = round(state, key);
        state = next;
    }
    state
}

/// Enciphers a block in place under an expanded key of four words a round (FIPS 197, 5.1).
#[inline(always)]
pub(crate) fn encrypt(schedule: &[u32], block: &mut [u8; 16])
    requires { 8 ≤ length schedule.now }
    ensures enciphers { block.new ≡ encipher_by_words schedule.now block.old }
{
    let state = mixing_rounds(schedule, block);
    *block = store(last_round(state, key_of_round(schedule, schedule.len() / 4 - 1)));
}

/// A round of the equivalent inverse cipher: InvSubBytes, InvShiftRows, InvMixColumns and
/// AddRoundKey (FIPS 197, 5.3.5).
#[inline(always)]
fn equivalent_inv_round(state: [u32; 4], key: [u32; 4]) -> [u32; 4]
    ensures goes_on { state_bytes result ≡
        add_round_key (inv_mix_columns (inv_sub_bytes (inv_shift_rows (state_bytes state)))) (state_bytes key) }
{
    let [a, b, c, d] = state;
    added(
        [
            unmixed(a, d, c, b),
            unmixed(b, a, d, c),
            unmixed(c, b, a, d),
            unmixed(d, c, b, a),
        ],
        key,
    )
}

/// The last round of either inverse cipher: InvSubBytes, InvShiftRows and AddRoundKey (FIPS 197,
/// 5.3).
#[inline(always)]
fn inv_last_round(state: [u32; 4], key: [u32; 4]) -> [u32; 4]
    ensures ends { state_bytes result ≡ cipher.inv_last_round (state_bytes state) (state_bytes key) }
{
    let [a, b, c, d] = state;
    added(
        [
            unsubstituted(a, d, c, b),
            unsubstituted(b, a, d, c),
            unsubstituted(c, b, a, d),
            unsubstituted(d, c, b, a),
        ],
        key,
    )
}

/// The state after the rounds of the inverse that unmix.
#[inline(always)]
fn unmixing_rounds(schedule: &[u32], unmixed_schedule: &[u32], block: &[u8; 16]) -> [u32; 4]
    requires long { 8 ≤ length schedule.now }
    requires unmixed { IsUnmixed schedule.now unmixed_schedule.now }
    ensures goes_on { state_bytes result ≡ cipher.after_inv_round (length schedule.now / 4 - 1)
        (schedule_bytes schedule.now) block.now (length schedule.now / 4 - 2) }
{
    let last = schedule.len() / 4 - 1;
    let mut state = added(load(block), key_of_round(schedule, last));
    for before in 0..last - 1 {
        let key = key_of_round(unmixed_schedule, last - (before + 1));
        let next = equivalent_inv_round(state, key);
        state = next;
    }
    state
}

/// Deciphers a block in place under an expanded key of four words a round and the schedule unmixed
/// (FIPS 197, 5.3.5).
#[inline(always)]
pub(crate) fn decrypt(schedule: &[u32], unmixed_schedule: &[u32], block: &mut [u8; 16])
    requires long { 8 ≤ length schedule.now }
    requires unmixed { IsUnmixed schedule.now unmixed_schedule.now }
    ensures deciphers { block.new ≡ decipher_by_words schedule.now block.old }
{
    let state = unmixing_rounds(schedule, unmixed_schedule, block);
    *block = store(inv_last_round(state, key_of_round(schedule, 0)));
}
