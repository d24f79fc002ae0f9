//! The plain program: the key expansion and the cipher byte by byte, by the arithmetic of the
//! definitions. It is slow, shares no round, table or schedule with the fast program, and stands
//! here to be read and compared with.

ghost use Rattle.std.specs.Prelude.{◌≡◌, ◌+◌, ◌-◌, ◌*◌, ◌/◌, ◌%◌, ◌<◌, ◌≤◌, ◌⊎◌, ◌==◌};
ghost use Rattle.std.specs.Prelude.{if◌then◌else◌, length, slice_index};
ghost use Rattle.std.specs.Int.{bit_at};
ghost use Rattle.bc_aes.specs.Field.{times_x, product, inverse};
ghost use Rattle.bc_aes.specs.State.{affine, inv_affine, sub_byte, inv_sub_byte, sub_bytes, inv_sub_bytes};
ghost use Rattle.bc_aes.specs.State.{shift_rows, inv_shift_rows, mixed, mix_columns_by, add_round_key};
ghost use Rattle.bc_aes.specs.KeyExpansion as expansion;
ghost use Rattle.bc_aes.specs.Cipher as cipher;
ghost use Rattle.bc_aes.specs.Columns.{mixed_column};

use crate::blocks::{bytes_at, put_bytes};

/// The product with x (FIPS 197, 4.2.1).
#[tactic(auto, using(crate::proofs::FieldLemmas::reduced_lt), unfolding(crate::specs::Field::times_x))]
fn times_x(a: u8) -> u8
    ensures doubles { result ≡ times_x a }
{
    if a < 128 {
        2 * a
    } else {
        ((2 * u16::from(a)) ^ 0x11b) as u8
    }
}

/// What the lowest term of a byte adds to a product.
fn term(rest: u8, power: u8) -> u8
    ensures picks { result ≡ (if rest % 2 == 1 then power else 0) }
{
    if rest % 2 == 1 { power } else { 0 }
}

/// The product of two bytes, by eight doublings (4.2).
fn product(a: u8, b: u8) -> u8
    ensures multiplies { result ≡ product a b }
{
    let mut sum = 0;
    let mut power = a;
    let mut rest = b;
    for _i in 0..8u32 {
        sum ^= term(rest, power);
        power = times_x(power);
        rest /= 2;
    }
    sum
}

/// The byte whose product with this one is 1, or 0, by search (5.1.1).
fn inverse(a: u8) -> u8
    ensures inverts { result ≡ inverse a }
{
    for b in 0..256u16 {
        if product(a, b as u8) == 1 {
            return b as u8;
        }
    }
    0
}

/// Bit i of a byte.
fn bit(b: u8, i: u32) -> u8
    requires { i < 8 }
    ensures reads { result ≡ bit_at b i }
    ensures below { result < 2 }
{
    (b >> i) % 2
}

/// Bit i of the affine map (5.1.1).
fn affine_bit(b: u8, i: u32) -> u8
    requires { i < 8 }
    ensures sums { result ≡ (bit_at b i + bit_at b ((i + 4) % 8) + bit_at b ((i + 5) % 8)
        + bit_at b ((i + 6) % 8) + bit_at b ((i + 7) % 8) + bit_at 0x63 i) % 2 }
    ensures below { result < 2 }
{
    (bit(b, i)
        + bit(b, (i + 4) % 8)
        + bit(b, (i + 5) % 8)
        + bit(b, (i + 6) % 8)
        + bit(b, (i + 7) % 8)
        + bit(0x63, i))
        % 2
}

/// The affine map (5.1.1).
#[tactic(auto, unfolding(crate::specs::State::affine))]
fn affine(b: u8) -> u8
    ensures maps { result ≡ affine b }
{
    let low = affine_bit(b, 0) + 2 * affine_bit(b, 1) + 4 * affine_bit(b, 2) + 8 * affine_bit(b, 3);
    let high = affine_bit(b, 4)
        + 2 * affine_bit(b, 5)
        + 4 * affine_bit(b, 6)
        + 8 * affine_bit(b, 7);
    low + 16 * high
}

/// Bit i of what undoes the affine map (5.3.2).
fn inv_affine_bit(b: u8, i: u32) -> u8
    requires { i < 8 }
    ensures sums { result ≡
        (bit_at b ((i + 2) % 8) + bit_at b ((i + 5) % 8) + bit_at b ((i + 7) % 8) + bit_at 0x05 i) % 2 }
    ensures below { result < 2 }
{
    (bit(b, (i + 2) % 8) + bit(b, (i + 5) % 8) + bit(b, (i + 7) % 8) + bit(0x05, i)) % 2
}

/// What undoes the affine map (5.3.2).
#[tactic(auto, unfolding(crate::specs::State::inv_affine))]
fn inv_affine(b: u8) -> u8
    ensures maps_back { result ≡ inv_affine b }
{
    let low = inv_affine_bit(b, 0)
        + 2 * inv_affine_bit(b, 1)
        + 4 * inv_affine_bit(b, 2)
        + 8 * inv_affine_bit(b, 3);
    let high = inv_affine_bit(b, 4)
        + 2 * inv_affine_bit(b, 5)
        + 4 * inv_affine_bit(b, 6)
        + 8 * inv_affine_bit(b, 7);
    low + 16 * high
}

/// The S-box (5.1.1).
#[tactic(auto, unfolding(crate::specs::State::sub_byte))]
fn sub_byte(b: u8) -> u8
    ensures substitutes { result ≡ sub_byte b }
{
    affine(inverse(b))
}

/// The inverse S-box (5.3.2).
#[tactic(auto, unfolding(crate::specs::State::inv_sub_byte))]
fn inv_sub_byte(b: u8) -> u8
    ensures substitutes_back { result ≡ inv_sub_byte b }
{
    inverse(inv_affine(b))
}

/// Each byte through the S-box (5.1.1).
#[tactic(auto, unfolding(crate::specs::State::sub_bytes))]
fn sub_bytes(state: &mut [u8])
    ensures substitutes { state.new ≡ sub_bytes state.old }
{
    for byte in state.iter_mut() {
        *byte = sub_byte(*byte);
    }
}

/// Each byte through the inverse S-box (5.3.2).
#[tactic(auto, unfolding(crate::specs::State::inv_sub_bytes))]
fn inv_sub_bytes(state: &mut [u8; 16])
    ensures substitutes_back { state.new ≡ inv_sub_bytes state.old }
{
    for byte in state.iter_mut() {
        *byte = inv_sub_byte(*byte);
    }
}

/// Row r moves left by r columns (5.1.2).
#[tactic(auto, unfolding(crate::specs::State::shift_rows))]
fn shift_rows(s: &[u8; 16]) -> [u8; 16]
    ensures shifts { result ≡ shift_rows s.now }
{
    [
        s[0], s[5], s[10], s[15], s[4], s[9], s[14], s[3], s[8], s[13], s[2], s[7], s[12], s[1],
        s[6], s[11],
    ]
}

/// Row r moves right by r columns (5.3.1).
#[tactic(auto, unfolding(crate::specs::State::inv_shift_rows))]
fn inv_shift_rows(s: &[u8; 16]) -> [u8; 16]
    ensures shifts_back { result ≡ inv_shift_rows s.now }
{
    [
        s[0], s[13], s[10], s[7], s[4], s[1], s[14], s[11], s[8], s[5], s[2], s[15], s[12], s[9],
        s[6], s[3],
    ]
}

/// Row r of a column multiplied by the circulant matrix with this first row (5.1.3).
#[tactic(auto, unfolding(crate::specs::State::mixed))]
fn mixed(first_row: &[u8; 4], r: usize, x: &[u8; 4]) -> u8
    requires { r < 4 }
    ensures mixes { result ≡ mixed first_row.now r
        (slice_index x.now 0) (slice_index x.now 1) (slice_index x.now 2) (slice_index x.now 3) }
{
    product(first_row[(4 - r) % 4], x[0])
        ^ product(first_row[(5 - r) % 4], x[1])
        ^ product(first_row[(6 - r) % 4], x[2])
        ^ product(first_row[(7 - r) % 4], x[3])
}

/// A column multiplied by that matrix.
fn mixed_column(first_row: &[u8; 4], x: &[u8; 4]) -> [u8; 4]
    ensures mixes { result ≡ mixed_column first_row.now
        (slice_index x.now 0) (slice_index x.now 1) (slice_index x.now 2) (slice_index x.now 3) }
{
    [
        mixed(first_row, 0, x),
        mixed(first_row, 1, x),
        mixed(first_row, 2, x),
        mixed(first_row, 3, x),
    ]
}

/// Each column multiplied by that matrix (5.1.3, 5.3.3).
#[tactic(auto, unfolding(crate::specs::State::mix_columns_by))]
fn mix_columns_by(first_row: &[u8; 4], s: &[u8; 16]) -> [u8; 16]
    ensures mixes { result ≡ mix_columns_by first_row.now s.now }
{
    let [a0, a1, a2, a3] = mixed_column(first_row, &[s[0], s[1], s[2], s[3]]);
    let [b0, b1, b2, b3] = mixed_column(first_row, &[s[4], s[5], s[6], s[7]]);
    let [c0, c1, c2, c3] = mixed_column(first_row, &[s[8], s[9], s[10], s[11]]);
    let [d0, d1, d2, d3] = mixed_column(first_row, &[s[12], s[13], s[14], s[15]]);
    [
        a0, a1, a2, a3, b0, b1, b2, b3, c0, c1, c2, c3, d0, d1, d2, d3,
    ]
}

/// The state plus the round key (5.1.4).
#[tactic(auto, unfolding(crate::specs::State::add_round_key))]
fn add_round_key(s: &[u8; 16], k: &[u8; 16]) -> [u8; 16]
    ensures adds { result ≡ add_round_key s.now k.now }
{
    let [a0, a1, a2, a3] = added_column(&[s[0], s[1], s[2], s[3]], &[k[0], k[1], k[2], k[3]]);
    let [b0, b1, b2, b3] = added_column(&[s[4], s[5], s[6], s[7]], &[k[4], k[5], k[6], k[7]]);
    let [c0, c1, c2, c3] = added_column(&[s[8], s[9], s[10], s[11]], &[k[8], k[9], k[10], k[11]]);
    let [d0, d1, d2, d3] = added_column(
        &[s[12], s[13], s[14], s[15]],
        &[k[12], k[13], k[14], k[15]],
    );
    [
        a0, a1, a2, a3, b0, b1, b2, b3, c0, c1, c2, c3, d0, d1, d2, d3,
    ]
}

/// A column plus a word of the round key.
fn added_column(x: &[u8; 4], k: &[u8; 4]) -> [u8; 4]
    ensures adds { result ≡ expansion.xor_word x.now k.now }
{
    [x[0] ^ k[0], x[1] ^ k[1], x[2] ^ k[2], x[3] ^ k[3]]
}

/// One round (5.1).
#[tactic(auto, unfolding(crate::specs::Cipher::round))]
fn round(state: &[u8; 16], key: &[u8; 16]) -> [u8; 16]
    ensures goes_on { result ≡ cipher.round state.now key.now }
{
    let mut substituted = *state;
    sub_bytes(&mut substituted);
    add_round_key(
        &mix_columns_by(&[0x02, 0x03, 0x01, 0x01], &shift_rows(&substituted)),
        key,
    )
}

/// The last round (5.1).
#[tactic(auto, unfolding(crate::specs::Cipher::last_round))]
fn last_round(state: &[u8; 16], key: &[u8; 16]) -> [u8; 16]
    ensures ends { result ≡ cipher.last_round state.now key.now }
{
    let mut substituted = *state;
    sub_bytes(&mut substituted);
    add_round_key(&shift_rows(&substituted), key)
}

/// One round of the inverse (5.3).
#[tactic(auto, unfolding(crate::specs::Cipher::inv_round))]
fn inv_round(state: &[u8; 16], key: &[u8; 16]) -> [u8; 16]
    ensures goes_on { result ≡ cipher.inv_round state.now key.now }
{
    let mut moved = inv_shift_rows(state);
    inv_sub_bytes(&mut moved);
    mix_columns_by(&[0x0e, 0x0b, 0x0d, 0x09], &add_round_key(&moved, key))
}

/// The last round of the inverse (5.3).
#[tactic(auto, unfolding(crate::specs::Cipher::inv_last_round))]
fn inv_last_round(state: &[u8; 16], key: &[u8; 16]) -> [u8; 16]
    ensures ends { result ≡ cipher.inv_last_round state.now key.now }
{
    let mut moved = inv_shift_rows(state);
    inv_sub_bytes(&mut moved);
    add_round_key(&moved, key)
}

/// Each byte of a word through the S-box (5.2).
#[tactic(auto, unfolding(crate::specs::State::sub_bytes))]
fn sub_word(word: &[u8; 4]) -> [u8; 4]
    ensures substitutes { result ≡ expansion.sub_word word.now }
{
    let mut substituted = *word;
    sub_bytes(&mut substituted);
    substituted
}

/// The first byte of a word moves to the end (5.2).
fn rot_word(word: &[u8; 4]) -> [u8; 4]
    ensures moves { result ≡ expansion.rot_word word.now }
{
    [word[1], word[2], word[3], word[0]]
}

/// x to the power n, by doubling.
fn power_of_x(n: usize) -> u8
    ensures raises { result ≡ expansion.power_of_x n }
{
    let mut power = 1;
    for _i in 0..n {
        power = times_x(power);
    }
    power
}

/// The round constant of this number (5.2).
fn rcon(number: usize) -> [u8; 4]
    requires { 1 ≤ number }
    ensures holds { result ≡ expansion.rcon number }
{
    [power_of_x(number - 1), 0, 0, 0]
}

/// What is added to word i - nk to make word i, where this is word i - 1 (5.2).
fn added_word(nk: usize, i: usize, word: &[u8; 4]) -> [u8; 4]
    requires some { 1 ≤ nk }
    requires after_key { nk ≤ i }
    ensures adds { result ≡ expansion.added_word nk i word.now }
{
    if i % nk == 0 {
        added_column(&sub_word(&rot_word(word)), &rcon(i / nk))
    } else if nk == 8 && i % 8 == 4 {
        sub_word(word)
    } else {
        *word
    }
}

/// Expands a key of 16 or 32 bytes into its schedule, 176 or 240 bytes (5.2).
fn expand(key: &[u8], schedule: &mut [u8])
    requires key_size { (length key.now ≡ 16) ⊎ (length key.now ≡ 32) }
    requires schedule_size { length schedule.old ≡ 16 * (expansion.rounds (length key.now / 4) + 1) }
    ensures expands { schedule.new ≡ expansion.key_expansion (length key.now / 4) key.now }
{
    let nk = key.len() / 4;
    put_bytes(schedule, 0, key);
    for i in nk..schedule.len() / 4 {
        let first: [u8; 4] = bytes_at(schedule, 4 * (i - nk));
        let before: [u8; 4] = bytes_at(schedule, 4 * (i - 1));
        let next = added_column(&first, &added_word(nk, i, &before));
        put_bytes(schedule, 4 * i, &next);
    }
}

/// A round key.
fn key_of_round(schedule: &[u8], round: usize) -> [u8; 16]
    requires { 16 * round + 16 ≤ length schedule.now }
    ensures holds { result ≡ expansion.round_key schedule.now round }
{
    bytes_at(schedule, 16 * round)
}

/// The cipher under an expanded key (5.1).
fn enciphered(schedule: &[u8], block: &[u8; 16]) -> [u8; 16]
    requires { 32 ≤ length schedule.now }
    ensures enciphers { result ≡ cipher.encipher_by (length schedule.now / 16 - 1) schedule.now block.now }
{
    let last = schedule.len() / 16 - 1;
    let first_key = key_of_round(schedule, 0);
    let mut state = add_round_key(block, &first_key);
    for before in 0..last - 1 {
        let key = key_of_round(schedule, before + 1);
        let next = round(&state, &key);
        state = next;
    }
    let last_key = key_of_round(schedule, last);
    last_round(&state, &last_key)
}

/// The inverse cipher under an expanded key (5.3).
fn deciphered(schedule: &[u8], block: &[u8; 16]) -> [u8; 16]
    requires { 32 ≤ length schedule.now }
    ensures deciphers { result ≡ cipher.decipher_by (length schedule.now / 16 - 1) schedule.now block.now }
{
    let last = schedule.len() / 16 - 1;
    let last_key = key_of_round(schedule, last);
    let mut state = add_round_key(block, &last_key);
    for before in 0..last - 1 {
        let key = key_of_round(schedule, last - (before + 1));
        let next = inv_round(&state, &key);
        state = next;
    }
    let first_key = key_of_round(schedule, 0);
    inv_last_round(&state, &first_key)
}

/// Enciphers one block under a key of 16 or 32 bytes (FIPS 197, 5.1).
pub fn encipher(key: &[u8], block: &[u8; 16]) -> [u8; 16]
    requires { (length key.now ≡ 16) ⊎ (length key.now ≡ 32) }
    ensures enciphers { result ≡ cipher.encipher (length key.now / 4) key.now block.now }
{
    let mut room = [0; 240];
    let schedule = &mut room[..4 * key.len() + 112];
    expand(key, schedule);
    enciphered(schedule, block)
}

/// Deciphers one block under a key of 16 or 32 bytes (FIPS 197, 5.3).
pub fn decipher(key: &[u8], block: &[u8; 16]) -> [u8; 16]
    requires { (length key.now ≡ 16) ⊎ (length key.now ≡ 32) }
    ensures deciphers { result ≡ cipher.decipher (length key.now / 4) key.now block.now }
{
    let mut room = [0; 240];
    let schedule = &mut room[..4 * key.len() + 112];
    expand(key, schedule);
    deciphered(schedule, block)
}
