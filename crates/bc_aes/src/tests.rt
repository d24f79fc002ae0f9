//! The example vectors of FIPS 197 (appendix C) and of NIST SP 800-38A (F.1, electronic codebook).

ghost use Rattle.std.specs.Prelude.{◌<◌};

use crate::circuit::{inv_sub_bytes, sub_bytes};
use crate::slices::{from_blocks, to_blocks};
use crate::{Aes128, Aes256, plain};

const PLAIN: u128 = 0x00112233445566778899aabbccddeeff;

/// The bytes 00 to 1f.
const COUNTED_KEY: [u8; 32] = [
    0x00, 0x01, 0x02, 0x03, 0x04, 0x05, 0x06, 0x07, 0x08, 0x09, 0x0a, 0x0b, 0x0c, 0x0d, 0x0e, 0x0f,
    0x10, 0x11, 0x12, 0x13, 0x14, 0x15, 0x16, 0x17, 0x18, 0x19, 0x1a, 0x1b, 0x1c, 0x1d, 0x1e, 0x1f,
];

/// The key of F.1.5.
const BOOK_KEY: [u8; 32] = [
    0x60, 0x3d, 0xeb, 0x10, 0x15, 0xca, 0x71, 0xbe, 0x2b, 0x73, 0xae, 0xf0, 0x85, 0x7d, 0x77, 0x81,
    0x1f, 0x35, 0x2c, 0x07, 0x3b, 0x61, 0x08, 0xd7, 0x2d, 0x98, 0x10, 0xa3, 0x09, 0x14, 0xdf, 0xf4,
];

const BOOK: [u8; 48] = [
    0x6b, 0xc1, 0xbe, 0xe2, 0x2e, 0x40, 0x9f, 0x96, 0xe9, 0x3d, 0x7e, 0x11, 0x73, 0x93, 0x17, 0x2a,
    0xae, 0x2d, 0x8a, 0x57, 0x1e, 0x03, 0xac, 0x9c, 0x9e, 0xb7, 0x6f, 0xac, 0x45, 0xaf, 0x8e, 0x51,
    0x30, 0xc8, 0x1c, 0x46, 0xa3, 0x5c, 0xe4, 0x11, 0xe5, 0xfb, 0xc1, 0x19, 0x1a, 0x0a, 0x52, 0xef,
];

const BOOK_256: [u8; 48] = [
    0xf3, 0xee, 0xd1, 0xbd, 0xb5, 0xd2, 0xa0, 0x3c, 0x06, 0x4b, 0x5a, 0x7e, 0x3d, 0xb1, 0x81, 0xf8,
    0x59, 0x1c, 0xcb, 0x10, 0xd4, 0x10, 0xed, 0x26, 0xdc, 0x5b, 0xa7, 0x4a, 0x31, 0x36, 0x28, 0x70,
    0xb6, 0xed, 0x21, 0xb9, 0x9c, 0xa6, 0xf4, 0xf9, 0xf1, 0x53, 0xe7, 0xb1, 0xbe, 0xaf, 0xed, 0x1d,
];

const BOOK_128: [u8; 48] = [
    0x3a, 0xd7, 0x7b, 0xb4, 0x0d, 0x7a, 0x36, 0x60, 0xa8, 0x9e, 0xca, 0xf3, 0x24, 0x66, 0xef, 0x97,
    0xf5, 0xd3, 0xd5, 0x85, 0x03, 0xb9, 0x69, 0x9d, 0xe7, 0x85, 0x89, 0x5a, 0x96, 0xfd, 0xba, 0xaf,
    0x43, 0xb1, 0xcd, 0x7f, 0x59, 0x8e, 0xce, 0x23, 0x88, 0x1b, 0x00, 0xe3, 0xed, 0x03, 0x06, 0x88,
];

#[test]
fn blocks_under_aes_128(rt: HostRuntime) {
    let aes = Aes128::new(&0x000102030405060708090a0b0c0d0e0f_u128.to_be_bytes());
    let mut block = PLAIN.to_be_bytes();
    aes.encrypt_block(&mut block);
    assert_eq!(rt;
        u128::from_be_bytes(block),
        0x69c4e0d86a7b0430d8cdb78070b4c55a
    );
    aes.decrypt_block(&mut block);
    assert_eq!(rt; u128::from_be_bytes(block), PLAIN);
}

#[test]
fn blocks_under_aes_256(rt: HostRuntime) {
    let aes = Aes256::new(&COUNTED_KEY);
    let mut block = PLAIN.to_be_bytes();
    aes.encrypt_block(&mut block);
    assert_eq!(rt;
        u128::from_be_bytes(block),
        0x8ea2b7ca516745bfeafc49904b496089
    );
    aes.decrypt_block(&mut block);
    assert_eq!(rt; u128::from_be_bytes(block), PLAIN);
}

#[test]
fn texts_under_aes_128(rt: HostRuntime) {
    let aes = Aes128::new(&0x2b7e151628aed2a6abf7158809cf4f3c_u128.to_be_bytes());
    let mut text = BOOK;
    aes.encrypt_blocks(&mut text);
    assert_eq!(rt; text, BOOK_128);
    aes.decrypt_blocks(&mut text);
    assert_eq!(rt; text, BOOK);
}

#[test]
fn texts_under_aes_256(rt: HostRuntime) {
    let aes = Aes256::new(&BOOK_KEY);
    let mut text = BOOK;
    aes.encrypt_blocks(&mut text);
    assert_eq!(rt; text, BOOK_256);
    aes.decrypt_blocks(&mut text);
    assert_eq!(rt; text, BOOK);
    aes.encrypt_blocks(&mut []);
}

#[test]
fn plain_vectors(rt: HostRuntime) {
    let short_key = 0x000102030405060708090a0b0c0d0e0f_u128.to_be_bytes();
    let short = plain::encipher(&short_key, &PLAIN.to_be_bytes());
    assert_eq!(rt;
        u128::from_be_bytes(short),
        0x69c4e0d86a7b0430d8cdb78070b4c55a
    );
    assert_eq!(rt;
        u128::from_be_bytes(plain::decipher(&short_key, &short)),
        PLAIN
    );
    let long = plain::encipher(&COUNTED_KEY, &PLAIN.to_be_bytes());
    assert_eq!(rt;
        u128::from_be_bytes(long),
        0x8ea2b7ca516745bfeafc49904b496089
    );
    assert_eq!(rt;
        u128::from_be_bytes(plain::decipher(&COUNTED_KEY, &long)),
        PLAIN
    );
}

/// A block of zeros under keys of equal bytes, as Python's `cryptography` enciphers it.
#[test]
fn keys_of_equal_bytes(rt: HostRuntime) {
    for (byte, short, long) in [
        (
            0x00,
            0x66e94bd4ef8a2c3b884cfa59ca342b2e,
            0xdc95c078a2408989ad48a21492842087,
        ),
        (
            0xff,
            0xa1f6258c877d5fcd8964484538bfc92c,
            0x4bf85f1b5d54adbc307b0a048389adcb,
        ),
    ] {
        let mut block = [0; 16];
        Aes128::new(&[byte; 16]).encrypt_block(&mut block);
        assert_eq!(rt; u128::from_be_bytes(block), short);
        let mut block = [0; 16];
        Aes256::new(&[byte; 32]).encrypt_block(&mut block);
        assert_eq!(rt; u128::from_be_bytes(block), long);
        assert_eq!(rt; block, plain::encipher(&[byte; 32], &[0; 16]));
    }
}

/// The fast program beside the plain one.
#[test]
fn fast_is_plain(rt: HostRuntime) {
    let aes = Aes256::new(&BOOK_KEY);
    for input in [0, 1, PLAIN, PLAIN << 1, u128::MAX] {
        let mut block = input.to_be_bytes();
        aes.encrypt_block(&mut block);
        assert_eq!(rt; block, plain::encipher(&BOOK_KEY, &input.to_be_bytes()));
        let mut raw = input.to_be_bytes();
        aes.decrypt_block(&mut raw);
        assert_eq!(rt; raw, plain::decipher(&BOOK_KEY, &input.to_be_bytes()));
    }
}

/// The states of rounds 1 to 8 of FIPS 197, appendix C.1: as each round starts, and after its
/// SubBytes.
const STARTS: [u8; 128] = [
    0x00, 0x10, 0x20, 0x30, 0x40, 0x50, 0x60, 0x70, 0x80, 0x90, 0xa0, 0xb0, 0xc0, 0xd0, 0xe0, 0xf0,
    0x89, 0xd8, 0x10, 0xe8, 0x85, 0x5a, 0xce, 0x68, 0x2d, 0x18, 0x43, 0xd8, 0xcb, 0x12, 0x8f, 0xe4,
    0x49, 0x15, 0x59, 0x8f, 0x55, 0xe5, 0xd7, 0xa0, 0xda, 0xca, 0x94, 0xfa, 0x1f, 0x0a, 0x63, 0xf7,
    0xfa, 0x63, 0x6a, 0x28, 0x25, 0xb3, 0x39, 0xc9, 0x40, 0x66, 0x8a, 0x31, 0x57, 0x24, 0x4d, 0x17,
    0x24, 0x72, 0x40, 0x23, 0x69, 0x66, 0xb3, 0xfa, 0x6e, 0xd2, 0x75, 0x32, 0x88, 0x42, 0x5b, 0x6c,
    0xc8, 0x16, 0x77, 0xbc, 0x9b, 0x7a, 0xc9, 0x3b, 0x25, 0x02, 0x79, 0x92, 0xb0, 0x26, 0x19, 0x96,
    0xc6, 0x2f, 0xe1, 0x09, 0xf7, 0x5e, 0xed, 0xc3, 0xcc, 0x79, 0x39, 0x5d, 0x84, 0xf9, 0xcf, 0x5d,
    0xd1, 0x87, 0x6c, 0x0f, 0x79, 0xc4, 0x30, 0x0a, 0xb4, 0x55, 0x94, 0xad, 0xd6, 0x6f, 0xf4, 0x1f,
];

const SUBSTITUTED: [u8; 128] = [
    0x63, 0xca, 0xb7, 0x04, 0x09, 0x53, 0xd0, 0x51, 0xcd, 0x60, 0xe0, 0xe7, 0xba, 0x70, 0xe1, 0x8c,
    0xa7, 0x61, 0xca, 0x9b, 0x97, 0xbe, 0x8b, 0x45, 0xd8, 0xad, 0x1a, 0x61, 0x1f, 0xc9, 0x73, 0x69,
    0x3b, 0x59, 0xcb, 0x73, 0xfc, 0xd9, 0x0e, 0xe0, 0x57, 0x74, 0x22, 0x2d, 0xc0, 0x67, 0xfb, 0x68,
    0x2d, 0xfb, 0x02, 0x34, 0x3f, 0x6d, 0x12, 0xdd, 0x09, 0x33, 0x7e, 0xc7, 0x5b, 0x36, 0xe3, 0xf0,
    0x36, 0x40, 0x09, 0x26, 0xf9, 0x33, 0x6d, 0x2d, 0x9f, 0xb5, 0x9d, 0x23, 0xc4, 0x2c, 0x39, 0x50,
    0xe8, 0x47, 0xf5, 0x65, 0x14, 0xda, 0xdd, 0xe2, 0x3f, 0x77, 0xb6, 0x4f, 0xe7, 0xf7, 0xd4, 0x90,
    0xb4, 0x15, 0xf8, 0x01, 0x68, 0x58, 0x55, 0x2e, 0x4b, 0xb6, 0x12, 0x4c, 0x5f, 0x99, 0x8a, 0x4c,
    0x3e, 0x17, 0x50, 0x76, 0xb6, 0x1c, 0x04, 0x67, 0x8d, 0xfc, 0x22, 0x95, 0xf6, 0xa8, 0xbf, 0xc0,
];

/// The constant of the S-box is added with the round keys.
fn with_constant(piece: &[u8; 128]) -> [u8; 128] {
    let mut raised = *piece;
    for i in 0..128usize {
        raised[i] ^= 0x63;
    }
    raised
}

#[test]
fn sub_bytes_in_slices(rt: HostRuntime) {
    let mut piece = [0; 128];
    to_blocks(sub_bytes(from_blocks(&STARTS)), &mut piece);
    assert_eq!(rt; with_constant(&piece), SUBSTITUTED);
    to_blocks(
        inv_sub_bytes(from_blocks(&with_constant(&SUBSTITUTED))),
        &mut piece,
    );
    assert_eq!(rt; piece, STARTS);
}

/// Nine blocks with the example's bytes: eight that go together, and one that is left.
#[test]
fn nine_example_blocks(rt: HostRuntime) {
    let short = Aes128::new(&0x000102030405060708090a0b0c0d0e0f_u128.to_be_bytes());
    let long = Aes256::new(&COUNTED_KEY);
    let mut text = [0; 144];
    for i in 0..9usize {
        text[16 * i..16 * i + 16].copy_from_slice(&PLAIN.to_be_bytes());
    }
    let plain = text;
    short.encrypt_blocks(&mut text);
    for i in 0..9usize {
        assert_eq!(rt;
            &text[16 * i..16 * i + 16],
            &0x69c4e0d86a7b0430d8cdb78070b4c55a_u128.to_be_bytes()[..]
        );
    }
    short.decrypt_blocks(&mut text);
    assert_eq!(rt; text, plain);
    long.encrypt_blocks(&mut text);
    for i in 0..9usize {
        assert_eq!(rt;
            &text[16 * i..16 * i + 16],
            &0x8ea2b7ca516745bfeafc49904b496089_u128.to_be_bytes()[..]
        );
    }
    long.decrypt_blocks(&mut text);
    assert_eq!(rt; text, plain);
}

/// 25 blocks that differ.
fn many_blocks() -> [u8; 400] {
    let mut text = [0; 400];
    for i in 0..400usize {
        text[i] = (i * 3 % 251) as u8;
    }
    text
}

/// Block i of 25.
fn block_of(text: &[u8; 400], i: usize) -> [u8; 16]
    requires { i < 25 }
{
    let mut block = [0; 16];
    block.copy_from_slice(&text[16 * i..16 * i + 16]);
    block
}

/// Many blocks at once beside the same blocks one by one, for each rest and for no block at all.
#[test]
fn many_are_as_single_under_aes_128(rt: HostRuntime) {
    let aes = Aes128::new(&0x2b7e151628aed2a6abf7158809cf4f3c_u128.to_be_bytes());
    let text = many_blocks();
    for blocks in 0..26usize {
        let mut enciphered = text;
        aes.encrypt_blocks(&mut enciphered[..16 * blocks]);
        let mut deciphered = text;
        aes.decrypt_blocks(&mut deciphered[..16 * blocks]);
        for i in 0..25usize {
            let mut there = block_of(&text, i);
            let mut back = block_of(&text, i);
            if i < blocks {
                aes.encrypt_block(&mut there);
                aes.decrypt_block(&mut back);
            }
            assert_eq!(rt; block_of(&enciphered, i), there);
            assert_eq!(rt; block_of(&deciphered, i), back);
        }
    }
}

#[test]
fn many_are_as_single_under_aes_256(rt: HostRuntime) {
    let aes = Aes256::new(&BOOK_KEY);
    let text = many_blocks();
    for blocks in 0..26usize {
        let mut enciphered = text;
        aes.encrypt_blocks(&mut enciphered[..16 * blocks]);
        let mut deciphered = text;
        aes.decrypt_blocks(&mut deciphered[..16 * blocks]);
        for i in 0..25usize {
            let mut there = block_of(&text, i);
            let mut back = block_of(&text, i);
            if i < blocks {
                aes.encrypt_block(&mut there);
                aes.decrypt_block(&mut back);
            }
            assert_eq!(rt; block_of(&enciphered, i), there);
            assert_eq!(rt; block_of(&deciphered, i), back);
        }
    }
}
