//! AES-128-CBC-ESSIV over whole data units.
//!
//! Each block is added to the ciphertext's block before it. The first is added to the data unit's
//! number, enciphered under the digest of the key. So encipherment goes from block to block, and
//! decipherment takes eight at once.
ghost use Rattle.std.specs.Prelude.{◌≡◌, ◌%◌, ◌++◌, length, take};
ghost use Rattle.bc_aes.specs.Blocks.{block};
ghost use Rattle.bc_aes.specs.Cipher.{encipher};
ghost use Rattle.bc_modes.specs.ByBlocks.{xor_bytes};
ghost use Rattle.bc_modes.specs.CbcEssiv.{essiv, essiv_decipher, essiv_encipher, unchained};

use crate::piece::{PIECE, add_blocks};
use bc_aes::{Aes128, Aes256Enc};
use bc_key::Dun;
use sha2::{Digest, Sha256};
use std::marker::Model;

/// The expanded key for the data, and the expanded digest of the key for the data unit's number.
#[derive(Drop)]
pub(crate) struct Essiv {
    data_key: Aes128,
    number_key: Aes256Enc,
}

impl Model for Essiv {
    ghost use Rattle.std.specs.Prelude.{ℕ, List, ◌≡◌};
    ghost use Rattle.sha2.specs.Sha256.{sha256};

    ghost Value = { List ℕ };

    ghost view = { λ essiv. essiv.data_key };

    ghost invariant = { λ essiv. essiv.number_key ≡ sha256 essiv.data_key };
}

impl Essiv {
    /// Expands a key and its digest.
    pub(crate) fn new(raw: &[u8; 16]) -> Essiv
        ensures { result ≡ raw.now }
    {
        let digest = Sha256::digest(raw.as_slice());
        Essiv {
            data_key: Aes128::new(raw),
            number_key: Aes256Enc::new(&digest),
        }
    }

    /// Enciphers a text of whole blocks in place.
    pub(crate) fn encrypt(&self, dun: &Dun, text: &mut [u8])
        requires { length text.old % 16 ≡ 0 }
        ensures { text.new ≡ essiv_encipher self.now dun.now text.old }
    {
        let mut before = self.start(dun);
        for block in 0..text.len() / 16 {
            before = self.encrypt_link(&before, &mut text[16 * block..16 * block + 16]);
        }
    }

    /// Deciphers a text of whole pieces in place.
    pub(crate) fn decrypt(&self, dun: &Dun, text: &mut [u8])
        requires { length text.old % 128 ≡ 0 }
        ensures { text.new ≡ essiv_decipher self.now dun.now text.old }
    {
        let mut before = self.start(dun);
        for piece in 0..text.len() / PIECE {
            before = self.decrypt_piece(&before, &mut text[piece * PIECE..piece * PIECE + PIECE]);
        }
    }

    /// What a data unit's first block is added to.
    fn start(&self, dun: &Dun) -> [u8; 16]
        ensures { result ≡ essiv self.now dun.now }
    {
        let mut block = dun.iv();
        self.number_key.encrypt_block(&mut block);
        block
    }

    /// Enciphers one block, and gives what comes out for the next one.
    fn encrypt_link(&self, before: &[u8; 16], text: &mut [u8]) -> [u8; 16]
        requires { length text.old ≡ 16 }
        ensures enciphers { text.new ≡ encipher 4 self.now (xor_bytes text.old before.now) }
        ensures next { result ≡ text.new }
    {
        let mut block = [0; 16];
        block.copy_from_slice(text);
        add_block(&mut block, before);
        self.data_key.encrypt_block(&mut block);
        text.copy_from_slice(&block);
        block
    }

    /// Deciphers eight blocks, and gives what the last one was for the next piece.
    fn decrypt_piece(&self, before: &[u8; 16], piece: &mut [u8]) -> [u8; 16]
        requires { length piece.old ≡ 128 }
        ensures deciphers { piece.new ≡ unchained self.now before.now piece.old }
        ensures next { result ≡ block piece.old 7 }
    {
        let (links, next) = links_of(before, piece);
        self.data_key.decrypt_blocks(piece);
        add_blocks(piece, &links);
        next
    }
}

/// What the blocks of a piece were added to before their encipherment, and what the block after
/// them was.
fn links_of(before: &[u8; 16], piece: &[u8]) -> ([u8; PIECE], [u8; 16])
    requires { length piece.now ≡ 128 }
    ensures links { result.0 ≡ before.now ++ take 112 piece.now }
    ensures next { result.1 ≡ block piece.now 7 }
{
    let mut links = [0; PIECE];
    put_links(&mut links, before, piece);
    let mut next = [0; 16];
    next.copy_from_slice(&piece[112..]);
    (links, next)
}

/// Puts a block, and after it the piece but for its last one.
#[inline(always)]
fn put_links(links: &mut [u8], before: &[u8; 16], piece: &[u8])
    requires links { length links.old ≡ 128 }
    requires piece { length piece.now ≡ 128 }
    ensures { links.new ≡ before.now ++ take 112 piece.now }
{
    let (first, others) = links.split_at_mut(16);
    first.copy_from_slice(before);
    others.copy_from_slice(&piece[..PIECE - 16]);
}

/// Adds a block to a block.
#[inline(always)]
fn add_block(block: &mut [u8; 16], other: &[u8; 16])
    ensures { block.new ≡ xor_bytes block.old other.now }
{
    for i in 0..16 {
        block[i] ^= other[i];
    }
}
