//! AES-256-XTS over whole data units (IEEE 1619).
//!
//! Eight blocks at a time go through the block cipher: their tweaks are made first, added to the
//! text, and added again to what comes out.
ghost use Rattle.std.specs.Prelude.{◌≡◌, ◌%◌, length, take};
ghost use Rattle.bc_aes.specs.Blocks.{EachBlock};
ghost use Rattle.bc_modes.specs.Schedules.{block_cipher};
ghost use Rattle.bc_modes.specs.Tweak.{tweak_at};
ghost use Rattle.bc_modes.specs.Xts.{first_tweak, tweaked, xts_encipher, xts_decipher};

use crate::piece::{PIECE, add_blocks};
use crate::tweak::tweaks_from;
use bc_aes::{Aes256Enc, Aes256Pieces};
use bc_key::Dun;
use std::marker::Model;

/// Which way blocks go through the block cipher.
#[derive(Clone, Copy)]
enum Way {
    Encipher,
    Decipher,
}

/// The expanded halves of an XTS key: the first for the data, the second for the data unit's
/// number.
#[derive(Drop)]
pub(crate) struct Xts {
    data_key: Aes256Pieces,
    tweak_key: Aes256Enc,
}

impl Model for Xts {
    ghost use Rattle.std.specs.Prelude.{ℕ, List, ◌≡◌, ◌++◌, length};

    ghost Value = { List ℕ };

    ghost view = { λ xts. xts.data_key ++ xts.tweak_key };

    ghost invariant = { λ xts. length xts.data_key ≡ 32 };
}

impl Xts {
    /// Expands both halves of a key.
    pub(crate) fn new(raw: &[u8; 64]) -> Xts
        ensures { result ≡ raw.now }
    {
        let mut data_key = [0; 32];
        let mut tweak_key = [0; 32];
        data_key.copy_from_slice(&raw[..32]);
        tweak_key.copy_from_slice(&raw[32..]);
        Xts {
            data_key: Aes256Pieces::new(&data_key),
            tweak_key: Aes256Enc::new(&tweak_key),
        }
    }

    /// Enciphers a text of whole pieces in place.
    pub(crate) fn encrypt(&self, dun: &Dun, text: &mut [u8])
        requires { length text.old % 128 ≡ 0 }
        ensures { text.new ≡ xts_encipher self.now dun.now text.old }
    {
        self.cipher_text(Way::Encipher, dun, text);
    }

    /// Deciphers a text of whole pieces in place.
    pub(crate) fn decrypt(&self, dun: &Dun, text: &mut [u8])
        requires { length text.old % 128 ≡ 0 }
        ensures { text.new ≡ xts_decipher self.now dun.now text.old }
    {
        self.cipher_text(Way::Decipher, dun, text);
    }

    /// Takes a text of whole pieces one way.
    #[inline(always)]
    fn cipher_text(&self, way: Way, dun: &Dun, text: &mut [u8])
        requires { length text.old % 128 ≡ 0 }
        ensures { text.new ≡ tweaked (block_cipher way (take 32 self.now)) (first_tweak self.now dun.now) text.old }
    {
        let mut tweak = self.first_tweak(dun);
        for piece in 0..text.len() / PIECE {
            tweak = self.cipher_piece(way, tweak, &mut text[piece * PIECE..piece * PIECE + PIECE]);
        }
    }

    /// The tweak of a data unit's first block.
    fn first_tweak(&self, dun: &Dun) -> u128
        ensures { result ≡ first_tweak self.now dun.now }
    {
        let mut block = dun.iv();
        self.tweak_key.encrypt_block(&mut block);
        u128::from_le_bytes(block)
    }

    /// Takes eight blocks one way, of which the first has this tweak, and gives the tweak of the
    /// block after them.
    #[inline(always)]
    fn cipher_piece(&self, way: Way, tweak: u128, piece: &mut [u8]) -> u128
        requires { length piece.old ≡ 128 }
        ensures ciphers { piece.new ≡ tweaked (block_cipher way (take 32 self.now)) tweak piece.old }
        ensures next { result ≡ tweak_at tweak 8 }
    {
        let (tweaks, next) = tweaks_from(tweak);
        add_blocks(piece, &tweaks);
        self.cipher_blocks(way, piece);
        add_blocks(piece, &tweaks);
        next
    }

    /// Takes each block one way, under the first half of the key.
    #[inline(always)]
    fn cipher_blocks(&self, way: Way, piece: &mut [u8])
        requires { length piece.old % 128 ≡ 0 }
        ensures ciphers { EachBlock (block_cipher way (take 32 self.now)) piece.old piece.new }
    {
        match way {
            Way::Encipher => self.data_key.encrypt_pieces(piece),
            Way::Decipher => self.data_key.decrypt_pieces(piece),
        }
    }
}
