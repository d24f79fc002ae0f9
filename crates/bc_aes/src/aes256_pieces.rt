//! AES under keys of 32 bytes, for texts of whole pieces alone.

ghost use Rattle.std.specs.Prelude.{◌≡◌, ◌%◌, length};
ghost use Rattle.bc_aes.specs.Cipher.{encipher, decipher};
ghost use Rattle.bc_aes.specs.Blocks.{EachBlock};

use crate::blocks::{decrypt_pieces, encrypt_pieces};
use crate::round_keys::{slice_keys, zeros};
use crate::schedule::expand;
use crate::slices::Slices;
use std::marker::Model;

/// AES-256 under one key (FIPS 197), expanded for texts of whole pieces of eight blocks, 128 bytes
/// each: without what [`Aes256`](crate::Aes256) keeps to decipher single blocks, which takes a
/// third of its expansion. A contract sees the key, 32 bytes.
#[derive(Drop)]
pub struct Aes256Pieces {
    schedule: [u32; 60],
    sliced: [Slices; 15],
}

impl Model for Aes256Pieces {
    ghost use Rattle.std.specs.Prelude.{ℕ, List, take};
    ghost use Rattle.bc_aes.specs.Columns.{schedule_bytes};
    ghost use Rattle.bc_aes.specs.SlicedRounds.{IsSliced};

    ghost Value = { List ℕ };

    ghost view = { λ aes. schedule_bytes (take 8 aes.schedule) };

    ghost invariant = { λ aes. IsSliced 8 aes.schedule aes.sliced };
}

impl Aes256Pieces {
    /// Expands a key of 32 bytes (FIPS 197, 5.2).
    pub fn new(key: &[u8; 32]) -> Aes256Pieces
        ensures expands { result ≡ key.now }
    {
        let mut aes = Aes256Pieces {
            schedule: [0; 60],
            sliced: [zeros(); 15],
        };
        expand(key, &mut aes.schedule);
        slice_keys(&aes.schedule, &mut aes.sliced);
        aes
    }

    /// Enciphers a text of whole pieces of 128 bytes in place, each block by itself (FIPS 197,
    /// 5.1).
    pub fn encrypt_pieces(&self, text: &mut [u8])
        requires { length text.old % 128 ≡ 0 }
        ensures size { length self.now ≡ 32 }
        ensures enciphers { EachBlock (encipher 8 self.now) text.old text.new }
    {
        encrypt_pieces(&self.sliced, text);
    }

    /// Deciphers a text of whole pieces of 128 bytes in place, each block by itself (FIPS 197,
    /// 5.3).
    pub fn decrypt_pieces(&self, text: &mut [u8])
        requires { length text.old % 128 ≡ 0 }
        ensures size { length self.now ≡ 32 }
        ensures deciphers { EachBlock (decipher 8 self.now) text.old text.new }
    {
        decrypt_pieces(&self.sliced, text);
    }
}
