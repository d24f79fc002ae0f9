//! AES under keys of 32 bytes.

ghost use Rattle.std.specs.Prelude.{◌≡◌, ◌%◌, length};
ghost use Rattle.bc_aes.specs.Cipher.{encipher, decipher};
ghost use Rattle.bc_aes.specs.Blocks.{EachBlock};

use crate::blocks::{decrypt_each, encrypt_each};
use crate::round_keys::{slice_keys, zeros};
use crate::rounds::{decrypt, encrypt};
use crate::schedule::{expand, unmix};
use crate::slices::Slices;
use std::marker::Model;

/// AES-256 under one key (FIPS 197), expanded for both directions. A contract sees the key, 32
/// bytes.
#[derive(Drop)]
pub struct Aes256 {
    schedule: [u32; 60],
    unmixed: [u32; 60],
    sliced: [Slices; 15],
}

impl Model for Aes256 {
    ghost use Rattle.std.specs.Prelude.{ℕ, List, take};
    ghost use Rattle.bc_aes.specs.Columns.{schedule_bytes};
    ghost use Rattle.bc_aes.specs.SlicedRounds.{IsExpanded};

    ghost Value = { List ℕ };

    ghost view = { λ aes. schedule_bytes (take 8 aes.schedule) };

    ghost invariant = { λ aes. IsExpanded 8 aes.schedule aes.unmixed aes.sliced };
}

impl Aes256 {
    /// Expands a key of 32 bytes (FIPS 197, 5.2).
    pub fn new(key: &[u8; 32]) -> Aes256
        ensures expands { result ≡ key.now }
    {
        let mut aes = Aes256 {
            schedule: [0; 60],
            unmixed: [0; 60],
            sliced: [zeros(); 15],
        };
        expand(key, &mut aes.schedule);
        unmix(&aes.schedule, &mut aes.unmixed);
        slice_keys(&aes.schedule, &mut aes.sliced);
        aes
    }

    /// Enciphers one block of 16 bytes in place (FIPS 197, 5.1).
    #[inline]
    pub fn encrypt_block(&self, block: &mut [u8; 16])
        ensures size { length self.now ≡ 32 }
        ensures enciphers { block.new ≡ encipher 8 self.now block.old }
    {
        encrypt(&self.schedule, block);
    }

    /// Deciphers one block of 16 bytes in place (FIPS 197, 5.3).
    #[inline]
    pub fn decrypt_block(&self, block: &mut [u8; 16])
        ensures size { length self.now ≡ 32 }
        ensures deciphers { block.new ≡ decipher 8 self.now block.old }
    {
        decrypt(&self.schedule, &self.unmixed, block);
    }

    /// Enciphers a text of whole blocks in place, each block by itself.
    pub fn encrypt_blocks(&self, text: &mut [u8])
        requires { length text.old % 16 ≡ 0 }
        ensures size { length self.now ≡ 32 }
        ensures enciphers { EachBlock (encipher 8 self.now) text.old text.new }
    {
        encrypt_each(&self.schedule, &self.sliced, text);
    }

    /// Deciphers a text of whole blocks in place, each block by itself.
    pub fn decrypt_blocks(&self, text: &mut [u8])
        requires { length text.old % 16 ≡ 0 }
        ensures size { length self.now ≡ 32 }
        ensures deciphers { EachBlock (decipher 8 self.now) text.old text.new }
    {
        decrypt_each(&self.schedule, &self.unmixed, &self.sliced, text);
    }
}
