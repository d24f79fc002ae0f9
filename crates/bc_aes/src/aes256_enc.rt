//! AES under keys of 32 bytes, for encipherment of single blocks alone.

ghost use Rattle.std.specs.Prelude.{◌≡◌, length};
ghost use Rattle.bc_aes.specs.Cipher.{encipher};

use crate::rounds::encrypt;
use crate::schedule::expand;
use std::marker::Model;

/// AES-256 under one key (FIPS 197), expanded to encipher single blocks: a tenth of what
/// [`Aes256`](crate::Aes256) keeps. A contract sees the key, 32 bytes.
#[derive(Drop)]
pub struct Aes256Enc {
    schedule: [u32; 60],
}

impl Model for Aes256Enc {
    ghost use Rattle.std.specs.Prelude.{◌≡◌, ℕ, List, take};
    ghost use Rattle.bc_aes.specs.KeyExpansion.{key_expansion};
    ghost use Rattle.bc_aes.specs.Columns.{schedule_bytes};

    ghost Value = { List ℕ };

    ghost view = { λ aes. schedule_bytes (take 8 aes.schedule) };

    ghost invariant = { λ aes. schedule_bytes aes.schedule ≡ key_expansion 8 (schedule_bytes (take 8 aes.schedule)) };
}

impl Aes256Enc {
    /// Expands a key of 32 bytes (FIPS 197, 5.2).
    pub fn new(key: &[u8; 32]) -> Aes256Enc
        ensures expands { result ≡ key.now }
    {
        let mut aes = Aes256Enc { schedule: [0; 60] };
        expand(key, &mut aes.schedule);
        aes
    }

    /// Enciphers one block of 16 bytes in place (FIPS 197, 5.1).
    #[inline]
    pub fn encrypt_block(&self, block: &mut [u8; 16])
        ensures size { length self.now ≡ 32 }
        ensures enciphers { block.new ≡ encipher 8 self.now block.old }
    {
        encrypt(&self.schedule, block);
    }
}
