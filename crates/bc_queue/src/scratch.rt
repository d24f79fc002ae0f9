//! Memory for the data units of one caller.

use bc_base::BLOCK_BYTES;
use bc_ufs::LastCipher;
use std::marker::Model;

/// Memory that a caller takes along for the data units that it carries out inline, one after the other: a block in
/// which a unit is enciphered, and the cipher that was used last. The cipher is used again only where the registers
/// that are then loaded have its words. A contract sees nothing of it.
#[derive(Drop)]
pub struct Scratch {
    pub(crate) block: [u8; BLOCK_BYTES],
    pub(crate) last: Option<LastCipher>,
}

impl Model for Scratch {
    ghost use Rattle.std.specs.Prelude.{⊤};

    ghost Value = { ⊤ };

    ghost view = { λ _. tt };
}

impl Scratch {
    /// Memory without a cipher.
    pub fn new() -> Scratch {
        Scratch {
            block: [0; BLOCK_BYTES],
            last: None,
        }
    }
}
