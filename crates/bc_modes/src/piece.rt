//! Pieces: eight blocks of a text, which the block cipher takes at once.
ghost use Rattle.std.specs.Prelude.{◌≡◌, length};
ghost use Rattle.bc_modes.specs.ByBlocks.{xor_bytes};

/// How many bytes are enciphered or deciphered together: eight blocks. Every data unit has a whole
/// number of such pieces.
pub(crate) const PIECE: usize = 128;

/// Adds eight blocks to a piece.
#[inline(always)]
pub(crate) fn add_blocks(piece: &mut [u8], blocks: &[u8; PIECE])
    requires { length piece.old ≡ 128 }
    ensures { piece.new ≡ xor_bytes piece.old blocks.now }
{
    for i in 0..PIECE {
        piece[i] ^= blocks[i];
    }
}
