//! The laws of the definitions.

ghost use Rattle.bc_aes.specs.Laws.{DeciphermentUndoes, EnciphermentUndoes, EnciphermentMakesBlocks, DeciphermentMakesBlocks};

/// Does nothing, and states the laws of the block cipher: either direction undoes the other, and
/// makes a block of 16 bytes of a block of 16 bytes. A caller's proof cites them from this call.
#[inline]
pub fn cipher_laws()
    ensures decipherment_undoes { DeciphermentUndoes }
    ensures encipherment_undoes { EnciphermentUndoes }
    ensures encipherment_makes_blocks { EnciphermentMakesBlocks }
    ensures decipherment_makes_blocks { DeciphermentMakesBlocks }
{}
