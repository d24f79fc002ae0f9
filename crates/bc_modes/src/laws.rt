//! The laws of the unit ciphers and of entries.
ghost use Rattle.bc_modes.specs.Laws.{DecipheringUndoes, EncipheringMakesTexts};
ghost use Rattle.bc_modes.specs.Laws.{DecipheringKeepsLength, EncipheringKeepsLength};
ghost use Rattle.bc_modes.specs.Laws.{EntriesReadBack};

use bc_aes::cipher_laws;

/// Does nothing, and states what holds of every valid key, in both modes: deciphering a data unit
/// undoes enciphering it, and what comes out has as many bytes. A caller's proof cites it from this
/// call.
pub fn unit_laws()
    ensures deciphering_undoes { DecipheringUndoes }
    ensures enciphering_makes_texts { EncipheringMakesTexts }
    ensures enciphering_keeps_length { EncipheringKeepsLength }
    ensures deciphering_keeps_length { DecipheringKeepsLength }
{
    cipher_laws();
}

/// Does nothing, and states what holds of the entry of every valid key: it has 18 words, and a
/// controller reads them as the key's cipher. A controller's proof cites it from this call, where
/// it has the words and not the key.
pub fn entry_laws()
    ensures read_back { EntriesReadBack }
{}
