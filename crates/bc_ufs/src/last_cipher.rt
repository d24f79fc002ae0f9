//! The cipher that a controller used last.
ghost use Rattle.std.specs.Prelude.{◌≡◌, ◌≤◌, length, Ok, IsTrue, IsSomeAnd};
ghost use Rattle.bc_modes.specs.Entries.{read_words};

use arrayvec::ArrayVec;
use bc_modes::{Capability, EntryError, UfsCaps, UnitCipher, cipher_of_words};
use bc_profile::Row;
use std::marker::Model;

/// How many capabilities a controller has at most.
const CAPABILITIES: usize = 2;

/// Words that were loaded from the registers of a keyslot, and the cipher that they mean to controllers with these
/// capabilities. Whoever carries out several data units keeps it from one to the next, so that the key isn't expanded
/// again while the words stay the same.
///
/// A contract sees the parts of the cipher.
#[derive(Drop)]
pub struct LastCipher {
    capabilities: ArrayVec<Capability, CAPABILITIES>,
    words: Row,
    cipher: UnitCipher,
}

impl Model for LastCipher {
    ghost use Rattle.bc_modes.specs.UnitCipher.{CipherParts};

    ghost Value = { CipherParts };

    ghost view = { λ last. last.cipher };

    ghost use Rattle.std.specs.Prelude.{◌≡◌, Ok};
    ghost use Rattle.bc_modes.specs.Entries.{read_words};
    ghost use Rattle.bc_ufs.specs.Controllers.{with_list};

    ghost invariant = { λ last. read_words last.words (with_list last.capabilities.items) ≡ Ok last.cipher };
}

impl LastCipher {
    /// The cipher that these words mean to a controller with these capabilities.
    ///
    /// # Errors
    /// Those of [`cipher_of_words`].
    pub(crate) fn of_words(words: Row, caps: &UfsCaps) -> Result<LastCipher, EntryError>
        ensures { result ≡ read_words words caps.now }
    {
        match cipher_of_words(&words, caps) {
            Ok(cipher) => Ok(LastCipher {
                capabilities: listed(caps.capabilities()),
                words,
                cipher,
            }),
            Err(error) => Err(error),
        }
    }

    /// The cipher.
    pub(crate) fn cipher(&self) -> &UnitCipher
        ensures { result.now ≡ self.now }
    {
        &self.cipher
    }

    /// Whether it is known to be what these words mean to a controller with these capabilities.
    fn is_of(&self, words: &Row, caps: &UfsCaps) -> bool
        ensures { IsTrue result → read_words words.now caps.now ≡ Ok self.now }
    {
        self.words == *words && are_same(self.capabilities.as_slice(), caps.capabilities())
    }
}

/// Whether there is a cipher that is known to be what these words mean to a controller with these capabilities.
pub(crate) fn is_of(last: &Option<LastCipher>, words: &Row, caps: &UfsCaps) -> bool
    ensures { IsTrue result → IsSomeAnd last.now (λ parts. read_words words.now caps.now ≡ Ok parts) }
{
    match last {
        Some(last) => last.is_of(words, caps),
        None => false,
    }
}

/// Whether two lists have the same capabilities.
fn are_same(one: &[Capability], other: &[Capability]) -> bool
    ensures { IsTrue result → one.now ≡ other.now }
{
    if one.len() != other.len() {
        return false;
    }
    for n in 0..one.len() {
        if !is_same(one[n], other[n]) {
            return false;
        }
    }
    true
}

/// Whether two capabilities are one.
fn is_same(one: Capability, other: Capability) -> bool
    ensures { IsTrue result → one ≡ other }
{
    one.mode == other.mode && one.units == other.units
}

/// A list of these capabilities.
fn listed(capabilities: &[Capability]) -> ArrayVec<Capability, CAPABILITIES>
    requires { length capabilities.now ≤ 2 }
    ensures { result.items ≡ capabilities.now }
{
    let mut list = ArrayVec::new();
    for capability in capabilities {
        list.push(*capability);
    }
    list
}
