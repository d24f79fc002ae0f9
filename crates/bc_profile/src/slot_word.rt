//! What a slot is found to be.
ghost use Rattle.std.specs.Prelude.{◌≡◌, ◌<◌, [], ◌∷◌, ◌++◌, length};
ghost use Rattle.bc_profile.specs.declared.limits.TheConstants.{MAX_SLOTS};

use crate::MAX_SLOTS;
use arrayvec::ArrayVec;
use std::marker::Model;

/// The state of a slot.
#[derive(Clone, Copy, Debug, Default, PartialEq, Eq)]
pub enum SlotState {
    /// It has no key.
    #[default]
    Free,
    /// It has a key, and may be held.
    Ready,
    /// A caller is changing it.
    Claimed,
}

/// What a slot is found to be: its references, its state, its key, and the place in the journal of
/// the event that programmed it with the key. Key and place are 0 where it has no key.
#[derive(Clone, Copy, Debug, Default, PartialEq, Eq)]
pub struct SlotWord {
    pub refs: u16,
    pub state: SlotState,
    pub key: u16,
    pub epoch: u32,
}

/// What the slots of a device are found to be, in the order of their numbers: at most
/// [`MAX_SLOTS`]. Takes no memory.
#[derive(Debug, Drop)]
pub struct Words {
    words: ArrayVec<SlotWord, MAX_SLOTS>,
}

impl Model for Words {
    ghost use Rattle.std.specs.Prelude.{List};
    ghost use Rattle.bc_profile.specs.declared.slot_word.SlotWord.{SlotWord};

    ghost Value = { List SlotWord };

    ghost view = { λ w. w.words.items };
}

impl Words {
    /// No word.
    pub(crate) fn new() -> Words
        ensures { result ≡ [] }
    {
        Words {
            words: ArrayVec::new(),
        }
    }

    /// Appends a word.
    pub(crate) fn push(&mut self, word: SlotWord)
        requires { length self.old < MAX_SLOTS }
        ensures { self.new ≡ self.old ++ word ∷ [] }
    {
        self.words.push(word);
    }

    /// The words, lent.
    pub fn as_slice(&self) -> &[SlotWord]
        ensures { result.now ≡ self.now }
    {
        self.words.as_slice()
    }
}
