//! The slots that a programming passed over.
ghost use Rattle.std.specs.Prelude.{◌≡◌, ◌<◌, ◌≤◌, ◌==◌, [], ◌∷◌, ◌++◌, length};
ghost use Rattle.bc_profile.specs.declared.limits.TheConstants.{MAX_SLOTS};

use crate::MAX_SLOTS;
use arrayvec::ArrayVec;
use std::marker::Model;

/// A slot that a programming passed over, and the references that were found on it.
#[derive(Clone, Copy, Debug, Default, PartialEq, Eq)]
pub struct Skip {
    pub slot: u16,
    pub refs: u16,
}

/// The slots that a programming passed over, in the idle order: at most [`MAX_SLOTS`]. Takes no
/// memory.
#[derive(Debug, Drop, PartialEq, Eq)]
pub struct Skips {
    skips: ArrayVec<Skip, MAX_SLOTS>,
}

impl Model for Skips {
    ghost use Rattle.std.specs.Prelude.{List, length, ◌≤◌, refl};
    ghost use Rattle.std.specs.Coded.{coded_list};
    ghost use Rattle.bc_profile.specs.declared.skips.Skip.{Skip};
    ghost use Rattle.bc_profile.specs.declared.limits.TheConstants.{MAX_SLOTS};

    ghost Value = { List Skip };

    ghost view = { λ s. s.skips.items };

    ghost invariant = { λ s. length s.skips.items ≤ MAX_SLOTS };

    ghost inverse = { λ skips. record { skips = record { items = skips } } };
}

impl Skips {
    /// No slot.
    pub fn new() -> Skips
        ensures { result ≡ [] }
    {
        Skips {
            skips: ArrayVec::new(),
        }
    }

    /// How many slots there are.
    pub fn len(&self) -> usize
        ensures count { result ≡ length self.now }
        ensures within { result ≤ MAX_SLOTS }
    {
        self.skips.len()
    }

    /// Whether no further slot fits.
    pub fn is_full(&self) -> bool
        ensures full { result ≡ (length self.now == MAX_SLOTS) }
        ensures within { length self.now ≤ MAX_SLOTS }
    {
        self.skips.is_full()
    }

    /// Appends a slot.
    pub fn push(&mut self, skip: Skip)
        requires { length self.old < MAX_SLOTS }
        ensures { self.new ≡ self.old ++ skip ∷ [] }
    {
        self.skips.push(skip);
    }

    /// The slots, lent.
    pub fn as_slice(&self) -> &[Skip]
        ensures slots { result.now ≡ self.now }
        ensures within { length result.now ≤ MAX_SLOTS }
    {
        self.skips.as_slice()
    }
}
