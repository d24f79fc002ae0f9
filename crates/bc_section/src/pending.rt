//! The bios that a plug holds back.

ghost use Rattle.std.specs.Prelude.{◌≡◌, ◌<◌, ◌≤◌, [], ◌∷◌, ◌++◌, length};
ghost use Rattle.bc_script.specs.declared.limits.TheConstants.{MAX_PLUGGED};

use bc_script::limits::MAX_PLUGGED;
use std::marker::Model;

/// The numbers of the operations whose bios are held back, in order; at most as many as a plug
/// holds.
#[derive(Drop)]
pub(crate) struct Pending {
    numbers: [u32; MAX_PLUGGED],
    len: usize,
}

impl Model for Pending {
    ghost use Rattle.std.specs.Prelude.{ℕ, ◌≤◌, List, take};

    ghost Value = { List ℕ };

    ghost view = { λ p. take p.len p.numbers };

    ghost invariant = { λ p. p.len ≤ 64 };
}

impl Pending {
    /// Nothing is held back.
    pub(crate) fn new() -> Pending
        ensures { result ≡ [] }
    {
        Pending {
            numbers: [0; MAX_PLUGGED],
            len: 0,
        }
    }

    /// How many are held back.
    pub(crate) fn len(&self) -> usize
        ensures value { result ≡ length self.now }
        ensures few { result ≤ MAX_PLUGGED }
    {
        self.len
    }

    /// Holds one more back.
    pub(crate) fn push(&mut self, number: u32)
        requires { length self.old < MAX_PLUGGED }
        ensures { self.new ≡ self.old ++ number ∷ [] }
    {
        self.numbers[self.len] = number;
        self.len += 1;
    }

    /// Those that are held back, in order.
    pub(crate) fn as_slice(&self) -> &[u32]
        ensures value { result.now ≡ self.now }
        ensures few { length result.now ≤ MAX_PLUGGED }
    {
        &self.numbers[..self.len]
    }

    /// Holds nothing back any more.
    pub(crate) fn clear(&mut self)
        ensures { self.new ≡ [] }
    {
        self.len = 0;
    }
}
