//! Standard input or a file as a source.

ghost use Rattle.std.specs.Prelude.{◌≡◌};

use bc_base::{Failed, Source};
use std::io::Read;

/// What the system reads from, with a count of its faults. It says no bytes: what a stream holds is nowhere stated.
#[derive(Drop)]
pub struct StdSource<R> {
    input: R,
    faults: u64,
}

impl<R: Read> StdSource<R> {
    /// What is read from `input`, without a fault so far.
    pub fn new(input: R) -> StdSource<R>
        ensures { result.faults ≡ 0 }
    {
        StdSource { input, faults: 0 }
    }
}

impl<R: Read> Source for StdSource<R> {
    ghost use Rattle.std.specs.Prelude.{None};

    ghost left = { λ _. None };

    ghost faults = { λ s. s.faults };

    fn read(&mut self, into: &mut [u8]) -> Result<usize, Failed> {
        match self.input.read(into) {
            Ok(n) => Ok(n),
            Err(_) => {
                self.faults = self.faults.saturating_add(1);
                Err(Failed)
            }
        }
    }
}
