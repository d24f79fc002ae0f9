//! Standard output as a sink.

ghost use Rattle.std.specs.Prelude.{◌≡◌, ⊤};
ghost use Rattle.bc_base.specs.Outside.{HasCause};

use bc_base::{Failed, Sink};
use std::io::{Stdout, Write};

/// Standard output, with a count of its faults. It has no buffer, so what it took is with the system. It says no
/// bytes: what a stream holds is nowhere stated.
#[derive(Drop)]
pub struct StdSink {
    output: Stdout,
    faults: u64,
}

impl StdSink {
    /// Standard output, without a fault so far.
    pub fn new(output: Stdout) -> StdSink
        ensures { result.faults ≡ 0 }
    {
        StdSink { output, faults: 0 }
    }

    /// Counts a fault.
    fn fault(&mut self) -> Failed
        ensures counts { HasCause self.old.faults self.new.faults ⊤ }
    {
        self.faults = self.faults.saturating_add(1);
        Failed
    }
}

impl Sink for StdSink {
    ghost use Rattle.std.specs.Prelude.{None};

    ghost held = { λ _. None };

    ghost faults = { λ s. s.faults };

    fn write(&mut self, from: &[u8]) -> Result<usize, Failed> {
        match self.output.write(from) {
            Ok(n) if n > 0 || from.is_empty() => Ok(n),
            _ => Err(self.fault()),
        }
    }
}
