//! The way of a data unit without a key.

ghost use Rattle.std.specs.Prelude.{◌≡◌};

use crate::UnitAccess;
use bc_base::{BLOCK_BYTES, Place, Store};
use bc_medium::{Fault, Medium, MediumPass, UnitAt, Via};
use std::marker::Model;
use std::sync::Wait;

/// The way to a medium without a controller: what is written is what stands there.
#[derive(Drop)]
pub(crate) struct PlainAccess<'a, S: Store> {
    medium: &'a Medium<S>,
    scratch: [u8; BLOCK_BYTES],
}

impl<'a, S: Store> Model for PlainAccess<'a, S> {
    ghost use Rattle.bc_medium.specs.Medium.{MediumData};

    ghost Value = { MediumData S };

    ghost view = { λ a. a.medium.now };
}

impl<'a, S: Store> PlainAccess<'a, S> {
    /// The way to this medium.
    pub(crate) fn new(medium: &'a Medium<S>) -> PlainAccess<'a, S>
        ensures { result ≡ medium.now }
    {
        PlainAccess {
            medium,
            scratch: [0; BLOCK_BYTES],
        }
    }
}

impl<'a, S: Store, R: Wait> UnitAccess<R, MediumPass<S>> for PlainAccess<'a, S> {
    ghost use Rattle.bc_medium.specs.declared.via.Via.TheVariants as ways;
    ghost use Rattle.bc_medium.specs.Medium.{Belongs};
    ghost use Rattle.bc_queue.specs.Queues.{facts_by, TakesPlain};

    ghost facts = { λ a pass. facts_by S.contents a ways.Plain pass };

    ghost is_ready = { λ a pass. Belongs a pass };

    ghost takes = { λ a sector context. TakesPlain S.owns a sector context };

    fn caller(&self, pass: &MediumPass<S>) -> u16 {
        pass.number()
    }

    fn write(
        &mut self,
        rt: &R,
        pass: &mut MediumPass<S>,
        at: &UnitAt,
        plain: Vec<u8>,
    ) -> Result<Place, (Fault, Vec<u8>)> {
        let medium = self.medium;
        let text = &mut self.scratch[..plain.len()];
        text.copy_from_slice(plain.as_slice());
        medium.write_unit(rt, pass, *at, Via::Plain, plain, text)
    }

    fn read(
        &mut self,
        rt: &R,
        pass: &mut MediumPass<S>,
        at: &UnitAt,
        text: &mut [u8],
    ) -> Result<Place, Fault> {
        self.medium.read_unit(rt, pass, *at, Via::Plain, text)
    }
}
