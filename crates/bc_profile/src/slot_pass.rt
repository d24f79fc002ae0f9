//! What a caller takes along.
ghost use Rattle.std.specs.Prelude.{◌≡◌, length};
ghost use Rattle.bc_profile.specs.Passes.{made_by};

use crate::{Book, Hold};
use bc_turn::TurnPass;
use std::marker::Model;

/// A caller's pass of a [`Profile`](crate::Profile): its number, how far it has seen the story, and
/// the hold that it has.
#[derive(Drop)]
pub struct SlotPass {
    pub(crate) turn: TurnPass<Book>,
    pub(crate) hold: Option<Hold>,
}

impl Model for SlotPass {
    ghost use Rattle.bc_profile.specs.Passes.{SlotFacts, OneAtRest, facts_of};

    ghost Value = { SlotFacts };

    ghost view = { λ p. facts_of p.turn p.hold };

    ghost invariant = { λ p. OneAtRest p.turn.caller p.turn.parts };
}

impl SlotPass {
    /// The caller's number, from 0. Each pass of a `Profile` has another one.
    pub fn number(&self) -> u16
        ensures { result ≡ self.now.caller }
    {
        self.turn.number()
    }

    /// How many events its caller made.
    pub(crate) fn made(&self) -> u64
        ensures { result ≡ length (made_by self.now) }
    {
        self.turn.made(0)
    }
}
