//! A caller's seat at one cell, and the count of its own entries there.
ghost use Rattle.std.specs.Prelude.{◌≡◌, ℕ, ◌+◌, ◌<◌, ◌≤◌, [], ◌∷◌, length, true, false, IfSome, IfNone};
ghost use Rattle.bc_base.specs.Story.{own};
ghost use Rattle.bc_turn.specs.Turning.{account, view_of};
ghost use Rattle.bc_turn.specs.PassParts.{seat_part, account_of, with_miss, without_turn, Takes, TakesLater, GoesOn, Counts};

use crate::cell::{Cell, Place};
use crate::story::Story;
use std::marker::Model;
use std::sync::Wait;

/// What a caller knows of one cell, with the number of its own entries there.
#[derive(Drop)]
pub(crate) struct Post<V: Story> {
    seat: Place<V>,
    made: u64,
    /// The entries of the value while it is held.
    held: u64,
}

impl<V: Story> Model for Post<V> {
    ghost use Rattle.bc_turn.specs.PassParts.{Part, seat_part, IsPost};

    ghost Value = { Part V.Item V.Base };

    ghost view = { λ p. seat_part p.seat };

    ghost invariant = { λ p. IsPost V.by p.seat p.made p.held };
}

impl<V: Story> Post<V> {
    /// Of a seat for one caller that has seen nothing.
    pub(crate) fn new(seat: Place<V>) -> Post<V>
        requires { seat.me ≡ (view_of seat.me.0.base (account (seat_part seat).caller [] 0 false ∷ []), []) }
        ensures { result ≡ seat_part seat }
    {
        Post {
            seat,
            made: 0,
            held: 0,
        }
    }

    /// Takes the value, where the one fetch found that no caller has it.
    pub(crate) fn try_take(&mut self, cell: &Cell<V>) -> Option<V>
        requires cell { self.old.cell ≡ cell.now.table.shared.table_id }
        requires rest { self.old.holds ≡ false }
        ensures some { IfSome result (λ v. Takes V.entries_of V.keeps V.by self.old v self.new) }
        ensures none { IfNone result (self.new ≡ with_miss self.old) }
    {
        let value = cell.try_take(&mut self.seat)?;
        self.held = value.entries();
        Some(value)
    }

    /// Takes the value, and waits for it.
    pub(crate) fn take<R: Wait>(&mut self, rt: &R, cell: &Cell<V>) -> V
        requires cell { self.old.cell ≡ cell.now.table.shared.table_id }
        requires rest { self.old.holds ≡ false }
        ensures { TakesLater V.entries_of V.keeps V.by self.old result self.new }
    {
        let value = cell.take(rt, &mut self.seat);
        self.held = value.entries();
        value
    }

    /// Gives the value back.
    pub(crate) fn give(&mut self, cell: &Cell<V>, value: V)
        requires cell { self.old.cell ≡ cell.now.table.shared.table_id }
        requires held { self.old.holds ≡ true }
        requires story { GoesOn V.entries_of V.keeps V.by self.old value }
        ensures { self.new ≡ without_turn self.old (V.entries_of value) }
    {
        let count = value.entries();
        cell.give(&mut self.seat, value);
        self.made += count - self.held;
    }

    /// How many entries the value has that was last given.
    pub(crate) fn entries(&mut self, cell: &Cell<V>) -> u64
        requires cell { self.old.cell ≡ cell.now.table.shared.table_id }
        ensures { Counts V.entries_of V.keeps V.by self.old self.new result }
    {
        cell.entries(&mut self.seat)
    }

    /// How many entries of its own the caller has seen.
    pub(crate) fn made(&self) -> u64
        ensures { result ≡ length (own V.by self.now.caller self.now.seen) }
    {
        self.made
    }

    /// The seat, at the end.
    pub(crate) fn into_place(self) -> Place<V>
        requires { self.holds ≡ false }
        ensures cell { result.table_id ≡ self.cell }
        ensures account { result.me ≡ (view_of self.base (account_of self ∷ []), []) }
    {
        let Post {
            seat,
            made: _,
            held: _,
        } = self;
        seat
    }
}
