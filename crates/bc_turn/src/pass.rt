//! A caller's pass: what it knows of each cell.
ghost use Rattle.std.specs.Prelude.{◌≡◌, ℕ, ◌+◌, ◌<◌, ◌≤◌, [], ◌∷◌, drop, length, OnOk};
ghost use Rattle.bc_base.specs.Story.{own};
ghost use Rattle.bc_base.specs.Lists.{AllAt};
ghost use Rattle.bc_turn.specs.PassParts.{with_part, cut_to};

use crate::post::Post;
use crate::story::Story;
use std::alloc::{AllocError, Global};
use std::marker::Model;

/// The pass of one caller of a [`Turns`](crate::Turns): its number, and of each cell how far it has
/// seen the story, how often it found the turn with another, and whether it holds the value.
/// Contracts see it as a `Pass`, with a `Part` for each cell.
#[derive(Drop)]
pub struct TurnPass<V: Story> {
    pub(crate) number: u16,
    pub(crate) posts: Vec<Post<V>>,
}

impl<V: Story> Model for TurnPass<V> {
    ghost use Rattle.std.specs.Prelude.{◌≡◌, ℕ, List};
    ghost use Rattle.bc_base.specs.Lists.{Each};
    ghost use Rattle.bc_turn.specs.PassParts.{Pass};

    ghost Value = { Pass V.Item V.Base };

    ghost view = { λ p. record { caller = p.number; parts = p.posts.items } };

    ghost invariant = { λ p. Each (λ q. q.caller ≡ p.number) p.posts.items };
}

impl<V: Story> TurnPass<V> {
    /// The caller's number, from 0. Each pass of a `Turns` has another one.
    pub fn number(&self) -> u16
        ensures { result ≡ self.now.caller }
    {
        self.number
    }

    /// How many entries of a cell's story are the caller's own. A crate that gives each caller room
    /// for so many subtracts this from it.
    pub fn made(&self, cell: u16) -> u64
        requires { cell < length self.now.parts }
        ensures { AllAt self.now.parts cell (λ q. result ≡ length (own V.by self.now.caller q.seen)) }
    {
        self.posts[usize::from(cell)].made()
    }

    /// A pass with no cells.
    pub(crate) fn blank(alloc: Global, number: u16) -> TurnPass<V>
        ensures { result ≡ record { caller = number; parts = [] } }
    {
        TurnPass {
            number,
            posts: Vec::new(alloc),
        }
    }

    /// Adds a cell.
    pub(crate) fn add(&mut self, post: Post<V>) -> Result<(), AllocError>
        requires { post.caller ≡ self.old.caller }
        ensures { OnOk result (self.new ≡ with_part self.old post) }
    {
        self.posts.push(post)?;
        Ok(())
    }

    /// Leaves the last cell, before which `left` others stand.
    pub(crate) fn leave(&mut self, left: usize) -> Post<V>
        requires { length self.old.parts ≡ left + 1 }
        ensures pass { self.new ≡ cut_to left self.old }
        ensures post { drop left self.old.parts ≡ result ∷ [] }
        ensures caller { result.caller ≡ self.old.caller }
    {
        match self.posts.pop() {
            Some(post) => post,
            None => unreachable!(),
        }
    }
}
