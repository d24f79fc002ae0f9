//! Two threads that count together: values behind turns.
ghost use Rattle.std.specs.Prelude.{◌≡◌, [], IfOk};
ghost use Rattle.uses.specs.Tallies.{AddsMarks, IsReadyPass};

use bc_turn::{Story, TurnPass, Turns};
use std::alloc::{AllocError, Global};
use std::sync::Wait;
use std::thread::{Threads, join};

/// A tally has at most so many marks.
const MOST: usize = 1_000_000;

/// A list of marks, each by the caller that made it.
#[derive(Drop)]
pub struct Tally {
    callers: Vec<u16>,
}

impl Story for Tally {
    ghost use Rattle.std.specs.Prelude.{⊤};
    ghost use Rattle.bc_turn.specs.Note as notes;

    type Base = ();

    type Item = u16;

    ghost entries_of = { λ tally. tally.callers.items };

    ghost keeps = { λ base tally. ⊤ };

    ghost by = { λ caller. caller };

    ghost note = { λ caller. notes.none };

    fn entries(&self) -> u64 {
        self.callers.len() as u64
    }
}

impl Tally {
    /// No marks, with room for so many.
    ///
    /// # Errors
    /// Out of memory.
    pub fn new(alloc: Global, room: usize) -> Result<Tally, AllocError>
        ensures { IfOk result (λ tally. tally.callers.items ≡ []) }
    {
        Ok(Tally {
            callers: Vec::with_capacity(alloc, room)?,
        })
    }

    /// A mark by this caller, where there is room.
    #[tactic(auto, using(crate::proofs::Tallies::adds_one, crate::proofs::Tallies::adds_none))]
    pub fn mark(&mut self, caller: u16)
        ensures { AddsMarks caller self.old.callers.items self.new.callers.items }
    {
        if self.callers.len() < MOST && self.callers.len() < self.callers.capacity() {
            self.callers.push_reserved(caller);
        }
    }

    /// How many marks the caller made.
    pub fn marks_of(&self, caller: u16) -> usize {
        self.callers
            .iter()
            .filter(|other| **other == caller)
            .count()
    }
}

/// Makes one mark in the first cell: takes the turn, and gives it back.
fn visit<R: Wait>(rt: &R, turns: &Turns<Tally>, pass: &mut TurnPass<Tally>)
    requires { IsReadyPass turns.now pass.old }
    ensures ready { IsReadyPass turns.now pass.new }
    ensures caller { pass.new.caller ≡ pass.old.caller }
{
    let mut tally = turns.take(rt, pass, 0);
    tally.mark(pass.number());
    turns.give(pass, 0, tally);
}

/// Makes so many marks, and hands the pass on.
pub fn count<R: Wait>(
    rt: &R,
    turns: &Turns<Tally>,
    mut pass: TurnPass<Tally>,
    marks: u32,
) -> TurnPass<Tally>
    requires { IsReadyPass turns.now pass }
    ensures ready { IsReadyPass turns.now result }
    ensures caller { result.caller ≡ pass.caller }
{
    for _ in 0..marks {
        visit(rt, turns, &mut pass);
    }
    pass
}

/// Two callers make so many marks each, at once.
pub fn count_both<R: Threads + Wait + Sync>(
    rt: &R,
    turns: &Turns<Tally>,
    first: TurnPass<Tally>,
    second: TurnPass<Tally>,
    marks: u32,
) -> (TurnPass<Tally>, TurnPass<Tally>)
    requires first { IsReadyPass turns.now first }
    requires second { IsReadyPass turns.now second }
    ensures first { IsReadyPass turns.now result.0 }
    ensures second { IsReadyPass turns.now result.1 }
{
    join(
        rt,
        move || -> TurnPass<Tally>
            requires { IsReadyPass turns.now first }
            ensures { IsReadyPass turns.entry.now result }
        { count(rt, turns, first, marks) },
        move || -> TurnPass<Tally>
            requires { IsReadyPass turns.now second }
            ensures { IsReadyPass turns.entry.now result }
        { count(rt, turns, second, marks) },
    )
}

/// How many marks each of the first two callers has in the tally of the first cell.
pub fn marks_of_two<R: Wait>(
    rt: &R,
    turns: &Turns<Tally>,
    pass: &mut TurnPass<Tally>,
) -> (usize, usize)
    requires { IsReadyPass turns.now pass.old }
    ensures { IsReadyPass turns.now pass.new }
{
    let tally = turns.take(rt, pass, 0);
    let marks = (tally.marks_of(0), tally.marks_of(1));
    turns.give(pass, 0, tally);
    marks
}

/// Two callers make so many marks each in one tally, in threads of their own. Gives how many each has made.
///
/// # Errors
/// Out of memory.
pub fn add_up<R: Threads + Wait + Sync>(
    rt: &R,
    alloc: Global,
    marks: u32,
) -> Result<(usize, usize), AllocError> {
    let mut values = Vec::new(alloc);
    values.push((Tally::new(alloc, 2 * marks as usize)?, ()))?;
    let (turns, mut passes) = Turns::open(alloc, values, 2)?;
    let Some(second) = passes.pop() else {
        unreachable!()
    };
    let Some(first) = passes.pop() else {
        unreachable!()
    };
    let (mut first, _second) = count_both(rt, &turns, first, second, marks);
    Ok(marks_of_two(rt, &turns, &mut first))
}
