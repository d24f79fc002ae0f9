//! The calls of a store in memory, of which those that its plan has fail.

ghost use Rattle.std.specs.Prelude.{◌≡◌, ◌↔◌, ◌&&◌, IsTrue, IsErr, OnOk, OnErr, Some, true, nat_le, nat_lt, if◌then◌else◌};
ghost use Rattle.std.specs.Option.{option_map_or};
ghost use Rattle.bc_base.specs.Memory.{next_count, NextFails};
ghost use Rattle.bc_base.specs.Outside.{HasCause};
ghost use Rattle.bc_base.specs.RamStores.{PlansNext};

use crate::error::Failed;
use std::marker::Model;

/// Counts calls from 0, and makes those fail that the plan has. It keeps the planned number that comes next, so that a
/// call that doesn't fail costs one comparison however long the plan is.
#[derive(Drop)]
pub(crate) struct PlannedCalls {
    plan: Vec<u32>,
    next: Option<u32>,
    calls: u64,
    faults: u64,
}

impl Model for PlannedCalls {
    ghost use Rattle.bc_base.specs.Memory as memory;
    ghost use Rattle.bc_base.specs.RamStores.{PlansNext};

    ghost Value = { memory.Calls };

    ghost view = { λ c. record { fails = c.plan.items; calls = c.calls; faults = c.faults } };

    ghost invariant = { λ c. PlansNext c.plan.items c.calls c.next };
}

impl PlannedCalls {
    pub(crate) fn new(plan: Vec<u32>) -> PlannedCalls
        ensures { result ≡ record { fails = plan.items; calls = 0; faults = 0 } }
    {
        PlannedCalls {
            next: next_planned(&plan, 0),
            plan,
            calls: 0,
            faults: 0,
        }
    }

    /// The next call, which fails where the plan has its number.
    pub(crate) fn next(&mut self) -> Result<(), Failed>
        ensures fails { IsErr result ↔ NextFails self.old }
        ensures cause { HasCause self.old.faults self.new.faults (IsErr result) }
        ensures ok { OnOk result (self.new ≡ record self.old { calls = next_count self.old.calls }) }
        ensures err { OnErr result
            (self.new ≡ record self.old { calls = next_count self.old.calls; faults = next_count self.old.faults }) }
    {
        let fails = is_next(self.next, self.calls);
        self.calls = self.calls.saturating_add(1);
        if fails {
            self.faults = self.faults.saturating_add(1);
            self.next = next_planned(&self.plan, self.calls);
            return Err(Failed);
        }
        Ok(())
    }
}

/// Tells whether this call is the one that the plan has next.
fn is_next(next: Option<u32>, call: u64) -> bool
    ensures { IsTrue result ↔ (next ≡ Some call) }
{
    match next {
        Some(number) => u64::from(number) == call,
        None => false,
    }
}

/// The least number of the plan that is `from` or more.
fn next_planned(plan: &[u32], from: u64) -> Option<u32>
    ensures { PlansNext plan.now from result }
{
    let mut next = None;
    for number in plan {
        next = nearer(next, *number, from);
    }
    next
}

/// The lesser of two numbers that are `from` or more.
fn nearer(next: Option<u32>, number: u32, from: u64) -> Option<u32>
    ensures { result ≡
        (if nat_le from number && option_map_or (λ n. nat_lt number n) next true then Some number else next) }
{
    match next {
        Some(least) if least <= number => next,
        _ if u64::from(number) >= from => Some(number),
        _ => next,
    }
}
