//! Two callers' passes in one thread.
ghost use Rattle.std.specs.Prelude.{◌≡◌, ◌≤◌, ◌<◌, length, None, IfOk};
ghost use Rattle.bc_profile.specs.Passes.{IsOf};

use crate::{Busy, Event, Profile, Row, Skip, Skips, SlotPass, SlotState, SlotWord};
use bc_key::KeyNo;
use std::alloc::{AllocError, Global};
use std::test::Fail;

const A: KeyNo = KeyNo(0);

const B: KeyNo = KeyNo(1);

const C: KeyNo = KeyNo(2);

/// The rows of three keys: the words of key k are k + 1.
fn three_rows(alloc: Global) -> Result<Vec<Row>, AllocError>
    ensures { IfOk result (λ rows. length rows.items ≡ 3) }
{
    Ok(vec![in alloc; [1; 18], [2; 18], [3; 18]]?)
}

/// A device with so many slots, and the passes of its two callers.
fn two_callers(alloc: Global, slots: u16) -> Result<(Profile, SlotPass, SlotPass), AllocError>
    requires some { 1 ≤ slots }
    requires few { slots ≤ 32 }
    ensures rows { IfOk result (λ r. length r.0.rows ≡ 3) }
    ensures callers { IfOk result (λ r. r.0.turns.callers ≡ 2) }
    ensures first { IfOk result (λ r. IsOf r.0 r.1 × (r.1.hold ≡ None)) }
    ensures second { IfOk result (λ r. IsOf r.0 r.2 × (r.2.hold ≡ None)) }
{
    let quotas = vec![in alloc; 20, 20]?;
    let (profile, mut passes) = Profile::open(alloc, slots, three_rows(alloc)?, quotas)?;
    let Some(second) = passes.pop() else {
        unreachable!()
    };
    let Some(first) = passes.pop() else {
        unreachable!()
    };
    Ok((profile, first, second))
}

/// Whether this is the journal of two passes.
fn is_journal(
    alloc: Global,
    profile: Profile,
    first: SlotPass,
    second: SlotPass,
    expected: &[Event],
) -> Result<bool, AllocError>
    requires first { IsOf profile first × (first.hold ≡ None) }
    requires second { IsOf profile second × (second.hold ≡ None) }
    requires callers { profile.turns.callers ≡ 2 }
{
    if first.number() != 0 || second.number() != 1 {
        return Ok(false);
    }
    let mut passes = Vec::new(alloc);
    passes.push(first)?;
    passes.push(second)?;
    match profile.close(passes) {
        Ok(journal) => Ok(journal.as_slice() == expected),
        Err(_) => Err(AllocError),
    }
}

fn program(slot: u16, key: u16) -> Event {
    Event::Program {
        slot,
        key,
        skipped: Skips::new(),
    }
}

fn idle(slot: u16) -> Event {
    Event::Idle { slot }
}

#[test]
fn an_eviction_under_a_hold_is_refused(rt: HostRuntime) -> Result<(), Fail> {
    let alloc = rt.alloc();
    let (profile, mut first, mut second) = two_callers(alloc, 2)?;
    assert!(&rt; profile.spare(&first) >= 4 && profile.spare(&second) >= 4);
    let hold = profile.get(&rt, &mut first, A);
    assert!(&rt; hold.slot() == 0 && hold.epoch() == 0);
    assert!(&rt; profile.load(&mut first, &hold, 17) == 1);
    let refused = profile.evict(&rt, &mut second, A);
    assert!(&rt; refused == Err(Busy { slot: 0, refs: 1 }));
    assert!(&rt; profile.spare(&first) >= 1 && profile.spare(&second) >= 4);
    profile.put(&rt, &mut first, hold);
    let nowhere = profile.evict(&rt, &mut second, B);
    assert!(&rt; nowhere.is_ok() && profile.spare(&second) == 19);
    let evicted = profile.evict(&rt, &mut second, A);
    assert!(&rt; evicted.is_ok() && profile.spare(&second) == 18);
    profile.reset(&rt, &mut second);
    let expected = [
        program(0, 0),
        Event::Busy {
            slot: 0,
            key: 0,
            refs: 1,
        },
        idle(0),
        Event::Evict { slot: 0, key: 0 },
        Event::Reset,
    ];
    assert!(&rt; is_journal(alloc, profile, first, second, &expected)?);
    Ok(())
}

#[test]
fn a_refused_eviction_leaves_the_key(rt: HostRuntime) -> Result<(), Fail> {
    let alloc = rt.alloc();
    let (profile, mut first, mut second) = two_callers(alloc, 2)?;
    assert!(&rt; profile.spare(&first) >= 2 && profile.spare(&second) >= 2);
    let hold = profile.get(&rt, &mut first, A);
    let refused = profile.evict(&rt, &mut second, A);
    assert!(&rt; refused == Err(Busy { slot: 0, refs: 1 }));
    assert!(&rt; profile.spare(&first) >= 1);
    profile.put(&rt, &mut first, hold);
    assert!(&rt; profile.spare(&first) >= 2);
    let hold = profile.get(&rt, &mut first, A);
    assert!(&rt; hold.slot() == 0 && hold.epoch() == 0);
    assert!(&rt; profile.spare(&first) >= 1);
    profile.put(&rt, &mut first, hold);
    let refused = Event::Busy {
        slot: 0,
        key: 0,
        refs: 1,
    };
    let expected = [program(0, 0), refused, idle(0), idle(0)];
    assert!(&rt; is_journal(alloc, profile, first, second, &expected)?);
    Ok(())
}

#[test]
fn an_eviction_after_the_last_put_empties(rt: HostRuntime) -> Result<(), Fail> {
    let alloc = rt.alloc();
    let (profile, mut first, mut second) = two_callers(alloc, 2)?;
    assert!(&rt; profile.spare(&first) >= 2 && profile.spare(&second) >= 1);
    let hold = profile.get(&rt, &mut first, A);
    assert!(&rt; profile.spare(&first) >= 1);
    profile.put(&rt, &mut first, hold);
    assert!(&rt; profile.spare(&first) >= 2);
    let hold = profile.get(&rt, &mut first, A);
    assert!(&rt; profile.spare(&first) >= 1);
    profile.put(&rt, &mut first, hold);
    assert!(&rt; profile.evict(&rt, &mut second, A).is_ok());
    let evicted = Event::Evict { slot: 0, key: 0 };
    let expected = [program(0, 0), idle(0), idle(0), evicted];
    assert!(&rt; is_journal(alloc, profile, first, second, &expected)?);
    Ok(())
}

#[test]
fn held_slots_are_skipped(rt: HostRuntime) -> Result<(), Fail> {
    let alloc = rt.alloc();
    let (profile, mut first, mut second) = two_callers(alloc, 2)?;
    assert!(&rt; profile.spare(&first) >= 2 && profile.spare(&second) >= 2);
    let hold = profile.get(&rt, &mut first, A);
    assert!(&rt; profile.spare(&first) >= 1);
    profile.put(&rt, &mut first, hold);
    let hold = profile.get(&rt, &mut second, B);
    assert!(&rt; profile.spare(&first) >= 2 && profile.spare(&second) >= 1);
    profile.put(&rt, &mut second, hold);
    let held = profile.get(&rt, &mut first, A);
    assert!(&rt; held.slot() == 0 && held.epoch() == 0);
    assert!(&rt; profile.spare(&first) >= 1 && profile.spare(&second) >= 2);
    let hold = profile.get(&rt, &mut second, C);
    assert!(&rt; hold.slot() == 1 && hold.epoch() == 4);
    assert!(&rt; profile.spare(&second) >= 1);
    profile.put(&rt, &mut first, held);
    profile.put(&rt, &mut second, hold);
    let mut skipped = Skips::new();
    skipped.push(Skip { slot: 0, refs: 1 });
    let expected = [
        program(0, 0),
        idle(0),
        program(1, 1),
        idle(1),
        Event::Program {
            slot: 1,
            key: 2,
            skipped,
        },
        idle(0),
        idle(1),
    ];
    assert!(&rt; is_journal(alloc, profile, first, second, &expected)?);
    Ok(())
}

#[test]
fn one_slot_is_held_by_one(rt: HostRuntime) -> Result<(), Fail> {
    let alloc = rt.alloc();
    let (profile, mut first, mut second) = two_callers(alloc, 1)?;
    assert!(&rt; profile.spare(&first) >= 2 && profile.spare(&second) >= 2);
    let hold = profile.get(&rt, &mut first, A);
    let Err(all) = profile.try_get(&rt, &mut second, B) else {
        return Err(AllocError.into());
    };
    let word = SlotWord {
        refs: 1,
        state: SlotState::Ready,
        key: 0,
        epoch: 0,
    };
    assert!(&rt; all.words.as_slice() == [word].as_slice());
    assert!(&rt; profile.spare(&first) >= 1 && profile.spare(&second) >= 2);
    profile.put(&rt, &mut first, hold);
    let Ok(hold) = profile.try_get(&rt, &mut second, B) else {
        return Err(AllocError.into());
    };
    assert!(&rt; profile.spare(&second) >= 1);
    profile.put(&rt, &mut second, hold);
    let expected = [program(0, 0), idle(0), program(0, 1), idle(0)];
    assert!(&rt; is_journal(alloc, profile, first, second, &expected)?);
    Ok(())
}
