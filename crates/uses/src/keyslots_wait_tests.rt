//! A thread that waits for the hold of another one.
ghost use Rattle.std.specs.Prelude.{◌≡◌, length, None, Some, IfOk};
ghost use Rattle.bc_profile.specs.Passes.{HasSpare, IsFree, IsOf};

use bc_key::KeyNo;
use bc_profile::{Event, Hold, Profile, ROW_WORDS, Skips, SlotPass};
use std::alloc::{AllocError, Global};
use std::sync::Wait;
use std::sync::atomic::{AtomicU64, Ordering};
use std::test::Fail;
use std::thread::{self, Threads, join};

const A: KeyNo = KeyNo(0);

const B: KeyNo = KeyNo(1);

/// How many turns a thread gives away at most while it waits for another one to start.
const TURNS: u32 = 100_000_000;

/// How many turns it gives away then, so that the other one gets on.
const MORE_TURNS: u32 = 10_000;

/// A device with one slot and two keys, and the passes of its two callers.
fn two_callers(alloc: Global) -> Result<(Profile, SlotPass, SlotPass), AllocError>
    ensures rows { IfOk result (λ r. length r.0.rows ≡ 2) }
    ensures callers { IfOk result (λ r. r.0.turns.callers ≡ 2) }
    ensures first { IfOk result (λ r. IsFree r.0 r.1) }
    ensures second { IfOk result (λ r. IsFree r.0 r.2) }
{
    let rows = vec![in alloc; [1; ROW_WORDS], [2; ROW_WORDS]]?;
    let quotas = vec![in alloc; 20, 20]?;
    let (profile, mut passes) = Profile::open(alloc, 1, rows, quotas)?;
    let Some(second) = passes.pop() else {
        unreachable!()
    };
    let Some(first) = passes.pop() else {
        unreachable!()
    };
    Ok((profile, first, second))
}

/// The journal of two passes.
fn journal_of(
    alloc: Global,
    profile: Profile,
    first: SlotPass,
    second: SlotPass,
) -> Result<Vec<Event>, AllocError>
    requires first { IsFree profile first }
    requires second { IsFree profile second }
    requires callers { profile.turns.callers ≡ 2 }
{
    if first.number() != 0 || second.number() != 1 {
        return Err(AllocError);
    }
    let mut passes = Vec::new(alloc);
    passes.push(first)?;
    passes.push(second)?;
    match profile.close(passes) {
        Ok(journal) => Ok(journal),
        Err(_) => Err(AllocError),
    }
}

/// Whether the other thread starts while this one waits.
fn has_started(started: &AtomicU64) -> bool {
    for _ in 0..TURNS {
        if started.load(Ordering::SeqCst) != 0 {
            return true;
        }
        thread::yield_now();
    }
    false
}

/// Waits until the other thread has started, and some turns more, and gives the hold back.
fn put_later<R: Wait>(
    rt: &R,
    profile: &Profile,
    mut pass: SlotPass,
    hold: Hold,
    started: &AtomicU64,
) -> (SlotPass, bool)
    requires pass { IsOf profile.now pass }
    requires held { pass.hold ≡ Some hold }
    requires spare { HasSpare profile.now pass 1 }
    ensures pass { IsFree profile.now result.0 }
{
    let has_started = has_started(started);
    for _ in 0..MORE_TURNS {
        thread::yield_now();
    }
    profile.put(rt, &mut pass, hold);
    (pass, has_started)
}

/// Tells that it starts, and then has the device reset or, where there is a key, takes a hold of it and gives it back.
fn call_now<R: Wait>(
    rt: &R,
    profile: &Profile,
    mut pass: SlotPass,
    key: Option<KeyNo>,
    started: &AtomicU64,
) -> SlotPass
    requires pass { IsFree profile.now pass }
    requires rows { length profile.now.rows ≡ 2 }
    ensures pass { IsFree profile.now result }
{
    if profile.spare(&pass) < 2 {
        return pass;
    }
    started.store(1, Ordering::SeqCst);
    match key {
        Some(key) if key.0 < 2 => {
            let hold = profile.get(rt, &mut pass, key);
            profile.put(rt, &mut pass, hold);
        }
        _ => profile.reset(rt, &mut pass),
    }
    pass
}

/// Both at once, each in a thread of its own. The first tells whether the other one began before it gave the hold back.
fn both<R: Threads + Wait + Sync>(
    rt: &R,
    profile: &Profile,
    first: SlotPass,
    hold: Hold,
    second: SlotPass,
    key: Option<KeyNo>,
) -> ((SlotPass, bool), SlotPass)
    requires first { IsOf profile.now first × (first.hold ≡ Some hold) × HasSpare profile.now first 1 }
    requires second { IsFree profile.now second }
    requires rows { length profile.now.rows ≡ 2 }
    ensures first { IsFree profile.now result.0.0 }
    ensures second { IsFree profile.now result.1 }
{
    let started = AtomicU64::new(0);
    join(
        rt,
        || -> (SlotPass, bool)
            requires { IsOf profile.now first × (first.hold ≡ Some hold) × HasSpare profile.now first 1 }
            ensures { IsFree profile.entry.now result.0 }
        { put_later(rt, profile, first, hold, &started) },
        || -> SlotPass
            requires { IsFree profile.now second × (length profile.now.rows ≡ 2) }
            ensures { IsFree profile.entry.now result }
        { call_now(rt, profile, second, key, &started) },
    )
}

/// The journal of a device whose only slot the first caller holds, under the key A, until the second caller's call has
/// begun in another thread; nothing where that one didn't begin.
fn meanwhile<R: Threads + Wait + Sync>(
    rt: &R,
    alloc: Global,
    key: Option<KeyNo>,
) -> Result<Option<Vec<Event>>, AllocError> {
    let (profile, mut first, second) = two_callers(alloc)?;
    if profile.spare(&first) < 2 {
        return Ok(None);
    }
    let hold = profile.get(rt, &mut first, A);
    let (one, second) = both(rt, &profile, first, hold, second, key);
    let (first, has_started) = one;
    let journal = journal_of(alloc, profile, first, second)?;
    Ok(if has_started { Some(journal) } else { None })
}

fn program(key: u16) -> Event {
    Event::Program {
        slot: 0,
        key,
        skipped: Skips::new(),
    }
}

#[test]
fn a_reset_waits_for_the_hold_of_another_thread(rt: HostRuntime) -> Result<(), Fail> {
    let Some(journal) = meanwhile(&rt, rt.alloc(), None)? else {
        return Err("the reset didn't begin".into());
    };
    let expected = [program(0), Event::Idle { slot: 0 }, Event::Reset];
    assert!(&rt; journal.as_slice() == expected.as_slice());
    Ok(())
}

#[test]
fn a_hold_waits_for_the_hold_of_another_thread(rt: HostRuntime) -> Result<(), Fail> {
    let Some(journal) = meanwhile(&rt, rt.alloc(), Some(B))? else {
        return Err("the hold wasn't asked for".into());
    };
    let expected = [
        program(0),
        Event::Idle { slot: 0 },
        program(1),
        Event::Idle { slot: 0 },
    ];
    assert!(&rt; journal.as_slice() == expected.as_slice());
    Ok(())
}
