//! Holds of keys by a keyslot manager for many callers.
ghost use Rattle.std.specs.Prelude.{◌≡◌, ◌*◌, ◌<◌, ◌≤◌, length, sum, All, IfOk};
ghost use Rattle.std.specs.Thread.{IsSync};
ghost use Rattle.bc_profile.specs.Passes.{HasSpare, IsFree};

use anyhow::{Result, bail};
use bc_key::KeyNo;
use bc_profile::{Profile, ROW_WORDS, Row, SlotPass};
use std::alloc::{AllocError, Global};
use std::rt::Clock;
use std::sync::Wait;
use std::thread::{self, Threads};
use std::time::{Duration, Instant};

/// How many slots the device has, how many keys there are, and how many callers.
const SLOTS: u16 = 32;

const KEYS: u16 = 64;

const CALLERS: u32 = 4;

/// How many rounds there are.
const ROUNDS: u32 = 20;

/// How many holds a round may have.
pub const MOST_HOLDS: u32 = 10_000;

/// Prints how long a hold and its put take: where one caller takes holds of one key, which stands in a slot, in the round
/// that took least; and where four callers, each in a thread of its own, take the holds of all rounds, of keys in no order.
/// The memory is taken before the clock starts.
///
/// # Errors
///
/// Memory is out, or the clock or printing fails.
pub fn show<R: Print + Clock + Threads + Wait + Sync>(
    rt: &R,
    alloc: Global,
    holds: u32,
) -> Result<()>
    requires { holds ≤ 10000 }
{
    let took = alone(rt, alloc, holds)?;
    let each = nanoseconds(took, holds);
    println!(rt;
        "profile: {ROUNDS} rounds of {holds} holds of one key by one caller: {each} nanoseconds each"
    )?;
    let all = ROUNDS * holds;
    let took = together(rt, alloc, all)?;
    let each = nanoseconds(took, CALLERS * all);
    println!(rt; "profile: {all} holds by each of {CALLERS} callers: {each} nanoseconds each")?;
    Ok(())
}

/// How long each of so many holds took.
fn nanoseconds(took: Duration, holds: u32) -> u128 {
    took.as_nanos() / u128::from(holds.max(1))
}

/// How long so many holds of one key by one caller take at least, in a few rounds.
fn alone<R: Clock + Wait>(rt: &R, alloc: Global, holds: u32) -> Result<Duration>
    requires { holds ≤ 10000 }
{
    let quotas = vec![in alloc; 2 * ROUNDS * holds + 2]?;
    let (profile, mut passes) = Profile::open(alloc, SLOTS, rows(alloc)?, quotas)?;
    let Some(pass) = passes.pop() else {
        unreachable!()
    };
    let pass = hold_keys(rt, &profile, pass, 1, 1);
    least_of(rt, &profile, pass, holds)
}

/// How long so many holds of one key take at least, in a few rounds.
fn least_of<R: Clock + Wait>(
    rt: &R,
    profile: &Profile,
    mut pass: SlotPass,
    holds: u32,
) -> Result<Duration>
    requires pass { IsFree profile.now pass }
    requires keys { 1 ≤ length profile.now.rows }
{
    let mut least = Duration::MAX;
    for _ in 0..ROUNDS {
        let start = Instant::now(rt)?;
        pass = hold_keys(rt, profile, pass, 1, holds);
        least = least.min(start.elapsed(rt)?);
    }
    Ok(least)
}

/// How long so many holds by each of four callers take, each in a thread of its own.
fn together<R: Clock + Threads + Wait + Sync>(rt: &R, alloc: Global, holds: u32) -> Result<Duration>
    requires { holds ≤ 200000 }
{
    let quotas = vec![in alloc; 2 * holds, 2 * holds, 2 * holds, 2 * holds]?;
    let (profile, passes) = Profile::open(alloc, SLOTS, rows(alloc)?, quotas)?;
    let start = Instant::now(rt)?;
    drop(hold_all(rt, &profile, passes, holds)?);
    Ok(start.elapsed(rt)?)
}

/// A register row for each key.
fn rows(alloc: Global) -> Result<Vec<Row>, AllocError>
    ensures { IfOk result (λ rows. length rows.items ≡ 64) }
{
    let mut rows = Vec::with_capacity(alloc, usize::from(KEYS))?;
    for key in 0..KEYS {
        rows.push([u32::from(key); ROW_WORDS])?;
    }
    Ok(rows)
}

/// Takes so many holds for each pass at once, each pass in a thread of its own.
fn hold_all<R: Threads + Wait + Sync>(
    rt: &R,
    profile: &Profile,
    passes: Vec<SlotPass>,
    holds: u32,
) -> Result<Vec<SlotPass>, AllocError>
    requires passes { All (IsFree profile.now) passes.items }
    requires keys { length profile.now.rows ≡ 64 }
    ensures { IfOk result (λ passes. All (IsFree profile.now) passes.items) }
{
    thread::map_vec(
        rt,
        passes,
        &|pass: SlotPass| -> SlotPass
            requires { IsSync R.row × IsFree profile.now pass × (length profile.now.rows ≡ 64) }
            ensures { IsFree profile.entry.now result }
        { hold_keys(rt, profile, pass, KEYS, holds) },
    )
}

/// Takes so many holds of the first so many keys in no order, and puts each before the next; fewer where the caller may not
/// make two events for each. Hands the pass on.
fn hold_keys<R: Wait>(
    rt: &R,
    profile: &Profile,
    mut pass: SlotPass,
    keys: u16,
    holds: u32,
) -> SlotPass
    requires pass { IsFree profile.now pass }
    requires keys { (1 ≤ keys) × (keys ≤ length profile.now.rows) }
    ensures pass { IsFree profile.now result }
    ensures caller { result.caller ≡ pass.caller }
{
    let mut random = u32::from(pass.number());
    for _ in 0..holds {
        if profile.spare(&pass) < 2 {
            return pass;
        }
        random = random.wrapping_mul(1_664_525).wrapping_add(1_013_904_223);
        let hold = profile.get(rt, &mut pass, KeyNo((random >> 16) as u16 % keys));
        profile.put(rt, &mut pass, hold);
    }
    pass
}
