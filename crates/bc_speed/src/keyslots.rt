//! Holds of keys by a keyslot manager for one caller.
ghost use Rattle.std.specs.Prelude.{◌≡◌, ◌≤◌, length, IfOk, OnOk, None};

use anyhow::{Result, bail};
use bc_key::KeyNo;
use bc_profile::{ROW_WORDS, Row, Solo};
use std::alloc::{AllocError, Global};
use std::rt::Clock;
use std::time::Instant;

/// How many keys there are.
const KEYS: u16 = 4096;

/// How many slots the device has.
const SLOTS: u16 = 32;

/// How many keys may be held, one after the other.
pub const MOST_HOLDS: u32 = 1_000_000;

/// Prints how long so many holds take, of keys in no order, each given back before the next. The memory is taken before
/// the clock starts.
///
/// # Errors
///
/// Memory is out, or the clock or printing fails.
pub fn show(rt: &(impl Print + Clock), alloc: Global, holds: u32) -> Result<()>
    requires { holds ≤ 1000000 }
{
    let mut solo = Solo::open(alloc, SLOTS, rows(alloc)?, 2 * holds)?;
    let start = Instant::now(rt)?;
    hold_keys(&mut solo, holds)?;
    let micros = start.elapsed(rt)?.as_micros();
    let events = solo.close().len();
    println!(rt; "keyslots: {holds} holds, {events} events: {micros} microseconds")?;
    Ok(())
}

/// A register row for each key.
fn rows(alloc: Global) -> Result<Vec<Row>, AllocError>
    ensures { IfOk result (λ rows. length rows.items ≡ 4096) }
{
    let mut rows = Vec::with_capacity(alloc, usize::from(KEYS))?;
    for key in 0..KEYS {
        rows.push([u32::from(key); ROW_WORDS])?;
    }
    Ok(rows)
}

/// Takes so many holds, and gives each back before the next.
///
/// # Errors
///
/// The journal has no room for two events for each.
fn hold_keys(solo: &mut Solo, holds: u32) -> Result<()>
    requires free { solo.old.held ≡ None }
    requires keys { length solo.old.rows ≡ 4096 }
    ensures free { OnOk result (solo.new.held ≡ None) }
{
    let mut random: u32 = 1;
    for _ in 0..holds {
        random = random.wrapping_mul(1_664_525).wrapping_add(1_013_904_223);
        if solo.spare() < 2 {
            bail!("the journal is full");
        }
        let (slot, _) = solo.hold(KeyNo((random >> 16) as u16 % KEYS));
        solo.put(slot);
    }
    Ok(())
}
