//! Two threads over one value, and threads over the shards of one disk.
use crate::{Finished, Step, Told, add_up, run_in_memory};
use bc_base::{Place, RamStore};
use bc_medium::Entry;
use std::alloc::{AllocError, Global};
use std::sync::Wait;
use std::test::Fail;
use std::thread::Threads;

#[test]
fn two_threads_add_up(rt: HostRuntime) -> Result<(), Fail> {
    assert_eq!(&rt; add_up(&rt, rt.alloc(), 100_000)?, (100_000, 100_000));
    Ok(())
}

/// The steps that each caller takes.
const STEPS: u32 = 60;

/// The places of each shard at which its store fails.
const PLAN: [u32; 4] = [0, 7, 8, 29];

#[test]
fn orders_tell_all(rt: HostRuntime) -> Result<(), Fail> {
    let table = [(1, 1, 1), (2, 1, 2), (2, 3, 6), (4, 1, 2), (4, 5, 12)];
    for (callers, shards, blocks) in table {
        assert!(rt; at_once(&rt, rt.alloc(), callers, shards, blocks)?);
    }
    Ok(())
}

/// Whether the orders that so many callers leave tell what each of them was answered.
fn at_once<R: Threads + Wait + Sync>(
    rt: &R,
    alloc: Global,
    callers: u16,
    shards: u16,
    blocks: u16,
) -> Result<bool, AllocError> {
    if callers == 0 || shards == 0 || blocks == 0 {
        return Ok(false);
    }
    let image = vec![in alloc; 0; 4096 * usize::from(blocks)]?;
    let mut scripts = Vec::new(alloc);
    for caller in 0..callers {
        scripts.push(script(alloc, u32::from(caller), 8 * u32::from(blocks))?)?;
    }
    let end = run_in_memory(rt, alloc, &image, shards, &PLAN, STEPS, &scripts)?;
    let mut disk = vec![in alloc; 0; 8 * usize::from(blocks)]?;
    let mut made: u64 = 0;
    let mut shard: u16 = 0;
    for order in &end.orders {
        if !replays(&end, shard, order, &mut disk) || !is_in_order(order, callers) {
            return Ok(false);
        }
        shard = shard.saturating_add(1);
        made = made.saturating_add(order.len() as u64);
    }
    Ok(made == u64::from(callers) * u64::from(STEPS))
}

/// The steps of a caller, over all sectors of the disk.
fn script(alloc: Global, caller: u32, sectors: u32) -> Result<Vec<Step>, AllocError> {
    let mut steps = Vec::new(alloc);
    for number in 0..STEPS {
        let sector = (7 * number)
            .wrapping_add(5 * (caller % 8))
            .checked_rem(sectors);
        let fill = if number % 3 == 2 {
            None
        } else {
            Some((64 * (caller % 4) + number) as u8)
        };
        steps.push(Step {
            sector: sector.unwrap_or(0),
            fill,
        })?;
    }
    Ok(steps)
}

/// Whether each entry of a shard's order is what its caller was answered, where the first bytes of the sectors are
/// these before: a fault exactly at a planned place, and of a read the byte that was filled in last.
fn replays(end: &Finished<RamStore>, shard: u16, order: &[Entry], disk: &mut [u8]) -> bool {
    let mut index = 0;
    for entry in order {
        let place = Place { shard, index };
        let Some(told) = told_of(end, entry) else {
            return false;
        };
        let Some(byte) = disk.get_mut(entry.at.sector as usize) else {
            return false;
        };
        let expected = match &entry.plain {
            _ if PLAN.contains(&index) => Told::Fault(place),
            Some(plain) => {
                *byte = plain.as_slice().first().copied().unwrap_or(0);
                Told::Filled(place)
            }
            None => Told::Found(place, *byte),
        };
        if told != expected || entry.failed != PLAN.contains(&index) {
            return false;
        }
        index = index.saturating_add(1);
    }
    true
}

/// What the caller of an entry was answered at that step.
fn told_of(end: &Finished<RamStore>, entry: &Entry) -> Option<Told> {
    let told = end.told.get(usize::from(entry.at.caller))?;
    told.get(entry.at.tag as usize).copied()
}

/// Whether each caller's entries are there in the order of its steps, each once.
fn is_in_order(order: &[Entry], callers: u16) -> bool {
    for caller in 0..callers {
        let mut next = 0;
        for entry in order {
            if entry.at.caller == caller {
                if entry.at.tag < next {
                    return false;
                }
                next = entry.at.tag.saturating_add(1);
            }
        }
    }
    true
}
