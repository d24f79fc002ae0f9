//! Runs in which a gate holds a thread up until another one has come somewhere, by [`threads`] and
//! by [`sections`].

ghost use Rattle.std.specs.Prelude.{◌≡◌, ◌*◌, ◌≤◌, length};

use super::*;
use crate::many_callers::{carry_out_some, finish, open_disk};
use bc_base::{Gate, GatePlace};
use bc_disk::Opened;
use bc_report::print;
use bc_script::{Script, parse};
use bc_section::Finished;
use std::alloc::{AllocError, Global};
use std::sync::Wait;
use std::sync::atomic::{AtomicU64, Ordering};
use std::test::Fail;
use std::thread::{self, Threads};

/// How many turns a thread gives away at most where it is held up.
const TURNS: u32 = 100_000_000;

/// How many waits a gate may have.
const MOST_WAITS: usize = 5;

/// Where in an operation a thread passes the gate.
#[derive(Clone, Copy, PartialEq, Eq)]
enum Moment {
    Starts,
    Holds,
    Answered,
}

/// A place of an operation of a thread.
#[derive(Clone, Copy)]
struct Passed {
    thread: u16,
    op: u32,
    place: Moment,
}

/// A thread that comes to the place `at` is held up there until another one has come to `until`.
#[derive(Clone, Copy)]
struct HeldUp {
    at: Passed,
    until: Passed,
}

/// A gate that holds threads up, each for as many turns as there may be.
#[derive(Drop)]
struct HoldingGate<'w> {
    waits: &'w [HeldUp],
    /// For each of them not 0 once the other thread has come.
    has_come: [AtomicU64; MOST_WAITS],
    /// Not 0 once a thread went on without the one that it waited for.
    gave_up: AtomicU64,
}

const fn starts(thread: u16, op: u32) -> Passed {
    let place = Moment::Starts;
    Passed { thread, op, place }
}

const fn holds(thread: u16, op: u32) -> Passed {
    let place = Moment::Holds;
    Passed { thread, op, place }
}

const fn has_answer(thread: u16, op: u32) -> Passed {
    let place = Moment::Answered;
    Passed { thread, op, place }
}

const fn held_up(at: Passed, until: Passed) -> HeldUp {
    HeldUp { at, until }
}

impl Passed {
    fn is(&self, thread: u16, op: u32, place: Moment) -> bool {
        self.thread == thread && self.op == op && self.place == place
    }
}

/// Waits until the other thread has come; tells whether it did.
fn wait_for(has_come: &AtomicU64) -> bool {
    for _ in 0..TURNS {
        if has_come.load(Ordering::SeqCst) != 0 {
            return true;
        }
        thread::yield_now();
    }
    false
}

impl<'w> HoldingGate<'w> {
    fn new(waits: &'w [HeldUp]) -> HoldingGate<'w> {
        HoldingGate {
            waits,
            has_come: [
                AtomicU64::new(0),
                AtomicU64::new(0),
                AtomicU64::new(0),
                AtomicU64::new(0),
                AtomicU64::new(0),
            ],
            gave_up: AtomicU64::new(0),
        }
    }

    fn has_given_up(&self) -> bool {
        self.gave_up.load(Ordering::SeqCst) != 0
    }
}

impl Gate for HoldingGate<'_> {
    fn pass<R: Wait>(&self, _rt: &R, thread: u16, tag: u32, place: GatePlace) {
        let place = match place {
            GatePlace::Starts => Moment::Starts,
            GatePlace::Holds { .. } => Moment::Holds,
            GatePlace::Answered => Moment::Answered,
        };
        for (one, has_come) in self.waits.iter().zip(&self.has_come) {
            if one.until.is(thread, tag, place) {
                has_come.store(1, Ordering::SeqCst);
            }
        }
        for (one, has_come) in self.waits.iter().zip(&self.has_come) {
            if one.at.is(thread, tag, place) && !wait_for(has_come) {
                self.gave_up.store(1, Ordering::SeqCst);
            }
        }
    }
}

// ---- runs

/// Opens a disk, has the sections of a script carried out, of which there is one, and closes the
/// disk.
fn by_sections<G: Gate + Sync, R: Threads + Wait + Sync>(
    rt: &R,
    alloc: Global,
    script: &Script,
    image: Vec<u8>,
    shards: u16,
    gate: &G,
) -> Result<Finished, AllocError>
    requires length { length image.items ≡ 4096 * script.now.blocks }
    requires shards { (1 ≤ shards) × (shards ≤ 64) }
    requires some { 1 ≤ length script.now.threads }
{
    let Opened { disk, passes } = open_disk(alloc, script, image, shards)?;
    let (passes, answers) = carry_out_some(rt, alloc, script, &disk, passes, gate)?;
    finish(rt, alloc, script, disk, passes, answers)
}

/// The report of a script of a section at least that is carried out over zeros, by [`threads`] or
/// by [`sections`], while threads are held up so. None of them may have waited in vain.
fn report_of<R: Threads + Wait + Sync>(
    rt: &R,
    alloc: Global,
    is_by_sections: bool,
    text: &[u8],
    shards: u16,
    waits: &[HeldUp],
) -> Result<Vec<u8>, Fail>
    requires shards { (1 ≤ shards) × (shards ≤ 64) }
{
    let Ok(script) = parse(alloc, text) else {
        return Err("the text is no script".into());
    };
    if script.threads().is_empty() {
        return Err("the script has no section".into());
    }
    let image = vec![in alloc; 0; 4096 * script.blocks() as usize]?;
    let gate = HoldingGate::new(waits);
    let finished = if is_by_sections {
        by_sections(rt, alloc, &script, image, shards, &gate)?
    } else {
        threads(rt, alloc, &script, image, shards, 0, &gate)?
    };
    if gate.has_given_up() {
        return Err("a thread waited in vain".into());
    }
    Ok(print(alloc, &finished.report)?)
}

// ---- an eviction and a hold of its key

const WRITTEN_AND_EVICTED: &[u8] = b"blkcrypt 1\ndisk 2\nfallback off\ndevice 0 2 2 8 0 8\n\
    key a aes-256-xts 4096 8 \
    000102030405060708090a0b0c0d0e0f101112131415161718191a1b1c1d1e1f\
    202122232425262728292a2b2c2d2e2f303132333435363738393a3b3c3d3e3f\n\
    thread\nwrite a 0 1 0 fill 11\nread a 0 1 0\nthread\nevict a\nend\n";

#[test]
fn a_key_that_another_thread_holds_is_not_evicted(rt: HostRuntime) -> Result<(), Fail> {
    let waits = [
        held_up(starts(1, 0), holds(0, 0)),
        held_up(holds(0, 0), has_answer(1, 0)),
    ];
    let expected: &[u8] = b"report 1\nthread 0\ndone\ndone fill 11\nthread 1\nbusy 0 0 1\n\
        shard 0 2\n0 0 0 inline 0 0 0\n0 1 0 inline 0 0 0\n\
        device 0 4\nprogram 0 0\nbusy 0 0 1\nidle 0\nidle 0\nend\n";
    for is_by_sections in [false, true] {
        let report = report_of(
            &rt,
            rt.alloc(),
            is_by_sections,
            WRITTEN_AND_EVICTED,
            1,
            &waits,
        )?;
        assert_eq!(rt; report.as_slice(), expected);
    }
    Ok(())
}

#[test]
fn a_key_that_nobody_holds_any_more_is_evicted(rt: HostRuntime) -> Result<(), Fail> {
    let waits = [held_up(starts(1, 0), has_answer(0, 1))];
    let expected: &[u8] = b"report 1\nthread 0\ndone\ndone fill 11\nthread 1\nevicted\n\
        shard 0 2\n0 0 0 inline 0 0 0\n0 1 0 inline 0 0 0\n\
        device 0 4\nprogram 0 0\nidle 0\nidle 0\nevict 0 0\nend\n";
    for is_by_sections in [false, true] {
        let report = report_of(
            &rt,
            rt.alloc(),
            is_by_sections,
            WRITTEN_AND_EVICTED,
            1,
            &waits,
        )?;
        assert_eq!(rt; report.as_slice(), expected);
    }
    Ok(())
}

// ---- threads beside each other

const TWO_KEYS: &[u8] = b"blkcrypt 1\ndisk 2\nfallback off\ndevice 0 2 2 1 0 8\n\
    key a aes-256-xts 512 8 \
    000102030405060708090a0b0c0d0e0f101112131415161718191a1b1c1d1e1f\
    202122232425262728292a2b2c2d2e2f303132333435363738393a3b3c3d3e3f\n\
    key b aes-256-xts 512 8 \
    404142434445464748494a4b4c4d4e4f505152535455565758595a5b5c5d5e5f\
    606162636465666768696a6b6c6d6e6f707172737475767778797a7b7c7d7e7f\n\
    thread\nwrite a 0 1 0 fill 11\nthread\nwrite b 8 1 0 fill 22\nend\n";

/// Thread 1 is done while thread 0 has a hold. Which of them programs its slot first, nobody says.
#[test]
fn a_thread_goes_on_while_another_one_is_held_up(rt: HostRuntime) -> Result<(), Fail> {
    let waits = [held_up(holds(0, 0), has_answer(1, 0))];
    let first: &[u8] = b"report 1\nthread 0\ndone\nthread 1\ndone\n\
        shard 0 1\n0 0 0 inline 0 0 0\nshard 1 1\n1 0 0 inline 0 1 1\n\
        device 0 4\nprogram 0 0\nprogram 1 1\nidle 1\nidle 0\nend\n";
    let second: &[u8] = b"report 1\nthread 0\ndone\nthread 1\ndone\n\
        shard 0 1\n0 0 0 inline 0 1 1\nshard 1 1\n1 0 0 inline 0 0 0\n\
        device 0 4\nprogram 0 1\nprogram 1 0\nidle 0\nidle 1\nend\n";
    let later: &[u8] = b"report 1\nthread 0\ndone\nthread 1\ndone\n\
        shard 0 1\n0 0 0 inline 0 1 2\nshard 1 1\n1 0 0 inline 0 0 0\n\
        device 0 4\nprogram 0 1\nidle 0\nprogram 1 0\nidle 1\nend\n";
    for is_by_sections in [false, true] {
        let report = report_of(&rt, rt.alloc(), is_by_sections, TWO_KEYS, 2, &waits)?;
        let report = report.as_slice();
        assert!(rt; report == first || report == second || report == later);
    }
    Ok(())
}

const THREE_KEYS: &[u8] = b"blkcrypt 1\ndisk 1\nfallback off\ndevice 0 1 2 1 0 8\n\
    key a aes-256-xts 512 8 \
    000102030405060708090a0b0c0d0e0f101112131415161718191a1b1c1d1e1f\
    202122232425262728292a2b2c2d2e2f303132333435363738393a3b3c3d3e3f\n\
    key b aes-256-xts 512 8 \
    404142434445464748494a4b4c4d4e4f505152535455565758595a5b5c5d5e5f\
    606162636465666768696a6b6c6d6e6f707172737475767778797a7b7c7d7e7f\n\
    key c aes-256-xts 512 8 \
    808182838485868788898a8b8c8d8e8f909192939495969798999a9b9c9d9e9f\
    a0a1a2a3a4a5a6a7a8a9aaabacadaeafb0b1b2b3b4b5b6b7b8b9babbbcbdbebf\n\
    thread\nwrite a 0 1 0 fill 11\nread a 0 1 0\n\
    thread\nwrite b 1 1 0 fill 22\nwrite c 2 1 0 fill 33\nend\n";

#[test]
fn a_slot_that_another_thread_holds_is_skipped(rt: HostRuntime) -> Result<(), Fail> {
    let waits = [
        held_up(starts(1, 0), has_answer(0, 0)),
        held_up(starts(0, 1), has_answer(1, 0)),
        held_up(starts(1, 1), holds(0, 1)),
        held_up(holds(0, 1), holds(1, 1)),
        held_up(holds(1, 1), has_answer(0, 1)),
    ];
    let expected: &[u8] = b"report 1\nthread 0\ndone\ndone fill 11\nthread 1\ndone\ndone\n\
        shard 0 4\n0 0 0 inline 0 0 0\n1 0 0 inline 0 1 2\n0 1 0 inline 0 0 0\n1 1 0 inline 0 1 4\n\
        device 0 7\nprogram 0 0\nidle 0\nprogram 1 1\nidle 1\nprogram 1 2 skip 0:1\nidle 0\nidle 1\nend\n";
    for is_by_sections in [false, true] {
        let report = report_of(&rt, rt.alloc(), is_by_sections, THREE_KEYS, 1, &waits)?;
        assert_eq!(rt; report.as_slice(), expected);
    }
    Ok(())
}
