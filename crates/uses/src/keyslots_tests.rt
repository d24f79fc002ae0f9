//! Threads over the keyslots of one device.
ghost use Rattle.std.specs.Prelude.{◌≡◌, length, IfOk};

use crate::{DeviceDone, SlotAnswer, SlotCall, run_on_slots};
use bc_key::KeyNo;
use bc_profile::{Event, ROW_WORDS, Row, Skips};
use std::alloc::{AllocError, Global};
use std::sync::Wait;
use std::test::Fail;
use std::thread::Threads;

/// How many calls each of four callers makes. Each adds two events at most.
const CALLS: u32 = 500;

/// How long a thread waits for another one, in turns that it gives away.
const TURNS: u32 = 100_000_000;

/// The rows of so many keys: the words of key k are k + 1.
fn rows(alloc: Global, keys: u16) -> Result<Vec<Row>, AllocError>
    ensures { IfOk result (λ rows. length rows.items ≡ keys) }
{
    let mut rows = Vec::new(alloc);
    for key in 0..keys {
        rows.push([u32::from(key) + 1; ROW_WORDS])?;
    }
    Ok(rows)
}

// ---- four threads

#[test]
fn random_callers_leave_a_lawful_journal(rt: HostRuntime) -> Result<(), Fail> {
    let table = [(1, 1, 1), (2, 7, 2), (3, 7, 3), (3, 4, 4), (8, 5, 5)];
    for (slots, keys, seed) in table {
        assert!(&rt; is_lawful_run(&rt, rt.alloc(), slots, keys, seed)?);
    }
    Ok(())
}

/// Whether what four threads with random calls leave is a lawful journal, in which stands what each was answered.
fn is_lawful_run<R: Threads + Wait + Sync>(
    rt: &R,
    alloc: Global,
    slots: u16,
    keys: u16,
    seed: u32,
) -> Result<bool, AllocError> {
    if slots == 0 || slots > 32 || keys > 4096 {
        return Ok(false);
    }
    let mut lists = Vec::new(alloc);
    for caller in 0..4 {
        lists.push(random_calls(alloc, keys, 4 * (seed % 1000) + caller)?)?;
    }
    let quotas = vec![in alloc; 1000, 1000, 1000, 1000]?;
    let end = run_on_slots(rt, alloc, slots, rows(alloc, keys)?, quotas, &lists)?;
    for (told, calls) in end.told.iter().zip(lists.iter()) {
        if told.len() != calls.len().saturating_add(1) || !is_answered(keys, told, calls) {
            return Ok(false);
        }
    }
    Ok(replays(alloc, slots, end.journal.as_slice())? && is_told(&end))
}

/// Calls in no order: of keys with a row and the first one without, and of registers and the first one past them.
fn random_calls(alloc: Global, keys: u16, seed: u32) -> Result<Vec<SlotCall>, AllocError> {
    let mut calls = Vec::new(alloc);
    let mut random = seed;
    for _ in 0..CALLS {
        random = random.wrapping_mul(1_664_525).wrapping_add(1_013_904_223);
        let number = random >> 8;
        let key = (number >> 6).checked_rem(u32::from(keys) + 1).unwrap_or(0) as u16;
        calls.push(match number % 32 {
            0..=12 => SlotCall::Get(KeyNo(key)),
            13..=22 => SlotCall::Put,
            23..=26 => SlotCall::Evict(KeyNo(key)),
            27 => SlotCall::Reset,
            _ => SlotCall::Load(((number >> 6) % 19) as u8),
        })?;
    }
    Ok(calls)
}

/// Whether each answer is one to its call, and a call is left just where its caller could not make it. The callers have
/// events to spare at each call.
fn is_answered(keys: u16, told: &[SlotAnswer], calls: &[SlotCall]) -> bool {
    let mut held = None;
    for (answer, call) in told.iter().zip(calls.iter()) {
        let fits = match (call, answer, held) {
            (SlotCall::Get(wanted), SlotAnswer::Held { key, .. }, None) => *key == wanted.0,
            (SlotCall::Get(wanted), SlotAnswer::Left, None) => wanted.0 >= keys,
            (SlotCall::Put, SlotAnswer::Back { .. }, Some(_)) => true,
            (SlotCall::Put, SlotAnswer::Left, None) => true,
            (SlotCall::Evict(wanted), SlotAnswer::Evicted { key }, None) => *key == wanted.0,
            (SlotCall::Evict(wanted), SlotAnswer::Busy { key, refs, .. }, None) => {
                *key == wanted.0 && *refs >= 1
            }
            (SlotCall::Evict(wanted), SlotAnswer::Left, None) => wanted.0 >= keys,
            (SlotCall::Reset, SlotAnswer::Reset, None) => true,
            (
                SlotCall::Load(wanted),
                SlotAnswer::Loaded {
                    key,
                    register,
                    value,
                },
                Some(of),
            ) => { *register == *wanted && *key == of && *value == u32::from(of).wrapping_add(1) }
            (SlotCall::Load(wanted), SlotAnswer::Left, held) => held.is_none() || *wanted == 18,
            (SlotCall::Get(_) | SlotCall::Evict(_) | SlotCall::Reset, SlotAnswer::Left, Some(_)) =>
                true,
            _ => false,
        };
        if !fits {
            return false;
        }
        match answer {
            SlotAnswer::Held { key, .. } => held = Some(*key),
            SlotAnswer::Back { .. } => held = None,
            _ => {}
        }
    }
    true
}

/// Whether the events that the answers name stand in the journal: at the place that a hold names, its programming; and as
/// many refused evictions and resets as callers were answered.
fn is_told(end: &DeviceDone) -> bool {
    let mut refused: u32 = 0;
    let mut resets: u32 = 0;
    for told in &end.told {
        for answer in told {
            match answer {
                SlotAnswer::Held { slot, key, epoch } => {
                    if !is_programming(end.journal.get(*epoch as usize), *slot, *key) {
                        return false;
                    }
                }
                SlotAnswer::Busy { .. } => refused = refused.saturating_add(1),
                SlotAnswer::Reset => resets = resets.saturating_add(1),
                _ => {}
            }
        }
    }
    for event in &end.journal {
        match event {
            Event::Busy { .. } => refused = refused.saturating_sub(1),
            Event::Reset => resets = resets.saturating_sub(1),
            _ => {}
        }
    }
    refused == 0 && resets == 0
}

/// Whether the event programs this slot with this key.
fn is_programming(event: Option<&Event>, of_slot: u16, with_key: u16) -> bool {
    match event {
        Some(Event::Program { slot, key, .. }) => *slot == of_slot && *key == with_key,
        _ => false,
    }
}

// ---- the plain model

/// A device as a journal leaves it: the key of each slot, and the idle slots, the least recently idle first.
#[derive(Drop)]
struct Plain {
    slots: u16,
    keys: Vec<Option<u16>>,
    idle: Vec<u16>,
}

/// Whether each event of the journal may come when it comes, and all slots are idle at the end.
fn replays(alloc: Global, slots: u16, journal: &[Event]) -> Result<bool, AllocError> {
    let mut plain = Plain {
        slots,
        keys: vec![in alloc; None; usize::from(slots)]?,
        idle: (0..slots).collect(alloc)?,
    };
    for event in journal {
        if !plain.may_come(alloc, event)? {
            return Ok(false);
        }
        plain.follow(event)?;
    }
    Ok(plain.idle.len() == usize::from(slots))
}

impl Plain {
    /// Whether the event may come now.
    fn may_come(&self, alloc: Global, event: &Event) -> Result<bool, AllocError> {
        Ok(match event {
            Event::Program { slot, key, skipped } => {
                !self.keys.contains(&Some(*key)) && self.skips(alloc, *slot, skipped)?
            }
            Event::Idle { slot } => self.has_key(*slot),
            Event::Evict { slot, key } => self.is_key(*slot, *key),
            Event::Busy { slot, key, refs } => self.is_key(*slot, *key) && *refs >= 1,
            Event::Reset => true,
        })
    }

    /// Whether the slots before this one in the idle order are those that were skipped, and each of them has a key and was
    /// found with references.
    fn skips(&self, alloc: Global, slot: u16, skipped: &Skips) -> Result<bool, AllocError> {
        let mut order = self.idle.to_vec(alloc)?;
        for other in 0..self.slots {
            if !self.idle.contains(&other) {
                order.push(other)?;
            }
        }
        let skipped = skipped.as_slice();
        if order.get(skipped.len()) != Some(&slot) {
            return Ok(false);
        }
        for (skip, other) in skipped.iter().zip(order.iter()) {
            if skip.slot != *other || skip.refs == 0 || !self.has_key(skip.slot) {
                return Ok(false);
            }
        }
        Ok(true)
    }

    /// Whether the slot has a key.
    fn has_key(&self, slot: u16) -> bool {
        matches!(self.keys.get(usize::from(slot)), Some(Some(_)))
    }

    /// Whether the slot has this key.
    fn is_key(&self, slot: u16, key: u16) -> bool {
        self.keys.get(usize::from(slot)) == Some(&Some(key))
    }

    /// What the event leaves.
    fn follow(&mut self, event: &Event) -> Result<(), AllocError> {
        match event {
            Event::Program { slot, key, .. } => {
                self.set_key(*slot, Some(*key));
                self.idle.retain(|other| *other != *slot);
            }
            Event::Idle { slot } => {
                self.idle.retain(|other| *other != *slot);
                self.idle.push(*slot)?;
            }
            Event::Evict { slot, .. } => self.set_key(*slot, None),
            Event::Busy { .. } | Event::Reset => {}
        }
        Ok(())
    }

    /// Writes the key of the slot.
    fn set_key(&mut self, slot: u16, key: Option<u16>) {
        if let Some(has) = self.keys.get_mut(usize::from(slot)) {
            *has = key;
        }
    }
}
