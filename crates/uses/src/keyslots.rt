//! Callers of one device's keyslots, each in a thread of its own: what each of them was answered, and the journal.
ghost use Rattle.std.specs.Prelude.{◌≡◌, ℕ, ◌<◌, ◌≤◌, ◌+◌, length, map, sum, reverse, All, None, Some, IfSome, IfOk, vec_len};
ghost use Rattle.std.specs.Thread.{IsSync};
ghost use Rattle.bc_profile.specs.declared.limits.TheConstants.{MAX_SLOTS, MAX_EVENTS};
ghost use Rattle.bc_profile.specs.Passes.{IsFree, IsOf, HasSpare};
ghost use Rattle.uses.specs.Keyslots.{IsFresh, Stands, Tells, AreTrueAnswers, SlotCallersCameBack, CameBackFrom, IsRun, answers_of_caller, asked_of};
ghost use Rattle.uses.specs.declared.keyslots.SlotCall.TheVariants as calls;
ghost use Rattle.bc_base.specs.Lists.{list_at};

use bc_key::KeyNo;
use bc_profile::{Event, Hold, Profile, ROW_WORDS, Row, SlotPass, hold_laws};
use std::alloc::{AllocError, Global};
use std::sync::Wait;
use std::thread::{self, Threads};

/// What a caller does with a device, which has register rows of keys.
#[derive(Clone, Copy, Debug, PartialEq, Eq)]
pub enum SlotCall {
    /// It takes a hold of the key.
    Get(KeyNo),
    /// It gives its hold back.
    Put,
    /// It has the key evicted.
    Evict(KeyNo),
    /// It has the device reset.
    Reset,
    /// It loads a register of its hold.
    Load(u8),
}

/// What a call was answered. A call is left where its caller has a hold and may not, or has none and must; where the key has
/// no row, or no such register; and where the caller may not make the events that the call may need.
#[derive(Clone, Copy, Debug, PartialEq, Eq)]
pub enum SlotAnswer {
    Held { slot: u16, key: u16, epoch: u32 },
    Back { slot: u16 },
    Evicted { key: u16 },
    Busy { slot: u16, key: u16, refs: u16 },
    Reset,
    Loaded { key: u16, register: u8, value: u32 },
    Left,
}

/// A caller on its way: its pass, and the hold that it has.
#[derive(Drop)]
pub struct Caller {
    pub pass: SlotPass,
    pub hold: Option<Hold>,
}

/// A caller at the end: its pass, and what each of its calls was answered, unless there was no memory for that; then it
/// made none.
#[derive(Drop)]
pub struct CallerDone {
    pub pass: SlotPass,
    pub told: Option<Vec<SlotAnswer>>,
}

/// A device at the end: its journal, and what each caller was answered.
#[derive(Drop)]
pub struct DeviceDone {
    pub journal: Vec<Event>,
    pub told: Vec<Vec<SlotAnswer>>,
}

/// Takes a hold of the key.
fn get<R: Wait>(rt: &R, profile: &Profile, keys: u16, caller: &mut Caller, key: KeyNo) -> SlotAnswer
    requires stands { Stands profile.now caller.old }
    requires keys { keys ≡ length profile.now.rows }
    ensures stands { Stands profile.now caller.new }
    ensures tells { Tells profile.now caller.old.pass caller.new.pass (calls.Get key) result }
{
    if caller.hold.is_some() || key.0 >= keys || profile.spare(&caller.pass) < 2 {
        return SlotAnswer::Left;
    }
    let hold = profile.get(rt, &mut caller.pass, key);
    let answer = SlotAnswer::Held {
        slot: hold.slot(),
        key: key.0,
        epoch: hold.epoch(),
    };
    caller.hold = Some(hold);
    answer
}

/// Gives the hold back, if there is one.
#[tactic(auto, using(crate::proofs::SlotLemmas::left))]
fn put<R: Wait>(rt: &R, profile: &Profile, caller: &mut Caller) -> SlotAnswer
    requires stands { Stands profile.now caller.old }
    ensures stands { Stands profile.now caller.new }
    ensures free { caller.new.hold ≡ None }
    ensures tells { Tells profile.now caller.old.pass caller.new.pass calls.Put result }
{
    let Some(hold) = caller.hold.take() else {
        return SlotAnswer::Left;
    };
    let slot = hold.slot();
    profile.put(rt, &mut caller.pass, hold);
    SlotAnswer::Back { slot }
}

/// Has the key evicted.
fn evict<R: Wait>(
    rt: &R,
    profile: &Profile,
    keys: u16,
    caller: &mut Caller,
    key: KeyNo,
) -> SlotAnswer
    requires stands { Stands profile.now caller.old }
    requires keys { keys ≡ length profile.now.rows }
    ensures stands { Stands profile.now caller.new }
    ensures tells { Tells profile.now caller.old.pass caller.new.pass (calls.Evict key) result }
{
    if caller.hold.is_some() || key.0 >= keys || profile.spare(&caller.pass) < 1 {
        return SlotAnswer::Left;
    }
    match profile.evict(rt, &mut caller.pass, key) {
        Ok(()) => SlotAnswer::Evicted { key: key.0 },
        Err(busy) => SlotAnswer::Busy {
            slot: busy.slot,
            key: key.0,
            refs: busy.refs,
        },
    }
}

/// Has the device reset.
fn reset<R: Wait>(rt: &R, profile: &Profile, caller: &mut Caller) -> SlotAnswer
    requires stands { Stands profile.now caller.old }
    ensures stands { Stands profile.now caller.new }
    ensures tells { Tells profile.now caller.old.pass caller.new.pass calls.Reset result }
{
    if caller.hold.is_some() || profile.spare(&caller.pass) < 1 {
        return SlotAnswer::Left;
    }
    profile.reset(rt, &mut caller.pass);
    SlotAnswer::Reset
}

/// Loads a register of the hold, if there is one.
#[tactic(auto, using(crate::proofs::SlotLemmas::left))]
fn load(profile: &Profile, caller: &mut Caller, register: u8) -> SlotAnswer
    requires stands { Stands profile.now caller.old }
    ensures stands { Stands profile.now caller.new }
    ensures tells { Tells profile.now caller.old.pass caller.new.pass (calls.Load register) result }
{
    let Some(hold) = &caller.hold else {
        return SlotAnswer::Left;
    };
    if usize::from(register) >= ROW_WORDS {
        return SlotAnswer::Left;
    }
    let value = profile.load(&mut caller.pass, hold, register);
    SlotAnswer::Loaded {
        key: hold.key().0,
        register,
        value,
    }
}

/// Carries out one call.
fn carry_out<R: Wait>(
    rt: &R,
    profile: &Profile,
    keys: u16,
    caller: &mut Caller,
    call: SlotCall,
) -> SlotAnswer
    requires stands { Stands profile.now caller.old }
    requires keys { keys ≡ length profile.now.rows }
    ensures stands { Stands profile.now caller.new }
    ensures tells { Tells profile.now caller.old.pass caller.new.pass call result }
{
    match call {
        SlotCall::Get(key) => get(rt, profile, keys, caller, key),
        SlotCall::Put => put(rt, profile, caller),
        SlotCall::Evict(key) => evict(rt, profile, keys, caller, key),
        SlotCall::Reset => reset(rt, profile, caller),
        SlotCall::Load(register) => load(profile, caller, register),
    }
}

/// Carries out a caller's calls, one after the other, and gives the hold back that is left at the end.
pub fn carry_out_calls<R: Wait>(
    rt: &R,
    alloc: Global,
    profile: &Profile,
    keys: u16,
    pass: SlotPass,
    calls: &[SlotCall],
) -> CallerDone
    requires pass { IsFresh profile.now pass }
    requires keys { keys ≡ length profile.now.rows }
    ensures back { CameBackFrom profile.now pass.caller calls.now result }
{
    let Ok(mut told) = Vec::with_capacity(alloc, calls.len() + 1) else {
        return CallerDone { pass, told: None };
    };
    hold_laws();
    let mut caller = Caller { pass, hold: None };
    for call in calls {
        told.push_reserved(carry_out(rt, profile, keys, &mut caller, *call));
    }
    told.push_reserved(put(rt, profile, &mut caller));
    CallerDone {
        pass: caller.pass,
        told: Some(told),
    }
}

/// Carries out the calls of all callers at once, each in a thread of its own. A caller's calls are those at its number.
fn all_at_once<R: Threads + Wait + Sync>(
    rt: &R,
    alloc: Global,
    profile: &Profile,
    keys: u16,
    passes: Vec<SlotPass>,
    lists: &[Vec<SlotCall>],
) -> Result<Vec<CallerDone>, AllocError>
    requires passes { All (IsFresh profile.now) passes.items }
    requires keys { keys ≡ length profile.now.rows }
    ensures length { IfOk result (λ done. length done.items ≡ length passes.items) }
    ensures each { IfOk result (λ done.
        SlotCallersCameBack profile.now (map (λ calls. calls.items) lists.now) passes.items done.items) }
{
    thread::map_vec(
        rt,
        passes,
        &|pass: SlotPass| -> CallerDone
            requires { IsSync R.row × IsFresh profile.now pass × (keys ≡ length profile.now.rows) }
            ensures { CameBackFrom profile.entry.now pass.caller
                (list_at (map (λ calls. calls.items) lists.entry.now) pass.caller) result }
        {
            let number = usize::from(pass.number());
            match lists.get(number) {
                Some(calls) => carry_out_calls(rt, alloc, profile, keys, pass, calls.as_slice()),
                None => carry_out_calls(rt, alloc, profile, keys, pass, &[]),
            }
        },
    )
}

/// The passes and what the callers were answered, in order.
fn apart(
    alloc: Global,
    mut done: Vec<CallerDone>,
) -> Result<(Vec<SlotPass>, Vec<Vec<SlotAnswer>>), AllocError>
    ensures passes { IfOk result (λ r. r.0.items ≡ map (λ d. d.pass) done.items) }
    ensures told { IfOk result (λ r. map (λ told. Some told.items) r.1.items ≡ map answers_of_caller done.items) }
{
    let mut passes = Vec::new(alloc);
    let mut answers = Vec::new(alloc);
    done_first_last(&mut done);
    while let Some(last) = done.pop() {
        let CallerDone { pass, told } = last;
        let Some(told) = told else {
            return Err(AllocError);
        };
        passes.push(pass)?;
        answers.push(told)?;
    }
    Ok((passes, answers))
}

/// The last first.
fn done_first_last(done: &mut Vec<CallerDone>)
    ensures items { done.new.items ≡ reverse done.old.items }
    ensures length { vec_len done.new ≡ vec_len done.old }
{
    done.as_mut_slice().reverse();
}

/// Opens a device with `slots` slots, a register row for each key and so many events for each caller, carries out the calls
/// of all callers at once, each caller in a thread of its own, and closes it.
///
/// # Errors
/// Out of memory.
pub fn run_on_slots<R: Threads + Wait + Sync>(
    rt: &R,
    alloc: Global,
    slots: u16,
    rows: Vec<Row>,
    quotas: Vec<u32>,
    lists: &[Vec<SlotCall>],
) -> Result<DeviceDone, AllocError>
    requires some { 1 ≤ slots }
    requires few { slots ≤ MAX_SLOTS }
    requires rows { length rows.items ≤ 4096 }
    requires callers { (1 ≤ length quotas.items) × (length quotas.items ≤ 65535) }
    requires events { sum quotas.items < MAX_EVENTS }
    ensures callers { IfOk result (λ end. length end.told.items ≡ length quotas.items) }
    ensures lawful { IfOk result (λ end.
        IsRun (asked_of slots rows.items quotas.items (map (λ calls. calls.items) lists.now))
        end.journal.items (map (λ told. told.items) end.told.items)) }
{
    let keys = rows.len() as u16;
    let (profile, passes) = Profile::open(alloc, slots, rows, quotas)?;
    let done = all_at_once(rt, alloc, &profile, keys, passes, lists)?;
    let (passes, told) = apart(alloc, done)?;
    match profile.close(passes) {
        Ok(journal) => Ok(DeviceDone { journal, told }),
        Err(_) => Err(AllocError),
    }
}
