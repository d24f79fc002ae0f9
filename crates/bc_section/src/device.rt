//! What carries a section's operations out, as the section sees it, and the loop over its
//! operations.

ghost use Rattle.std.specs.Prelude.{◌≡◌, ℕ, ◌+◌, ◌^◌, ◌<◌, ◌≤◌, ◌==◌, false, List, [], ◌∷◌, ◌++◌, length, map};
ghost use Rattle.std.specs.Prelude.{Option, None, Some, IfOk, OnOk, IsSome, IsSomeAnd, slice_get, slice_set};
ghost use Rattle.std.specs.List.{AllByRecursion, enumerate_from, list_any};
ghost use Rattle.bc_base.specs.Lists.{list_at};
ghost use Rattle.bc_base.specs.Story.{own};
ghost use Rattle.bc_bio.specs.Conditions.{HasKey};
ghost use Rattle.bc_medium.specs.Entries.{caller_of};
ghost use Rattle.bc_profile.specs.Story.{author_of};
ghost use Rattle.bc_script.specs.declared.limits.TheConstants.{MAX_PLUGGED};
ghost use Rattle.bc_script.specs.declared.op.Op.{Op};
ghost use Rattle.bc_script.specs.declared.op.Op.TheVariants as ops;
ghost use Rattle.bc_script.specs.Script.{keys_of, IsScriptOp};
ghost use Rattle.bc_script.specs.Bios.{bio_of, refusal_of};
ghost use Rattle.bc_report.specs.declared.answer.Answer.{Answer};
ghost use Rattle.bc_report.specs.declared.answer.Answer.TheVariants as answers;
ghost use Rattle.bc_report.specs.Report.{IsAnswer};
ghost use Rattle.bc_compose.specs.OrderedHolds.{Pairs};
ghost use Rattle.bc_section.specs.Sections.{DeviceData};
ghost use Rattle.bc_section.specs.Uses.{op_bios};
ghost use Rattle.bc_section.specs.SectionProgress.{numbered, left_of, answers_by, MayBePlugged, Settled, Submitted, Evicted};
ghost use Rattle.bc_section.specs.SectionProgress.{HasReset, Reached, CarriesSection, WindowEnds, HoldsNone, steps_from};

use crate::pending::Pending;
use bc_bio::{Extent, Refusal};
use bc_key::KeyNo;
use bc_medium::order_laws;
use bc_profile::hold_laws;
use bc_script::Op;
use bc_script::limits::MAX_PLUGGED;
use std::snapshot::Snapshot;

/// Carries the operations of a thread's section out, and answers each. `R` is what it waits with,
/// `A` an answer, and `E` what it can fail with; after an error the run is over.
pub trait Device<R, A, E> {
    /// Its script, its thread, and what the thread has seen.
    ghost facts: { Self → DeviceData };

    /// It can carry out these operations, one after the other, each with its number.
    ghost affords: { Self → List (ℕ × Op) → Type 0 };

    /// How a report says an answer.
    ghost answer: { A → Answer };

    /// What it has borrowed: it stays the same.
    ghost Lent: { Type 0 };

    ghost lent: { Self → Lent };

    /// Why a bio is refused, if it is.
    fn refusal(&self, bio: &Extent) -> Option<Refusal>
        requires key { HasKey (keys_of (facts self.now).script) bio.now.context }
        requires afforded { (operations : List (ℕ × Op)) × affords self.now operations }
        ensures { result ≡ refusal_of (facts self.now).script bio.now };

    /// Notes that an operation begins.
    fn begin(&self, rt: &R, op: u32);

    /// The answer of an operation whose bio is refused.
    fn refuse(&mut self, rt: &R, op: u32, operation: &Op, refusal: Refusal) -> A
        requires bio { IsSomeAnd (bio_of operation.now) (λ bio.
            refusal_of (facts self.old).script bio ≡ Some refusal) }
        requires afforded { (before after : List (ℕ × Op)) × affords self.old (before ++ (op, operation.now) ∷ after) }
        ensures lent { lent self.new ≡ lent self.old }
        ensures same { facts self.new ≡ facts self.old }
        ensures answer { answer result ≡ answers.Refused refusal }
        ensures room { (before after : List (ℕ × Op)) → affords self.old (before ++ (op, operation.now) ∷ after)
            → affords self.new (before ++ after) };

    /// The answer of a plug.
    fn plug(&mut self, rt: &R, op: u32) -> A
        requires afforded { (after : List (ℕ × Op)) × affords self.old ((op, ops.Plug) ∷ after) }
        ensures lent { lent self.new ≡ lent self.old }
        ensures same { facts self.new ≡ facts self.old }
        ensures answer { answer result ≡ answers.Plug }
        ensures room { (after : List (ℕ × Op)) → affords self.old ((op, ops.Plug) ∷ after) → affords self.new after };

    /// The answer of the end of a plug.
    fn unplug(&mut self, rt: &R, op: u32) -> A
        requires afforded { (after : List (ℕ × Op)) × affords self.old ((op, ops.Unplug) ∷ after) }
        ensures lent { lent self.new ≡ lent self.old }
        ensures same { facts self.new ≡ facts self.old }
        ensures answer { answer result ≡ answers.Unplug }
        ensures room { (after : List (ℕ × Op)) → affords self.old ((op, ops.Unplug) ∷ after) → affords self.new after };

    /// Submits the bios of these operations of a section as a window, and notes the answer of each.
    /// None of them is refused. `window` has their numbers in the section, in ascending order, and
    /// `answers` a place for each operation of the section.
    ///
    /// # Errors
    ///
    /// The device failed.
    fn window(
        &mut self,
        rt: &R,
        section: &[Op],
        window: &[u32],
        answers: &mut [Option<A>],
    ) -> Result<(), E>
        requires rules { AllByRecursion (IsScriptOp (facts self.old).script) section.now }
        requires bios { AllByRecursion (MayBePlugged (facts self.old).script section.now) window.now }
        requires order { Pairs (λ first second. first < second) window.now }
        requires few { length window.now ≤ MAX_PLUGGED }
        requires long { length answers.old ≡ length section.now }
        requires afforded { (after : List (ℕ × Op)) × affords self.old (numbered section.now window.now ++ after) }
        ensures lent { lent self.new ≡ lent self.old }
        ensures done { OnOk result (Submitted (facts self.old) (facts self.new) (numbered section.now window.now)) }
        ensures long { length answers.new ≡ length answers.old }
        ensures told { OnOk result
            (AllByRecursion (Settled (facts self.new) section.now (answers_by answer answers.new)) window.now) }
        ensures others { OnOk result ((o : ℕ) → list_any (λ w. w == o) window.now ≡ false
            → slice_get answers.new o ≡ slice_get answers.old o) }
        ensures room { OnOk result ((after : List (ℕ × Op))
            → affords self.old (numbered section.now window.now ++ after) → affords self.new after) };

    /// Takes a key out of all keyslots, and gives the answer.
    ///
    /// # Errors
    ///
    /// The device failed. That a slot with the key is held is an answer and no error.
    fn evict(&mut self, rt: &R, op: u32, key: KeyNo) -> Result<A, E>
        requires rules { IsScriptOp (facts self.old).script (ops.Evict key) }
        requires afforded { (after : List (ℕ × Op)) × affords self.old ((op, ops.Evict key) ∷ after) }
        ensures lent { lent self.new ≡ lent self.old }
        ensures done { IfOk result (λ told. Evicted (facts self.old) (facts self.new) op key (answer told)) }
        ensures range { IfOk result (λ told. IsAnswer (answer told)) }
        ensures room { OnOk result ((after : List (ℕ × Op)) → affords self.old ((op, ops.Evict key) ∷ after)
            → affords self.new after) };

    /// Has a device program its keyslots again, and gives the answer.
    ///
    /// # Errors
    ///
    /// The device failed.
    fn reset(&mut self, rt: &R, op: u32, device: u8) -> Result<A, E>
        requires rules { IsScriptOp (facts self.old).script (ops.Reset device) }
        requires afforded { (after : List (ℕ × Op)) × affords self.old ((op, ops.Reset device) ∷ after) }
        ensures lent { lent self.new ≡ lent self.old }
        ensures done { OnOk result (HasReset (facts self.old) (facts self.new) op device) }
        ensures answer { IfOk result (λ told. answer told ≡ answers.Reset) }
        ensures room { OnOk result ((after : List (ℕ × Op)) → affords self.old ((op, ops.Reset device) ∷ after)
            → affords self.new after) };
}

/// Carries the operations of a section out, one after the other, and notes the answer of each in
/// `answers`, which has a place for each operation. The device is new to the section: its thread has
/// no entry and no event yet, and it can carry out all the operations.
///
/// Bios between a plug and its end are held back, and submitted as a window at that end or the
/// section's, before another plug, an eviction or a reset, and where the plug is full.
///
/// # Errors
///
/// The device failed.
pub fn carry_out<R, A: Drop, E, D: Device<R, A, E>>(
    rt: &R,
    device: &mut D,
    section: &[Op],
    answers: &mut [Option<A>],
) -> Result<(), E>
    requires rules { AllByRecursion (IsScriptOp (D.facts device.old).script) section.now }
    requires few { length section.now < 2 ^ 32 }
    requires afforded { D.affords device.old (enumerate_from 0 section.now) }
    requires long { length answers.old ≡ length section.now }
    requires new { (shard : ℕ)
        → own caller_of (D.facts device.old).thread (list_at (D.facts device.old).seen shard) ≡ [] }
    requires no_events { (number : ℕ)
        → own author_of (D.facts device.old).thread (list_at (D.facts device.old).noted number) ≡ [] }
    ensures lent { D.lent device.new ≡ D.lent device.old }
    ensures done { OnOk result ((replies : List A) × (answers.new ≡ map (λ a. Some a) replies)
        × CarriesSection (D.facts device.old) (D.facts device.new) section.now (map D.answer replies)) }
    ensures afforded { OnOk result (D.affords device.new []) }
{
    let start = Snapshot::of(device);
    let mut pending = Pending::new();
    let mut plugged = false;
    order_laws();
    hold_laws();
    for (op, operation) in section.iter().enumerate() {
        device.begin(rt, op as u32);
        plugged = step(
            rt,
            device,
            &start,
            section,
            op as u32,
            operation,
            plugged,
            &mut pending,
            answers,
        )?;
    }
    let op = section.len() as u32;
    flush(
        rt,
        device,
        &start,
        section,
        op,
        plugged,
        &mut pending,
        answers,
    )?;
    Ok(())
}

/// Carries one operation out, and tells whether a plug is open afterwards.
fn step<R, A: Drop, E, D: Device<R, A, E>>(
    rt: &R,
    device: &mut D,
    start: &Snapshot<D>,
    section: &[Op],
    op: u32,
    operation: &Op,
    plugged: bool,
    pending: &mut Pending,
    answers: &mut [Option<A>],
) -> Result<bool, E>
    requires operation { slice_get section.now op ≡ Some operation.now }
    requires few { length section.now < 2 ^ 32 }
    requires rules { AllByRecursion (IsScriptOp (D.facts start.now.value).script) section.now }
    requires afforded { D.affords device.old (left_of section.now op pending.old) }
    requires reached { Reached (D.facts start.now.value) (D.facts device.old) section.now op plugged pending.old
        (answers_by D.answer answers.old) }
    requires held { HoldsNone plugged pending.old }
    ensures lent { D.lent device.new ≡ D.lent device.old }
    ensures reached { IfOk result (λ still. Reached (D.facts start.now.value) (D.facts device.new) section.now (op + 1)
        still pending.new (answers_by D.answer answers.new)) }
    ensures afforded { OnOk result (D.affords device.new (left_of section.now (op + 1) pending.new)) }
    ensures held { IfOk result (λ still. HoldsNone still pending.new) }
{
    order_laws();
    hold_laws();
    match operation {
        Op::Write { .. } | Op::Read { .. } => {
            bio(
                rt, device, start, section, op, operation, plugged, pending, answers,
            )?;
            Ok(plugged)
        }
        Op::Evict(key) => {
            flush(rt, device, start, section, op, plugged, pending, answers)?;
            let answer = device.evict(rt, op, *key)?;
            note(answers, op, answer);
            Ok(plugged)
        }
        Op::Reset(number) => {
            flush(rt, device, start, section, op, plugged, pending, answers)?;
            let answer = device.reset(rt, op, *number)?;
            note(answers, op, answer);
            Ok(plugged)
        }
        Op::Plug => {
            flush(rt, device, start, section, op, plugged, pending, answers)?;
            let answer = device.plug(rt, op);
            note(answers, op, answer);
            Ok(true)
        }
        Op::Unplug => {
            flush(rt, device, start, section, op, plugged, pending, answers)?;
            let answer = device.unplug(rt, op);
            note(answers, op, answer);
            Ok(false)
        }
    }
}

/// Answers an operation's bio where it is refused, and else submits it, or holds it back where a
/// plug is open.
fn bio<R, A: Drop, E, D: Device<R, A, E>>(
    rt: &R,
    device: &mut D,
    start: &Snapshot<D>,
    section: &[Op],
    op: u32,
    operation: &Op,
    plugged: bool,
    pending: &mut Pending,
    answers: &mut [Option<A>],
) -> Result<(), E>
    requires operation { slice_get section.now op ≡ Some operation.now }
    requires bio { IsSome (bio_of operation.now) }
    requires few { length section.now < 2 ^ 32 }
    requires rules { AllByRecursion (IsScriptOp (D.facts start.now.value).script) section.now }
    requires afforded { D.affords device.old (left_of section.now op pending.old) }
    requires reached { Reached (D.facts start.now.value) (D.facts device.old) section.now op plugged pending.old
        (answers_by D.answer answers.old) }
    requires held { HoldsNone plugged pending.old }
    ensures lent { D.lent device.new ≡ D.lent device.old }
    ensures reached { OnOk result (Reached (D.facts start.now.value) (D.facts device.new) section.now (op + 1) plugged
        pending.new (answers_by D.answer answers.new)) }
    ensures afforded { OnOk result (D.affords device.new (left_of section.now (op + 1) pending.new)) }
    ensures held { OnOk result (HoldsNone plugged pending.new) }
{
    order_laws();
    hold_laws();
    let Some(bio) = operation.bio() else {
        unreachable!()
    };
    match device.refusal(&bio) {
        Some(refusal) => {
            let answer = device.refuse(rt, op, operation, refusal);
            note(answers, op, answer);
            Ok(())
        }
        None => {
            make_room(rt, device, start, section, op, plugged, pending, answers)?;
            pending.push(op);
            if plugged {
                return Ok(());
            }
            flush(
                rt,
                device,
                start,
                section,
                op + 1,
                plugged,
                pending,
                answers,
            )
        }
    }
}

/// Submits what is held back where the plug is full.
fn make_room<R, A: Drop, E, D: Device<R, A, E>>(
    rt: &R,
    device: &mut D,
    start: &Snapshot<D>,
    section: &[Op],
    op: u32,
    plugged: bool,
    pending: &mut Pending,
    answers: &mut [Option<A>],
) -> Result<(), E>
    requires rules { AllByRecursion (IsScriptOp (D.facts start.now.value).script) section.now }
    requires afforded { D.affords device.old (left_of section.now op pending.old) }
    requires reached { Reached (D.facts start.now.value) (D.facts device.old) section.now op plugged pending.old
        (answers_by D.answer answers.old) }
    requires bio { MayBePlugged (D.facts start.now.value).script section.now op }
    requires held { HoldsNone plugged pending.old }
    ensures lent { D.lent device.new ≡ D.lent device.old }
    ensures room { OnOk result (length pending.new < MAX_PLUGGED) }
    ensures reached { OnOk result (Reached (D.facts start.now.value) (D.facts device.new) section.now op plugged
        pending.new (answers_by D.answer answers.new)) }
    ensures afforded { OnOk result (D.affords device.new (left_of section.now op pending.new)) }
    ensures held { OnOk result (HoldsNone plugged pending.new) }
{
    order_laws();
    hold_laws();
    if pending.len() < MAX_PLUGGED {
        return Ok(());
    }
    flush(rt, device, start, section, op, plugged, pending, answers)
}

/// Submits what is held back.
fn flush<R, A: Drop, E, D: Device<R, A, E>>(
    rt: &R,
    device: &mut D,
    _start: &Snapshot<D>,
    section: &[Op],
    _op: u32,
    _plugged: bool,
    pending: &mut Pending,
    answers: &mut [Option<A>],
) -> Result<(), E>
    requires rules { AllByRecursion (IsScriptOp (D.facts _start.now.value).script) section.now }
    requires afforded { D.affords device.old (left_of section.now _op pending.old) }
    requires reached { Reached (D.facts _start.now.value) (D.facts device.old) section.now _op _plugged pending.old
        (answers_by D.answer answers.old) }
    requires ends { WindowEnds (D.facts _start.now.value).script (D.facts _start.now.value).thread _plugged
        (op_bios (numbered section.now pending.old)) (steps_from (D.facts _start.now.value).script section.now _op) }
    ensures lent { D.lent device.new ≡ D.lent device.old }
    ensures empty { OnOk result (pending.new ≡ []) }
    ensures afforded { OnOk result (D.affords device.new (left_of section.now _op [])) }
    ensures reached { OnOk result (Reached (D.facts _start.now.value) (D.facts device.new) section.now _op _plugged []
        (answers_by D.answer answers.new)) }
{
    order_laws();
    hold_laws();
    device.window(rt, section, pending.as_slice(), answers)?;
    pending.clear();
    Ok(())
}

/// Notes the answer of an operation.
fn note<A: Drop>(answers: &mut [Option<A>], op: u32, answer: A)
    requires within { op < length answers.old }
    ensures { answers.new ≡ slice_set answers.old op (Some answer) }
{
    answers[op as usize] = Some(answer);
}
