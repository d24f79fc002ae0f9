//! One section, carried out by its thread.

ghost use Rattle.std.specs.Prelude.{◌≡◌, ℕ, ◌*◌, ◌<◌, ◌≤◌, [], List, length, map, None, Some, slice_set, vec_capacity};
ghost use Rattle.std.specs.List.{enumerate_from};
ghost use Rattle.bc_base.specs.Lists.{At, list_at};
ghost use Rattle.bc_threads.specs.declared.outcome.Outcome.{Outcome};
ghost use Rattle.bc_threads.specs.Jobs.{HasWorked, MayWork};
ghost use Rattle.bc_threads.specs.SharedDevice.{CanCarryOut};

use crate::sharing::Sharing;
use crate::{Outcome, Section};
use bc_base::{Gate, Store};
use bc_disk::{Disk, Pass};
use bc_section::carry_out;
use std::sync::Wait;

/// Carries out a section on a disk, by the pass of the section's thread, and returns what each
/// operation came to. Takes no memory: the section has all that is needed.
///
/// The disk was opened for the section's script, and the pass is new, with room for what the
/// section's operations ask.
pub fn work<S: Store, G: Gate, R: Wait>(
    rt: &R,
    disk: &Disk<S>,
    pass: &mut Pass<S>,
    section: Section<'_>,
    gate: &G,
) -> Vec<Outcome>
    requires may { MayWork S.contents disk.now pass.old section }
    ensures worked { HasWorked S.contents disk.now pass.old pass.new section.entry result.items }
{
    let Section {
        script,
        thread,
        mut bios,
        mut plug,
        mut replies,
        mut noted,
        mut outcomes,
    } = section;
    let mut device = Sharing {
        disk,
        pass,
        gate,
        script,
        thread,
        bios: &mut bios,
        plug: &mut plug,
        replies: &mut replies,
    };
    let answers = noted.as_mut_slice();
    carry_out_on(rt, &mut device, answers);
    take_out(answers, &mut outcomes);
    outcomes
}

/// Carries out the operations of its thread's section on a device that was made for them.
fn carry_out_on<S: Store, G: Gate, R: Wait>(
    rt: &R,
    device: &mut Sharing<'_, S, G>,
    answers: &mut [Option<Outcome>],
)
    requires may { MayWork S.contents device.old.disk.now device.old.pass.now
        (record { script = device.old.script.now; thread = device.old.thread }) }
    requires within { device.old.thread < length device.old.script.now.threads }
    requires afforded { CanCarryOut S.contents device.old.script.now device.old.thread device.old.disk.now
        device.old.pass.now device.old.bios.now.items device.old.plug.now device.old.replies.now.items
        (vec_capacity device.old.replies.now)
        (enumerate_from 0 (list_at device.old.script.now.threads device.old.thread)) }
    requires long { length answers.old ≡ length (list_at device.old.script.now.threads device.old.thread) }
    ensures same_reference { device.new.pass.ghost_name ≡ device.old.pass.ghost_name }
    ensures worked { (told : List Outcome) × (answers.new ≡ map (λ outcome. Some outcome) told)
        × HasWorked S.contents device.old.disk.now device.old.pass.now device.new.pass.now
        (record { script = device.old.script.now; thread = device.old.thread }) told }
{
    let script = device.script;
    let operations = script.threads()[usize::from(device.thread)].as_slice();
    match carry_out(rt, device, operations, answers) {
        Ok(()) => {}
        Err(never) => match never {},
    }
}

/// Takes the outcomes out of their options.
fn take_out(noted: &mut [Option<Outcome>], outcomes: &mut Vec<Outcome>)
    requires told { (k : ℕ) → k < length noted.old → (outcome : Outcome) × At noted.old k (Some outcome) }
    requires empty { outcomes.old.items ≡ [] }
    requires room { length noted.old ≤ vec_capacity outcomes.old }
    ensures { map (λ outcome. Some outcome) outcomes.new.items ≡ noted.old }
{
    for op in 0..noted.len() {
        outcomes.push_reserved(take_outcome(noted, op));
    }
}

/// Takes the outcome of an operation.
fn take_outcome(noted: &mut [Option<Outcome>], op: usize) -> Outcome
    requires there { (outcome : Outcome) × At noted.old op (Some outcome) }
    ensures taken { At noted.old op (Some result) }
    ensures rest { noted.new ≡ slice_set noted.old op None }
{
    match noted[op].take() {
        Some(outcome) => outcome,
        None => unreachable!(),
    }
}
