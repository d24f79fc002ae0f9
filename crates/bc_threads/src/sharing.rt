//! The device of a thread that shares a disk with others.

ghost use Rattle.std.specs.Prelude.{◌≡◌, ℕ, ◌<◌, ◌≤◌, ◌++◌, ◌∷◌, [], List, length, None, Some, flat_map, slice_get, slice_set, vec_capacity};
ghost use Rattle.std.specs.List.{AllByRecursion};
ghost use Rattle.bc_base.specs.Lists.{At};
ghost use Rattle.bc_bio.specs.declared.bio.Bio.{Bio};
ghost use Rattle.bc_bio.specs.BioUnits.{extent_of};
ghost use Rattle.bc_bio.specs.Conditions.{IsPlaced};
ghost use Rattle.bc_bio.specs.Requests.{tagged_of, unmarked};
ghost use Rattle.bc_bio.specs.Windows.{TaggedBio};
ghost use Rattle.bc_queue.specs.Plugs.{AreRequests, IsOfWindow, IsPlug, bios_in, count_bios, no_bios};
ghost use Rattle.bc_script.specs.declared.limits.TheConstants.{MAX_PLUGGED};
ghost use Rattle.bc_compose.specs.OrderedHolds.{Pairs};
ghost use Rattle.bc_report.specs.Report.{IsAnswer};
ghost use Rattle.bc_threads.specs.Outcomes.{answer_of_reply, bytes_of_unit};
ghost use Rattle.bc_threads.specs.Plugging.{AreNoted, HasBioAt, IsPlugged, SameBeside};

use crate::Outcome;
use bc_base::{Gate, GatePlace, Store};
use bc_bio::{Bio, Extent, Refusal, Reply, Unit, bio_laws};
use bc_disk::{Disk, Pass};
use bc_key::{KeyNo, Keys};
use bc_profile::hold_laws;
use bc_queue::Plug;
use bc_script::{Op, Script};
use bc_section::Device;
use std::convert::Infallible;
use std::sync::Wait;

/// Carries the operations of a section out on a disk that other threads share.
#[derive(Drop)]
pub(crate) struct Sharing<'a, S: Store, G: Gate> {
    pub(crate) disk: &'a Disk<S>,
    pub(crate) pass: &'a mut Pass<S>,
    pub(crate) gate: &'a G,
    pub(crate) script: &'a Script,
    pub(crate) thread: u16,
    /// By operation, the bio that was made for it, until it is submitted.
    pub(crate) bios: &'a mut Vec<Option<Bio>>,
    pub(crate) plug: &'a mut Plug,
    pub(crate) replies: &'a mut Vec<Reply>,
}

impl<'a, S: Store, G: Gate, R: Wait> Device<R, Outcome, Infallible> for Sharing<'a, S, G> {
    ghost use Rattle.std.specs.Prelude.{ℕ, List, vec_capacity};
    ghost use Rattle.bc_threads.specs.Outcomes.{answer_in};
    ghost use Rattle.bc_disk.specs.Disks.{DiskData};
    ghost use Rattle.bc_script.specs.Script.{Script};
    ghost use Rattle.bc_threads.specs.SharedDevice.{CanCarryOut, device_on};

    ghost facts = { λ d. device_on S.contents d.script.now d.thread d.disk.now d.pass.now };

    ghost affords = { λ d operations. CanCarryOut S.contents d.script.now d.thread d.disk.now d.pass.now
        d.bios.now.items d.plug.now d.replies.now.items (vec_capacity d.replies.now) operations };

    ghost answer = { answer_in };

    ghost Lent = { DiskData S × Script × ℕ × ((ℕ × ℕ) × ℕ) };

    ghost lent = { λ d. (d.disk.now, d.script.now, d.thread, (d.pass.ref_ptr, d.pass.ghost_name)) };

    fn refusal(&self, bio: &Extent) -> Option<Refusal> {
        self.disk.refusal_of(bio)
    }

    fn begin(&self, rt: &R, op: u32) {
        self.gate.pass(rt, self.thread, op, GatePlace::Starts);
    }

    fn refuse(&mut self, rt: &R, op: u32, _operation: &Op, refusal: Refusal) -> Outcome {
        let bio = take_bio(self.bios, op);
        self.answered(rt, op);
        Outcome::Replied(Reply::Refused(refusal, bio))
    }

    fn plug(&mut self, rt: &R, op: u32) -> Outcome {
        self.answered(rt, op);
        Outcome::Plug
    }

    fn unplug(&mut self, rt: &R, op: u32) -> Outcome {
        self.answered(rt, op);
        Outcome::Unplug
    }

    fn window(
        &mut self,
        rt: &R,
        _section: &[Op],
        window: &[u32],
        answers: &mut [Option<Outcome>],
    ) -> Result<(), Infallible> {
        bio_laws();
        hold_laws();
        let plug = &mut *self.plug;
        let replies = &mut *self.replies;
        plug_all(self.disk.keys(), self.bios, plug, window);
        self.disk
            .submit_plug(rt, self.pass, plug, self.gate, replies);
        note_all(rt, self.gate, self.thread, window, replies, answers);
        Ok(())
    }

    fn evict(&mut self, rt: &R, op: u32, key: KeyNo) -> Result<Outcome, Infallible> {
        let outcome = match self.disk.evict(rt, self.pass, key) {
            Ok(()) => Outcome::Evicted,
            Err(busy) => Outcome::Busy(busy),
        };
        self.answered(rt, op);
        Ok(outcome)
    }

    fn reset(&mut self, rt: &R, op: u32, device: u8) -> Result<Outcome, Infallible> {
        self.disk.reset(rt, self.pass, device);
        self.answered(rt, op);
        Ok(Outcome::Reset)
    }
}

impl<S: Store, G: Gate> Sharing<'_, S, G> {
    /// Passes the gate where an operation has its answer.
    fn answered<R: Wait>(&self, rt: &R, op: u32) {
        self.gate.pass(rt, self.thread, op, GatePlace::Answered);
    }
}

/// Takes the bio that was made for an operation.
fn take_bio(bios: &mut Vec<Option<Bio>>, op: u32) -> Bio
    requires there { (bio : Bio) × At bios.old.items op (Some bio) }
    ensures taken { At bios.old.items op (Some result) }
    ensures rest { bios.new.items ≡ slice_set bios.old.items op None }
{
    match bios[op as usize].take() {
        Some(bio) => bio,
        None => unreachable!(),
    }
}

/// Plugs a bio, for which the plug has room.
fn plug_in(keys: &Keys, plug: &mut Plug, bio: Bio)
    requires plug { IsPlug plug.old }
    requires requests { AreRequests keys.now.keys plug.old.requests }
    requires placed { IsPlaced keys.now.keys (extent_of bio) }
    requires room { count_bios plug.old.requests < MAX_PLUGGED }
    ensures bios { bios_in plug.new.requests ≡ bios_in plug.old.requests ++ unmarked bio ∷ [] }
    ensures window { (window : List TaggedBio) → IsOfWindow keys.now.keys plug.old.requests window
        → IsOfWindow keys.now.keys plug.new.requests (window ++ tagged_of bio ∷ []) }
    ensures plug { IsPlug plug.new }
    ensures requests { AreRequests keys.now.keys plug.new.requests }
{
    match plug.add(keys, bio) {
        Ok(()) => {}
        Err(_) => unreachable!(),
    }
}

/// Plugs the bios that were made for the operations of a window.
fn plug_all(keys: &Keys, bios: &mut Vec<Option<Bio>>, plug: &mut Plug, window: &[u32])
    requires empty { plug.old ≡ no_bios }
    requires few { length window.now ≤ MAX_PLUGGED }
    requires there { AllByRecursion (HasBioAt keys.now.keys bios.old.items) window.now }
    requires order { Pairs (λ first second. first < second) window.now }
    ensures plugged { IsPlugged keys.now.keys bios.old.items window.now plug.new }
    ensures others { SameBeside window.now bios.old.items bios.new.items }
{
    for op in window {
        let bio = take_bio(bios, *op);
        plug_in(keys, plug, bio);
    }
}

/// Does nothing, and states that the first byte of a unit is one.
fn unit_law(unit: &Unit)
    ensures { (byte : ℕ) → slice_get (bytes_of_unit unit.now) 0 ≡ Some byte → byte < 256 }
{
    if let Unit::Full(bytes) = unit {
        if let Some(byte) = bytes.as_slice().first() {
            let _byte = *byte;
        }
    }
}

/// Does nothing, and states it of the first byte of all these units.
fn units_law(units: &[Unit])
    ensures { (byte : ℕ) → slice_get (flat_map bytes_of_unit units.now) 0 ≡ Some byte → byte < 256 }
{
    for unit in units {
        unit_law(unit);
    }
}

/// Does nothing, and states that the numbers of what a report says of a reply are in range.
fn reply_law(reply: &Reply)
    ensures { IsAnswer (answer_of_reply reply.now) }
{
    match reply {
        Reply::Done(bio) => units_law(bio.units.as_slice()),
        Reply::Fault { unit, .. } => {
            let _unit = *unit;
        }
        Reply::Refused(..) => {}
    }
}

/// Notes the replies of a window by its operations, and passes the gate for each of them.
fn note_all<G: Gate, R: Wait>(
    rt: &R,
    gate: &G,
    thread: u16,
    window: &[u32],
    replies: &mut Vec<Reply>,
    answers: &mut [Option<Outcome>],
)
    requires many { length replies.old.items ≡ length window.now }
    requires within { AllByRecursion (λ o. o < length answers.old) window.now }
    requires order { Pairs (λ first second. first < second) window.now }
    ensures empty { replies.new.items ≡ [] }
    ensures room { vec_capacity replies.new ≡ vec_capacity replies.old }
    ensures long { length answers.new ≡ length answers.old }
    ensures noted { AreNoted answers.new window.now replies.old.items }
    ensures fits { AllByRecursion (λ reply. IsAnswer (answer_of_reply reply)) replies.old.items }
    ensures others { SameBeside window.now answers.old answers.new }
{
    replies.reverse();
    for op in window {
        let Some(reply) = replies.pop() else {
            unreachable!()
        };
        reply_law(&reply);
        answers[*op as usize] = Some(Outcome::Replied(reply));
        gate.pass(rt, thread, *op, GatePlace::Answered);
    }
}
