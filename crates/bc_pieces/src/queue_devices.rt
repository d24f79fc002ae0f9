//! The way of many callers to the devices of a disk.

ghost use Rattle.std.specs.Prelude.{◌≡◌, List, ◌++◌};
ghost use Rattle.bc_bio.specs.Windows.{IsRequest, NamedUnit};
ghost use Rattle.bc_bio.specs.Requests.{tagged_bios};
ghost use Rattle.bc_pieces.specs.Pieces.{GoesByDevices, pieces_in};
ghost use Rattle.bc_pieces.specs.AttemptedRequest.{CarriesWhole};
ghost use Rattle.bc_pieces.specs.ManyCallers.{HaveControllers, HasRoomFor, IsReady, TakesOn, devices_of, facts_over};

use crate::{DeviceAccess, carry_out_pieces};
use bc_base::{Gate, Store};
use bc_bio::Request;
use bc_key::Keys;
use bc_queue::{Queue, QueuePass};
use bc_stack::Stack;
use std::marker::Model;
use std::sync::Wait;

/// The way of many callers to the devices of a disk: each piece is dispatched by the queue, and passes the gate when it
/// has its hold. The stack says which part of the disk each device has.
#[derive(Drop)]
pub struct QueueDevices<'a, S: Store, G: Gate> {
    queue: &'a Queue<S>,
    stack: &'a Stack,
    gate: &'a G,
}

impl<'a, S: Store, G: Gate> Model for QueueDevices<'a, S, G> {
    ghost use Rattle.bc_pieces.specs.ManyCallers.{HaveControllers, QueueDevicesData};

    ghost Value = { QueueDevicesData S };

    ghost view = { λ d. record { queue = d.queue.now; targets = d.stack.now.targets } };

    ghost invariant = { λ d. HaveControllers d.queue.now d.stack.now.targets };
}

impl<'a, S: Store, G: Gate> QueueDevices<'a, S, G> {
    /// The way by this queue, whose devices are those of the stack.
    pub fn new(queue: &'a Queue<S>, stack: &'a Stack, gate: &'a G) -> QueueDevices<'a, S, G>
        requires { HaveControllers queue.now stack.now.targets }
        ensures { result ≡ devices_of queue.now stack.now.targets }
    {
        QueueDevices { queue, stack, gate }
    }
}

impl<'a, S: Store, G: Gate, R: Wait> DeviceAccess<R, QueuePass<S>> for QueueDevices<'a, S, G> {
    ghost use Rattle.std.specs.Prelude.{⊤};
    ghost use Rattle.bc_pieces.specs.ManyCallers.{facts_over, IsReady, TakesOn, HasRoomFor};

    ghost facts = { λ d pass. facts_over S.contents d pass.slots.items pass.units };

    ghost is_ready = { λ d pass. IsReady d.queue pass.caller pass.slots.items pass.units };

    ghost takes = { λ d device sector context. TakesOn S.owns d.queue device sector context };

    ghost affords = { λ d pass pieces. HasRoomFor d pass.slots.items pass.units pieces };

    ghost exact = { λ old new device piece. ⊤ };

    fn carry_out(
        &self,
        rt: &R,
        pass: &mut QueuePass<S>,
        _keys: &Keys,
        device: u8,
        request: &mut Request,
        first: u32,
        count: u32,
    ) {
        let queue = self.queue;
        queue.dispatch(rt, pass, device, request, first, count, self.gate);
    }
}

/// Carries out all data units of a request over the devices of a queue, piece by piece as
/// [`carry_out_pieces`](crate::carry_out_pieces) does, while other callers do so too.
///
/// Each unit lies on a device, has its bytes, and is one that this device takes. The pass has no hold, and room for the
/// pieces: an entry for each unit on its shard, and two events for each piece on its device.
pub fn submit_request<S: Store, G: Gate, R: Wait>(
    rt: &R,
    queue: &Queue<S>,
    stack: &Stack,
    gate: &G,
    pass: &mut QueuePass<S>,
    request: &mut Request,
)
    requires controllers { HaveControllers queue.now stack.now.targets }
    requires ready { IsReady queue.now pass.old.caller pass.old.slots.items pass.old.units }
    requires request { IsRequest queue.now.medium.keys.keys (tagged_bios request.old.bios) }
    requires units { GoesByDevices queue.now.medium.keys.keys stack.now.targets (TakesOn S.owns queue.now) request.old }
    requires room { HasRoomFor (devices_of queue.now stack.now.targets) pass.old.slots.items pass.old.units
        (pieces_in queue.now.medium.keys.keys stack.now.targets request.old) }
    ensures ready { IsReady queue.now pass.new.caller pass.new.slots.items pass.new.units }
    ensures whole { CarriesWhole
        (facts_over S.contents (devices_of queue.now stack.now.targets) pass.old.slots.items pass.old.units)
        (facts_over S.contents (devices_of queue.now stack.now.targets) pass.new.slots.items pass.new.units)
        request.old request.new (pieces_in queue.now.medium.keys.keys stack.now.targets request.old) }
    ensures bios { tagged_bios request.new.bios ≡ tagged_bios request.old.bios }
    ensures room { (rest : List (List NamedUnit)) →
        HasRoomFor (devices_of queue.now stack.now.targets) pass.old.slots.items pass.old.units
        (pieces_in queue.now.medium.keys.keys stack.now.targets request.old ++ rest) →
        HasRoomFor (devices_of queue.now stack.now.targets) pass.new.slots.items pass.new.units rest }
{
    let devices = QueueDevices::new(queue, stack, gate);
    carry_out_pieces(rt, &devices, pass, stack, queue.medium().keys(), request);
}
