//! The way of data units that go inline, by the disk's devices.

ghost use Rattle.std.specs.Prelude.{◌≡◌};
ghost use Rattle.bc_bio.specs.Requests.{tagged_bios};
ghost use Rattle.bc_bio.specs.Windows.{IsRequest};
ghost use Rattle.bc_pieces.specs.AttemptedRequest.{CarriesWhole};
ghost use Rattle.bc_pieces.specs.ManyCallers.{HaveControllers, IsReady, TakesOn, devices_of, facts_over};
ghost use Rattle.bc_pieces.specs.Pieces.{GoesByDevices, pieces_in};
ghost use Rattle.bc_disk.specs.Inline.{HasRoomOn};

use bc_base::{Gate, Store};
use bc_bio::Request;
use bc_key::Keys;
use bc_pieces::{DeviceAccess, carry_out_pieces};
use bc_queue::{Queue, QueuePass};
use bc_stack::Stack;
use std::marker::Model;
use std::sync::Wait;

/// The way of many callers to the devices of a disk: as bc_pieces' `QueueDevices`, but that it asks no room for
/// events of a device on which no piece lies.
#[derive(Drop)]
pub(crate) struct InlineAccess<'a, S: Store, G: Gate> {
    queue: &'a Queue<S>,
    stack: &'a Stack,
    gate: &'a G,
}

impl<'a, S: Store, G: Gate> Model for InlineAccess<'a, S, G> {
    ghost use Rattle.bc_pieces.specs.ManyCallers.{HaveControllers, QueueDevicesData};

    ghost Value = { QueueDevicesData S };

    ghost view = { λ d. record { queue = d.queue.now; targets = d.stack.now.targets } };

    ghost invariant = { λ d. HaveControllers d.queue.now d.stack.now.targets };
}

impl<'a, S: Store, G: Gate> InlineAccess<'a, S, G> {
    /// The way by this queue, whose devices are those of the stack.
    fn new(queue: &'a Queue<S>, stack: &'a Stack, gate: &'a G) -> InlineAccess<'a, S, G>
        requires { HaveControllers queue.now stack.now.targets }
        ensures { result ≡ devices_of queue.now stack.now.targets }
    {
        InlineAccess { queue, stack, gate }
    }
}

impl<'a, S: Store, G: Gate, R: Wait> DeviceAccess<R, QueuePass<S>> for InlineAccess<'a, S, G> {
    ghost use Rattle.std.specs.Prelude.{⊤};
    ghost use Rattle.bc_pieces.specs.ManyCallers.{facts_over, IsReady, TakesOn};
    ghost use Rattle.bc_disk.specs.Inline.{HasRoomOn};

    ghost facts = { λ d pass. facts_over S.contents d pass.slots.items pass.units };

    ghost is_ready = { λ d pass. IsReady d.queue pass.caller pass.slots.items pass.units };

    ghost takes = { λ d device sector context. TakesOn S.owns d.queue device sector context };

    ghost affords = { λ d pass pieces. HasRoomOn d pass.slots.items pass.units pieces };

    ghost exact = { λ old new device piece. ⊤ };

    fn carry_out(
        &self,
        rt: &R,
        pass: &mut QueuePass<S>,
        _keys: &Keys,
        device: u8,
        request: &mut Request,
        first: u32,
        count: u32,
    ) {
        let queue = self.queue;
        queue.dispatch(rt, pass, device, request, first, count, self.gate);
    }
}

/// Carries out all data units of a request by the devices on which they lie, as bc_pieces' `submit_request`.
pub(crate) fn carry_out_inline<S: Store, G: Gate, R: Wait>(
    rt: &R,
    queue: &Queue<S>,
    stack: &Stack,
    gate: &G,
    pass: &mut QueuePass<S>,
    request: &mut Request,
)
    requires controllers { HaveControllers queue.now stack.now.targets }
    requires ready { IsReady queue.now pass.old.caller pass.old.slots.items pass.old.units }
    requires request { IsRequest queue.now.medium.keys.keys (tagged_bios request.old.bios) }
    requires units { GoesByDevices queue.now.medium.keys.keys stack.now.targets (TakesOn S.owns queue.now) request.old }
    requires room { HasRoomOn (devices_of queue.now stack.now.targets) pass.old.slots.items pass.old.units
        (pieces_in queue.now.medium.keys.keys stack.now.targets request.old) }
    ensures ready { IsReady queue.now pass.new.caller pass.new.slots.items pass.new.units }
    ensures whole { CarriesWhole
        (facts_over S.contents (devices_of queue.now stack.now.targets) pass.old.slots.items pass.old.units)
        (facts_over S.contents (devices_of queue.now stack.now.targets) pass.new.slots.items pass.new.units)
        request.old request.new (pieces_in queue.now.medium.keys.keys stack.now.targets request.old) }
{
    let devices = InlineAccess::new(queue, stack, gate);
    carry_out_pieces(rt, &devices, pass, stack, queue.medium().keys(), request);
}
