//! The queue of a disk, which dispatches the data units of requests to the devices.

ghost use Rattle.std.specs.Prelude.{◌≡◌, ◌<◌, ◌≤◌, ◌+◌, length, None, Some};
ghost use Rattle.bc_base.specs.Lists.{Each, At};
ghost use Rattle.bc_bio.specs.Windows.{IsRequest, count_units};
ghost use Rattle.bc_bio.specs.Requests.{tagged_bios};
ghost use Rattle.bc_medium.specs.declared.via.Via.TheVariants as ways;
ghost use Rattle.bc_medium.specs.Medium.{Belongs};
ghost use Rattle.bc_queue.specs.RequestUnits.{named_at};
ghost use Rattle.bc_queue.specs.Carrying.{CarriesOut};
ghost use Rattle.bc_queue.specs.Queues.{AreControllers, IsPass, facts_by, HasEvents, CanGo, CanGoPlain};
ghost use Rattle.bc_queue.specs.Queues.{HasSpareOfUnits};
ghost use Rattle.bc_queue.specs.Queues.{IsController, IsHolding, HasGot, HasPut, AreUnderKey, Dispatches};

use crate::inline_access::InlineAccess;
use crate::plain_access::PlainAccess;
use crate::{Scratch, carry_out};
use bc_base::{Gate, GatePlace, Store};
use bc_bio::{Context, Request};
use bc_key::KeyNo;
use bc_medium::{Medium, MediumPass};
use bc_profile::{Hold, SlotPass};
use bc_ufs::Controller;
use std::marker::Model;
use std::snapshot::Snapshot;
use std::sync::Wait;

/// A disk's controllers by device, over its medium. The controller at place `d` has the device `d`, and its register
/// row of each of the medium's keys is the key's entry where it supports the key, and zeros elsewhere.
#[derive(Drop)]
pub struct Queue<S: Store> {
    controllers: Vec<Controller>,
    medium: Medium<S>,
}

impl<S: Store> Model for Queue<S> {
    ghost use Rattle.bc_queue.specs.Queues.{QueueData, AreControllers};

    ghost Value = { QueueData S };

    ghost view = { λ q. record { controllers = q.controllers.items; medium = q.medium } };

    ghost invariant = { λ q. AreControllers q.medium.keys.keys q.controllers.items };
}

/// What a caller takes along: its number, its pass of each controller's keyslots by device, its pass of the medium, and
/// memory for its data units.
#[derive(Drop)]
pub struct QueuePass<S: Store> {
    pub caller: u16,
    pub slots: Vec<SlotPass>,
    pub units: MediumPass<S>,
    pub scratch: Scratch,
}

impl<S: Store> Queue<S> {
    /// The queue of these controllers, which are in the order of their devices, over the medium.
    pub fn new(controllers: Vec<Controller>, medium: Medium<S>) -> Queue<S>
        requires { AreControllers medium.keys.keys controllers.items }
        ensures { result ≡ record { controllers = controllers.items; medium = medium } }
    {
        Queue {
            controllers,
            medium,
        }
    }

    /// The controllers, by device.
    pub fn controllers(&self) -> &[Controller]
        ensures { result.now ≡ self.now.controllers }
    {
        self.controllers.as_slice()
    }

    /// The medium.
    pub fn medium(&self) -> &Medium<S>
        ensures { result.now ≡ self.now.medium }
    {
        &self.medium
    }

    /// The controllers and the medium, for closing.
    pub fn into_parts(self) -> (Vec<Controller>, Medium<S>)
        ensures controllers { result.0.items ≡ self.controllers }
        ensures medium { result.1 ≡ self.medium }
    {
        (self.controllers, self.medium)
    }

    /// Carries out `count` data units of a request from number `first` on, one at least, through a device: takes a hold
    /// of their key, passes the gate, carries the units out in order ([`carry_out`]), and gives the hold back. All
    /// units of a request are under one key.
    ///
    /// The pass is one of this queue and has no hold, with a spare of two events on the device and of an entry for each
    /// of the units on its shard. The units have their bytes and a key that the device supports, and lie in their
    /// shards' stores.
    pub fn dispatch<G: Gate, R: Wait>(
        &self,
        rt: &R,
        pass: &mut QueuePass<S>,
        device: u8,
        request: &mut Request,
        first: u32,
        count: u32,
        gate: &G,
    )
        requires pass { IsPass self.now pass.old.caller pass.old.slots.items pass.old.units }
        requires free { Each (λ slots. slots.hold ≡ None) pass.old.slots.items }
        requires device { device < length self.now.controllers }
        requires request { IsRequest self.now.medium.keys.keys (tagged_bios request.old.bios) }
        requires some { 1 ≤ count }
        requires within { first + count ≤ count_units (tagged_bios request.old.bios) }
        requires units { CanGo S.owns self.now device request.old.bios first count }
        requires events { HasEvents self.now pass.old.slots.items device 2 }
        requires spare { HasSpareOfUnits self.now pass.old.units request.old.bios first count }
        ensures pass { IsPass self.now pass.new.caller pass.new.slots.items pass.new.units }
        ensures caller { pass.new.caller ≡ pass.old.caller }
        ensures free { Each (λ slots. slots.hold ≡ None) pass.new.slots.items }
        ensures dispatches { Dispatches S.contents self.now pass.old.slots.items pass.new.slots.items pass.old.units
            pass.new.units request.old request.new device first count }
    {
        let begun = Snapshot::of(&pass.units);
        let (tag, context) = self.first_unit(device, request, first, count);
        let hold = self.get(rt, pass, device, context.key);
        self.pass_gate(rt, gate, pass, &begun, device, &hold, tag);
        self.carry_out_under(rt, pass, device, &hold, request, first, count);
        self.put(rt, pass, device, hold);
    }

    /// Carries out all data units of a request whose bios have no key, in order ([`carry_out`]): no device has a part
    /// in it.
    ///
    /// The pass is one of this queue, with a spare of an entry for each unit on its shard. The units have their bytes
    /// and lie in their shards' stores.
    pub fn dispatch_plain<R: Wait>(&self, rt: &R, pass: &mut QueuePass<S>, request: &mut Request)
        requires pass { IsPass self.now pass.old.caller pass.old.slots.items pass.old.units }
        requires request { IsRequest self.now.medium.keys.keys (tagged_bios request.old.bios) }
        requires units { CanGoPlain S.owns self.now request.old.bios }
        requires spare { HasSpareOfUnits self.now pass.old.units request.old.bios 0
            (count_units (tagged_bios request.old.bios)) }
        ensures pass { IsPass self.now pass.new.caller pass.new.slots.items pass.new.units }
        ensures caller { pass.new.caller ≡ pass.old.caller }
        ensures slots { pass.new.slots.items ≡ pass.old.slots.items }
        ensures carries { CarriesOut (facts_by S.contents self.now.medium ways.Plain pass.old.units)
            (facts_by S.contents self.now.medium ways.Plain pass.new.units) request.old request.new 0
            (count_units (tagged_bios request.old.bios)) }
    {
        let units = request.units();
        let mut access = PlainAccess::new(&self.medium);
        carry_out(
            rt,
            &mut access,
            &mut pass.units,
            self.medium.keys(),
            request,
            0,
            units,
        );
    }

    /// The tag and the context of the first of these units.
    fn first_unit(&self, device: u8, request: &Request, first: u32, count: u32) -> (u32, Context)
        requires device { device < length self.now.controllers }
        requires request { IsRequest self.now.medium.keys.keys (tagged_bios request.now.bios) }
        requires some { 1 ≤ count }
        requires within { first + count ≤ count_units (tagged_bios request.now.bios) }
        requires units { CanGo S.owns self.now device request.now.bios first count }
        ensures tag { (named_at self.now.medium.keys.keys request.now.bios first).tag ≡ result.0 }
        ensures context { (named_at self.now.medium.keys.keys request.now.bios first).context ≡ Some result.1 }
        ensures key { result.1.key.0 < length self.now.medium.keys.keys }
        ensures under { AreUnderKey self.now.medium.keys.keys request.now.bios first count result.1.key.0 }
    {
        let _controller = self.controller(device);
        let (tag, _, _, context) = request.unit_at(self.medium.keys(), first);
        let Some(context) = context else {
            unreachable!()
        };
        (tag, context)
    }

    /// The controller of a device.
    fn controller(&self, device: u8) -> &Controller
        requires { device < length self.now.controllers }
        ensures at { At self.now.controllers device result.now }
        ensures is_its { IsController self.now.medium.keys.keys device result.now }
    {
        &self.controllers[usize::from(device)]
    }

    /// Takes a hold of a key.
    fn get<R: Wait>(&self, rt: &R, pass: &mut QueuePass<S>, device: u8, key: KeyNo) -> Hold
        requires pass { IsPass self.now pass.old.caller pass.old.slots.items pass.old.units }
        requires free { Each (λ slots. slots.hold ≡ None) pass.old.slots.items }
        requires device { device < length self.now.controllers }
        requires key { key.0 < length self.now.medium.keys.keys }
        requires events { HasEvents self.now pass.old.slots.items device 2 }
        ensures units { pass.new.units ≡ pass.old.units }
        ensures caller { pass.new.caller ≡ pass.old.caller }
        ensures got { HasGot self.now pass.old.slots.items pass.new.slots.items device key.0 result }
    {
        let profile = self.controller(device).profile();
        profile.get(rt, &mut pass.slots[usize::from(device)], key)
    }

    /// Gives the hold back.
    fn put<R: Wait>(&self, rt: &R, pass: &mut QueuePass<S>, device: u8, hold: Hold)
        requires device { device < length self.now.controllers }
        requires holding { IsHolding self.now pass.old.slots.items device hold }
        ensures units { pass.new.units ≡ pass.old.units }
        ensures caller { pass.new.caller ≡ pass.old.caller }
        ensures put { HasPut self.now pass.old.slots.items pass.new.slots.items device hold }
    {
        let profile = self.controller(device).profile();
        profile.put(rt, &mut pass.slots[usize::from(device)], hold);
    }

    /// Passes the gate with the hold, before the first unit: what the caller has seen of the orders is still what it
    /// was when the dispatch began.
    fn pass_gate<G: Gate, R: Wait>(
        &self,
        rt: &R,
        gate: &G,
        pass: &QueuePass<S>,
        begun: &Snapshot<MediumPass<S>>,
        device: u8,
        hold: &Hold,
        tag: u32,
    )
        requires holding { IsHolding self.now pass.now.slots.items device hold.now }
        requires none_yet { pass.now.units ≡ begun.now.value }
    {
        let _ = begun;
        let place = GatePlace::Holds {
            device,
            slot: hold.slot(),
        };
        gate.pass(rt, pass.caller, tag, place);
    }

    /// Carries the units out under the hold.
    fn carry_out_under<R: Wait>(
        &self,
        rt: &R,
        pass: &mut QueuePass<S>,
        device: u8,
        hold: &Hold,
        request: &mut Request,
        first: u32,
        count: u32,
    )
        requires belongs { Belongs self.now.medium pass.old.units }
        requires number { pass.old.units.caller ≡ pass.old.caller }
        requires device { device < length self.now.controllers }
        requires holding { IsHolding self.now pass.old.slots.items device hold.now }
        requires request { IsRequest self.now.medium.keys.keys (tagged_bios request.old.bios) }
        requires within { first + count ≤ count_units (tagged_bios request.old.bios) }
        requires units { CanGo S.owns self.now device request.old.bios first count }
        requires key { AreUnderKey self.now.medium.keys.keys request.old.bios first count hold.now.key }
        requires spare { HasSpareOfUnits self.now pass.old.units request.old.bios first count }
        ensures belongs { Belongs self.now.medium pass.new.units }
        ensures number { pass.new.units.caller ≡ pass.new.caller }
        ensures slots { pass.new.slots.items ≡ pass.old.slots.items }
        ensures carries { CarriesOut
            (facts_by S.contents self.now.medium (ways.Inline device hold.now.slot hold.now.epoch) pass.old.units)
            (facts_by S.contents self.now.medium (ways.Inline device hold.now.slot hold.now.epoch) pass.new.units)
            request.old request.new first count }
    {
        let controller = self.controller(device);
        let mut access = InlineAccess::new(controller, hold, &self.medium, &pass.slots);
        carry_out(
            rt,
            &mut access,
            pass,
            self.medium.keys(),
            request,
            first,
            count,
        );
    }
}
