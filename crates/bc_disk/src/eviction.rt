//! Keys that are taken out of the devices of a disk, and devices that are reset.

ghost use Rattle.std.specs.Prelude.{◌≡◌, ◌==◌, ℕ, ◌+◌, ◌<◌, ◌≤◌, length, true, false, None, Some, IsOk, MatchResult};
ghost use Rattle.std.specs.Prelude.{if◌then◌else◌};
ghost use Rattle.bc_base.specs.Lists.{At};
ghost use Rattle.bc_disk.specs.Disks.{IsPassOf, events_left, facts_on, goes_inline, keys_in};
ghost use Rattle.bc_disk.specs.Evictions.{AsksEach, AsksOne, Resets, asks};

use crate::{Disk, Pass};
use bc_base::Store;
use bc_key::KeyNo;
use bc_ufs::Controller;
use std::sync::Wait;
use thiserror::Error;

/// An eviction was refused: a device found the key's slot with references.
#[derive(Clone, Copy, Debug, PartialEq, Eq, Error)]
#[error("the key's slot {slot} on device {device} has {refs} references")]
pub struct Busy {
    /// The first device that refused.
    pub device: u8,
    pub slot: u16,
    pub refs: u16,
}

impl<S: Store> Disk<S> {
    /// Takes a key that goes inline out of the keyslots of every device, in ascending order: all are asked. Of
    /// another key it changes nothing, as no slot has it.
    ///
    /// The pass is one of this disk, with a spare of an event on each device where the key goes inline.
    ///
    /// # Errors
    ///
    /// The first device that refused, with the references that it found.
    pub fn evict<R: Wait>(&self, rt: &R, pass: &mut Pass<S>, key: KeyNo) -> Result<(), Busy>
        requires pass { IsPassOf self.now pass.old }
        requires key { key.0 < length (keys_in self.now) }
        requires events { (device : ℕ) → device < length self.now.targets
            → asks self.now key ≤ events_left self.now pass.old device }
        ensures pass { IsPassOf self.now pass.new }
        ensures inline { goes_inline self.now.targets (keys_in self.now) key ≡ true → MatchResult result
            (λ _. AsksEach (facts_on S.contents self.now pass.old) (facts_on S.contents self.now pass.new) key.0 None)
            (λ busy. AsksEach (facts_on S.contents self.now pass.old) (facts_on S.contents self.now pass.new) key.0
            (Some busy)) }
        ensures others { goes_inline self.now.targets (keys_in self.now) key ≡ false
            → (IsOk result) × (pass.new ≡ pass.old) }
        ensures events { (device : ℕ) →
            events_left self.now pass.old device ≤ events_left self.now pass.new device + asks self.now key }
    {
        if !self.is_inline(key) {
            return Ok(());
        }
        let mut refused = None;
        for device in 0..self.stack.children() {
            let answer = self.ask(rt, pass, device, key);
            refused = refused.or(answer.err());
        }
        match refused {
            Some(busy) => Err(busy),
            None => Ok(()),
        }
    }

    /// Asks one device for a key.
    fn ask<R: Wait>(&self, rt: &R, pass: &mut Pass<S>, device: u8, key: KeyNo) -> Result<(), Busy>
        requires pass { IsPassOf self.now pass.old }
        requires device { device < length self.now.targets }
        requires key { key.0 < length (keys_in self.now) }
        requires events { 1 ≤ events_left self.now pass.old device }
        ensures pass { IsPassOf self.now pass.new }
        ensures asks { MatchResult result
            (λ _. AsksOne (facts_on S.contents self.now pass.old) (facts_on S.contents self.now pass.new) device
            key.0 None)
            (λ busy. AsksOne (facts_on S.contents self.now pass.old) (facts_on S.contents self.now pass.new) device
            key.0 (Some busy)) }
        ensures events { (other : ℕ) → events_left self.now pass.old other
            ≤ events_left self.now pass.new other + (if other == device then 1 else 0) }
    {
        let profile = self.controller(device).profile();
        let number = usize::from(device);
        match profile.evict(rt, &mut pass.queue.slots[number], key) {
            Ok(()) => Ok(()),
            Err(busy) => Err(Busy {
                device,
                slot: busy.slot,
                refs: busy.refs,
            }),
        }
    }

    /// The controller of a device.
    fn controller(&self, device: u8) -> &Controller
        requires { device < length self.now.targets }
        ensures at { At self.now.queue.controllers device result.now }
        ensures rows { length result.now.profile.rows ≡ length (keys_in self.now) }
    {
        &self.queue.controllers()[usize::from(device)]
    }

    /// Has a device program its keyslots again, once none of them is held.
    ///
    /// The pass is one of this disk, with a spare of an event on the device.
    pub fn reset<R: Wait>(&self, rt: &R, pass: &mut Pass<S>, device: u8)
        requires pass { IsPassOf self.now pass.old }
        requires device { device < length self.now.targets }
        requires events { 1 ≤ events_left self.now pass.old device }
        ensures pass { IsPassOf self.now pass.new }
        ensures resets { Resets (facts_on S.contents self.now pass.old) (facts_on S.contents self.now pass.new) device }
        ensures events { (other : ℕ) → events_left self.now pass.old other
            ≤ events_left self.now pass.new other + (if other == device then 1 else 0) }
    {
        let profile = self.controller(device).profile();
        let number = usize::from(device);
        profile.reset(rt, &mut pass.queue.slots[number]);
    }
}
