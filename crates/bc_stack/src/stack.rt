//! Devices that lie one after the other over a disk.
ghost use Rattle.std.specs.Prelude.{◌≡◌, ℕ, ◌+◌, ◌<◌, ◌≤◌, ◌∷◌, length, take, drop, slice_get, All, Some, None, OnOk, IfOk, IfErr, IfSome};
ghost use Rattle.std.specs.Option.{option_map};
ghost use Rattle.bc_key.specs.declared.config.Config.{Config};
ghost use Rattle.bc_key.specs.Support.{supports};
ghost use Rattle.bc_bio.specs.Windows.{IsRequest, count_units, units_of_request};
ghost use Rattle.bc_bio.specs.Requests.{tagged_bios};
ghost use Rattle.bc_stack.specs.Pieces.{EndsPiece, LiesOnDevice, device_of, pieces_of};
ghost use Rattle.bc_stack.specs.Devices.{device_at, caps_of, all_support};
ghost use Rattle.bc_stack.specs.Targets.{HasSlots, IsRefusal, IsStack, stack_error_of};

use crate::{StackError, Target};
use bc_bio::Request;
use bc_key::{Caps, Keys};
use std::alloc::Global;
use std::marker::Model;

/// How many devices a stack can have.
pub const MAX_DEVICES: usize = 8;

/// The devices of a disk, each with the blocks after those of the one before it. Without devices no
/// block lies on one.
#[derive(Drop)]
pub struct Stack {
    targets: Vec<Target>,
    blocks: u32,
}

impl Model for Stack {
    ghost use Rattle.bc_stack.specs.Targets.{StackParts, IsStack};

    ghost Value = { StackParts };

    ghost view = { λ s. record { targets = s.targets.items; blocks = s.blocks } };

    ghost invariant = { λ s. IsStack s.targets.items s.blocks };
}

impl Stack {
    /// The stack of these targets over a disk of so many blocks. Each target has 1 to 32 keyslots.
    ///
    /// # Errors
    ///
    /// `TooMany` where there are more than [`MAX_DEVICES`] targets; then, from the first target on,
    /// `Empty` where it has no blocks and `Gap` where it doesn't begin at the end of the one
    /// before; then `Gap` where there are targets and the last one doesn't end with the disk.
    /// `Memory` where there is no memory for targets that pass.
    pub fn new(alloc: Global, targets: &[Target], blocks: u32) -> Result<Stack, StackError>
        requires { All HasSlots targets.now }
        ensures accepts { OnOk result (stack_error_of targets.now blocks ≡ None) }
        ensures refuses { IfErr result (IsRefusal targets.now blocks) }
        ensures stack { IfOk result (λ stack.
            stack ≡ record { targets = targets.now; blocks = blocks }) }
    {
        check(targets, blocks)?;
        Ok(Stack {
            targets: Vec::from_slice(alloc, targets)?,
            blocks,
        })
    }

    /// How many devices there are.
    pub fn children(&self) -> u8
        ensures count { result ≡ length self.now.targets }
        ensures stack { IsStack self.now.targets self.now.blocks }
    {
        self.targets.len() as u8
    }

    /// The device with this number.
    pub fn target(&self, device: u8) -> &Target
        requires { device < length self.now.targets }
        ensures target { slice_get self.now.targets device ≡ Some result.now }
        ensures slots { HasSlots result.now }
    {
        &self.targets[usize::from(device)]
    }

    /// What every device supports, and nothing without devices.
    pub fn caps(&self) -> Caps
        ensures meet { result ≡ caps_of self.now.targets }
        ensures supports_what_all_support { (config : Config) →
            supports result config ≡ all_support self.now.targets config }
    {
        caps_of(&self.targets)
    }

    /// The number of the device that has this sector of 512 bytes, if one has it.
    pub fn locate(&self, sector: u32) -> Option<u8>
        ensures { result ≡ device_at self.now.targets sector }
    {
        match position_of(&self.targets, sector) {
            Some(device) => Some(device as u8),
            None => None,
        }
    }

    /// The device of unit number `first` of a request, and how many units from there stand in it,
    /// up to the first that lies on another device or to the request's end. Each unit from `first`
    /// on lies in one target.
    pub fn cut_at_borders(&self, keys: &Keys, request: &Request, first: u32) -> (u8, u32)
        requires request { IsRequest keys.now.keys (tagged_bios request.now.bios) }
        requires within { first < count_units (tagged_bios request.now.bios) }
        requires located { LiesOnDevice keys.now.keys self.now.targets (tagged_bios request.now.bios) first }
        ensures device { option_map (device_of self.now.targets)
            (slice_get (units_of_request keys.now.keys (tagged_bios request.now.bios)) first) ≡ Some result.0 }
        ensures piece { let units = drop first (units_of_request keys.now.keys (tagged_bios request.now.bios)) in
            pieces_of self.now.targets units
            ≡ take result.1 units ∷ pieces_of self.now.targets (drop result.1 units) }
        ensures some { 1 ≤ result.1 }
        ensures most { first + result.1 ≤ count_units (tagged_bios request.now.bios) }
    {
        let device = device_of(&self.targets, keys, request, first);
        let end = end_of_piece(&self.targets, keys, request, first, device);
        (device as u8, end - first)
    }
}

/// The number of the device of a unit of a request, or the number of devices where it lies on none.
fn device_of(targets: &[Target], keys: &Keys, request: &Request, n: u32) -> usize
    requires request { IsRequest keys.now.keys (tagged_bios request.now.bios) }
    requires within { n < count_units (tagged_bios request.now.bios) }
    ensures { option_map (device_of targets.now)
        (slice_get (units_of_request keys.now.keys (tagged_bios request.now.bios)) n) ≡ Some result }
{
    let (_, _, sector, _) = request.unit_at(keys, n);
    match position_of(targets, sector) {
        Some(device) => device,
        None => targets.len(),
    }
}

/// The number of the first unit after `first` that lies on another device, or of all units.
fn end_of_piece(
    targets: &[Target],
    keys: &Keys,
    request: &Request,
    first: u32,
    device: usize,
) -> u32
    requires request { IsRequest keys.now.keys (tagged_bios request.now.bios) }
    requires within { first < count_units (tagged_bios request.now.bios) }
    requires device { option_map (device_of targets.now)
        (slice_get (units_of_request keys.now.keys (tagged_bios request.now.bios)) first) ≡ Some device }
    ensures end { EndsPiece targets.now (units_of_request keys.now.keys (tagged_bios request.now.bios)) first device
        result }
    ensures most { result ≤ count_units (tagged_bios request.now.bios) }
{
    let units = request.units();
    let mut end = first + 1;
    while end < units {
        if device_of(targets, keys, request, end) != device {
            return end;
        }
        end += 1;
    }
    units
}

/// The place of the target that has this sector, if one has it.
fn position_of(targets: &[Target], sector: u32) -> Option<usize>
    ensures place { result ≡ device_at targets.now sector }
    ensures within { IfSome result (λ device. device < length targets.now) }
{
    targets.iter().position(|target| target.has_sector(sector))
}

/// Whether these targets make a stack over a disk of so many blocks.
fn check(targets: &[Target], blocks: u32) -> Result<(), StackError>
    ensures accepts { OnOk result (stack_error_of targets.now blocks ≡ None) }
    ensures refuses { IfErr result (IsRefusal targets.now blocks) }
{
    if targets.is_empty() {
        return Ok(());
    }
    if targets.len() > MAX_DEVICES {
        return Err(StackError::TooMany);
    }
    let mut end = 0;
    for target in targets {
        if target.blocks == 0 {
            return Err(StackError::Empty);
        }
        if u64::from(target.first) != end {
            return Err(StackError::Gap);
        }
        end += u64::from(target.blocks);
    }
    if end != u64::from(blocks) {
        return Err(StackError::Gap);
    }
    Ok(())
}

/// The meet of what all targets support, and nothing without targets.
fn caps_of(targets: &[Target]) -> Caps
    ensures meet { result ≡ caps_of targets.now }
    ensures supports_what_all_support { (config : Config) →
        supports result config ≡ all_support targets.now config }
{
    let Some((first, others)) = targets.split_first() else {
        return Caps {
            xts: 0,
            essiv: 0,
            max_dun_bytes: 0,
        };
    };
    let mut caps = first.caps;
    for target in others {
        caps = caps.meet(&target.caps);
    }
    caps
}
