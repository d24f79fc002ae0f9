//! How a disk is opened.

ghost use Rattle.std.specs.Prelude.{◌≡◌, ℕ, ◌*◌, ◌<◌, ◌≤◌, false, length, map, sum, Some, IfOk};
ghost use Rattle.std.specs.List.{range_with_len};
ghost use Rattle.bc_base.specs.Lists.{Each};
ghost use Rattle.bc_medium.specs.Medium.{quotas_of_shard};
ghost use Rattle.bc_modes.specs.UnitCipher.{parts_of};
ghost use Rattle.bc_profile.specs.Passes.{new_pass};
ghost use Rattle.bc_profile.specs.declared.limits.TheConstants.{MAX_EVENTS};
ghost use Rattle.bc_stack.specs.Devices.{all_support};
ghost use Rattle.bc_stack.specs.Targets.{HasSlots};
ghost use Rattle.bc_ufs.specs.Controllers.{row_for};
ghost use Rattle.bc_disk.specs.Dealing.{new_slots, passes_with};
ghost use Rattle.bc_disk.specs.Disks.{HasCiphers, pass_by};
ghost use Rattle.bc_disk.specs.Openings.{AreNewDevices, IsNewDevice, IsOpened, MayOpen};

use crate::dealing::{deal, rooms, turn_round};
use crate::{Disk, Pass};
use bc_base::Store;
use bc_bio::Request;
use bc_key::{Key, KeyNo, Keys};
use bc_medium::{Medium, MediumPass};
use bc_modes::{UfsCaps, UnitCipher, entry_words};
use bc_profile::{Profile, ROW_WORDS, Row, SlotPass};
use bc_queue::{Queue, QueuePass, Scratch};
use bc_stack::{Stack, Target};
use bc_ufs::Controller;
use std::alloc::{AllocError, Global};

/// How much each caller may add to a disk: a list for each caller.
#[derive(Drop)]
pub struct Quota {
    /// How many entries, by shard.
    pub units: Vec<Vec<u32>>,
    /// How many events, by device.
    pub events: Vec<Vec<u32>>,
}

/// A disk, and a pass for each of its callers, in the order of their numbers.
#[derive(Drop)]
pub struct Opened<S: Store> {
    pub disk: Disk<S>,
    pub passes: Vec<Pass<S>>,
}

impl<S: Store + Drop> Disk<S> {
    /// Opens a disk of so many blocks of 4096 bytes, for as many callers as there are quotas. The stores are those of
    /// all its shards, in order, and the stack was made for as many blocks. Without a fallback a key that not every
    /// device supports is refused. [`Disk::close`] gives the stores back.
    ///
    /// # Errors
    ///
    /// Out of memory: then all is let go.
    pub fn open(
        alloc: Global,
        keys: Keys,
        stack: Stack,
        fallback: bool,
        blocks: u32,
        stores: Vec<S>,
        quota: Quota,
    ) -> Result<Opened<S>, AllocError>
        requires may { MayOpen S.owns S.calls stack blocks stores.items (map (λ row. row.items) quota.units.items)
            (map (λ row. row.items) quota.events.items) }
        ensures opened { IfOk result (λ opened. IsOpened S.contents keys.keys stack fallback blocks stores.items
            (map (λ row. row.items) quota.units.items) (map (λ row. row.items) quota.events.items)
            opened.disk opened.passes.items) }
    {
        let Quota { units, events } = quota;
        let shards = stores.len() as u16;
        let ciphers = ciphers_of(alloc, &keys, &stack)?;
        let (controllers, slots) = open_devices(alloc, &keys, &stack, &events)?;
        let (medium, seats) = Medium::open(alloc, keys, stores, units)?;
        let passes = passes_of(alloc, slots, seats)?;
        let disk = Disk {
            alloc,
            queue: Queue::new(controllers, medium),
            stack,
            fallback,
            blocks,
            shards,
            ciphers,
        };
        Ok(Opened { disk, passes })
    }
}

/// Of each key the cipher, if it doesn't go inline.
fn ciphers_of(
    alloc: Global,
    keys: &Keys,
    stack: &Stack,
) -> Result<Vec<Option<UnitCipher>>, AllocError>
    ensures { IfOk result (λ ciphers. HasCiphers stack.now.targets keys.now.keys ciphers.items) }
{
    let mut ciphers = Vec::with_capacity(alloc, usize::from(keys.len()))?;
    for number in 0..keys.len() {
        ciphers.push(cipher_of(keys.get(KeyNo(number)), stack))?;
    }
    Ok(ciphers)
}

/// The key's cipher, if it doesn't go inline.
fn cipher_of(key: &Key, stack: &Stack) -> Option<UnitCipher>
    ensures { all_support stack.now.targets key.now.config ≡ false → result ≡ Some (parts_of key.now) }
{
    if stack.caps().supports(&key.config()) {
        return None;
    }
    Some(UnitCipher::of_key(key))
}

/// The controllers by device, and of each caller the passes of their keyslots.
fn open_devices(
    alloc: Global,
    keys: &Keys,
    stack: &Stack,
    events: &Vec<Vec<u32>>,
) -> Result<(Vec<Controller>, Vec<Vec<SlotPass>>), AllocError>
    requires callers { (1 ≤ length events.now.items) × (length events.now.items ≤ 65535) }
    requires rows { Each (λ row. length row.items ≡ length stack.now.targets) events.now.items }
    requires sums { (device : ℕ) → device < length stack.now.targets
        → sum (quotas_of_shard device (map (λ row. row.items) events.now.items)) < MAX_EVENTS }
    ensures count { IfOk result (λ r. length r.0.items ≡ length stack.now.targets) }
    ensures devices { IfOk result (λ r. AreNewDevices keys.now.keys (map (λ row. row.items) events.now.items)
        stack.now.targets r.0.items) }
    ensures slots { IfOk result (λ r. map (λ row. row.items) r.1.items
        ≡ map (new_slots r.0.items) (range_with_len 0 (length events.now.items))) }
{
    let devices = stack.children();
    let mut controllers = Vec::with_capacity(alloc, usize::from(devices))?;
    let mut slots = rooms(alloc, events.len(), usize::from(devices))?;
    for device in 0..devices {
        let (controller, passes) = open_device(alloc, keys, stack.target(device), events, device)?;
        deal(passes, &mut slots);
        controllers.push(controller)?;
    }
    Ok((controllers, slots))
}

/// The controller of a target's device, and each caller's pass of its keyslots.
fn open_device(
    alloc: Global,
    keys: &Keys,
    target: &Target,
    events: &Vec<Vec<u32>>,
    device: u8,
) -> Result<(Controller, Vec<SlotPass>), AllocError>
    requires slots { HasSlots target.now }
    requires callers { (1 ≤ length events.now.items) × (length events.now.items ≤ 65535) }
    requires rows { Each (λ row. device < length row.items) events.now.items }
    requires sum { sum (quotas_of_shard device (map (λ row. row.items) events.now.items)) < MAX_EVENTS }
    ensures device { IfOk result (λ r. IsNewDevice keys.now.keys (map (λ row. row.items) events.now.items) device
        target.now r.0) }
    ensures passes { IfOk result (λ r. r.1.items
        ≡ map (new_pass r.0.profile) (range_with_len 0 (length events.now.items))) }
{
    let caps = UfsCaps::of(&target.caps);
    let rows = rows_of(alloc, keys, &caps)?;
    let quotas = column_of(alloc, events, usize::from(device))?;
    let (profile, passes) = Profile::open(alloc, target.slots, rows, quotas)?;
    Ok((Controller::new(device, profile, caps), passes))
}

/// The register row of each key.
fn rows_of(alloc: Global, keys: &Keys, caps: &UfsCaps) -> Result<Vec<Row>, AllocError>
    ensures rows { IfOk result (λ rows. rows.items ≡ map (row_for caps.now) keys.now.keys) }
    ensures few { IfOk result (λ rows. length rows.items ≤ 4096) }
{
    let mut rows = Vec::with_capacity(alloc, usize::from(keys.len()))?;
    for number in 0..keys.len() {
        rows.push(row_for(keys.get(KeyNo(number)), caps))?;
    }
    Ok(rows)
}

/// The register row of a key: its entry, where the device supports it, and else zeros.
fn row_for(key: &Key, caps: &UfsCaps) -> Row
    ensures { result ≡ row_for caps.now key.now }
{
    if !caps.supports(&key.config()) {
        return [0; ROW_WORDS];
    }
    match entry_words(key, caps) {
        Some(words) => words,
        None => [0; ROW_WORDS],
    }
}

/// The numbers at a place of each row.
fn column_of(alloc: Global, rows: &Vec<Vec<u32>>, place: usize) -> Result<Vec<u32>, AllocError>
    requires { Each (λ row. place < length row.items) rows.now.items }
    ensures { IfOk result (λ numbers. numbers.items ≡ quotas_of_shard place (map (λ row. row.items) rows.now.items)) }
{
    let mut column = Vec::with_capacity(alloc, rows.len())?;
    for k in 0..rows.len() {
        let row = &rows[k];
        column.push(row[place])?;
    }
    Ok(column)
}

/// The passes of all callers, of their parts by caller.
fn passes_of<S: Store + Drop>(
    alloc: Global,
    mut slots: Vec<Vec<SlotPass>>,
    mut seats: Vec<MediumPass<S>>,
) -> Result<Vec<Pass<S>>, AllocError>
    requires { length slots.items ≡ length seats.items }
    ensures { IfOk result (λ passes. passes.items ≡ passes_with (map (λ row. row.items) slots.items) seats.items) }
{
    let mut passes = Vec::with_capacity(alloc, seats.len())?;
    while let Some(units) = seats.pop() {
        let Some(slots) = slots.pop() else {
            unreachable!()
        };
        passes.push(pass_of(alloc, slots, units)?)?;
    }
    turn_round(&mut passes);
    Ok(passes)
}

/// A pass of these parts.
fn pass_of<S: Store + Drop>(
    alloc: Global,
    slots: Vec<SlotPass>,
    units: MediumPass<S>,
) -> Result<Pass<S>, AllocError>
    ensures { IfOk result (λ pass. pass ≡ pass_by units.caller slots.items units) }
{
    let request = Request::new(alloc, 1)?;
    let replies = Vec::with_capacity(alloc, 1)?;
    let queue = QueuePass {
        caller: units.number(),
        slots,
        units,
        scratch: Scratch::new(),
    };
    Ok(Pass {
        queue,
        request,
        replies,
    })
}
