//! Callers of one disk, each in a thread of its own: what each of them did, and what the disk has then.
ghost use Rattle.std.specs.Prelude.{◌≡◌, ℕ, ◌+◌, ◌<◌, ◌≤◌, ◌^◌, ◌*◌, ◌%◌, length, map, sum, reverse, All, None, IfSome, IfOk, vec_len};
ghost use Rattle.std.specs.Thread.{IsSync};
ghost use lib.ListN.{replicate};
ghost use Rattle.bc_base.specs.Lists.{Each, EachFrom};
ghost use Rattle.bc_medium.specs.Medium.{Belongs, shards_of, HasRoom, OwnsSectors, quotas_of_shard};
ghost use Rattle.uses.specs.Disks.{StoresOwn, HasSectors, CameBack, IsFreshShard};

use bc_base::{BLOCK_SECTORS, Place, RamStore, SECTOR_BYTES, Store};
use bc_key::Keys;
use bc_medium::{Entry, Medium, MediumPass, UnitAt, Via};
use std::alloc::{AllocError, Global};
use std::sync::Wait;
use std::thread::{self, Threads};

/// What a caller does with a sector, in the clear: fills it with a byte, or reads it.
#[derive(Clone, Copy, Debug, PartialEq, Eq)]
pub struct Step {
    pub sector: u32,
    pub fill: Option<u8>,
}

/// What a step was answered: the place of its entry, and of a read the first byte. A step that has no room, or no such
/// sector, isn't carried out.
#[derive(Clone, Copy, Debug, PartialEq, Eq)]
pub enum Told {
    Filled(Place),
    Found(Place, u8),
    Fault(Place),
    Left,
}

/// A caller at the end: its pass, and what each of its steps was answered.
#[derive(Drop)]
pub struct Done<S: Store> {
    pub pass: MediumPass<S>,
    pub told: Vec<Told>,
}

/// The disk at the end: the stores and the orders, by shard, and what each caller was answered.
#[derive(Drop)]
pub struct Finished<S> {
    pub stores: Vec<S>,
    pub orders: Vec<Vec<Entry>>,
    pub told: Vec<Vec<Told>>,
}

/// How many shards and sectors a disk has.
#[derive(Clone, Copy)]
pub struct Shape {
    pub shards: u16,
    pub sectors: u32,
}

/// Fills or reads one sector, where the caller has room.
fn access<S: Store, R: Wait>(
    rt: &R,
    alloc: Global,
    medium: &Medium<S>,
    pass: &mut MediumPass<S>,
    at: UnitAt,
    fill: Option<u8>,
) -> Result<Told, AllocError>
    requires pass { Belongs medium.now pass.old }
    requires at { (at.caller ≡ pass.old.caller) × (at.context ≡ None) }
    requires room { HasRoom medium.now pass.old at.sector }
    requires sectors { OwnsSectors S.owns medium.now at.sector 1 }
    ensures pass { Belongs medium.now pass.new }
    ensures caller { pass.new.caller ≡ pass.old.caller }
{
    let Some(byte) = fill else {
        let mut raw = [0; SECTOR_BYTES];
        return match medium.read_unit(rt, pass, at, Via::Plain, &mut raw) {
            Ok(place) => Ok(Told::Found(place, raw[0])),
            Err(fault) => Ok(Told::Fault(fault.place)),
        };
    };
    let plain = vec![in alloc; byte; SECTOR_BYTES]?;
    let cipher = [byte; SECTOR_BYTES];
    match medium.write_unit(rt, pass, at, Via::Plain, plain, &cipher) {
        Ok(place) => Ok(Told::Filled(place)),
        Err((fault, _)) => Ok(Told::Fault(fault.place)),
    }
}

/// Carries out one step, which has this number.
fn carry_out<S: Store, R: Wait>(
    rt: &R,
    alloc: Global,
    medium: &Medium<S>,
    shape: Shape,
    pass: &mut MediumPass<S>,
    number: u32,
    step: Step,
) -> Result<Told, AllocError>
    requires pass { Belongs medium.now pass.old }
    requires shards { (1 ≤ shape.shards) × (shape.shards ≡ shards_of medium.now) }
    requires sectors { HasSectors S.owns medium.now shape.sectors }
    ensures pass { Belongs medium.now pass.new }
    ensures caller { pass.new.caller ≡ pass.old.caller }
{
    let shard = (step.sector / BLOCK_SECTORS % u32::from(shape.shards)) as u16;
    if step.sector >= shape.sectors || medium.spare(pass, shard) == 0 {
        return Ok(Told::Left);
    }
    let at = UnitAt {
        caller: pass.number(),
        tag: number,
        unit: 0,
        sector: step.sector,
        context: None,
    };
    access(rt, alloc, medium, pass, at, step.fill)
}

/// Carries out a caller's steps, one after the other, as far as there is memory. The pass is one of the medium, which
/// has as many shards and sectors as the shape says.
pub fn carry_out_all<S: Store, R: Wait>(
    rt: &R,
    alloc: Global,
    medium: &Medium<S>,
    shape: Shape,
    mut pass: MediumPass<S>,
    steps: &[Step],
) -> Done<S>
    requires pass { Belongs medium.now pass }
    requires shards { (1 ≤ shape.shards) × (shape.shards ≡ shards_of medium.now) }
    requires sectors { HasSectors S.owns medium.now shape.sectors }
    ensures pass { Belongs medium.now result.pass }
    ensures caller { result.pass.caller ≡ pass.caller }
{
    let mut told = Vec::new(alloc);
    let mut number = 0;
    for step in steps {
        let Ok(answer) = carry_out(rt, alloc, medium, shape, &mut pass, number, *step) else {
            break;
        };
        if told.push(answer).is_err() {
            break;
        }
        number = number.saturating_add(1);
    }
    Done { pass, told }
}

/// Carries out the steps of all callers at once, each in a thread of its own. A caller's steps are those at its number.
fn at_once<S: Store + Drop + Send, R: Threads + Wait + Sync>(
    rt: &R,
    alloc: Global,
    medium: &Medium<S>,
    shape: Shape,
    passes: Vec<MediumPass<S>>,
    scripts: &[Vec<Step>],
) -> Result<Vec<Done<S>>, AllocError>
    requires passes { All (Belongs medium.now) passes.items }
    requires shards { (1 ≤ shape.shards) × (shape.shards ≡ shards_of medium.now) }
    requires sectors { HasSectors S.owns medium.now shape.sectors }
    ensures length { IfOk result (λ done. length done.items ≡ length passes.items) }
    ensures each { IfOk result (λ done. CameBack medium.now passes.items done.items) }
{
    thread::map_vec(
        rt,
        passes,
        &|pass: MediumPass<S>| -> Done<S>
            requires { IsSync R.row × Belongs medium.now pass × (1 ≤ shape.shards)
                × (shape.shards ≡ shards_of medium.now) × HasSectors S.owns medium.now shape.sectors }
            ensures { Belongs medium.entry.now result.pass × (result.pass.caller ≡ pass.caller) }
        {
            let number = usize::from(pass.number());
            match scripts.get(number) {
                Some(steps) => carry_out_all(rt, alloc, medium, shape, pass, steps.as_slice()),
                None => carry_out_all(rt, alloc, medium, shape, pass, &[]),
            }
        },
    )
}

/// The passes and what the callers were answered, in order.
fn take_apart<S: Store>(
    alloc: Global,
    mut done: Vec<Done<S>>,
) -> Result<(Vec<MediumPass<S>>, Vec<Vec<Told>>), AllocError>
    ensures { IfOk result (λ r. r.0.items ≡ map (λ d. d.pass) done.items) }
{
    let mut passes = Vec::new(alloc);
    let mut told = Vec::new(alloc);
    turn_round(&mut done);
    while let Some(last) = done.pop() {
        passes.push(last.pass)?;
        told.push(last.told)?;
    }
    Ok((passes, told))
}

/// The last first.
fn turn_round<T>(items: &mut Vec<T>)
    ensures items { items.new.items ≡ reverse items.old.items }
    ensures length { vec_len items.new ≡ vec_len items.old }
{
    items.as_mut_slice().reverse();
}

/// Opens a medium on these stores without keys, carries out the steps of all callers at once, and closes it. The stores
/// have so many sectors, and the quotas are as [`Medium::open`] asks for them; the steps are by caller.
///
/// # Errors
/// Out of memory.
pub fn run_callers<S: Store + Drop + Send, R: Threads + Wait + Sync>(
    rt: &R,
    alloc: Global,
    stores: Vec<S>,
    quotas: Vec<Vec<u32>>,
    sectors: u32,
    scripts: &[Vec<Step>],
) -> Result<Finished<S>, AllocError>
    requires stores { (1 ≤ length stores.items) × (length stores.items ≤ 65535) }
    requires callers { (1 ≤ length quotas.items) × (length quotas.items ≤ 65535) }
    requires rows { Each (λ row. length row.items ≡ length stores.items) quotas.items }
    requires fits { (shard : ℕ) → shard < length stores.items
        → sum (quotas_of_shard shard (map (λ row. row.items) quotas.items)) < 2 ^ 32 }
    requires calls { Each (λ s. IfSome (S.calls s) (λ told. told.calls ≡ 0)) stores.items }
    requires sectors { StoresOwn S.owns stores.items sectors }
    ensures shards { IfOk result (λ end. length end.stores.items ≡ length stores.items) }
{
    let shape = Shape {
        shards: stores.len() as u16,
        sectors,
    };
    let (medium, passes) = Medium::open(alloc, Keys::new(alloc), stores, quotas)?;
    let done = at_once(rt, alloc, &medium, shape, passes, scripts)?;
    let (passes, told) = take_apart(alloc, done)?;
    match medium.close(passes) {
        Ok((stores, orders)) => Ok(Finished {
            stores,
            orders,
            told,
        }),
        Err(_) => Err(AllocError),
    }
}

/// A store in memory for each of so many shards of an image, all with the same plan.
fn ram_stores(
    alloc: Global,
    image: &[u8],
    shards: u16,
    plan: &[u32],
) -> Result<Vec<RamStore>, AllocError>
    requires whole { length image.now % 4096 ≡ 0 }
    ensures length { IfOk result (λ stores. length stores.items ≡ shards) }
    ensures stores { IfOk result (λ stores. EachFrom (IsFreshShard image.now shards) 0 stores.items) }
{
    let mut stores = Vec::new(alloc);
    for shard in 0..shards {
        let plan = plan.to_vec(alloc)?;
        stores.push(RamStore::of_image(alloc, image, shard, shards, plan)?)?;
    }
    Ok(stores)
}

/// The same quota for each caller at each shard.
fn even_quotas(
    alloc: Global,
    callers: usize,
    shards: u16,
    quota: u32,
) -> Result<Vec<Vec<u32>>, AllocError>
    ensures length { IfOk result (λ rows. length rows.items ≡ callers) }
    ensures rows { IfOk result (λ rows. Each (λ row. row.items ≡ replicate shards quota) rows.items) }
{
    let mut rows = Vec::new(alloc);
    for caller in 0..callers {
        rows.push(vec![in alloc; quota; usize::from(shards)]?)?;
    }
    Ok(rows)
}

/// Callers of a disk in memory, each with the same quota at each shard; the stores of its shards have one plan.
///
/// # Errors
/// Out of memory.
pub fn run_in_memory<R: Threads + Wait + Sync>(
    rt: &R,
    alloc: Global,
    image: &[u8],
    shards: u16,
    plan: &[u32],
    quota: u32,
    scripts: &[Vec<Step>],
) -> Result<Finished<RamStore>, AllocError>
    requires whole { (length image.now % 4096 ≡ 0) × (length image.now < 2 ^ 32) }
    requires shards { 1 ≤ shards }
    requires callers { (1 ≤ length scripts.now) × (length scripts.now ≤ 65535) }
    requires quotas { length scripts.now * quota < 2 ^ 32 }
    ensures shards { IfOk result (λ end. length end.stores.items ≡ shards) }
{
    let stores = ram_stores(alloc, image, shards, plan)?;
    let quotas = even_quotas(alloc, scripts.len(), shards, quota)?;
    let sectors = (image.len() / SECTOR_BYTES) as u32;
    run_callers(rt, alloc, stores, quotas, sectors, scripts)
}
