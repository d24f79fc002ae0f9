//! A store in memory: the sectors of one shard of an image.

ghost use Rattle.std.specs.Prelude.{◌≡◌, ℕ, ◌+◌, ◌*◌, ◌/◌, ◌%◌, ◌<◌, ◌≤◌, true, List, length, IfOk, IsTrue};
ghost use Rattle.bc_base.specs.Lists.{AllAt};
ghost use Rattle.bc_base.specs.Layout.{shard_of};
ghost use Rattle.bc_base.specs.Sectors.{image_sectors, bytes_at, with_bytes};
ghost use Rattle.bc_base.specs.Stores.{IsPieceOf};
ghost use Rattle.bc_base.specs.RamStores.{IsShardOf, HaveAllSectors, HasBlocksOf, IsOneImage};
ghost use Rattle.bc_base.specs.RamStores.{owns, contents, sector_within, block_at};

use crate::error::Failed;
use crate::geometry::{BLOCK_BYTES, BLOCK_SECTORS, SECTOR_BYTES};
use crate::planned_calls::PlannedCalls;
use crate::store::Store;
use std::alloc::{AllocError, Global};
use std::marker::Model;

/// Holds the blocks of one shard one after the other, and fails at the calls that its plan has.
#[derive(Drop)]
pub struct RamStore {
    bytes: Vec<u8>,
    shard: u16,
    shards: u16,
    blocks: usize,
    calls: PlannedCalls,
}

impl Model for RamStore {
    ghost use Rattle.bc_base.specs.RamStores.{RamData, HasAllBlocks};

    ghost Value = { RamData };

    ghost view = { λ s. record
        { bytes = s.bytes.items; shard = s.shard; shards = s.shards; blocks = s.blocks; calls = s.calls } };

    ghost invariant = { λ s. HasAllBlocks s.bytes.items s.shard s.shards s.blocks };
}

impl RamStore {
    /// Holds the sectors of an image that lie in `shard` of so many shards, and fails exactly at the calls whose
    /// numbers, from 0, the plan has. The image has whole blocks: its length is a multiple of 4096 bytes.
    ///
    /// # Errors
    /// Out of memory.
    pub fn of_image(
        alloc: Global,
        image: &[u8],
        shard: u16,
        shards: u16,
        plan: Vec<u32>,
    ) -> Result<RamStore, AllocError>
        requires whole { length image.now % 4096 ≡ 0 }
        requires shard { shard < shards }
        ensures shard { IfOk result (λ store. IsShardOf image.now shard shards store) }
        ensures calls { IfOk result (λ store. store.calls ≡ record { fails = plan.items; calls = 0; faults = 0 }) }
    {
        let blocks = image.len() / BLOCK_BYTES;
        let bytes = blocks_from(alloc, image, shard, shards)?;
        Ok(RamStore {
            bytes,
            shard,
            shards,
            blocks,
            calls: PlannedCalls::new(plan),
        })
    }

    /// The store of the only shard of an image, as `of_image` makes it for shard 0 of 1. It keeps the image itself, so
    /// nothing is copied.
    pub fn of_whole(image: Vec<u8>, plan: Vec<u32>) -> RamStore
        requires whole { length image.items % 4096 ≡ 0 }
        ensures shard { IsShardOf image.items 0 1 result }
        ensures calls { result.calls ≡ record { fails = plan.items; calls = 0; faults = 0 } }
    {
        let blocks = image.len() / BLOCK_BYTES;
        RamStore {
            bytes: image,
            shard: 0,
            shards: 1,
            blocks,
            calls: PlannedCalls::new(plan),
        }
    }

    /// The image of so many blocks whose sectors the stores of all its shards hold, in order: each sector belongs to
    /// the store of its shard. What `of_image` took apart it puts together.
    ///
    /// # Errors
    /// Out of memory.
    pub fn join(alloc: Global, stores: &[RamStore], blocks: u32) -> Result<Vec<u8>, AllocError>
        requires { HaveAllSectors blocks stores.now }
        ensures length { IfOk result (λ image. length image.items ≡ 4096 * blocks) }
        ensures sectors { IfOk result (λ image. (s : ℕ) → s < 8 * blocks
            → AllAt stores.now (shard_of (length stores.now) s)
            (λ store. image_sectors image.items s ≡ contents store s)) }
        ensures gives_back { IfOk result (λ image. (whole : List ℕ) → length whole ≡ 4096 * blocks
            → ((shard : ℕ) → AllAt stores.now shard (IsShardOf whole shard (length stores.now)))
            → image.items ≡ whole) }
    {
        let shards = stores.len();
        let mut image = Vec::with_capacity(alloc, BLOCK_BYTES * blocks as usize)?;
        for block in 0..blocks {
            let store = &stores[block as usize % shards];
            image.extend_from_slice(store.block(block))?;
        }
        Ok(image)
    }

    /// The image that `join` puts together, of stores that end with it. Where one store holds just the image, as
    /// `of_whole` makes it, its bytes are given back and nothing is copied.
    ///
    /// # Errors
    /// Out of memory.
    pub fn into_image(
        alloc: Global,
        stores: Vec<RamStore>,
        blocks: u32,
    ) -> Result<Vec<u8>, AllocError>
        requires { HaveAllSectors blocks stores.items }
        ensures length { IfOk result (λ image. length image.items ≡ 4096 * blocks) }
        ensures sectors { IfOk result (λ image. (s : ℕ) → s < 8 * blocks
            → AllAt stores.items (shard_of (length stores.items) s)
            (λ store. image_sectors image.items s ≡ contents store s)) }
        ensures gives_back { IfOk result (λ image. (whole : List ℕ) → length whole ≡ 4096 * blocks
            → ((shard : ℕ) → AllAt stores.items shard (IsShardOf whole shard (length stores.items)))
            → image.items ≡ whole) }
    {
        let mut stores = stores;
        if !is_one_image(&stores, blocks) {
            return RamStore::join(alloc, &stores, blocks);
        }
        let Some(store) = stores.pop() else {
            unreachable!()
        };
        Ok(store.bytes)
    }

    /// A block of the shard, by its number on the disk.
    fn block(&self, block: u32) -> &[u8]
        requires shard { block % self.now.shards ≡ self.now.shard }
        requires inside { block < self.now.blocks }
        ensures bytes { result.now ≡ block_at self.now.bytes (block / self.now.shards) }
        ensures length { length result.now ≡ 4096 }
    {
        let start = BLOCK_BYTES * (block / u32::from(self.shards)) as usize;
        &self.bytes[start..start + BLOCK_BYTES]
    }
}

impl Store for RamStore {
    ghost use Rattle.std.specs.Prelude.{Some};
    ghost use Rattle.bc_base.specs.RamStores as ram;

    ghost owns = { λ s n. ram.owns s n };

    ghost contents = { λ s. Some (ram.contents s) };

    ghost calls = { λ s. Some record { plan = s.calls.fails; calls = s.calls.calls } };

    ghost faults = { λ s. s.calls.faults };

    fn read(&mut self, sector: u32, into: &mut [u8]) -> Result<(), Failed> {
        self.calls.next()?;
        take_sectors(&self.bytes, place_of(sector, self.shards), into);
        Ok(())
    }

    fn write(&mut self, sector: u32, from: &[u8]) -> Result<(), Failed> {
        self.calls.next()?;
        set_sectors(&mut self.bytes, place_of(sector, self.shards), from);
        Ok(())
    }
}

/// Where a sector stands among those of its shard.
fn place_of(sector: u32, shards: u16) -> usize
    requires { 0 < shards }
    ensures { result ≡ sector_within shards sector }
{
    let block = sector / BLOCK_SECTORS / u32::from(shards);
    let within = sector % BLOCK_SECTORS;
    BLOCK_SECTORS as usize * block as usize + within as usize
}

/// Copies the sectors from number `place` on, of an image.
fn take_sectors(image: &[u8], place: usize, into: &mut [u8])
    requires whole { length into.old ≡ 512 * (length into.old / 512) }
    requires inside { 512 * place + length into.old ≤ length image.now }
    ensures { into.new ≡ bytes_at (image_sectors image.now) place (length into.old / 512) }
{
    let start = SECTOR_BYTES * place;
    into.copy_from_slice(&image[start..start + into.len()]);
}

/// Sets the sectors of an image from number `place` on.
fn set_sectors(image: &mut [u8], place: usize, from: &[u8])
    requires whole { length from.now ≡ 512 * (length from.now / 512) }
    requires inside { 512 * place + length from.now ≤ length image.old }
    ensures sectors { (s : ℕ) → image_sectors image.new s ≡ with_bytes (image_sectors image.old) place from.now s }
    ensures length { length image.new ≡ length image.old }
{
    let start = SECTOR_BYTES * place;
    let end = start + from.len();
    image[start..end].copy_from_slice(from);
}

/// Tells whether the bytes of a single store are an image of so many blocks.
fn is_one_image(stores: &[RamStore], blocks: u32) -> bool
    ensures { IsTrue result → IsOneImage stores.now blocks }
{
    match stores {
        [store] => store.shards == 1 && store.bytes.len() == BLOCK_BYTES * blocks as usize,
        _ => false,
    }
}

/// Every `step`-th block of an image, from block `first` on.
fn blocks_from(alloc: Global, image: &[u8], first: u16, step: u16) -> Result<Vec<u8>, AllocError>
    requires whole { length image.now % 4096 ≡ 0 }
    requires step { first < step }
    ensures { IfOk result (λ bytes. HasBlocksOf image.now first step bytes.items) }
{
    let blocks = image.len() / BLOCK_BYTES;
    let count = (blocks + usize::from(step - 1 - first)) / usize::from(step);
    let mut bytes = Vec::with_capacity(alloc, BLOCK_BYTES * count)?;
    let mut block = usize::from(first);
    while block < blocks {
        let start = BLOCK_BYTES * block;
        bytes.extend_from_slice(&image[start..start + BLOCK_BYTES])?;
        block += usize::from(step);
    }
    Ok(bytes)
}
