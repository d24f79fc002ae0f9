//! The shards of a disk at the opening: what they hold, and where they fail.

ghost use Rattle.std.specs.Prelude.{◌≡◌, ◌*◌, ◌<◌, ◌≤◌, List, length, IfOk};
ghost use Rattle.bc_script.specs.Script.{max_units};
ghost use Rattle.bc_section.specs.Openings.{planned_on, IsOpening, AreOpenings};

use bc_base::RamStore;
use bc_script::Script;
use std::alloc::{AllocError, Global};

/// A store for each shard of the image, which fails where the script plans it. The image has 4096 bytes for each block
/// of the script's disk. A fault that is planned on a shard that isn't there is without effect. The only store of one
/// shard keeps the image itself; else each store has a copy of its part, and the image is dropped.
///
/// # Errors
/// Out of memory.
pub fn stores_of(
    alloc: Global,
    script: &Script,
    image: Vec<u8>,
    shards: u16,
) -> Result<Vec<RamStore>, AllocError>
    requires length { length image.items ≡ 4096 * script.now.blocks }
    ensures { IfOk result (λ stores. AreOpenings script.now image.items shards stores.items) }
{
    if shards == 1 {
        return only_store(alloc, script, image);
    }
    stores_of_parts(alloc, script, image.as_slice(), shards)
}

/// The store of the only shard of an image.
fn only_store(alloc: Global, script: &Script, image: Vec<u8>) -> Result<Vec<RamStore>, AllocError>
    requires length { length image.items ≡ 4096 * script.now.blocks }
    ensures { IfOk result (λ stores. AreOpenings script.now image.items 1 stores.items) }
{
    let plan = planned_on(alloc, script.faults(), 0)?;
    let mut stores = Vec::with_capacity(alloc, 1)?;
    stores.push(RamStore::of_whole(image, plan))?;
    Ok(stores)
}

/// A store for each of so many shards, with a copy of its part of the image.
fn stores_of_parts(
    alloc: Global,
    script: &Script,
    image: &[u8],
    shards: u16,
) -> Result<Vec<RamStore>, AllocError>
    requires length { length image.now ≡ 4096 * script.now.blocks }
    ensures { IfOk result (λ stores. AreOpenings script.now image.now shards stores.items) }
{
    let mut stores = Vec::with_capacity(alloc, usize::from(shards))?;
    for shard in 0..shards {
        stores.push(store_of(alloc, script, image, shard, shards)?)?;
    }
    Ok(stores)
}

/// The store of one shard.
fn store_of(
    alloc: Global,
    script: &Script,
    image: &[u8],
    shard: u16,
    shards: u16,
) -> Result<RamStore, AllocError>
    requires length { length image.now ≡ 4096 * script.now.blocks }
    requires shard { shard < shards }
    ensures { IfOk result (IsOpening script.now image.now shards shard) }
{
    let plan = planned_on(alloc, script.faults(), shard)?;
    RamStore::of_image(alloc, image, shard, shards, plan)
}

/// The places that are planned to fail on a shard.
fn planned_on(alloc: Global, faults: &[(u16, u32)], shard: u16) -> Result<Vec<u32>, AllocError>
    ensures { IfOk result (λ places. places.items ≡ planned_on faults.now shard) }
{
    faults
        .iter()
        .filter(|fault| fault.0 == shard)
        .map(|fault| fault.1)
        .collect(alloc)
}
