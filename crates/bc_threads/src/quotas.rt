//! How much each thread of a script may add to the disk, counted from the script.

ghost use Rattle.std.specs.Prelude.{◌≡◌, ◌==◌, ◌≤◌, map, IfOk, if◌then◌else◌};
ghost use Rattle.bc_base.specs.Lists.{Each};
ghost use Rattle.bc_medium.specs.Layout.{shard_of};
ghost use Rattle.bc_script.specs.Script.{IsScriptOp, max_units, unit_count_of_section};
ghost use Rattle.bc_threads.specs.Quotas.{event_rows, unit_quota, unit_row, unit_rows, units_from, units_of_op_on};

use crate::prepared::unit_sectors;
use bc_base::BLOCK_SECTORS;
use bc_script::{Op, Script};
use std::alloc::{AllocError, Global};

/// For each caller of a disk that is opened for a script, how many entries it may have at each
/// shard.
pub(crate) fn units_of_callers(
    alloc: Global,
    script: &Script,
    shards: u16,
) -> Result<Vec<Vec<u32>>, AllocError>
    requires shards { 1 ≤ shards }
    ensures { IfOk result (λ rows. map (λ row. row.items) rows.items ≡ unit_rows script.now shards) }
{
    if script.threads().is_empty() {
        let mut rows = Vec::with_capacity(alloc, 1)?;
        rows.push(units_of_section(alloc, script, &[], shards)?)?;
        return Ok(rows);
    }
    let mut rows = Vec::with_capacity(alloc, script.threads().len())?;
    for section in script.threads() {
        rows.push(units_of_section(alloc, script, section.as_slice(), shards)?)?;
    }
    Ok(rows)
}

/// How many entries the thread of a section may have at each shard.
fn units_of_section(
    alloc: Global,
    script: &Script,
    section: &[Op],
    shards: u16,
) -> Result<Vec<u32>, AllocError>
    requires shards { 1 ≤ shards }
    requires rules { Each (IsScriptOp script.now) section.now }
    requires few { unit_count_of_section section.now ≤ max_units }
    ensures { IfOk result (λ row. row.items ≡ unit_row script.now shards section.now) }
{
    let mut row = Vec::with_capacity(alloc, usize::from(shards))?;
    for shard in 0..shards {
        row.push(units_at(script, section, shards, shard))?;
    }
    Ok(row)
}

/// How many units of a section's bios lie in a shard.
fn units_at(script: &Script, section: &[Op], shards: u16, shard: u16) -> u32
    requires shards { 1 ≤ shards }
    requires rules { Each (IsScriptOp script.now) section.now }
    requires few { unit_count_of_section section.now ≤ max_units }
    ensures { result ≡ unit_quota script.now shards shard section.now }
{
    let mut count = 0;
    for operation in section {
        count += units_on(script, operation, shards, shard);
    }
    count
}

/// How many units of an operation's bio lie in a shard.
fn units_on(script: &Script, operation: &Op, shards: u16, shard: u16) -> u32
    requires shards { 1 ≤ shards }
    requires rules { IsScriptOp script.now operation.now }
    ensures { result ≡ units_of_op_on script.now shards shard operation.now }
{
    let Some(bio) = operation.bio() else {
        return 0;
    };
    let sectors = unit_sectors(script, bio.context);
    units_from(shards, shard, bio.sector, sectors, bio.units as u32)
}

/// Of so many units of these sectors each, from a sector on, how many lie in a shard.
fn units_from(shards: u16, shard: u16, sector: u32, sectors: u32, units: u32) -> u32
    requires shards { 1 ≤ shards }
    ensures { result ≡ units_from shards shard sector sectors units }
{
    let mut count = 0;
    for unit in 0..units {
        let at = u64::from(sector) + u64::from(unit) * u64::from(sectors);
        count += counted(shards, shard, at);
    }
    count
}

/// 1 where a sector lies in the shard, and 0 where it doesn't.
fn counted(shards: u16, shard: u16, sector: u64) -> u32
    requires shards { 1 ≤ shards }
    ensures counted { result ≡ (if shard_of shards sector == shard then 1 else 0) }
    ensures most { result ≤ 1 }
{
    if sector / u64::from(BLOCK_SECTORS) % u64::from(shards) == u64::from(shard) {
        return 1;
    }
    0
}

/// For each caller of a disk that is opened for a script, how many events it may make on each
/// device.
pub(crate) fn events_of_callers(alloc: Global, script: &Script) -> Result<Vec<Vec<u32>>, AllocError>
    ensures { IfOk result (λ rows. map (λ row. row.items) rows.items ≡ event_rows script.now) }
{
    let devices = script.targets().len();
    if script.threads().is_empty() {
        let mut rows = Vec::with_capacity(alloc, 1)?;
        rows.push(vec![in alloc; 0; devices]?)?;
        return Ok(rows);
    }
    let mut rows = Vec::with_capacity(alloc, script.threads().len())?;
    for section in script.threads() {
        rows.push(vec![in alloc; 2 * section.len() as u32; devices]?)?;
    }
    Ok(rows)
}
