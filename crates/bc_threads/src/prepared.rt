//! Bios that are made ahead of a section's operations, with the bytes of their units.

ghost use Rattle.std.specs.Prelude.{◌≡◌, ℕ, ◌*◌, ◌<◌, ◌≤◌, length, map, IfOk};
ghost use Rattle.std.specs.List.{enumerate_from, range_with_len};
ghost use Rattle.bc_base.specs.Lists.{Each};
ghost use Rattle.bc_bio.specs.declared.access.Access.{Access};
ghost use Rattle.bc_bio.specs.declared.unit.Unit.TheVariants.{Full};
ghost use Rattle.bc_bio.specs.Conditions.{HasKey};
ghost use Rattle.bc_bio.specs.Extent.{unit_sectors};
ghost use Rattle.bc_key.specs.DataUnits.{IsUnitSize};
ghost use Rattle.bc_script.specs.Script.{IsScriptOp, keys_of, max_ops};
ghost use Rattle.bc_script.specs.Plan.{text_at, HasUnit};
ghost use Rattle.bc_threads.specs.PreparedBios.{IsMadeFor, IsPrepared};

use bc_base::{Items, SECTOR_BYTES};
use bc_bio::{Access, Bio, Context, Unit};
use bc_script::{Op, Script, Text};
use bc_section::text_of_unit;
use std::alloc::{AllocError, Global};

/// The bio of each operation of a section, if it has one, with its units' bytes.
pub(crate) fn bios_of(
    alloc: Global,
    script: &Script,
    section: &[Op],
) -> Result<Vec<Option<Bio>>, AllocError>
    requires rules { Each (IsScriptOp script.now) section.now }
    requires few { length section.now ≤ max_ops }
    ensures { IfOk result (λ bios. Each (IsPrepared script.now bios.items) (enumerate_from 0 section.now)) }
{
    let mut bios = Vec::with_capacity(alloc, section.len())?;
    for (op, operation) in section.iter().enumerate() {
        bios.push(bio_of(alloc, script, op as u32, operation)?)?;
    }
    Ok(bios)
}

/// The bio of an operation, if it has one.
fn bio_of(
    alloc: Global,
    script: &Script,
    op: u32,
    operation: &Op,
) -> Result<Option<Bio>, AllocError>
    requires rules { IsScriptOp script.now operation.now }
    ensures { IfOk result (IsMadeFor script.now op operation.now) }
{
    match operation {
        Op::Write {
            context,
            sector,
            units,
            text,
        } => {
            let size = unit_bytes(script, *context);
            let units = units_for(alloc, text, size, *units)?;
            Ok(Some(Bio {
                tag: op,
                access: Access::Write,
                sector: *sector,
                units,
                context: *context,
            }))
        }
        Op::Read {
            context,
            sector,
            units,
        } => {
            let size = unit_bytes(script, *context);
            let units = units_for(alloc, &Text::Fill(0), size, *units)?;
            Ok(Some(Bio {
                tag: op,
                access: Access::Read,
                sector: *sector,
                units,
                context: *context,
            }))
        }
        _ => Ok(None),
    }
}

/// How many bytes a data unit under this context has.
fn unit_bytes(script: &Script, context: Option<Context>) -> usize
    requires key { HasKey (keys_of script.now) context }
    ensures { result ≡ 512 * unit_sectors (keys_of script.now) context }
{
    SECTOR_BYTES * unit_sectors(script, context) as usize
}

/// How many sectors it has.
pub(crate) fn unit_sectors(script: &Script, context: Option<Context>) -> u32
    requires key { HasKey (keys_of script.now) context }
    ensures sectors { result ≡ unit_sectors (keys_of script.now) context }
    ensures size { IsUnitSize result }
{
    match context {
        Some(context) => script.keys()[usize::from(context.key.0)]
            .key
            .config()
            .unit
            .sectors(),
        None => 1,
    }
}

/// So many units of `size` bytes each, which have the bytes of a text.
fn units_for(alloc: Global, text: &Text, size: usize, count: u32) -> Result<Items<Unit>, AllocError>
    requires text { (unit : ℕ) → unit < count → HasUnit text.now size unit }
    ensures { IfOk result (λ units. units ≡ map (λ i. Full (text_at text.now size i)) (range_with_len 0 count)) }
{
    let mut units = Vec::with_capacity(alloc, count as usize)?;
    for unit in 0..count {
        let bytes = text_of_unit(alloc, text, size, unit as usize)?;
        units.push(Unit::Full(Items::from_vec(bytes)))?;
    }
    Ok(Items::from_vec(units))
}
