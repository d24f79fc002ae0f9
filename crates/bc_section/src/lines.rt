//! How a report says the orders of the shards.

ghost use Rattle.std.specs.Prelude.{◌≡◌, ◌^◌, ◌<◌, length, map, IfOk};
ghost use Rattle.bc_base.specs.Lists.{Each};
ghost use Rattle.bc_report.specs.Report.{IsEntry, IsPart};
ghost use Rattle.bc_compose.specs.ClosedOrders.{report_line_of};

use bc_base::Items;
use bc_medium::{Entry, UnitAt, Via};
use bc_report::Line;
use std::alloc::{AllocError, Global};

/// The lines of the entries of each shard, by shard and in the order of its entries. A report has them
/// as the parts of its shards.
///
/// # Errors
///
/// `AllocError` where there is no memory for the lines.
pub fn lines_of_shards(
    alloc: Global,
    orders: &[Vec<Entry>],
) -> Result<Items<Items<Line>>, AllocError>
    requires few { Each (λ order. length order.items < 2 ^ 32) orders.now }
    ensures lines { IfOk result (λ lines. lines ≡ map (λ order. map report_line_of order.items) orders.now) }
    ensures ranges { IfOk result (Each (IsPart IsEntry)) }
{
    let mut lists = Vec::with_capacity(alloc, orders.len())?;
    for order in orders {
        let lines = lines_of_shard(alloc, order.as_slice())?;
        lists.push(lines)?;
    }
    Ok(Items::from_vec(lists))
}

/// The lines of the entries of one shard, in order.
fn lines_of_shard(alloc: Global, entries: &[Entry]) -> Result<Items<Line>, AllocError>
    ensures lines { IfOk result (λ lines. lines ≡ map report_line_of entries.now) }
    ensures ranges { IfOk result (Each IsEntry) }
{
    let mut lines = Vec::with_capacity(alloc, entries.len())?;
    for entry in entries {
        lines.push(line_of(entry.at, entry.via))?;
    }
    Ok(Items::from_vec(lines))
}

/// How a report says a unit and its way.
fn line_of(at: UnitAt, via: Via) -> Line
    ensures line { result ≡ record { thread = at.caller; op = at.tag; unit = at.unit; via = via } }
    ensures range { IsEntry result }
{
    if let Via::Inline {
        device,
        slot,
        event,
    } = via
    {
        return Line {
            thread: at.caller,
            op: at.tag,
            unit: at.unit,
            via: Via::Inline {
                device,
                slot,
                event,
            },
        };
    }
    Line {
        thread: at.caller,
        op: at.tag,
        unit: at.unit,
        via,
    }
}
