//! The journals of devices, for a report.

ghost use Rattle.std.specs.Prelude.{◌≡◌, map, IfOk};
ghost use Rattle.std.specs.List.{AllByRecursion};
ghost use Rattle.bc_base.specs.Lists.{Each};
ghost use Rattle.bc_report.specs.Report.{IsEvent, IsPart, IsSkip};

use bc_base::Items;
use bc_profile::{Event, Skip};
use std::alloc::{AllocError, Global};

/// The journals as a report has them, if it may have as many events. Their numbers are in the
/// ranges of their types.
pub(crate) fn journals_of(
    alloc: Global,
    devices: Vec<Vec<Event>>,
) -> Result<Items<Items<Event>>, AllocError>
    ensures journals { IfOk result (λ journals. journals ≡ map (λ journal. journal.items) devices.items) }
    ensures ranges { IfOk result (Each (IsPart IsEvent)) }
{
    let mut journals = Vec::with_capacity(alloc, devices.len())?;
    for device in devices {
        if device.len() > u32::MAX as usize {
            return Err(AllocError);
        }
        are_events(device.as_slice());
        journals.push(Items::from_vec(device))?;
    }
    Ok(Items::from_vec(journals))
}

/// Does nothing, and states that each event is in its ranges.
fn are_events(events: &[Event])
    ensures { Each IsEvent events.now }
{
    for event in events {
        is_event(event);
    }
}

/// Does nothing, and states that an event is in its ranges.
fn is_event(event: &Event)
    ensures { IsEvent event.now }
{
    match event {
        Event::Program { slot, key, skipped } => {
            let _ranges = (*slot, *key);
            are_skips(skipped.as_slice());
        }
        Event::Idle { slot } => {
            let _range = *slot;
        }
        Event::Evict { slot, key } => {
            let _ranges = (*slot, *key);
        }
        Event::Busy { slot, key, refs } => {
            let _ranges = (*slot, *key, *refs);
        }
        Event::Reset => {}
    }
}

/// Does nothing, and states that each slot that was passed over is in its ranges.
fn are_skips(skips: &[Skip])
    ensures { AllByRecursion IsSkip skips.now }
{
    for skip in skips {
        is_skip(*skip);
    }
}

/// Does nothing, and states that a slot that was passed over is in its ranges.
fn is_skip(_skip: Skip)
    ensures { IsSkip _skip }
{}
