//! Whether a bio runs on at the back of another one.

ghost use Rattle.std.specs.Prelude.{◌≡◌};
ghost use Rattle.bc_bio.specs.BackRuns.{back_runs_on, context_runs_on};
ghost use Rattle.bc_bio.specs.Conditions.{IsPlaced};

use bc_bio::{Context, Extent};
use bc_key::Keys;

/// Whether `second` runs on at the back of `first`: the same access, the next sector, and no
/// context in both or one key and the next number.
pub(crate) fn back_runs_on(keys: &Keys, first: &Extent, second: &Extent) -> bool
    requires first { IsPlaced keys.now.keys first.now }
    requires second { IsPlaced keys.now.keys second.now }
    ensures { result ≡ back_runs_on keys.now.keys first.now second.now }
{
    first.access == second.access
        && u64::from(second.sector) == first.end(keys)
        && context_runs_on(first.context, first.units, second.context)
}

/// Whether a context runs on from one that is so many units further back.
fn context_runs_on(first: Option<Context>, units: u64, second: Option<Context>) -> bool
    ensures { result ≡ context_runs_on first units second }
{
    match (first, second) {
        (None, None) => true,
        (Some(first), Some(second)) => {
            first.key.0 == second.key.0 && first.dun.runs_on(units, &second.dun)
        }
        _ => false,
    }
}
