//! What no call changes of a book.
ghost use Rattle.std.specs.Prelude.{◌≡◌};

use std::marker::Model;
use std::snapshot::Snapshot;

/// What no call changes of a [`Book`](crate::Book): how many slots there are, and how many events
/// each caller may make. It has no bytes.
#[derive(Drop)]
pub struct BookBase {
    slots: Snapshot<u16>,
    quotas: Snapshot<Vec<u32>>,
}

impl Model for BookBase {
    ghost use Rattle.bc_profile.specs.Passes.{BaseData};

    ghost Value = { BaseData };

    ghost view = { λ b. record { slots = b.slots.value; quotas = b.quotas.value.items } };
}

impl BookBase {
    /// Of so many slots, and these quotas of events by caller.
    pub(crate) fn of(slots: &u16, quotas: &Vec<u32>) -> BookBase
        ensures { result ≡ record { slots = slots.now; quotas = quotas.now.items } }
    {
        BookBase {
            slots: Snapshot::of(slots),
            quotas: Snapshot::of(quotas),
        }
    }
}
