//! Faults of a shard's store.

use bc_base::Place;
use thiserror::Error;

/// The store of a shard failed at the entry with this place.
#[derive(Clone, Copy, Debug, PartialEq, Eq, Error)]
#[error("the store of a shard failed")]
pub struct Fault {
    pub place: Place,
}
