//! The medium: the keyed disk on which the data units of a run are performed, and the orders in
//! which they are.
#![tactic(auto)]

// what is written down of an access
mod entry;
mod fault;
mod unit_at;
mod unit_name;
mod via;

// shards
mod opened_shard;
mod shard;
mod shards;

// shards behind turns
mod medium;
mod opening;

// laws of orders
mod laws;

pub use entry::Entry;
pub use fault::Fault;
pub use laws::order_laws;
pub use medium::{Medium, MediumPass};
pub use shards::Shards;
pub use unit_at::UnitAt;
pub use unit_name::UnitName;
pub use via::Via;
