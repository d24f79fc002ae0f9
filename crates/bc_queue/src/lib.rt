//! What waits for a disk: bios that are plugged, so that those which run on are carried out together.
//!
//! A caller puts its bios into a [`Plug`], which joins each with the one before it where it runs on at its back. The
//! requests that this makes are carried out one after the other, and emptied into replies.
#![tactic(auto)]

// plugs
mod plug;

// the units of a request
mod request_units;
mod unit_access;

// dispatch
mod inline_access;
mod plain_access;
mod queue;
mod scratch;

// what holds of requests that were carried out
mod laws;

pub use laws::request_laws;
pub use plug::{MAX_PLUGGED, Plug};
pub use queue::{Queue, QueuePass};
pub use request_units::carry_out;
pub use scratch::Scratch;
pub use unit_access::UnitAccess;

#[cfg(test)]
mod carry_out_tests;
#[cfg(test)]
mod tests;
