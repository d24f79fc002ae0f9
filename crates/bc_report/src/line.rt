//! An entry of a shard's order.

use bc_medium::Via;

/// A data unit in a shard's order: its thread, operation and place in the bio, each from 0, and its
/// way.
#[derive(Clone, Copy, Debug, PartialEq, Eq)]
pub struct Line {
    pub thread: u16,
    pub op: u32,
    pub unit: u32,
    pub via: Via,
}
