//! Data units of callers.

use bc_bio::Context;

/// A data unit of a caller: the caller's tag for its bio, its number in the bio, its first sector
/// and its context.
#[derive(Clone, Copy, Debug, PartialEq, Eq)]
pub struct UnitAt {
    pub caller: u16,
    pub tag: u32,
    pub unit: u32,
    pub sector: u32,
    pub context: Option<Context>,
}
