//! The name of a data unit in the orders of a run.

/// A data unit of a script by name: its thread, the operation of that thread and the unit of that
/// operation's bio, each from 0.
#[derive(Clone, Copy, Debug, PartialEq, Eq)]
pub struct UnitName {
    pub thread: u16,
    pub op: u32,
    pub unit: u32,
}
