//! Stacked devices: which of them a sector lies on, and what all of them support.
//!
//! A [`Stack`] lays its [`Target`]s one after the other over a disk. A bio is carried out inline
//! only where every device supports its key, since its data units may lie on any of them.
#![tactic(auto)]

mod stack;
mod stack_error;
mod target;

pub use stack::{MAX_DEVICES, Stack};
pub use stack_error::StackError;
pub use target::Target;

#[cfg(test)]
mod tests;
