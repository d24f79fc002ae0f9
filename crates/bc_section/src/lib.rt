//! A script's sections, and what both ways to carry them out share.
//!
//! The loop over a section's operations is written once: [`carry_out`] goes over them by a
//! [`Device`], which submits a window of bios, evicts a key, resets a device, and answers each
//! operation. A device of one caller acts at once; a device of many waits for the others. A section
//! that was carried out is one of a lawful run, whatever the device.
#![tactic(auto)]

// the loop over a section's operations
mod device;
mod pending;

// how a report says what was done
mod lines;
mod read_answer;

// what a write writes
mod unit_text;

// the beginning and the end of a run
mod finished;
mod opening;

pub use device::{Device, carry_out};
pub use finished::Finished;
pub use lines::lines_of_shards;
pub use opening::stores_of;
pub use read_answer::answer_of;
pub use unit_text::text_of_unit;
