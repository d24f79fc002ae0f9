//! Callers of the crates, a few lines each: what a user writes, and what is then proved of it.
#![tactic(auto)]

// data units, bios, scripts, whole runs
mod bios;
mod runs;
mod scripts;
mod units;

// many callers
mod disk;
mod keyslots;
mod tally;

pub use bios::first_unit;
pub use disk::{Done, Finished, Shape, Step, Told, carry_out_all, run_callers, run_in_memory};
pub use keyslots::{
    Caller, CallerDone, DeviceDone, SlotAnswer, SlotCall, carry_out_calls, run_on_slots,
};
pub use runs::report_of;
pub use scripts::is_script;
pub use tally::{Tally, add_up, count, count_both, marks_of_two};
pub use units::{encipher_two, there_and_back};

#[cfg(test)]
mod callers_tests;
#[cfg(test)]
mod gate_tests;
#[cfg(test)]
mod keyslots_tests;
#[cfg(test)]
mod keyslots_wait_tests;
#[cfg(test)]
mod tests;
