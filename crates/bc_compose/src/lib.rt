//! Laws of runs that are put together from their sections. Each thread knows of its own operations,
//! entries and events alone; the closed shards and devices tell how these stand together. Such a
//! run is lawful but for who held a slot, and where its sections follow one another it is the one
//! serial run of its script, which is lawful whole.
#![tactic(auto)]

mod laws;

pub use laws::{
    one_section_finds_none, sections_in_turn_make_a_serial_run, sections_make_a_lawful_run,
    serial_runs_agree, serial_runs_have_known_holders,
};
