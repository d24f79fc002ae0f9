//! A script carried out by one caller: section after section, over shards and keyslots that are
//! plain values.
//!
//! [`serial`] promises a lawful run whose orders and journals are those of one caller, so that
//! script, image and number of shards decide it whole.
#![tactic(auto)]

// a section's operations, and what carries them out
mod course;
mod direct;
mod keyslots;
mod open_hold;
mod runs_on;
mod slot_cipher;
mod unit_access;

// the keys of a script, each with its cipher
mod ciphers;

// all sections, one after the other
mod one_caller;

pub use one_caller::serial;
