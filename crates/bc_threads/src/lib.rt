//! A script carried out by a thread for each of its sections, at once and over one disk.
//!
//! [`threads`] opens a [`Disk`](bc_disk::Disk), has all [`sections`] carried out, and closes it.
//! Whatever the threads' steps interleave to, what is left is a lawful run.
#![tactic(auto)]

// what a thread carries out, and what comes of it
mod outcome;
mod prepared;
mod section;

// one section
mod sharing;
mod working;

// all sections at once
mod jobs;
mod journals;
mod many_callers;
mod quotas;

pub use jobs::{Job, sections};
pub use many_callers::threads;
pub use outcome::Outcome;
pub use section::Section;
pub use working::work;

#[cfg(test)]
mod tests;
