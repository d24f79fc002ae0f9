//! Runs scripts: reads the words, the script and the image, carries it out, puts the image and
//! writes the report. Or makes a script, carries that out, and writes the digest of the image that
//! is left.
//!
//! [`run`] does all that the program does, over a source, a sink and a folder. [`serial`] carries a
//! script out over an image, one operation after the other, and [`threads`] by a thread for each
//! section, all at once. What all promise is a lawful run: the report and the image are those of a
//! keyed disk that performs single data units in the orders that the report lists, and fails where
//! the script plans it. Of [`threads`] it isn't said who held a slot that was found held, nor that
//! every slot is idle at the end. [`serial_runs_agree`] is the law that there is one report and one
//! image of [`serial`].
//!
//! A run over memory, whose sink then holds the report (`report_of` of the crate `uses`):
//!
//!     let mut script = MemSource::new(text, 4096, Vec::new(alloc));
//!     match run(rt, alloc, &words, &mut script, &mut out, &mut folder, &FreeGate) {
//!         Status::Ok => Ok(out),
//!         status => Err(status),
//!     }
#![tactic(auto)]

// a run of the program, stage by stage
mod image;
mod make;
mod make_words;
mod program;
mod status;
mod words;

// the laws of runs
mod laws;

pub use bc_section::Finished;
pub use bc_serial::serial;
pub use bc_threads::threads;
pub use image::MAX_IMAGE;
pub use laws::{make_lines_agree, make_words_by_example, serial_runs_agree, words_by_example};
pub use program::run;
pub use status::Status;

#[cfg(test)]
mod tests;
