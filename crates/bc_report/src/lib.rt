//! The report of a run: what each operation was answered, what each shard performed in order, and
//! what each device's keyslots went through. [`print`] gives a report's one text. [`parse`] gives
//! the report that a text says, or the first line that no report has there. Two reports with one
//! text are one report.
#![tactic(auto)]

// what a report says
mod answer;
mod limits;
mod line;
mod report;

// its text
mod printing;

// reading a text
mod line_values;
mod parser;
mod part;
mod reader;
mod report_error;
mod sort;
mod unread;

// what holds of all reports
mod laws;

pub use answer::Answer;
pub use bc_medium::Via;
pub use bc_profile::{Event, Skip, Skips};
pub use laws::{
    no_proper_prefix, one_first_bad_line, one_report_for_each_text, one_text_for_each_report,
};
pub use limits::{MAX_DEVICES, MAX_SHARDS, MAX_THREADS};
pub use line::Line;
pub use parser::parse;
pub use printing::print;
pub use report::Report;
pub use report_error::ReportError;

#[cfg(test)]
mod tests;
