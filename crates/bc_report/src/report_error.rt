//! Why a text isn't read as a report.

use thiserror::Error;

/// Why a text isn't read as a report.
#[derive(Clone, Copy, Debug, PartialEq, Eq, Drop, Error)]
pub enum ReportError {
    /// No report has the text, and this is the first line, from 1, that no report has there.
    #[error("report line {line}")]
    Bad { line: u32 },
    /// The process was out of memory.
    #[error("out of memory")]
    Memory,
}
