//! How much there is of a report.

/// A report has at most so many threads.
pub const MAX_THREADS: usize = 16;

/// A report has at most so many shards.
pub const MAX_SHARDS: usize = 64;

/// A report has at most so many devices.
pub const MAX_DEVICES: usize = 8;
