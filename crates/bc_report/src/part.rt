//! The part of a report that is being read.

/// The part of a report that is being read.
#[derive(Clone, Copy)]
pub(crate) enum Part {
    /// Its first line is still to come.
    Head,
    /// All parts that have begun are whole.
    Between,
    /// A thread's answers.
    Answers,
    /// A shard's entries.
    Entries,
    /// A device's events.
    Events,
    /// Its last line has been read.
    Foot,
}
