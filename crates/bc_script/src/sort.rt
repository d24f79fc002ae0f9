//! The sorts of lines that a script has.

/// What a line is for.
#[derive(Clone, Copy, Debug, PartialEq, Eq)]
pub(crate) enum Sort {
    /// The language's name and version.
    Version,
    /// The size of the disk.
    Disk,
    /// Whether software does what no device can.
    Fallback,
    /// A device.
    Device,
    /// A key.
    Key,
    /// A planned fault.
    Fault,
    /// The beginning of a section.
    Thread,
    /// An operation of a section.
    Operation,
    /// The end of the script.
    End,
}
