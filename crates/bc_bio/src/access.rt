//! Whether a bio reads or writes.

/// What a bio does with its sectors.
#[derive(Clone, Copy, Debug, PartialEq, Eq)]
pub enum Access {
    /// Reads them, and deciphers what stands there.
    Read,
    /// Enciphers its bytes, and writes them.
    Write,
}
