//! Why a text is no script.

use bc_key::KeyError;
use thiserror::Error;

/// The first line of a text that fails a test, from 1, and the test.
#[derive(Clone, Copy, Debug, PartialEq, Eq, Error)]
#[error("script line {line}: {why}")]
pub struct ScriptError {
    pub line: u32,
    pub why: ScriptWhy,
}

/// What is wrong with a line. The tests of a line go in this order, but those of its fields, which
/// go from left to right.
#[derive(Clone, Copy, Debug, PartialEq, Eq, Error)]
pub enum ScriptWhy {
    /// The text ends before its `end` line, or in a line without a line feed; or the line stands
    /// after the `end` line.
    #[error("end")]
    End,
    /// The line is of a form that isn't built yet, and stands where it may. No call of this crate
    /// answers it now, since each form is built.
    #[error("not built")]
    NotBuilt,
    /// The line has none of the forms that may stand there, by its first word, its number of fields
    /// and its fixed words.
    #[error("word")]
    Word,
    /// A number is malformed, or out of its range.
    #[error("number")]
    Number,
    /// A name is malformed, or declared twice, or used and not declared.
    #[error("name")]
    Name,
    /// Hexadecimal digits are malformed, or there are none, or not as many as asked for.
    #[error("hex")]
    Hex,
    /// No key is like this.
    #[error("key")]
    Key(KeyError),
    /// A fault doesn't come after the one before it; or a plug is opened twice, or closed without
    /// being open, or still open where its section ends.
    #[error("order")]
    Order,
    /// A device doesn't begin at the end of the one before it; or the devices don't have the disk's
    /// blocks together, which the first line after them reports.
    #[error("device")]
    Device,
    /// The line is one too many of its sort, or asks for too many data units.
    #[error("limit")]
    Limit,
}

/// Why a text was not read as a script.
#[derive(Clone, Copy, Debug, PartialEq, Eq, Error)]
pub enum ParseError {
    /// It is no script.
    #[error("{0}")]
    Bad(ScriptError),
    /// There was no memory for the script.
    #[error("out of memory")]
    Memory,
}
