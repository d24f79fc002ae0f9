//! How a run ends.

ghost use Rattle.std.specs.Prelude.{◌≡◌};
ghost use Rattle.bc_run.specs.Statuses.{code_of};

use bc_script::ScriptError;
use thiserror::Error;

/// How a run ends. Each status but `Ok` says why what the command writes wasn't written, or not all
/// of it; its text is the line that a user is shown, and that of `Ok` is empty.
#[derive(Clone, Copy, Debug, PartialEq, Eq, Error)]
pub enum Status {
    /// The report is written, or the line of `make`.
    #[error("")]
    Ok,
    /// The words are no command, or clap refuses those after it.
    #[error("bad command line")]
    Usage,
    /// The text is no script's.
    #[error("{0}")]
    BadScript(ScriptError),
    /// The source failed.
    #[error("reading failed")]
    ReadFault,
    /// The sink failed. It holds a prefix of the report, or of the line of `make`.
    #[error("writing failed")]
    WriteFault,
    /// The folder failed.
    #[error("folder failed")]
    FolderFault,
    /// The image has another number of bytes than the script's disk.
    #[error("image has {got} bytes, script asks for {want}")]
    ImageLength { want: u64, got: u64 },
    /// The source or the image had more bytes than the limit.
    #[error("input longer than {limit} bytes")]
    TooLong { limit: u64 },
    /// Memory ran out.
    #[error("no memory")]
    NoMemory,
    /// The folder doesn't have the image.
    #[error("no such file")]
    Missing,
}

impl Status {
    /// The number that the process ends with, from 0 for `Ok`.
    pub fn code(&self) -> u8
        ensures code { result ≡ code_of self.now }
    {
        match self {
            Status::Ok => 0,
            Status::Usage => 1,
            Status::BadScript(_) => 2,
            Status::ReadFault => 3,
            Status::WriteFault => 4,
            Status::FolderFault => 5,
            Status::ImageLength { .. } => 6,
            Status::TooLong { .. } => 7,
            Status::NoMemory => 9,
            Status::Missing => 10,
        }
    }
}
