//! What one line of a script states.

use crate::named_key::NamedKey;
use crate::op::Op;
use crate::script_error::ScriptWhy;
use bc_stack::Target;
use std::alloc::{AllocError, AllocFailed};
use thiserror::Error;

/// What one line states.
#[derive(Drop)]
pub(crate) enum Statement {
    Version,
    /// How many blocks the disk has.
    Disk(u32),
    /// Whether software does what no device can.
    Fallback(bool),
    Device(Target),
    Key(NamedKey),
    /// A shard, and a place in its order.
    Fault((u16, u32)),
    Thread,
    Operation(Op),
    End,
}

/// Why a line was not read.
#[derive(Clone, Copy, Debug, PartialEq, Eq, Error)]
pub(crate) enum Unread {
    /// It fails a test.
    #[error("{0}")]
    Bad(ScriptWhy),
    /// There was no memory.
    #[error("out of memory")]
    Memory,
}

impl<T: Drop> From<AllocFailed<T>> for Unread {
    ghost use Rattle.std.specs.Prelude.{◌≡◌};
    ghost use Rattle.bc_script.specs.declared.statement.Unread.TheVariants as unread;

    ghost from_gives = { λ _ e. e ≡ unread.Memory };

    fn from(_: AllocFailed<T>) -> Unread {
        Unread::Memory
    }
}

impl From<AllocError> for Unread {
    ghost use Rattle.std.specs.Prelude.{◌≡◌};
    ghost use Rattle.bc_script.specs.declared.statement.Unread.TheVariants as unread;

    ghost from_gives = { λ _ e. e ≡ unread.Memory };

    fn from(_: AllocError) -> Unread {
        Unread::Memory
    }
}
