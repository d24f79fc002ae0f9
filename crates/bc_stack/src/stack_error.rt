//! Why targets make no stack.

ghost use Rattle.std.specs.Prelude.{◌≡◌};

use std::alloc::AllocError;
use thiserror::Error;

/// Why targets make no stack.
#[derive(Clone, Copy, Debug, PartialEq, Eq, Error)]
pub enum StackError {
    /// A target doesn't begin where the one before it ends, or the last one doesn't end with the
    /// disk.
    #[error("the devices leave a gap")]
    Gap,
    /// A target has no blocks.
    #[error("a device without blocks")]
    Empty,
    /// There are more targets than a stack can have.
    #[error("too many devices")]
    TooMany,
    /// There was no memory for the stack.
    #[error("no memory")]
    Memory,
}

impl From<AllocError> for StackError {
    ghost use Rattle.bc_stack.specs.declared.stack_error.StackError.TheVariants as errors;

    ghost from_gives = { λ _ e. e ≡ errors.Memory };

    fn from(_: AllocError) -> StackError {
        StackError::Memory
    }
}
