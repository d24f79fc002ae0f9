//! Files by name.

ghost use Rattle.std.specs.Prelude.{◌≡◌, ◌≤◌, ℕ, Option, length, IsErrOf, IfOk, OnOk};
ghost use Rattle.bc_base.specs.Outside.{HasCause};
ghost use Rattle.bc_base.specs.Folders.{Files, Has, Lacks, HasLonger, HasSame, HasSameBut};

use crate::error::{GetError, PutError};
use std::alloc::Global;

/// Files by name.
pub trait Folder {
    /// The bytes under each name, where the folder tells them.
    ghost files: { Self → Option Files };

    /// How often it has failed.
    ghost faults: { Self → ℕ };

    /// All the bytes that the folder has under the name, at most `limit`. It changes no name.
    ///
    /// # Errors
    /// A fault of the folder. Else `Missing` exactly where it doesn't have the name, and `TooLong` exactly where it has
    /// more than `limit` bytes under it; both count as no fault. Out of memory for the bytes.
    fn get(&mut self, alloc: Global, name: &str, limit: u64) -> Result<Vec<u8>, GetError>
        ensures found { IfOk result (λ bytes. Has (files self.old) name.now bytes.items) }
        ensures within { IfOk result (λ bytes. length bytes.items ≤ limit) }
        ensures missing { IsErrOf result GetError.Missing → Lacks (files self.old) name.now }
        ensures too_long { IsErrOf result GetError.TooLong → HasLonger (files self.old) name.now limit }
        ensures same { HasSame (files self.old) (files self.new) }
        ensures cause { HasCause (faults self.old) (faults self.new) (IsErrOf result GetError.Failed) }
        ensures missing_counts { IsErrOf result GetError.Missing → faults self.new ≡ faults self.old }
        ensures too_long_counts { IsErrOf result GetError.TooLong → faults self.new ≡ faults self.old };

    /// Puts the bytes under the name, in place of what was there, and changes no other name.
    ///
    /// # Errors
    /// A fault of the folder: under this name it may then have anything. Out of memory: nothing has changed.
    fn put(&mut self, name: &str, bytes: &[u8]) -> Result<(), PutError>
        ensures puts { OnOk result (Has (files self.new) name.now bytes.now) }
        ensures others { HasSameBut name.now (files self.old) (files self.new) }
        ensures memory { IsErrOf result PutError.Memory → HasSame (files self.old) (files self.new) }
        ensures cause { HasCause (faults self.old) (faults self.new) (IsErrOf result PutError.Failed) };
}
