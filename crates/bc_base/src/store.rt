//! Where the raw sectors of one shard lie.

ghost use Rattle.std.specs.Prelude.{ℕ, Bool, Option, IsErr, OnOk, OnErr, ◌≡◌};
ghost use Rattle.bc_base.specs.Outside.{HasCause};
ghost use Rattle.bc_base.specs.Sectors.{Sectors};
ghost use Rattle.bc_base.specs.Stores.{StoreCalls, IsPieceOf, HoldsSame, Sets, ReadsSectors, MakesCall};

use crate::error::Failed;

/// The raw sectors of one shard, 512 bytes each.
///
/// Both calls take whole sectors, one at least, that belong to the store. Which sectors belong to it, and whether it
/// tells their bytes, its calls and its plan, no call changes.
pub trait Store {
    /// Tells whether a sector belongs to the store.
    ghost owns: { Self → ℕ → Bool };

    /// The bytes of each sector, where the store tells them.
    ghost contents: { Self → Option Sectors };

    /// The number of its calls and its plan, where the store tells them.
    ghost calls: { Self → Option StoreCalls };

    /// How often it has failed.
    ghost faults: { Self → ℕ };

    /// Reads the sectors from `sector` on, as many as `into` has room for. A read changes no sector, also where it
    /// fails.
    ///
    /// # Errors
    /// A fault of the store. `into` is then unspecified.
    fn read(&mut self, sector: u32, into: &mut [u8]) -> Result<(), Failed>
        requires { IsPieceOf (owns self.old) sector into.old }
        ensures owns { (s : ℕ) → owns self.new s ≡ owns self.old s }
        ensures same { HoldsSame (contents self.old) (contents self.new) }
        ensures reads { OnOk result (ReadsSectors (contents self.old) sector into.new) }
        ensures calls { MakesCall (calls self.old) (calls self.new) (IsErr result) }
        ensures cause { HasCause (faults self.old) (faults self.new) (IsErr result) };

    /// Sets the sectors from `sector` on to `from`, and no other.
    ///
    /// # Errors
    /// A fault of the store. No sector has changed then.
    fn write(&mut self, sector: u32, from: &[u8]) -> Result<(), Failed>
        requires { IsPieceOf (owns self.old) sector from.now }
        ensures owns { (s : ℕ) → owns self.new s ≡ owns self.old s }
        ensures sets { OnOk result (Sets (contents self.old) (contents self.new) sector from.now) }
        ensures same { OnErr result (HoldsSame (contents self.old) (contents self.new)) }
        ensures calls { MakesCall (calls self.old) (calls self.new) (IsErr result) }
        ensures cause { HasCause (faults self.old) (faults self.new) (IsErr result) };
}
