//! A caller's way to the data units of a disk, one at a time.

ghost use Rattle.std.specs.Prelude.{◌≡◌, ℕ, ◌*◌, ◌≤◌, Option, length, IfOk, IfErr};
ghost use Rattle.bc_bio.specs.declared.access.Access.TheVariants as accesses;
ghost use Rattle.bc_bio.specs.declared.context.Context.{Context};
ghost use Rattle.bc_bio.specs.Extent.{unit_sectors};
ghost use Rattle.bc_medium.specs.Layout.{shard_of};
ghost use Rattle.bc_medium.specs.KeyedDisk.{Written, Faulted, Text};
ghost use Rattle.bc_medium.specs.Entries.{written_entry, read_entry, failed_entry};
ghost use Rattle.bc_queue.specs.Carrying.{AccessFacts, AccessesOne};

use bc_base::Place;
use bc_medium::{Fault, UnitAt};

/// A caller's way to the data units of a disk: it writes one or reads one, in the clear, and makes an entry of it. `R`
/// is what it waits with, and `P` what the caller takes along. [`carry_out`](crate::carry_out) goes over the units of a
/// request by it.
///
/// Here a `Medium` is such a way, with a controller and without one. The plain forms of the medium and of the keyslots
/// can be one too, with a way that waits for nobody.
pub trait UnitAccess<R, P> {
    /// What contracts see of it: the disk, the caller's number, and what the caller has seen.
    ghost facts: { Self → P → AccessFacts };

    /// The pass is one of this way, in the state that the calls keep.
    ghost is_ready: { Self → P → Type 0 };

    /// The way takes a unit at this sector under this context.
    ghost takes: { Self → ℕ → Option Context → Type 0 };

    /// The caller's number.
    fn caller(&self, pass: &P) -> u16
        ensures { result ≡ (facts self.now pass.now).caller };

    /// Writes a data unit, and gives its entry's place.
    ///
    /// # Errors
    /// The unit met a fault: nothing was written, and `plain` comes back.
    fn write(
        &mut self,
        rt: &R,
        pass: &mut P,
        at: &UnitAt,
        plain: Vec<u8>,
    ) -> Result<Place, (Fault, Vec<u8>)>
        requires ready { is_ready self.old pass.old }
        requires caller { at.now.caller ≡ (facts self.old pass.old).caller }
        requires takes { takes self.old at.now.sector at.now.context }
        requires length { length plain.items ≡ 512 * unit_sectors (facts self.old pass.old).keys at.now.context }
        requires spare { 1 ≤ (facts self.old pass.old).spare
            (shard_of (facts self.old pass.old).shards at.now.sector) }
        ensures same { self.new ≡ self.old }
        ensures ready { is_ready self.new pass.new }
        ensures wrote { IfOk result (AccessesOne (facts self.old pass.old) (facts self.new pass.new)
            (written_entry at.now (facts self.old pass.old).via plain.items) Written) }
        ensures failed { IfErr result (λ fault. AccessesOne (facts self.old pass.old) (facts self.new pass.new)
            (failed_entry accesses.Write at.now (facts self.old pass.old).via) Faulted fault.0.place) }
        ensures back { IfErr result (λ fault. fault.1.items ≡ plain.items) };

    /// Reads a data unit into `text`, and gives its entry's place.
    ///
    /// # Errors
    /// The unit met a fault: `text` is then unspecified.
    fn read(&mut self, rt: &R, pass: &mut P, at: &UnitAt, text: &mut [u8]) -> Result<Place, Fault>
        requires ready { is_ready self.old pass.old }
        requires caller { at.now.caller ≡ (facts self.old pass.old).caller }
        requires takes { takes self.old at.now.sector at.now.context }
        requires length { length text.old ≡ 512 * unit_sectors (facts self.old pass.old).keys at.now.context }
        requires spare { 1 ≤ (facts self.old pass.old).spare
            (shard_of (facts self.old pass.old).shards at.now.sector) }
        ensures same { self.new ≡ self.old }
        ensures ready { is_ready self.new pass.new }
        ensures length { length text.new ≡ length text.old }
        ensures read { IfOk result (AccessesOne (facts self.old pass.old) (facts self.new pass.new)
            (read_entry at.now (facts self.old pass.old).via) (Text text.new)) }
        ensures failed { IfErr result (λ fault. AccessesOne (facts self.old pass.old) (facts self.new pass.new)
            (failed_entry accesses.Read at.now (facts self.old pass.old).via) Faulted fault.place) };
}
