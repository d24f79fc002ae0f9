//! One shard of the plain form: with the store as it was at opening, and the keys that writes were
//! given.

ghost use Rattle.std.specs.Prelude.{◌≡◌, ◌*◌, ◌/◌, ◌^◌, ◌<◌, ◌≤◌, List, length, Some, IfSome, IsErr, IfOk, IfErr, OnOk};
ghost use Rattle.bc_bio.specs.Extent.{unit_sectors};
ghost use Rattle.bc_bio.specs.declared.access.Access.{Access};
ghost use Rattle.bc_medium.specs.KeyedDisk.{enciphered};
ghost use Rattle.bc_base.specs.Stores.{IsPiece};
ghost use Rattle.bc_medium.specs.Entries.{written_entry, read_entry, failed_entry, Stand};
ghost use Rattle.bc_key.specs.KeyData.{KeyData};
ghost use Rattle.bc_medium.specs.ShardOrder.{AppendsNext, HasKeys, StandsNow, FailsByPlan, IsOrder, opened_shard};

use crate::entry::Entry;
use crate::shard::Shard;
use crate::unit_at::UnitAt;
use crate::via::Via;
use bc_base::Store;
use bc_key::Keys;
use std::alloc::{AllocError, Global};
use std::marker::Model;
use std::snapshot::Snapshot;

/// A shard, with what it was opened with.
#[derive(Drop)]
pub(crate) struct OpenedShard<S: Store> {
    /// The store at opening.
    start: Snapshot<S>,
    /// The keys that writes were given.
    keys: Option<Snapshot<Keys>>,
    shard: Shard<S>,
}

impl<S: Store> Model for OpenedShard<S> {
    ghost use Rattle.std.specs.Prelude.{option_map};
    ghost use Rattle.bc_medium.specs.ShardOrder.{ShardData, IsOrder};

    ghost Value = { ShardData S };

    ghost view = { λ s. record {
      start = s.start.value;
      keys = option_map (λ k. k.value.keys) s.keys;
      store = s.shard.store;
      entries = s.shard.entries;
      spare = s.shard.spare;
    } };

    ghost invariant = { λ s. IsOrder S.owns S.contents S.calls S.faults s.start.value
        (option_map (λ k. k.value.keys) s.keys) s.shard.store s.shard.entries };
}

impl<S: Store> OpenedShard<S> {
    /// Writes a data unit: `cipher` is `plain`, enciphered. The entry's place, and after a fault
    /// `plain` too.
    pub(crate) fn write(
        &mut self,
        keys: &Keys,
        at: UnitAt,
        via: Via,
        plain: Vec<u8>,
        cipher: &[u8],
    ) -> Result<u32, (u32, Vec<u8>)>
        requires keys { HasKeys keys.now.keys self.old }
        requires spare { 1 ≤ self.old.spare }
        requires cipher { cipher.now ≡ enciphered keys.now.keys at.context plain.items }
        requires piece { IsPiece (S.owns self.old.start) at.sector (unit_sectors keys.now.keys at.context) }
        requires length { length cipher.now ≡ 512 * unit_sectors keys.now.keys at.context }
        ensures ok { IfOk result
            (AppendsNext (Some keys.now.keys) self.old self.new (written_entry at via plain.items)) }
        ensures fault { IfErr result (λ fault.
            AppendsNext (Some keys.now.keys) self.old self.new (failed_entry Access.Write at via) fault.0) }
        ensures back { IfErr result (λ fault. fault.1.items ≡ plain.items) }
        ensures planned { FailsByPlan S.calls self.old (IsErr result) }
        ensures small { length self.new.entries < 2 ^ 32 }
    {
        self.keys = Some(Snapshot::of(keys));
        self.shard.write(at, via, plain, cipher)
    }

    /// Reads a data unit as it stands. The entry's place; after a fault `raw` is unspecified.
    pub(crate) fn read(&mut self, at: UnitAt, via: Via, raw: &mut [u8]) -> Result<u32, u32>
        requires spare { 1 ≤ self.old.spare }
        requires piece { IsPiece (S.owns self.old.start) at.sector (length raw.old / 512) }
        requires whole { length raw.old ≡ 512 * (length raw.old / 512) }
        ensures ok { IfOk result (AppendsNext self.old.keys self.old self.new (read_entry at via)) }
        ensures stands { OnOk result (StandsNow S.contents self.old at.sector raw.new) }
        ensures stand { OnOk result ((keys : List KeyData) → HasKeys keys self.old
            → Stand keys (S.contents self.old.start) self.old.entries at.sector raw.new) }
        ensures fault { IfErr result (AppendsNext self.old.keys self.old self.new (failed_entry Access.Read at via)) }
        ensures planned { FailsByPlan S.calls self.old (IsErr result) }
        ensures small { length self.new.entries < 2 ^ 32 }
    {
        self.shard.read(at, via, raw)
    }

    /// The store and the entries at the end.
    pub(crate) fn close(self) -> (S, Vec<Entry>)
        ensures parts { (result.0 ≡ self.store) × (result.1.items ≡ self.entries) }
        ensures order { IsOrder S.owns S.contents S.calls S.faults self.start self.keys self.store self.entries }
    {
        self.shard.close()
    }
}

impl<S: Store + Drop> OpenedShard<S> {
    /// A store with room for so many entries.
    pub(crate) fn open(alloc: Global, store: S, room: u32) -> Result<OpenedShard<S>, AllocError>
        requires calls { IfSome (S.calls store) (λ told. told.calls ≡ 0) }
        ensures { IfOk result (λ shard. shard ≡ opened_shard store room) }
    {
        Ok(OpenedShard {
            start: Snapshot::of(&store),
            keys: None,
            shard: Shard::open(alloc, store, room)?,
        })
    }
}
