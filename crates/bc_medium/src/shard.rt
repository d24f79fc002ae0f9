//! One shard: a store, and the order of the accesses to it. Both forms of the medium keep their
//! shards so.

ghost use Rattle.std.specs.Prelude.{◌≡◌, ℕ, ◌^◌, ◌<◌, ◌≤◌, [], List, length, IsErr, IfOk, IfErr, OnOk};
ghost use Rattle.bc_base.specs.Stores.{IsPieceOf};
ghost use Rattle.bc_bio.specs.declared.access.Access.{Access};
ghost use Rattle.bc_key.specs.KeyData.{KeyData};
ghost use Rattle.bc_medium.specs.KeyedDisk.{enciphered};
ghost use Rattle.bc_medium.specs.Entries.{written_entry, read_entry, failed_entry};
ghost use Rattle.bc_medium.specs.ShardOrder.{EntersNext, KeepsOrder, KeepsAnyOrder, StandsInOrder, FailsInOrder};

use crate::entry::Entry;
use crate::opening::Opening;
use crate::unit_at::UnitAt;
use crate::via::Via;
use bc_base::{Items, Store};
use bc_bio::Access;
use bc_turn::Story;
use std::alloc::{AllocError, Global};
use std::marker::Model;

/// A store, and the order of the accesses to it.
#[derive(Drop)]
pub struct Shard<S: Store> {
    store: S,
    entries: Vec<Entry>,
}

impl<S: Store> Model for Shard<S> {
    ghost use Rattle.std.specs.Prelude.{◌-◌, ◌<◌, ◌≤◌, ◌^◌, length, vec_len, vec_capacity};
    ghost use Rattle.bc_medium.specs.ShardOrder.{StoreOrder};

    ghost Value = { StoreOrder S };

    ghost view = { λ s. record {
      store = s.store;
      entries = s.entries.items;
      spare = vec_capacity s.entries - vec_len s.entries;
    } };

    ghost invariant = { λ s. (length s.entries.items ≤ vec_capacity s.entries) × (vec_capacity s.entries < 2 ^ 32) };
}

impl<S: Store> Story for Shard<S> {
    ghost use Rattle.bc_turn.specs.Note as notes;
    ghost use Rattle.bc_medium.specs.Entries.{caller_of};
    ghost use Rattle.bc_medium.specs.Medium.{Keeps};

    type Base = Opening<S>;

    type Item = Entry;

    ghost entries_of = { λ s. s.entries };

    ghost keeps = { Keeps S.owns S.contents S.calls S.faults };

    ghost by = { caller_of };

    ghost note = { λ e. notes.none };

    fn entries(&self) -> u64 {
        self.entries.len() as u64
    }
}

impl<S: Store> Shard<S> {
    /// Writes a data unit: `cipher` is `plain`, enciphered. The entry's place, and after a fault
    /// `plain` too.
    pub(crate) fn write(
        &mut self,
        at: UnitAt,
        via: Via,
        plain: Vec<u8>,
        cipher: &[u8],
    ) -> Result<u32, (u32, Vec<u8>)>
        requires spare { 1 ≤ self.old.spare }
        requires piece { IsPieceOf (S.owns self.old.store) at.sector cipher.now }
        ensures ok { IfOk result (EntersNext self.old self.new (written_entry at via plain.items)) }
        ensures fault { IfErr result (λ fault.
            EntersNext self.old self.new (failed_entry Access.Write at via) fault.0) }
        ensures back { IfErr result (λ fault. fault.1.items ≡ plain.items) }
        ensures order { (keys : List KeyData) → cipher.now ≡ enciphered keys at.context plain.items
            → KeepsOrder S.owns S.contents S.calls S.faults keys self.old self.new }
        ensures planned { FailsInOrder S.owns S.contents S.calls S.faults self.old (IsErr result) }
        ensures small { length self.new.entries < 2 ^ 32 }
    {
        let place = self.entries.len() as u32;
        match self.store.write(at.sector, cipher) {
            Ok(()) => {
                self.entries.push_reserved(Entry {
                    at,
                    access: Access::Write,
                    via,
                    plain: Some(Items::from_vec(plain)),
                    failed: false,
                });
                Ok(place)
            }
            Err(_) => {
                self.entries.push_reserved(Entry {
                    at,
                    access: Access::Write,
                    via,
                    plain: None,
                    failed: true,
                });
                Err((place, plain))
            }
        }
    }

    /// Reads a data unit as it stands. The entry's place; after a fault `raw` is unspecified.
    pub(crate) fn read(&mut self, at: UnitAt, via: Via, raw: &mut [u8]) -> Result<u32, u32>
        requires spare { 1 ≤ self.old.spare }
        requires piece { IsPieceOf (S.owns self.old.store) at.sector raw.old }
        ensures ok { IfOk result (EntersNext self.old self.new (read_entry at via)) }
        ensures fault { IfErr result (EntersNext self.old self.new (failed_entry Access.Read at via)) }
        ensures stands { OnOk result (StandsInOrder S.owns S.contents S.calls S.faults self.old at.sector raw.new) }
        ensures order { KeepsAnyOrder S.owns S.contents S.calls S.faults self.old self.new }
        ensures planned { FailsInOrder S.owns S.contents S.calls S.faults self.old (IsErr result) }
        ensures small { length self.new.entries < 2 ^ 32 }
    {
        let place = self.entries.len() as u32;
        let failed = self.store.read(at.sector, raw).is_err();
        self.entries.push_reserved(Entry {
            at,
            access: Access::Read,
            via,
            plain: None,
            failed,
        });
        if failed { Err(place) } else { Ok(place) }
    }

    /// The store and the entries at the end.
    pub(crate) fn close(self) -> (S, Vec<Entry>)
        ensures { (result.0 ≡ self.store) × (result.1.items ≡ self.entries) }
    {
        let Shard { store, entries } = self;
        (store, entries)
    }
}

impl<S: Store + Drop> Shard<S> {
    /// A store with room for so many entries.
    pub(crate) fn open(alloc: Global, store: S, room: u32) -> Result<Shard<S>, AllocError>
        ensures { IfOk result (λ shard. shard ≡ record { store = store; entries = []; spare = room }) }
    {
        let entries = Vec::with_capacity(alloc, room as usize)?;
        Ok(Shard { store, entries })
    }
}
