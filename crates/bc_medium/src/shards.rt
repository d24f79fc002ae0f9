//! The plain form of the medium: all shards of a disk, for one caller.

ghost use Rattle.std.specs.Prelude.{◌≡◌, ◌*◌, ◌/◌, ◌≤◌, length, map, reverse, IfSome, IfOk, IfErr, IsErr, Some, vec_len};
ghost use Rattle.bc_base.specs.Lists.{Each, ChangesAt};
ghost use Rattle.bc_medium.specs.Layout.{shard_of};
ghost use Rattle.bc_bio.specs.Extent.{unit_sectors};
ghost use Rattle.bc_bio.specs.Conditions.{HasKey};
ghost use Rattle.bc_bio.specs.declared.access.Access.{Access};
ghost use Rattle.bc_medium.specs.KeyedDisk.{enciphered, Written};
ghost use Rattle.bc_medium.specs.Entries.{written_entry, read_entry, failed_entry, unit_name};
ghost use Rattle.bc_medium.specs.ShardOrder.{AppendsNext, IsOrder};
ghost use Rattle.bc_medium.specs.Shards.{HaveKeys, Own, HasSpare, AppendsAt, ReadsAt, Adds, Answers, AnswersFault};
ghost use Rattle.bc_medium.specs.Shards.{AnswersText, FailsAsPlanned, AllLeft, opened_with};

use crate::entry::Entry;
use crate::fault::Fault;
use crate::opened_shard::OpenedShard;
use crate::unit_at::UnitAt;
use crate::via::Via;
use bc_base::{BLOCK_SECTORS, Place, Store};
use bc_key::Keys;
use std::alloc::{AllocError, Global};
use std::marker::Model;

/// The stores of a disk by shard, each with the order of the accesses to it.
#[derive(Drop)]
pub struct Shards<S: Store> {
    shards: Vec<OpenedShard<S>>,
    /// Room for the stores and the orders at the end.
    stores: Vec<S>,
    orders: Vec<Vec<Entry>>,
}

impl<S: Store> Model for Shards<S> {
    ghost use Rattle.std.specs.Prelude.{◌≡◌, ◌<◌, ◌≤◌, [], List, length, vec_len, vec_capacity};
    ghost use Rattle.bc_medium.specs.ShardOrder.{ShardData};

    ghost Value = { List (ShardData S) };

    ghost view = { λ m. m.shards.items };

    ghost invariant = { λ m. (1 ≤ vec_len m.shards) × (vec_len m.shards ≤ 65535)
        × (m.stores.items ≡ []) × (m.orders.items ≡ [])
        × (vec_len m.shards ≤ vec_capacity m.stores) × (vec_len m.shards ≤ vec_capacity m.orders) };
}

impl<S: Store> Shards<S> {
    /// Writes a data unit: `cipher` is `plain`, enciphered under the unit's context, or the same
    /// without one. One call of the store of its shard, and one entry more of that shard. Gives the
    /// entry's place.
    ///
    /// All writes are given equal keys, and the context's key is one of them. The sectors belong to
    /// the shard's store, and the shard has had fewer accesses than its quota.
    ///
    /// The keyed disk answers the unit at its place with what is answered here, and so it does in
    /// every longer order.
    ///
    /// # Errors
    /// The store failed: no sector has changed. The fault has the entry's place too, and comes with
    /// `plain`.
    pub fn write_unit(
        &mut self,
        keys: &Keys,
        at: UnitAt,
        via: Via,
        plain: Vec<u8>,
        cipher: &[u8],
    ) -> Result<Place, (Fault, Vec<u8>)>
        requires keys { HaveKeys keys.now.keys self.old }
        requires key { HasKey keys.now.keys at.context }
        requires cipher { cipher.now ≡ enciphered keys.now.keys at.context plain.items }
        requires length { length cipher.now ≡ 512 * unit_sectors keys.now.keys at.context }
        requires sectors { Own S.owns self.old at.sector (unit_sectors keys.now.keys at.context) }
        requires spare { HasSpare self.old at.sector }
        ensures ok { IfOk result
            (AppendsAt (λ s. Some keys.now.keys) self.old self.new (written_entry at via plain.items)) }
        ensures fault { IfErr result (λ fault. (fault.1.items ≡ plain.items)
            × (fault.0.place.shard ≡ shard_of (length self.old) at.sector)
            × ChangesAt self.old self.new fault.0.place.shard (λ s s'. AppendsNext
            (Some keys.now.keys) s s' (failed_entry Access.Write at via) fault.0.place.index)) }
        ensures performs { IfOk result (Adds self.old self.new (written_entry at via plain.items)) }
        ensures performs_fault { IfErr result (λ fault.
            Adds self.old self.new (failed_entry Access.Write at via) fault.0.place) }
        ensures answer { IfOk result (λ place. Answers S.contents keys.now.keys self.new place (unit_name at) Written) }
        ensures answer_fault { IfErr result (λ fault. AnswersFault S.contents self.new (unit_name at) fault.0.place) }
        ensures planned { FailsAsPlanned S.calls self.old at.sector (IsErr result) }
    {
        let shard = (at.sector / BLOCK_SECTORS % self.shards.len() as u32) as u16;
        let outcome = self.shards[usize::from(shard)].write(keys, at, via, plain, cipher);
        match outcome {
            Ok(index) => return Ok(Place { shard, index }),
            Err((index, plain)) => {
                let place = Place { shard, index };
                return Err((Fault { place }, plain));
            }
        }
    }

    /// Reads a data unit as it stands: `raw` has the unit's length, a positive multiple of 512
    /// bytes, and gets the raw bytes. One call of the store of its shard, and one entry more of
    /// that shard. Gives the entry's place.
    ///
    /// The sectors belong to the shard's store, and the shard has had fewer accesses than its
    /// quota.
    ///
    /// # Errors
    /// The store failed: `raw` is then unspecified. The fault has the entry's place too.
    pub fn read_unit(&mut self, at: UnitAt, via: Via, raw: &mut [u8]) -> Result<Place, Fault>
        requires whole { length raw.old ≡ 512 * (length raw.old / 512) }
        requires sectors { Own S.owns self.old at.sector (length raw.old / 512) }
        requires spare { HasSpare self.old at.sector }
        ensures ok { IfOk result (ReadsAt S.contents self.old self.new (read_entry at via) raw.new) }
        ensures fault { IfErr result (λ fault.
            AppendsAt (λ s. s.keys) self.old self.new (failed_entry Access.Read at via) fault.place) }
        ensures performs { IfOk result (Adds self.old self.new (read_entry at via)) }
        ensures performs_fault { IfErr result (λ fault.
            Adds self.old self.new (failed_entry Access.Read at via) fault.place) }
        ensures answer { IfOk result (AnswersText S.contents self.old self.new at raw.new) }
        ensures answer_fault { IfErr result (λ fault. AnswersFault S.contents self.new (unit_name at) fault.place) }
        ensures planned { FailsAsPlanned S.calls self.old at.sector (IsErr result) }
    {
        let shard = (at.sector / BLOCK_SECTORS % self.shards.len() as u32) as u16;
        let outcome = self.shards[usize::from(shard)].read(at, via, raw);
        match outcome {
            Ok(index) => return Ok(Place { shard, index }),
            Err(index) => {
                let place = Place { shard, index };
                return Err(Fault { place });
            }
        }
    }

    /// The stores at the end and the orders, by shard. Each store has what the keyed disk leaves
    /// along its shard's order from the contents at opening, with the keys that writes were given;
    /// and each entry failed exactly where the store's plan has its place.
    pub fn close(self) -> (Vec<S>, Vec<Vec<Entry>>)
        ensures stores { result.0.items ≡ map (λ s. s.store) self }
        ensures entries { map (λ order. order.items) result.1.items ≡ map (λ s. s.entries) self }
        ensures orders { Each (λ s. IsOrder S.owns S.contents S.calls S.faults s.start s.keys s.store s.entries) self }
        ensures left { AllLeft S.contents self }
    {
        let Shards {
            mut shards,
            mut stores,
            mut orders,
        } = self;
        turn_round(&mut shards);
        while let Some(shard) = shards.pop() {
            let (store, entries) = shard.close();
            stores.push_reserved(store);
            orders.push_reserved(entries);
        }
        shards.destroy_empty();
        (stores, orders)
    }
}

impl<S: Store + Drop> Shards<S> {
    /// One store for each shard, 1 to 65535 of them, each with room for so many entries. A store that
    /// tells its calls has made none. [`Shards::close`] gives the stores back.
    ///
    /// # Errors
    /// Out of memory: then the stores are let go.
    pub fn open(
        alloc: Global,
        mut stores: Vec<S>,
        quotas: Vec<u32>,
    ) -> Result<Shards<S>, AllocError>
        requires shards { (1 ≤ length stores.items) × (length stores.items ≤ 65535) }
        requires quotas { length quotas.items ≡ length stores.items }
        requires calls { Each (λ s. IfSome (S.calls s) (λ told. told.calls ≡ 0)) stores.items }
        ensures { IfOk result (λ m. m ≡ opened_with stores.items quotas.items) }
    {
        let mut shards = Vec::with_capacity(alloc, stores.len())?;
        let room = Vec::with_capacity(alloc, stores.len())?;
        let orders = Vec::with_capacity(alloc, stores.len())?;
        turn_round(&mut stores);
        while let Some(store) = stores.pop() {
            let quota = quotas[shards.len()];
            shards.push_reserved(OpenedShard::open(alloc, store, quota)?);
        }
        Ok(Shards {
            shards,
            stores: room,
            orders,
        })
    }
}

/// The last first.
pub(crate) fn turn_round<T>(items: &mut Vec<T>)
    ensures items { items.new.items ≡ reverse items.old.items }
    ensures length { vec_len items.new ≡ vec_len items.old }
{
    items.as_mut_slice().reverse();
}
