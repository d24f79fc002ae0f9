//! The medium for many callers: each shard of a disk behind a turn.

ghost use Rattle.std.specs.Prelude.{◌≡◌, ℕ, ◌+◌, ◌*◌, ◌/◌, ◌^◌, ◌<◌, ◌≤◌, length, map, sum, IfSome, IsErr, IfOk, IfErr, OnOk};
ghost use Rattle.std.specs.List.{range_with_len};
ghost use Rattle.bc_base.specs.Lists.{Each};
ghost use Rattle.bc_bio.specs.Extent.{unit_sectors};
ghost use Rattle.bc_bio.specs.Conditions.{HasKey};
ghost use Rattle.bc_bio.specs.declared.access.Access.{Access};
ghost use Rattle.bc_turn.specs.Turning.{sum_of};
ghost use Rattle.bc_turn.specs.PassParts.{is_caller, new_pass};
ghost use Rattle.bc_medium.specs.Layout.{shard_of};
ghost use Rattle.bc_medium.specs.KeyedDisk.{enciphered, deciphered, Written, Faulted, Text};
ghost use Rattle.bc_medium.specs.Entries.{written_entry, read_entry, failed_entry, unit_name};
ghost use Rattle.bc_medium.specs.Medium.{Belongs, shards_of, HasSpareOf, HasRoom, OwnsSectors, Accesses, AnswersSeen};
ghost use Rattle.bc_medium.specs.Medium.{StoodAt, FailedAsPlanned, EachTwoFrom, IsEnd, quotas_of_shard, openings};

use crate::entry::Entry;
use crate::fault::Fault;
use crate::opening::Opening;
use crate::shard::Shard;
use crate::shards::turn_round;
use crate::unit_at::UnitAt;
use crate::via::Via;
use bc_base::{BLOCK_SECTORS, Place, Store};
use bc_key::Keys;
use bc_turn::{TurnPass, Turns};
use std::alloc::{AllocError, Global};
use std::marker::Model;
use std::sync::Wait;

/// The shards of a disk, each behind a turn, for many callers. Each caller has a [`MediumPass`],
/// which knows how far its caller has seen the order of each shard.
#[derive(Drop)]
pub struct Medium<S: Store> {
    alloc: Global,
    keys: Keys,
    shards: u16,
    /// How many entries each caller may have, by caller and shard.
    quotas: Vec<Vec<u32>>,
    turns: Turns<Shard<S>>,
}

impl<S: Store> Model for Medium<S> {
    ghost use Rattle.std.specs.Prelude.{map};
    ghost use Rattle.bc_medium.specs.Medium.{MediumData, IsMedium};

    ghost Value = { MediumData S };

    ghost view = { λ m. record { keys = m.keys; turns = m.turns } };

    ghost invariant = { λ m. IsMedium m.keys.keys m.shards (map (λ row. row.items) m.quotas.items) m.turns };
}

/// The pass of one caller of a [`Medium`]: what it has seen of the order of each shard. It goes
/// with its caller, and all passes come together at [`Medium::close`].
pub type MediumPass<S> = TurnPass<Shard<S>>;

impl<S: Store> Medium<S> {
    /// The keys.
    pub fn keys(&self) -> &Keys
        ensures { result.now ≡ self.now.keys }
    {
        &self.keys
    }

    /// How many entries more the pass's caller may have at a shard, of which the first is 0. The pass
    /// is one of this medium.
    pub fn spare(&self, pass: &MediumPass<S>, shard: u16) -> u32
        requires pass { Belongs self.now pass.now }
        requires shard { shard < shards_of self.now }
        ensures { HasSpareOf self.now pass.now shard result }
    {
        let made = pass.made(shard);
        let row = &self.quotas[usize::from(pass.number())];
        let quota = row[usize::from(shard)];
        (u64::from(quota) - made) as u32
    }

    /// Writes a data unit: `cipher` is `plain`, enciphered under the unit's context, or the same
    /// without one. Takes the turn of its shard and waits for it, makes one call of the store and
    /// one entry more of the shard, and gives the turn back. Gives the entry's place.
    ///
    /// The pass is one of this medium and the unit is its caller's, which has fewer entries at the
    /// shard than its quota ([`Medium::spare`]). The context's key is one of the medium's, and the
    /// sectors belong to the shard's store.
    ///
    /// The keyed disk answers the unit at its place with what is answered here, and so it does in
    /// every longer order.
    ///
    /// # Errors
    /// The store failed: no sector has changed. The fault has the entry's place too, and comes with
    /// `plain`.
    pub fn write_unit<R: Wait>(
        &self,
        rt: &R,
        pass: &mut MediumPass<S>,
        at: UnitAt,
        via: Via,
        plain: Vec<u8>,
        cipher: &[u8],
    ) -> Result<Place, (Fault, Vec<u8>)>
        requires pass { Belongs self.now pass.old }
        requires caller { at.caller ≡ pass.old.caller }
        requires key { HasKey self.now.keys.keys at.context }
        requires cipher { cipher.now ≡ enciphered self.now.keys.keys at.context plain.items }
        requires length { length cipher.now ≡ 512 * unit_sectors self.now.keys.keys at.context }
        requires spare { HasRoom self.now pass.old at.sector }
        requires sectors { OwnsSectors S.owns self.now at.sector (unit_sectors self.now.keys.keys at.context) }
        ensures pass { Belongs self.now pass.new }
        ensures caller { pass.new.caller ≡ pass.old.caller }
        ensures performs { IfOk result (Accesses self.now pass.old pass.new (written_entry at via plain.items)) }
        ensures performs_fault { IfErr result (λ fault.
            Accesses self.now pass.old pass.new (failed_entry Access.Write at via) fault.0.place) }
        ensures back { IfErr result (λ fault. fault.1.items ≡ plain.items) }
        ensures answer { IfOk result (AnswersSeen S.contents self.now pass.new (unit_name at) Written) }
        ensures answer_fault { IfErr result (λ fault.
            AnswersSeen S.contents self.now pass.new (unit_name at) Faulted fault.0.place) }
        ensures planned { IfOk result (FailedAsPlanned S.calls self.now (IsErr result)) }
        ensures planned_fault { IfErr result (λ fault. FailedAsPlanned S.calls self.now (IsErr result) fault.0.place) }
    {
        let shard = self.shard_of(at.sector);
        let mut value = self.turns.take(rt, pass, shard);
        let outcome = value.write(at, via, plain, cipher);
        self.turns.give(pass, shard, value);
        match outcome {
            Ok(index) => return Ok(Place { shard, index }),
            Err((index, plain)) => {
                let place = Place { shard, index };
                return Err((Fault { place }, plain));
            }
        }
    }

    /// Reads a data unit as it stands: `raw` has the unit's length, and gets the raw bytes. Takes
    /// the turn of its shard and waits for it, makes one call of the store and one entry more of
    /// the shard, and gives the turn back. Gives the entry's place.
    ///
    /// The conditions are those of [`Medium::write_unit`].
    ///
    /// # Errors
    /// The store failed: `raw` is then unspecified. The fault has the entry's place too.
    pub fn read_unit<R: Wait>(
        &self,
        rt: &R,
        pass: &mut MediumPass<S>,
        at: UnitAt,
        via: Via,
        raw: &mut [u8],
    ) -> Result<Place, Fault>
        requires pass { Belongs self.now pass.old }
        requires caller { at.caller ≡ pass.old.caller }
        requires key { HasKey self.now.keys.keys at.context }
        requires length { length raw.old ≡ 512 * unit_sectors self.now.keys.keys at.context }
        requires spare { HasRoom self.now pass.old at.sector }
        requires sectors { OwnsSectors S.owns self.now at.sector (unit_sectors self.now.keys.keys at.context) }
        ensures pass { Belongs self.now pass.new }
        ensures caller { pass.new.caller ≡ pass.old.caller }
        ensures performs { IfOk result (Accesses self.now pass.old pass.new (read_entry at via)) }
        ensures performs_fault { IfErr result (λ fault.
            Accesses self.now pass.old pass.new (failed_entry Access.Read at via) fault.place) }
        ensures stood { IfOk result (StoodAt S.contents self.now pass.new at.sector raw.new) }
        ensures answer { IfOk result (AnswersSeen S.contents self.now pass.new (unit_name at)
            (Text (deciphered self.now.keys.keys at.context raw.new))) }
        ensures answer_fault { IfErr result (λ fault.
            AnswersSeen S.contents self.now pass.new (unit_name at) Faulted fault.place) }
        ensures planned { IfOk result (FailedAsPlanned S.calls self.now (IsErr result)) }
        ensures planned_fault { IfErr result (λ fault. FailedAsPlanned S.calls self.now (IsErr result) fault.place) }
    {
        let shard = self.shard_of(at.sector);
        let mut value = self.turns.take(rt, pass, shard);
        let outcome = value.read(at, via, raw);
        self.turns.give(pass, shard, value);
        match outcome {
            Ok(index) => return Ok(Place { shard, index }),
            Err(index) => {
                let place = Place { shard, index };
                return Err(Fault { place });
            }
        }
    }

    /// The stores at the end and the orders, by shard, where the passes of all callers are here.
    /// Each store has what the keyed disk leaves along its shard's order from the contents at
    /// opening; each entry failed exactly where the store's plan has its place. What each pass has
    /// seen of an order is a prefix of it, and its caller's entries there are those that it made,
    /// each once, in its order.
    ///
    /// # Errors
    /// Out of memory: then all is handed back as it was.
    pub fn close(
        self,
        passes: Vec<MediumPass<S>>,
    ) -> Result<(Vec<S>, Vec<Vec<Entry>>), (Medium<S>, Vec<MediumPass<S>>)>
        requires passes { Each (Belongs self) passes.items }
        requires all { (caller : ℕ) → caller < self.turns.callers → 0 < sum_of (is_caller caller) passes.items }
        ensures length { IfOk result (λ end. length end.0.items ≡ shards_of self) }
        ensures ends { IfOk result (λ end. EachTwoFrom (λ shard store order.
            IsEnd S.owns S.contents S.calls S.faults self passes.items shard store order.items)
            0 end.0.items end.1.items) }
        ensures back { IfErr result (λ back. (back.0 ≡ self) × (back.1.items ≡ passes.items)) }
    {
        let Ok(mut orders) = Vec::with_capacity(self.alloc, usize::from(self.shards)) else {
            return Err((self, passes));
        };
        let Ok(mut stores) = Vec::with_capacity(self.alloc, usize::from(self.shards)) else {
            return Err((self, passes));
        };
        let Medium {
            alloc,
            keys,
            shards,
            quotas,
            turns,
        } = self;
        let closed = turns.close(passes);
        match closed {
            Err((turns, passes)) => {
                stores.destroy_empty();
                let medium = Medium {
                    alloc,
                    keys,
                    shards,
                    quotas,
                    turns,
                };
                return Err((medium, passes));
            }
            Ok(mut values) => {
                turn_round(&mut values);
                while let Some(value) = values.pop() {
                    let (store, entries) = value.close();
                    stores.push_reserved(store);
                    orders.push_reserved(entries);
                }
                values.destroy_empty();
                return Ok((stores, orders));
            }
        }
    }

    /// The shard of a sector.
    fn shard_of(&self, sector: u32) -> u16
        ensures shard { result ≡ shard_of (shards_of self.now) sector }
        ensures inside { result < shards_of self.now }
    {
        (sector / BLOCK_SECTORS % u32::from(self.shards)) as u16
    }
}

impl<S: Store + Drop> Medium<S> {
    /// One store for each shard, and quotas by caller and shard, counted in entries; a pass for each
    /// caller, in order. There are 1 to 65535 stores, and 1 to 65535 callers, each of which has a quota
    /// for each shard. [`Medium::close`] gives the stores back.
    ///
    /// A store that tells its calls has made none, and the quotas of each shard add up to less than
    /// 2^32.
    ///
    /// # Errors
    /// Out of memory: then the stores are let go.
    pub fn open(
        alloc: Global,
        keys: Keys,
        mut stores: Vec<S>,
        quotas: Vec<Vec<u32>>,
    ) -> Result<(Medium<S>, Vec<MediumPass<S>>), AllocError>
        requires stores { (1 ≤ length stores.items) × (length stores.items ≤ 65535) }
        requires callers { (1 ≤ length quotas.items) × (length quotas.items ≤ 65535) }
        requires rows { Each (λ row. length row.items ≡ length stores.items) quotas.items }
        requires fits { (shard : ℕ) → shard < length stores.items
            → sum (quotas_of_shard shard (map (λ row. row.items) quotas.items)) < 2 ^ 32 }
        requires calls { Each (λ s. IfSome (S.calls s) (λ told. told.calls ≡ 0)) stores.items }
        ensures keys { IfOk result (λ r. r.0.keys ≡ keys) }
        ensures callers { IfOk result (λ r. r.0.turns.callers ≡ length quotas.items) }
        ensures openings { IfOk result (λ r. map (λ cell. cell.base) r.0.turns.cells
            ≡ openings keys.keys (map (λ row. row.items) quotas.items) 0 stores.items) }
        ensures passes { IfOk result (λ r. r.1.items
            ≡ map (new_pass r.0.turns.cells) (range_with_len 0 (length quotas.items))) }
        ensures belong { IfOk result (λ r. Each (Belongs r.0) r.1.items) }
    {
        let shards = stores.len() as u16;
        let callers = quotas.len() as u16;
        let mut values = Vec::with_capacity(alloc, stores.len())?;
        turn_round(&mut stores);
        while let Some(store) = stores.pop() {
            let (column, room) = shard_quotas(alloc, &quotas, values.len())?;
            let base = Opening::of(&store, &keys, &column);
            let value = Shard::open(alloc, store, room)?;
            values.push_reserved((value, base));
        }
        let (turns, passes) = Turns::open(alloc, values, callers)?;
        let medium = Medium {
            alloc,
            keys,
            shards,
            quotas,
            turns,
        };
        Ok((medium, passes))
    }
}

/// The quotas of a shard by caller, and their sum.
fn shard_quotas(
    alloc: Global,
    quotas: &Vec<Vec<u32>>,
    shard: usize,
) -> Result<(Vec<u32>, u32), AllocError>
    requires rows { Each (λ row. shard < length row.items) quotas.now.items }
    requires fits { sum (quotas_of_shard shard (map (λ row. row.items) quotas.now.items)) < 2 ^ 32 }
    ensures column { IfOk result (λ c. c.0.items ≡ quotas_of_shard shard (map (λ row. row.items) quotas.now.items)) }
    ensures room { IfOk result (λ c. c.1 ≡ sum (quotas_of_shard shard (map (λ row. row.items) quotas.now.items))) }
{
    let mut column = Vec::new(alloc);
    let mut room = 0;
    for k in 0..quotas.len() {
        let row = &quotas[k];
        let quota = row[shard];
        room += quota;
        column.push(quota)?;
    }
    Ok((column, room))
}
