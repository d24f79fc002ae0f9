//! Bios that are carried out together.
ghost use Rattle.std.specs.Prelude.{◌≡◌, ◌+◌, ◌<◌, ◌≤◌, ◌^◌, [], ◌++◌, length, map, is_ok, IfOk, OnOk, OnErr, IfErr, Some, nat_le, slice_get, vec_len, vec_capacity};
ghost use Rattle.std.specs.List.Sorted.{IsPartitionedBy};
ghost use Rattle.std.specs.Option.{option_map};
ghost use Rattle.std.specs.Borrow.{Lends, sem};
ghost use Rattle.bc_bio.specs.BioUnits.{extent_of};
ghost use Rattle.bc_bio.specs.Chunks.{joins_last};
ghost use Rattle.bc_bio.specs.Conditions.{IsPlaced};
ghost use Rattle.bc_bio.specs.Windows.{IsRequest, count_units, joins, units_of_request};
ghost use Rattle.bc_bio.specs.Ends.{IsFound, IsPartition, begin_of};
ghost use Rattle.bc_bio.specs.Requests.{CanBePlaced, is_over, place_in, reply_of, tagged_bios, tagged_of, unit_in, with_bio, with_fault, with_unit};

use crate::context::{context_wrapped, unit_sectors};
use crate::marked_bio::{MarkedBio, first_fault, is_after, reply_of};
use crate::unit_place::UnitPlace;
use crate::{Bio, Context, Reply, Unit, back_runs_on};
use bc_key::Keys;
use std::alloc::{AllocError, Global};
use std::marker::Model;

/// Bios, each of which runs on at the back of the one before it, and what has become of their data
/// units. It is filled, its units are carried out in order, and it is emptied into replies.
///
/// All calls on one request are given the same keys, and each of its bios has a key of these and
/// ends below sector 2^32.
#[derive(Drop)]
pub struct Request {
    bios: Vec<MarkedBio>,
    /// For each bio, how many units there are up to its end.
    ends: Vec<u32>,
}

impl Model for Request {
    ghost use Rattle.std.specs.Prelude.{◌-◌, vec_len, vec_capacity};
    ghost use Rattle.bc_bio.specs.Requests.{RequestParts, tagged_bios};
    ghost use Rattle.bc_bio.specs.Ends.{HasEnds};

    ghost Value = { RequestParts };

    ghost view = { λ r. record { bios = r.bios.items; spare = vec_capacity r.bios - vec_len r.bios } };

    ghost invariant = { λ r. HasEnds (tagged_bios r.bios.items) (vec_capacity r.bios) r.ends.items
        (vec_capacity r.ends) };
}

impl Request {
    ghost use Rattle.bc_bio.specs.contracts.request.Request.{the_row};
    ghost use Rattle.bc_bio.specs.contracts.unit.Unit.{the_row as unit_row};

    /// No bios yet, and memory for `room` of them.
    ///
    /// # Errors
    ///
    /// `AllocError` where there is no memory for them.
    pub fn new(alloc: Global, room: usize) -> Result<Request, AllocError>
        ensures { IfOk result (λ request. request ≡ record { bios = []; spare = room }) }
    {
        Ok(Request {
            bios: Vec::with_capacity(alloc, room)?,
            ends: Vec::with_capacity(alloc, room)?,
        })
    }

    /// Puts the first bio into an empty request.
    pub fn start(&mut self, bio: Bio)
        requires empty { self.old.bios ≡ [] }
        requires spare { 1 ≤ self.old.spare }
        requires placed { CanBePlaced bio }
        ensures { self.new ≡ with_bio bio self.old }
    {
        self.append(bio);
    }

    /// Puts a bio after the last one, where it runs on at its back. Takes no memory.
    ///
    /// # Errors
    ///
    /// The bio, where it doesn't run on. The request is then as it was.
    pub fn push_back(&mut self, keys: &Keys, bio: Bio) -> Result<(), Bio>
        requires request { IsRequest keys.now.keys (tagged_bios self.old.bios) }
        requires placed { IsPlaced keys.now.keys (extent_of bio) }
        requires some { 1 ≤ length self.old.bios }
        requires spare { 1 ≤ self.old.spare }
        ensures joins { is_ok result ≡ joins_last (joins keys.now.keys) (tagged_bios self.old.bios) (tagged_of bio) }
        ensures ok { OnOk result (self.new ≡ with_bio bio self.old) }
        ensures still { OnOk result (IsRequest keys.now.keys (tagged_bios self.new.bios)) }
        ensures back { IfErr result (λ refused. refused ≡ bio) }
        ensures err { OnErr result (self.new ≡ self.old) }
    {
        let last = &self.bios[self.bios.len() - 1];
        if !back_runs_on(keys, &last.bio, &bio) {
            return Err(bio);
        }
        self.append(bio);
        Ok(())
    }

    /// Puts a bio after the last one.
    fn append(&mut self, bio: Bio)
        requires spare { 1 ≤ self.old.spare }
        requires fits { count_units (tagged_bios self.old.bios) + length bio.units < 2 ^ 32 }
        ensures { self.new ≡ with_bio bio self.old }
    {
        let end = self.units() + bio.units.len() as u32;
        self.ends.push_reserved(end);
        self.bios.push_reserved(MarkedBio { bio, fault: None });
    }

    /// How many data units its bios have.
    pub fn units(&self) -> u32
        ensures { result ≡ count_units (tagged_bios self.now.bios) }
    {
        match self.ends.last() {
            Some(end) => *end,
            None => 0,
        }
    }

    /// The tag of the bio of unit number `n`, from 0 through the request, and the unit's number in
    /// its bio, sector and context.
    pub fn unit_at(&self, keys: &Keys, n: u32) -> (u32, u32, u32, Option<Context>)
        requires request { IsRequest keys.now.keys (tagged_bios self.now.bios) }
        requires within { n < count_units (tagged_bios self.now.bios) }
        ensures unit { slice_get (units_of_request keys.now.keys (tagged_bios self.now.bios)) n
            ≡ Some (record { tag = result.0; unit = result.1; sector = result.2; context = result.3 }) }
        ensures place { result.1 ≡ (place_in self.now.bios n).unit }
    {
        let place = self.place(n);
        let bio = &self.bios[place.bio].bio;
        let sector = bio.sector + place.unit * unit_sectors(keys, bio.context);
        let context = context_wrapped(bio.context, u64::from(place.unit));
        (bio.tag, place.unit, sector, context)
    }

    /// Marks the bio of unit number `n`: that unit met a fault.
    pub fn fault(&mut self, n: u32)
        requires { n < count_units (tagged_bios self.old.bios) }
        ensures marks { self.new ≡ with_fault n self.old }
        ensures same_bios { tagged_bios self.new.bios ≡ tagged_bios self.old.bios }
    {
        let place = self.place(n);
        let faulted = &mut self.bios[place.bio];
        faulted.fault = Some(first_fault(place.unit, faulted.fault));
    }

    /// Whether an earlier unit of the bio of unit number `n` met a fault.
    pub fn is_over(&self, n: u32) -> bool
        requires { n < count_units (tagged_bios self.now.bios) }
        ensures { result ≡ is_over self.now.bios n }
    {
        let place = self.place(n);
        is_after(place.unit, self.bios[place.bio].fault)
    }

    /// Unit number `n`, lent for writing.
    pub fn unit_mut(&mut self, n: u32) -> &mut Unit
        requires { n < count_units (tagged_bios self.old.bios) }
        ensures* writes_back { sem 𝓛 (Lends the_row unit_row self.entry result (with_unit n self.old)) }
        ensures value { unit_in self.old.bios n ≡ Some result.now }
    {
        let place = self.place(n);
        let marked = &mut self.bios[place.bio];
        let bio = &mut marked.bio;
        bio.units.get_mut(place.unit as usize)
    }

    /// The bio of unit number `n`.
    pub fn bio_of(&self, n: u32) -> &Bio
        requires { n < count_units (tagged_bios self.now.bios) }
        ensures { option_map (λ marked. marked.bio) (slice_get self.now.bios (place_in self.now.bios n).bio)
            ≡ Some result.now }
    {
        let place = self.place(n);
        &self.bios[place.bio].bio
    }

    /// Empties the request into replies, in order. They go after those that `out` has, which has
    /// room for them.
    pub fn finish(&mut self, out: &mut Vec<Reply>)
        requires { vec_len out.old + length self.old.bios ≤ vec_capacity out.old }
        ensures replies { out.new.items ≡ out.old.items ++ map reply_of self.old.bios }
        ensures room { vec_capacity out.new ≡ vec_capacity out.old }
        ensures empty { self.new ≡ record { bios = []; spare = self.old.spare + length self.old.bios } }
    {
        self.ends.clear();
        reply_all(&mut self.bios, out);
    }

    /// Where unit number `n` stands.
    fn place(&self, n: u32) -> UnitPlace
        requires { n < count_units (tagged_bios self.now.bios) }
        ensures { IsFound self.now.bios n result }
    {
        let bio = bio_with(&self.ends, n);
        let unit = n - begin_of(&self.ends, bio);
        UnitPlace { bio, unit }
    }
}

/// The bio that has unit number `n`, by the number of units up to the end of each.
fn bio_with(ends: &[u32], n: u32) -> usize
    ensures within { result ≤ length ends.now }
    ensures parts { IsPartitionedBy (λ end. nat_le end n) ends.now → IsPartition ends.now n result }
{
    ends.partition_point(|end| *end <= n)
}

/// How many units come before this bio.
fn begin_of(ends: &[u32], bio: usize) -> u32
    requires { bio ≤ length ends.now }
    ensures { result ≡ begin_of 0 ends.now bio }
{
    if bio == 0 { 0 } else { ends[bio - 1] }
}

/// Empties a list of bios into replies, in order.
fn reply_all(bios: &mut Vec<MarkedBio>, out: &mut Vec<Reply>)
    requires { vec_len out.old + vec_len bios.old ≤ vec_capacity out.old }
    ensures replies { out.new.items ≡ out.old.items ++ map reply_of bios.old.items }
    ensures room { vec_capacity out.new ≡ vec_capacity out.old }
    ensures empty { bios.new.items ≡ [] }
    ensures spare { vec_capacity bios.new ≡ vec_capacity bios.old }
{
    bios.reverse();
    while let Some(marked) = bios.pop() {
        out.push_reserved(reply_of(marked));
    }
}
