//! The units of a request, one after the other.

ghost use Rattle.std.specs.Prelude.{◌≡◌, ◌*◌, ◌+◌, ◌<◌, ◌≤◌, ℕ, length, Some, Option};
ghost use Rattle.bc_base.specs.declared.place.Place.{Place};
ghost use Rattle.bc_bio.specs.declared.access.Access.TheVariants as accesses;
ghost use Rattle.bc_bio.specs.declared.unit.Unit.TheVariants as units;
ghost use Rattle.bc_bio.specs.Extent.{unit_sectors};
ghost use Rattle.bc_bio.specs.Windows.{IsRequest, count_units};
ghost use Rattle.bc_bio.specs.Requests.{tagged_bios, with_unit, unit_in};
ghost use Rattle.bc_medium.specs.Layout.{shard_of};
ghost use Rattle.bc_queue.specs.RequestUnits.{named_at, access_at};
ghost use Rattle.bc_queue.specs.Carrying.{AttemptsOne, TriesUnit, CarriesOut, IsPerformableUnit, ArePerformable};
ghost use Rattle.bc_queue.specs.Carrying.{HasSpareFor};
ghost use Rattle.bc_queue.specs.Carrying.{IsUnitAt, IsSomeFull, HasOther};

use crate::UnitAccess;
use bc_base::{Items, Place};
use bc_bio::{Access, Request, Unit};
use bc_key::Keys;
use bc_medium::{UnitAt, order_laws};
use std::mem;

/// Carries out `count` units of a request from number `first` on, one after the other. A unit of whose bio an earlier
/// one met a fault is passed over, and a fault marks its own bio alone. The bytes of a write move into the order, and
/// come back where it met a fault; those of a read are put into the request.
///
/// The units are in the request and have their bytes, the way takes each of them, and the caller has room for their
/// entries.
pub fn carry_out<R, P, A: UnitAccess<R, P>>(
    rt: &R,
    access: &mut A,
    pass: &mut P,
    keys: &Keys,
    request: &mut Request,
    first: u32,
    count: u32,
)
    requires ready { A.is_ready access.old pass.old }
    requires keys { (A.facts access.old pass.old).keys ≡ keys.now.keys }
    requires request { IsRequest keys.now.keys (tagged_bios request.old.bios) }
    requires within { first + count ≤ count_units (tagged_bios request.old.bios) }
    requires units { ArePerformable keys.now.keys (A.takes access.old) request.old.bios first count }
    requires spare { HasSpareFor (A.facts access.old pass.old) request.old.bios first count }
    ensures same { access.new ≡ access.old }
    ensures ready { A.is_ready access.new pass.new }
    ensures carries { CarriesOut (A.facts access.old pass.old) (A.facts access.new pass.new) request.old request.new
        first count }
{
    order_laws();
    // The call tells that the number of units is one that a `u32` has, so that no sum here wraps.
    let _units = request.units();
    for done in 0..count {
        carry_out_one(rt, access, pass, keys, request, first + done);
    }
}

/// Carries out one unit, unless its bio is over.
fn carry_out_one<R, P, A: UnitAccess<R, P>>(
    rt: &R,
    access: &mut A,
    pass: &mut P,
    keys: &Keys,
    request: &mut Request,
    n: u32,
)
    requires ready { A.is_ready access.old pass.old }
    requires keys { (A.facts access.old pass.old).keys ≡ keys.now.keys }
    requires request { IsRequest keys.now.keys (tagged_bios request.old.bios) }
    requires within { n < count_units (tagged_bios request.old.bios) }
    requires unit { IsPerformableUnit keys.now.keys (A.takes access.old) request.old.bios n }
    requires spare { 1 ≤ (A.facts access.old pass.old).spare
        (shard_of (A.facts access.old pass.old).shards (named_at keys.now.keys request.old.bios n).sector) }
    ensures same { access.new ≡ access.old }
    ensures ready { A.is_ready access.new pass.new }
    ensures carries { TriesUnit (A.facts access.old pass.old) (A.facts access.new pass.new) request.old request.new n }
{
    if request.is_over(n) {
        return;
    }
    let (tag, unit, sector, context) = request.unit_at(keys, n);
    let caller = access.caller(pass);
    let at = UnitAt {
        caller,
        tag,
        unit,
        sector,
        context,
    };
    match request.bio_of(n).access {
        Access::Write => write_unit(rt, access, pass, &at, request, n),
        Access::Read => read_unit(rt, access, pass, &at, request, n),
    }
}

/// Writes a unit.
fn write_unit<R, P, A: UnitAccess<R, P>>(
    rt: &R,
    access: &mut A,
    pass: &mut P,
    at: &UnitAt,
    request: &mut Request,
    n: u32,
)
    requires ready { A.is_ready access.old pass.old }
    requires at { IsUnitAt (A.facts access.old pass.old) request.old.bios n at.now }
    requires writes { access_at request.old.bios n ≡ accesses.Write }
    requires within { n < count_units (tagged_bios request.old.bios) }
    requires unit { IsPerformableUnit (A.facts access.old pass.old).keys (A.takes access.old) request.old.bios n }
    requires spare { 1 ≤ (A.facts access.old pass.old).spare
        (shard_of (A.facts access.old pass.old).shards at.now.sector) }
    ensures same { access.new ≡ access.old }
    ensures ready { A.is_ready access.new pass.new }
    ensures attempts { AttemptsOne (A.facts access.old pass.old) (A.facts access.new pass.new) request.old
        request.new n }
{
    let plain = take_bytes(request, n);
    match access.write(rt, pass, at, plain) {
        Ok(place) => put(request, n, Unit::Stored(place)),
        Err((_, plain)) => {
            put(request, n, Unit::Full(Items::from_vec(plain)));
            request.fault(n);
        }
    }
}

/// Reads a unit.
fn read_unit<R, P, A: UnitAccess<R, P>>(
    rt: &R,
    access: &mut A,
    pass: &mut P,
    at: &UnitAt,
    request: &mut Request,
    n: u32,
)
    requires ready { A.is_ready access.old pass.old }
    requires at { IsUnitAt (A.facts access.old pass.old) request.old.bios n at.now }
    requires reads { access_at request.old.bios n ≡ accesses.Read }
    requires within { n < count_units (tagged_bios request.old.bios) }
    requires unit { IsPerformableUnit (A.facts access.old pass.old).keys (A.takes access.old) request.old.bios n }
    requires spare { 1 ≤ (A.facts access.old pass.old).spare
        (shard_of (A.facts access.old pass.old).shards at.now.sector) }
    ensures same { access.new ≡ access.old }
    ensures ready { A.is_ready access.new pass.new }
    ensures attempts { AttemptsOne (A.facts access.old pass.old) (A.facts access.new pass.new) request.old
        request.new n }
{
    let mut text = take_bytes(request, n);
    match access.read(rt, pass, at, text.as_mut_slice()) {
        Ok(_) => put(request, n, Unit::Full(Items::from_vec(text))),
        Err(_) => {
            put(request, n, Unit::Full(Items::from_vec(text)));
            request.fault(n);
        }
    }
}

/// Takes the bytes of a unit, for which it is to get another content.
fn take_bytes(request: &mut Request, n: u32) -> Vec<u8>
    requires within { n < count_units (tagged_bios request.old.bios) }
    requires full { IsSomeFull (unit_in request.old.bios n) }
    ensures bytes { unit_in request.old.bios n ≡ Some (units.Full result.items) }
    ensures left { HasOther request.old request.new n }
{
    let nowhere = Place { shard: 0, index: 0 };
    match mem::replace(request.unit_mut(n), Unit::Stored(nowhere)) {
        Unit::Full(bytes) => bytes.into_vec(),
        _ => unreachable!(),
    }
}

/// Puts a content into a unit.
fn put(request: &mut Request, n: u32, unit: Unit)
    requires within { n < count_units (tagged_bios request.old.bios) }
    ensures { request.new ≡ with_unit n request.old unit }
{
    *request.unit_mut(n) = unit;
}
