//! Units of requests, carried out on a disk that keeps its order alone: what is attempted, marked and passed over.
ghost use Rattle.std.specs.Prelude.{◌≡◌, ◌+◌, ◌<◌, ◌≤◌, ◌^◌, [], length, IfOk, OnOk};
ghost use Rattle.bc_base.specs.declared.geometry.TheConstants.{SECTOR_BYTES};
ghost use Rattle.bc_bio.specs.Conditions.{IsFull};
ghost use Rattle.bc_bio.specs.Windows.{IsRequest, count_units};
ghost use Rattle.bc_bio.specs.Requests.{tagged_bios};
ghost use Rattle.bc_queue.specs.OrderOnly.{IsPlainBio, ArePlain};

use crate::{UnitAccess, carry_out};
use bc_base::{Items, Place, SECTOR_BYTES};
use bc_bio::{Access, Bio, Request, Unit};
use bc_key::Keys;
use bc_medium::{Entry, Fault, UnitAt, Via};
use std::alloc::{AllocError, Global};
use std::marker::Model;
use std::test::Fail;

/// A disk of one shard without contents: the order of its accesses, of which those at the places of the plan fail.
#[derive(Drop)]
struct OrderOnly {
    entries: Vec<Entry>,
    plan: Vec<usize>,
}

impl Model for OrderOnly {
    ghost use Rattle.std.specs.Prelude.{◌-◌, ◌<◌, ◌^◌, vec_len, vec_capacity};
    ghost use Rattle.bc_queue.specs.OrderOnly.{OrderData};

    ghost Value = { OrderData };

    ghost view = { λ d. record { entries = d.entries.items; spare = vec_capacity d.entries - vec_len d.entries } };

    ghost invariant = { λ d. vec_capacity d.entries < 2 ^ 32 };
}

impl OrderOnly {
    /// With room for so many accesses.
    fn new(alloc: Global, room: u32, plan: Vec<usize>) -> Result<OrderOnly, AllocError>
        ensures { IfOk result (λ disk. disk.spare ≡ room) }
    {
        Ok(OrderOnly {
            entries: Vec::with_capacity(alloc, room as usize)?,
            plan,
        })
    }
}

/// A caller, by its number.
#[derive(Drop)]
struct Caller(u16);

impl UnitAccess<(), OrderOnly> for Caller {
    ghost use Rattle.std.specs.Prelude.{◌≡◌, ⊤, None};
    ghost use Rattle.bc_queue.specs.OrderOnly.{order_facts};

    ghost facts = { λ a pass. order_facts a.0 pass };

    ghost is_ready = { λ a pass. ⊤ };

    ghost takes = { λ a sector context. context ≡ None };

    fn caller(&self, _pass: &OrderOnly) -> u16 {
        self.0
    }

    fn write(
        &mut self,
        _rt: &(),
        pass: &mut OrderOnly,
        at: &UnitAt,
        plain: Vec<u8>,
    ) -> Result<Place, (Fault, Vec<u8>)> {
        let index = pass.entries.len();
        let place = Place {
            shard: 0,
            index: index as u32,
        };
        if pass.plan.contains(&index) {
            pass.entries.push_reserved(Entry {
                at: *at,
                access: Access::Write,
                via: Via::Plain,
                plain: None,
                failed: true,
            });
            return Err((Fault { place }, plain));
        }
        pass.entries.push_reserved(Entry {
            at: *at,
            access: Access::Write,
            via: Via::Plain,
            plain: Some(Items::from_vec(plain)),
            failed: false,
        });
        Ok(place)
    }

    fn read(
        &mut self,
        _rt: &(),
        pass: &mut OrderOnly,
        at: &UnitAt,
        _text: &mut [u8],
    ) -> Result<Place, Fault> {
        let index = pass.entries.len();
        let place = Place {
            shard: 0,
            index: index as u32,
        };
        let failed = pass.plan.contains(&index);
        pass.entries.push_reserved(Entry {
            at: *at,
            access: Access::Read,
            via: Via::Plain,
            plain: None,
            failed,
        });
        if failed {
            return Err(Fault { place });
        }
        Ok(place)
    }
}

/// A unit with these bytes.
fn full(bytes: Vec<u8>) -> Unit
    requires { length bytes.items ≡ SECTOR_BYTES }
    ensures { IsFull 1 result }
{
    Unit::Full(Items::from_vec(bytes))
}

/// A bio of so many units, a sector each, which are filled with their numbers.
fn bio(alloc: Global, access: Access, tag: u32, sector: u32, units: u32) -> Result<Bio, AllocError>
    requires { sector + units < 2 ^ 32 }
    ensures { IfOk result (λ bio. IsPlainBio bio) }
{
    let mut list = Vec::new(alloc);
    for index in 0..units {
        let bytes = vec![in alloc; (index % 256) as u8; SECTOR_BYTES]?;
        list.push(full(bytes))?;
    }
    Ok(Bio {
        tag,
        access,
        sector,
        units: Items::from_vec(list),
        context: None,
    })
}

/// A request of a bio of so many units at sector 0, with room for two more.
fn request_of(alloc: Global, access: Access, units: u32) -> Result<Request, AllocError>
    requires { units ≤ 4096 }
    ensures request { IfOk result (λ request. IsRequest [] (tagged_bios request.bios)) }
    ensures plain { IfOk result (λ request. ArePlain request.bios) }
    ensures some { IfOk result (λ request. 1 ≤ length request.bios) }
    ensures spare { IfOk result (λ request. request.spare ≡ 2) }
{
    let mut request = Request::new(alloc, 3)?;
    request.start(bio(alloc, access, 0, 0, units)?);
    Ok(request)
}

/// Puts a bio after the others of a request, at this sector.
fn join(
    alloc: Global,
    keys: &Keys,
    request: &mut Request,
    access: Access,
    tag: u32,
    sector: u32,
    units: u32,
) -> Result<(), Fail>
    requires keys { keys.now.keys ≡ [] }
    requires bio { sector + units < 2 ^ 32 }
    requires request { IsRequest [] (tagged_bios request.old.bios) }
    requires plain { ArePlain request.old.bios }
    requires some { 1 ≤ length request.old.bios }
    requires spare { 1 ≤ request.old.spare }
    ensures request { OnOk result (IsRequest [] (tagged_bios request.new.bios)) }
    ensures plain { OnOk result (ArePlain request.new.bios) }
    ensures some { OnOk result (1 ≤ length request.new.bios) }
    ensures spare { OnOk result (request.new.spare + 1 ≡ request.old.spare) }
{
    let next = bio(alloc, access, tag, sector, units)?;
    match request.push_back(keys, next) {
        Ok(()) => Ok(()),
        Err(_) => Err("bios that lie one after the other join".into()),
    }
}

/// Carries a request of three bios of 1, 64 and 4096 units out, where the accesses at these places fail. Gives the
/// request and how many accesses there were.
fn carried_out(alloc: Global, access: Access, plan: Vec<usize>) -> Result<(Request, usize), Fail> {
    let keys = Keys::new(alloc);
    let mut request = request_of(alloc, access, 1)?;
    join(alloc, &keys, &mut request, access, 1, 1, 64)?;
    join(alloc, &keys, &mut request, access, 2, 65, 4096)?;
    let units = request.units();
    let mut disk = OrderOnly::new(alloc, units, plan)?;
    let mut caller = Caller(7);
    carry_out(&(), &mut caller, &mut disk, &keys, &mut request, 0, units);
    let made = disk.entries.len();
    Ok((request, made))
}

/// Whether unit number `n` is over, and whether its bytes are in the order.
fn state(request: &mut Request, n: u32) -> Result<(bool, bool), Fail> {
    if n >= request.units() {
        return Err("the unit is there".into());
    }
    let over = request.is_over(n);
    let stored = is_stored(request.unit_mut(n));
    Ok((over, stored))
}

fn is_stored(unit: &Unit) -> bool {
    match unit {
        Unit::Stored(_) => true,
        _ => false,
    }
}

#[test]
fn all_units_of_a_request_are_written(rt: HostRuntime) -> Result<(), Fail> {
    let alloc = rt.alloc();
    let (mut request, made) = carried_out(alloc, Access::Write, Vec::new(alloc))?;
    assert_eq!(rt; made, 4161);
    for n in [0, 1, 64, 65, 4160] {
        assert_eq!(rt; state(&mut request, n)?, (false, true));
    }
    Ok(())
}

#[test]
fn a_fault_ends_its_own_bio_alone(rt: HostRuntime) -> Result<(), Fail> {
    let alloc = rt.alloc();
    // The first unit of all, one in the middle of the second bio, whose 31 later units are passed over, and the last
    // one.
    let plan = vec![in alloc; 0, 33, 4129]?;
    let (mut request, made) = carried_out(alloc, Access::Write, plan)?;
    assert_eq!(rt; made, 4130);
    for n in [1, 32, 65, 4159] {
        assert_eq!(rt; state(&mut request, n)?, (false, true));
    }
    for n in [0, 33, 4160] {
        assert_eq!(rt; state(&mut request, n)?, (false, false));
    }
    for n in [34, 64] {
        assert_eq!(rt; state(&mut request, n)?, (true, false));
    }
    Ok(())
}

#[test]
fn reads_keep_their_bytes(rt: HostRuntime) -> Result<(), Fail> {
    let alloc = rt.alloc();
    let plan = vec![in alloc; 1]?;
    let (mut request, made) = carried_out(alloc, Access::Read, plan)?;
    assert_eq!(rt; made, 4098);
    for n in [0, 1, 65, 4160] {
        assert_eq!(rt; state(&mut request, n)?, (false, false));
    }
    for n in [2, 64] {
        assert_eq!(rt; state(&mut request, n)?, (true, false));
    }
    Ok(())
}
