//! Requests: which bios join, and what becomes of their units.
ghost use Rattle.std.specs.Prelude.{◌≡◌, ◌<◌, [], ◌∷◌, length, IfOk, IsSomeAnd};
ghost use Rattle.bc_bio.specs.BioUnits.{extent_of};
ghost use Rattle.bc_bio.specs.Conditions.{HasKey, IsPlaced};
ghost use Rattle.bc_bio.specs.Requests.{unmarked};

use crate::{Access, Bio, Context, Reply, Request, Unit};
use bc_base::{Items, Place};
use bc_key::{Dun, Key, KeyNo, Keys, Mode};
use std::alloc::{AllocError, Global};
use std::test::Fail;

/// A bio of so many units, with its sector for its tag.
fn bio(
    alloc: Global,
    access: Access,
    sector: u32,
    units: u32,
    context: Option<Context>,
) -> Result<Bio, AllocError>
    ensures { IfOk result (λ bio. (bio.sector ≡ sector) × (length bio.units ≡ units) × (bio.context ≡ context)) }
{
    let mut list = Vec::new(alloc);
    for index in 0..units {
        list.push(Unit::Stored(Place { shard: 0, index }))?;
    }
    Ok(Bio {
        tag: sector,
        access,
        sector,
        units: Items::from_vec(list),
        context,
    })
}

/// Two keys.
fn two_keys(alloc: Global) -> Result<Keys, Fail>
    ensures { IfOk result (λ keys. length keys.keys ≡ 2) }
{
    let raw: [u8; 64] = std::array::from_fn(|i: usize| i as u8);
    let mut keys = Keys::new(alloc);
    keys.reserve(2)?;
    keys.add(Key::new(Mode::Aes256Xts, &raw, 512, 16)?);
    keys.add(Key::new(Mode::Aes256Xts, &raw, 512, 16)?);
    Ok(keys)
}

/// A number under one of two keys.
fn context(second: bool, words: [u64; 4]) -> Option<Context>
    ensures { IsSomeAnd result (λ context. context.key.0 < 2) }
{
    let key = KeyNo(if second { 1 } else { 0 });
    Some(Context {
        key,
        dun: Dun::from_words(words),
    })
}

/// A request of this bio, with room for two more.
fn request_of(alloc: Global, keys: &Keys, first: Bio) -> Result<Request, AllocError>
    requires { IsPlaced keys.now.keys (extent_of first) }
    ensures { IfOk result (λ request. request ≡ record { bios = unmarked first ∷ []; spare = 2 }) }
{
    let mut request = Request::new(alloc, 3)?;
    request.start(first);
    Ok(request)
}

/// Whether the second bio joins a request of the first. A request that refuses it is as it was, and
/// gives it back.
fn joins(alloc: Global, keys: &Keys, first: Bio, second: Bio) -> Result<bool, Fail>
    requires first { IsPlaced keys.now.keys (extent_of first) }
    requires second { IsPlaced keys.now.keys (extent_of second) }
{
    let tag = second.tag;
    let mut request = request_of(alloc, keys, first)?;
    let before = request.units();
    match request.push_back(keys, second) {
        Ok(()) => Ok(true),
        Err(refused) => {
            if refused.tag != tag || request.units() != before {
                return Err("a refused bio changes nothing".into());
            }
            Ok(false)
        }
    }
}

/// Whether a bio of one unit joins a write of two units in sector 4 under the first key, with the
/// numbers 7 and 8.
fn joins_seven(
    alloc: Global,
    keys: &Keys,
    access: Access,
    sector: u32,
    second: Option<Context>,
) -> Result<bool, Fail>
    requires keys { length keys.now.keys ≡ 2 }
    requires key { HasKey keys.now.keys second }
    requires sector { sector < 100 }
{
    let first = bio(alloc, Access::Write, 4, 2, context(false, [7, 0, 0, 0]))?;
    joins(alloc, keys, first, bio(alloc, access, sector, 1, second)?)
}

#[test]
fn a_bio_joins_where_it_runs_on(rt: HostRuntime) -> Result<(), Fail> {
    let alloc = rt.alloc();
    let keys = two_keys(alloc)?;
    let nine = context(false, [9, 0, 0, 0]);
    assert!(rt; joins_seven(alloc, &keys, Access::Write, 6, nine)?);
    assert!(rt; !joins_seven(alloc, &keys, Access::Read, 6, nine)?);
    assert!(rt; !joins_seven(alloc, &keys, Access::Write, 7, nine)?);
    assert!(rt; !joins_seven(alloc, &keys, Access::Write, 6, None)?);
    let other_key = context(true, [9, 0, 0, 0]);
    assert!(rt; !joins_seven(alloc, &keys, Access::Write, 6, other_key)?);
    let gap = context(false, [8, 0, 0, 0]);
    assert!(rt; !joins_seven(alloc, &keys, Access::Write, 6, gap)?);

    // A number that wraps doesn't run on.
    let top = bio(alloc, Access::Write, 4, 2, context(false, [u64::MAX; 4]))?;
    let one = bio(alloc, Access::Write, 6, 1, context(false, [1, 0, 0, 0]))?;
    assert!(rt; !joins(alloc, &keys, top, one)?);
    Ok(())
}

/// What becomes of a bio: its tag, and the unit that met a fault.
fn outcome(reply: &Reply) -> (u32, Option<u32>) {
    match reply {
        Reply::Done(bio) => (bio.tag, None),
        Reply::Fault { unit, bio } => (bio.tag, Some(*unit)),
        Reply::Refused(_, bio) => (bio.tag, None),
    }
}

#[test]
fn a_fault_ends_its_own_bio_alone(rt: HostRuntime) -> Result<(), Fail> {
    let alloc = rt.alloc();
    let none = Keys::new(alloc);
    let first = bio(alloc, Access::Read, 0, 3, None)?;
    let mut request = request_of(alloc, &none, first)?;
    let second = bio(alloc, Access::Read, 3, 4, None)?;
    let Ok(()) = request.push_back(&none, second) else {
        return Err("the second bio runs on".into());
    };
    let third = bio(alloc, Access::Read, 7, 2, None)?;
    let Ok(()) = request.push_back(&none, third) else {
        return Err("the third bio runs on".into());
    };
    assert_eq!(rt; request.units(), 9);
    request.fault(0);
    request.fault(5);
    request.fault(8);

    // The bio's tag, the unit in it, and whether an earlier one met a fault.
    let units = [
        (0, 0, false),
        (0, 1, true),
        (0, 2, true),
        (3, 0, false),
        (3, 1, false),
        (3, 2, false),
        (3, 3, true),
        (7, 0, false),
        (7, 1, false),
    ];
    for (n, (tag, unit, over)) in units.iter().enumerate() {
        let n = n as u32;
        let at = request.unit_at(&none, n);
        assert_eq!(rt; (at.0, at.1, at.2), (*tag, *unit, n));
        assert_eq!(rt; request.is_over(n), *over, "{n}");
        assert_eq!(rt; request.bio_of(n).tag, *tag);
    }
    *request.unit_mut(4) = Unit::Full(Items::new(alloc));

    let mut out = Vec::with_capacity(alloc, 3)?;
    request.finish(&mut out);
    let outcomes = [(0, Some(0)), (3, Some(2)), (7, Some(1))];
    assert_eq!(rt; out.len(), 3);
    for (reply, want) in out.iter().zip(outcomes) {
        assert_eq!(rt; outcome(reply), want);
    }
    assert_eq!(rt; request.units(), 0);
    Ok(())
}
