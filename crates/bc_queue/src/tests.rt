//! Plugs: what joins, and when one is full.
ghost use Rattle.std.specs.Prelude.{◌≡◌, None, length, IfOk};

use crate::{MAX_PLUGGED, Plug};
use bc_base::{Items, Place};
use bc_bio::{Access, Bio, Context, Reply, Unit};
use bc_key::Keys;
use std::alloc::{AllocError, Global};
use std::test::Fail;

/// A read of so many units without a key, with its sector for its tag.
fn read(alloc: Global, sector: u32, units: u32) -> Result<Bio, AllocError>
    ensures { IfOk result (λ bio. (bio.sector ≡ sector) × (length bio.units ≡ units) × (bio.context ≡ None)) }
{
    let mut list = Vec::new(alloc);
    for index in 0..units {
        list.push(Unit::Handed(Place { shard: 0, index }))?;
    }
    let context: Option<Context> = None;
    Ok(Bio {
        tag: sector,
        access: Access::Read,
        sector,
        units: Items::from_vec(list),
        context,
    })
}

#[test]
fn the_sixty_fifth_bio_is_refused(rt: HostRuntime) -> Result<(), Fail> {
    let alloc = rt.alloc();
    let none = Keys::new(alloc);
    let mut plug = Plug::new(alloc)?;
    for index in 0..MAX_PLUGGED as u32 {
        let Ok(()) = plug.add(&none, read(alloc, 2 * index, 1)?) else {
            return Err("a plug takes 64 bios".into());
        };
    }
    assert_eq!(rt; plug.requests(), 64);
    let Err(refused) = plug.add(&none, read(alloc, 127, 1)?) else {
        return Err("a plug takes 64 bios alone".into());
    };
    assert_eq!(rt; refused.tag, 127);
    assert_eq!(rt; plug.requests(), 64);
    assert_eq!(rt; plug.request_mut(63).units(), 1);
    Ok(())
}

#[test]
fn bios_that_run_on_make_one_request(rt: HostRuntime) -> Result<(), Fail> {
    let alloc = rt.alloc();
    let none = Keys::new(alloc);
    let mut plug = Plug::new(alloc)?;
    for (sector, units, requests) in [(0, 2, 1), (2, 1, 1), (4, 1, 2), (5, 3, 2), (2, 1, 3)] {
        let Ok(()) = plug.add(&none, read(alloc, sector, units)?) else {
            return Err("a plug takes 64 bios".into());
        };
        assert_eq!(rt; plug.requests(), requests);
    }
    let mut out = Vec::with_capacity(alloc, MAX_PLUGGED)?;
    plug.drain(&mut out);
    assert_eq!(rt; out.len(), 5);
    for (reply, want) in out.iter().zip([0, 2, 4, 5, 2]) {
        let tag = match reply {
            Reply::Done(bio) => bio.tag,
            _ => u32::MAX,
        };
        assert_eq!(rt; tag, want);
    }
    assert_eq!(rt; plug.requests(), 0);
    Ok(())
}
