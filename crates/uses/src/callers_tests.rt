//! The callers where there is memory: that they answer then is what no clause says.
use crate::{first_unit, is_script, report_of};
use bc_base::{Items, Place};
use bc_bio::{Access, Bio, Unit};
use bc_key::Keys;
use std::test::Fail;

#[test]
fn an_empty_script_is_carried_out(rt: HostRuntime) -> Result<(), Fail> {
    let alloc = rt.alloc();
    let text: &[u8] = b"blkcrypt 1\ndisk 1\nfallback on\nend\n";
    let report: &[u8] = b"report 1\nshard 0 0\nend\n";
    assert!(rt; is_script(&rt, alloc, text)?);
    let sink = report_of(&rt, alloc, text.to_vec(alloc)?)?;
    assert_eq!(rt; sink.held(), report);
    Ok(())
}

#[test]
fn a_bio_of_two_units_is_cut(rt: HostRuntime) -> Result<(), Fail> {
    let alloc = rt.alloc();
    let keys = Keys::new(alloc);
    let mut units = Vec::new(alloc);
    for index in 0..2u32 {
        units.push(Unit::Stored(Place { shard: 0, index }))?;
    }
    let bio = Bio {
        tag: 7,
        access: Access::Write,
        sector: 4,
        units: Items::from_vec(units),
        context: None,
    };
    let Ok((first, rest)) = first_unit(alloc, &keys, 8, bio) else {
        return Err("the bio came back".into());
    };
    assert_eq!(rt;
        (first.units.len(), rest.units.len(), rest.sector),
        (1, 1, 5)
    );
    Ok(())
}
