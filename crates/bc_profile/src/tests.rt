//! The journals of lists of calls, and a table of many calls against the fold of their journal.
ghost use Rattle.std.specs.Prelude.{◌≡◌, ◌≤◌, length, All, IfOk};
ghost use Rattle.bc_profile.specs.Solo.{NamesRow};

use crate::{Event, Row, Skip, Skips, Solo, Use};
use bc_key::KeyNo;
use std::alloc::{AllocError, Global};
use std::test::Fail;

const A: KeyNo = KeyNo(0);

const B: KeyNo = KeyNo(1);

const C: KeyNo = KeyNo(2);

/// The rows of three keys: the words of key k are k + 1.
fn three_rows(alloc: Global) -> Result<Vec<Row>, AllocError>
    ensures { IfOk result (λ rows. length rows.items ≡ 3) }
{
    Ok(vec![in alloc; [1; 18], [2; 18], [3; 18]]?)
}

/// Whether the uses of a device with so many slots have this journal.
fn record(alloc: Global, slots: u16, uses: &[Use], journal: &[Event]) -> Result<bool, AllocError>
    requires some { 1 ≤ slots }
    requires few { slots ≤ 32 }
    requires keys { All (NamesRow 3) uses.now }
    requires short { length uses.now ≤ 100 }
{
    let mut solo = Solo::open(alloc, slots, three_rows(alloc)?, 200)?;
    solo.carry_out(uses);
    Ok(solo.close().as_slice() == journal)
}

fn program(slot: u16, key: u16) -> Event {
    Event::Program {
        slot,
        key,
        skipped: Skips::new(),
    }
}

fn idle(slot: u16) -> Event {
    Event::Idle { slot }
}

#[test]
fn journals_come_out(rt: HostRuntime) -> Result<(), Fail> {
    let alloc = rt.alloc();
    let hold = [Use::Hold(A), Use::Hold(B), Use::Hold(C), Use::Hold(A)];
    let reprogramming = [
        program(0, 0),
        idle(0),
        program(1, 1),
        idle(1),
        program(0, 2),
        idle(0),
        program(1, 0),
        idle(1),
    ];
    assert!(&rt; record(alloc, 2, &hold, &reprogramming)?);
    let hold = [Use::Hold(A), Use::Hold(B), Use::Hold(A), Use::Hold(C)];
    let least_recently_idle = [
        program(0, 0),
        idle(0),
        program(1, 1),
        idle(1),
        idle(0),
        program(1, 2),
        idle(1),
    ];
    assert!(&rt; record(alloc, 2, &hold, &least_recently_idle)?);
    let evict = [Use::Hold(A), Use::Evict(A), Use::Evict(B)];
    let evictions = [program(0, 0), idle(0), Event::Evict { slot: 0, key: 0 }];
    assert!(&rt; record(alloc, 1, &evict, &evictions)?);
    let reset = [Use::Hold(A), Use::Reset, Use::Hold(A)];
    let kept = [program(0, 0), idle(0), Event::Reset, idle(0)];
    assert!(&rt; record(alloc, 1, &reset, &kept)?);
    Ok(())
}

#[test]
fn holds_name_their_programming(rt: HostRuntime) -> Result<(), Fail> {
    let alloc = rt.alloc();
    let mut solo = Solo::open(alloc, 2, three_rows(alloc)?, 100)?;
    let cases = [
        (A, (0, 0)),
        (B, (1, 2)),
        (C, (0, 4)),
        (A, (1, 6)),
        (C, (0, 4)),
    ];
    for (key, expected) in cases {
        assert!(&rt; key.0 < 3 && solo.spare() >= 2);
        let held = solo.hold(key);
        assert!(&rt; held == expected && solo.row(held.0) == [u32::from(key.0) + 1; 18]);
        solo.put(held.0);
    }
    assert!(&rt; solo.spare() == 91);
    solo.reset();
    assert!(&rt; solo.row(0) == [3; 18] && solo.row(1) == [1; 18]);
    assert!(&rt; solo.spare() == 90);
    solo.evict(C);
    assert!(&rt; solo.row(0) == [0; 18] && solo.row(1) == [1; 18]);
    Ok(())
}

/// What the fold of a journal says of a use: the key of each slot, the list of idle slots, and what
/// is recorded.
fn fold_use(
    keys: &mut Vec<Option<u16>>,
    list: &mut Vec<u16>,
    one: Use,
    journal: &mut Vec<Event>,
) -> Result<(), AllocError> {
    let (Use::Hold(KeyNo(key)) | Use::Evict(KeyNo(key))) = one else {
        return Ok(journal.push(Event::Reset)?);
    };
    let found = keys.iter().position(|has| *has == Some(key));
    let first = list.first().copied().unwrap_or(0);
    let slot = found.map_or(first, |slot| u16::try_from(slot).unwrap_or(0));
    let evicts = matches!(one, Use::Evict(_));
    if let Some(has) = keys.get_mut(usize::from(slot)) {
        if evicts && found.is_some() {
            *has = None;
            journal.push(Event::Evict { slot, key })?;
        }
        if !evicts && found.is_none() {
            *has = Some(key);
            journal.push(program(slot, key))?;
        }
    }
    if !evicts {
        list.retain(|other| *other != slot);
        list.push(slot)?;
        journal.push(idle(slot))?;
    }
    Ok(())
}

/// A use of one of three keys.
fn random_use(random: u32) -> Use
    ensures { NamesRow 3 result }
{
    let key = KeyNo((random >> 16) as u16 % 3);
    match random >> 28 {
        0 => Use::Reset,
        1..=3 => Use::Evict(key),
        _ => Use::Hold(key),
    }
}

#[test]
fn many_uses_are_the_fold(rt: HostRuntime) -> Result<(), Fail> {
    let alloc = rt.alloc();
    for slots in [1u16, 2, 32] {
        let mut solo = Solo::open(alloc, slots, three_rows(alloc)?, 4000)?;
        let mut keys = vec![in alloc; None; usize::from(slots)]?;
        let mut list = Vec::new(alloc);
        for slot in 0..slots {
            list.push(slot)?;
        }
        let mut journal = Vec::new(alloc);
        let mut random: u32 = 1;
        for _ in 0..1000 {
            random = random.wrapping_mul(1_664_525).wrapping_add(1_013_904_223);
            let one = random_use(random);
            fold_use(&mut keys, &mut list, one, &mut journal)?;
            assert!(&rt; solo.spare() >= 2);
            solo.carry_out_one(one);
        }
        assert!(&rt; solo.close().as_slice() == journal.as_slice());
    }
    Ok(())
}

#[test]
fn skips_are_kept_in_order(rt: HostRuntime) -> Result<(), Fail> {
    let mut skips = Skips::new();
    for slot in 0..40u16 {
        if !skips.is_full() {
            skips.push(Skip { slot, refs: 1 });
        }
    }
    assert!(&rt; skips.len() == 32 && skips.as_slice()[31] == Skip { slot: 31, refs: 1 });
    Ok(())
}
