//! The worked examples of stacks, and the edges of each test.
ghost use Rattle.std.specs.Prelude.{All, IfOk};
ghost use Rattle.bc_stack.specs.Targets.{HasSlots};

use crate::{Stack, StackError, Target};
use bc_key::{Caps, Config, DataUnit, Mode};
use std::alloc::{AllocError, Global};
use std::test::Fail;

/// Targets with one keyslot each: the first block, how many there are, and the data unit sizes of
/// XTS.
fn targets_of(alloc: Global, parts: &[(u32, u32, u8)]) -> Result<Vec<Target>, AllocError>
    ensures { IfOk result (λ targets. All HasSlots targets.items) }
{
    let mut targets = Vec::new(alloc);
    for (first, blocks, xts) in parts {
        let caps = Caps {
            xts: *xts,
            essiv: 0,
            max_dun_bytes: 8,
        };
        targets.push(Target {
            first: *first,
            blocks: *blocks,
            slots: 1,
            caps,
        })?;
    }
    Ok(targets)
}

#[test]
fn targets_are_tested_in_order(rt: HostRuntime) -> Result<(), Fail> {
    let alloc = rt.alloc();
    let row = [
        (0, 1, 1),
        (1, 1, 1),
        (2, 1, 1),
        (3, 1, 1),
        (4, 1, 1),
        (5, 1, 1),
        (6, 1, 1),
        (7, 1, 1),
        (8, 0, 1),
    ];
    let gap = [(0, 1, 1), (2, 1, 1)];
    let empty = [(0, 0, 1)];
    let cases: [(&[(u32, u32, u8)], u32, Option<StackError>); 9] = [
        (&row[..0], 2, None),
        (&row[..1], 1, None),
        (&row[..8], 8, None),
        (&row, 8, Some(StackError::TooMany)),
        (&row[..2], 3, Some(StackError::Gap)),
        (&row[1..2], 2, Some(StackError::Gap)),
        (&row[8..], 2, Some(StackError::Empty)),
        (&gap, 2, Some(StackError::Gap)),
        (&empty, 2, Some(StackError::Empty)),
    ];
    for (parts, blocks, want) in cases {
        let targets = targets_of(alloc, parts)?;
        let error = Stack::new(alloc, &targets, blocks).err();
        assert_eq!(rt; error, want, "{parts:?} {blocks}");
    }
    Ok(())
}

#[test]
fn sectors_lie_on_devices(rt: HostRuntime) -> Result<(), Fail> {
    let alloc = rt.alloc();
    let targets = targets_of(alloc, &[(0, 1, 1), (1, 1, 1)])?;
    let stack = Stack::new(alloc, &targets, 2)?;
    assert_eq!(rt; stack.children(), 2);
    for (sector, want) in [
        (0, Some(0)),
        (7, Some(0)),
        (8, Some(1)),
        (15, Some(1)),
        (16, None),
    ] {
        assert_eq!(rt; stack.locate(sector), want, "{sector}");
    }
    Ok(())
}

#[test]
fn a_stack_supports_what_all_support(rt: HostRuntime) -> Result<(), Fail> {
    let alloc = rt.alloc();
    let targets = targets_of(alloc, &[(0, 1, 9), (1, 1, 8)])?;
    let stack = Stack::new(alloc, &targets, 2)?;
    let none = Stack::new(alloc, &targets_of(alloc, &[])?, 2)?;
    for (unit, want) in [(DataUnit::Bytes512, false), (DataUnit::Bytes4096, true)] {
        let config = Config {
            mode: Mode::Aes256Xts,
            unit,
            dun_bytes: 8,
        };
        assert_eq!(rt; stack.caps().supports(&config), want);
        assert!(rt; !none.caps().supports(&config));
    }
    Ok(())
}
