//! Passes that are put together by caller or by device.

ghost use Rattle.std.specs.Prelude.{◌≡◌, ℕ, ◌+◌, ◌<◌, ◌≤◌, [], length, map, replicate, reverse, IfOk};
ghost use Rattle.std.specs.Prelude.{vec_capacity, vec_len};
ghost use Rattle.bc_base.specs.Lists.{Each};
ghost use Rattle.bc_disk.specs.Dealing.{dealt};

use bc_profile::SlotPass;
use std::alloc::{AllocError, Global};

/// So many empty lists, each with room for so many passes.
pub(crate) fn rooms(
    alloc: Global,
    lists: usize,
    room: usize,
) -> Result<Vec<Vec<SlotPass>>, AllocError>
    ensures empty { IfOk result (λ rooms. map (λ list. list.items) rooms.items ≡ replicate lists []) }
    ensures room { IfOk result (λ rooms. Each (λ list. vec_len list + room ≤ vec_capacity list) rooms.items) }
{
    let mut rooms = Vec::with_capacity(alloc, lists)?;
    for _ in 0..lists {
        rooms.push(Vec::with_capacity(alloc, room)?)?;
    }
    Ok(rooms)
}

/// Puts each pass after the list at its place. There is room for it.
pub(crate) fn deal(mut row: Vec<SlotPass>, lists: &mut Vec<Vec<SlotPass>>)
    requires one_for_each { length row.items ≡ length lists.old.items }
    requires room { Each (λ list. vec_len list < vec_capacity list) lists.old.items }
    ensures dealt { map (λ list. list.items) lists.new.items
        ≡ dealt (map (λ list. list.items) lists.old.items) row.items }
    ensures room { (more : ℕ) → Each (λ list. vec_len list + 1 + more ≤ vec_capacity list) lists.old.items
        → Each (λ list. vec_len list + more ≤ vec_capacity list) lists.new.items }
{
    let mut place = lists.len();
    while let Some(pass) = row.pop() {
        place -= 1;
        lists[place].push_reserved(pass);
    }
}

/// The last first.
pub(crate) fn turn_round<T>(items: &mut Vec<T>)
    ensures items { items.new.items ≡ reverse items.old.items }
    ensures length { vec_len items.new ≡ vec_len items.old }
    ensures capacity { vec_capacity items.new ≡ vec_capacity items.old }
{
    items.as_mut_slice().reverse();
}
