//! Searches among the slots.
ghost use Rattle.std.specs.Prelude.{◌≡◌, ℕ, ◌<◌, ◌≤◌, length, position, slice_index, find, not, MatchOption, None};
ghost use Rattle.std.specs.List.{AllByRecursion};
ghost use Rattle.bc_profile.specs.declared.limits.TheConstants.{MAX_SLOTS};
ghost use Rattle.bc_profile.specs.OneCaller.{has_key};
ghost use Rattle.bc_profile.specs.SlotTable.{IsFirstFree, is_held};

use crate::{Skip, Skips};

/// The first slot that has the key.
pub(crate) fn slot_with(keys: &[Option<u16>], key: u16) -> Option<usize>
    ensures { result ≡ position (has_key key) keys.now }
{
    keys.iter().position(|has| *has == Some(key))
}

/// The place of the least stamp.
pub(crate) fn least(stamps: &[u32]) -> usize
    requires { 1 ≤ length stamps.now }
    ensures place { result < length stamps.now }
    ensures least { (k : ℕ) → k < length stamps.now → slice_index stamps.now result ≤ slice_index stamps.now k }
{
    let mut least = 0;
    for (place, stamp) in stamps.iter().enumerate() {
        if *stamp < stamps[least] {
            least = place;
        }
    }
    least
}

/// The first slot of the list that isn't held, and those before it with their references. None
/// where each is held.
pub(crate) fn first_free(list: &[u16], refs: &[u16]) -> Option<(u16, Skips)>
    requires few { length list.now ≤ MAX_SLOTS }
    requires slots { AllByRecursion (λ slot. slot < length refs.now) list.now }
    ensures { MatchOption result
        (find (λ slot. not (is_held refs.now slot)) list.now ≡ None)
        (λ found. IsFirstFree refs.now list.now found.0 found.1) }
{
    let mut skipped = Skips::new();
    for slot in list.iter() {
        let many = refs[usize::from(*slot)];
        if many == 0 {
            return Some((*slot, skipped));
        }
        skipped.push(Skip {
            slot: *slot,
            refs: many,
        });
    }
    None
}
