//! The registers of the slots.
ghost use Rattle.std.specs.Prelude.{◌≡◌, ℕ, ◌<◌, ◌≤◌, length, map, slice_index_or};
ghost use Rattle.bc_profile.specs.Rows.{cleared, row_of, HaveRows};

use crate::ROW_WORDS;

/// What the registers of a slot have: one word each.
pub type Row = [u32; ROW_WORDS];

/// What the registers of a slot without a key have.
pub(crate) const CLEARED: Row = [0; ROW_WORDS];

/// Clears the registers of all slots, as a device's reset does.
fn clear(registers: &mut [Row])
    ensures { (slot : ℕ) → slice_index_or registers.new slot cleared ≡ cleared }
{
    for row in registers.iter_mut() {
        *row = CLEARED;
    }
}

/// Clears the registers of all slots, and writes the row of each slot's key into them again.
pub(crate) fn program_again(registers: &mut [Row], keys: &[Option<u16>], rows: &[Row])
    requires as_many { length registers.old ≡ length keys.now }
    requires rows { HaveRows (length rows.now) keys.now }
    ensures { registers.new ≡ map (row_of rows.now) keys.now }
{
    clear(registers);
    for (slot, key) in keys.iter().enumerate() {
        if let Some(key) = key {
            registers[slot] = rows[usize::from(*key)];
        }
    }
}
