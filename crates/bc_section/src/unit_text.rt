//! The bytes of a write's data units.

ghost use Rattle.std.specs.Prelude.{◌≡◌, ◌*◌, ◌+◌, ◌≤◌, length, replicate, slice_range, IfOk};
ghost use Rattle.bc_script.specs.Plan.{HasUnit, text_at};

use bc_script::Text;
use std::alloc::{AllocError, Global};

/// The bytes that a write writes into its data unit number `unit`, from 0, where its text gives each unit `size` bytes: a
/// fill gives the same byte everywhere, and bytes are those of the unit's own place among them.
///
/// # Errors
///
/// Out of memory.
pub fn text_of_unit(
    alloc: Global,
    text: &Text,
    size: usize,
    unit: usize,
) -> Result<Vec<u8>, AllocError>
    requires { HasUnit text.now size unit }
    ensures { IfOk result (λ plain. plain.items ≡ text_at text.now size unit) }
{
    match text {
        Text::Fill(byte) => fill(alloc, *byte, size),
        Text::Bytes(bytes) => copy_unit(alloc, bytes.as_slice(), size, unit),
    }
}

/// So many times the same byte.
fn fill(alloc: Global, byte: u8, size: usize) -> Result<Vec<u8>, AllocError>
    ensures { IfOk result (λ plain. plain.items ≡ replicate size byte) }
{
    Ok(vec![in alloc; byte; size]?)
}

/// Copies part number `unit` of these bytes, of `size` bytes each.
fn copy_unit(alloc: Global, bytes: &[u8], size: usize, unit: usize) -> Result<Vec<u8>, AllocError>
    requires { size * unit + size ≤ length bytes.now }
    ensures { IfOk result (λ plain. plain.items ≡ slice_range bytes.now (size * unit) (size * unit + size)) }
{
    let start = size * unit;
    Ok(bytes[start..start + size].to_vec(alloc)?)
}
