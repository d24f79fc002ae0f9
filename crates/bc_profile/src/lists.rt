//! Lists that a device is opened with.
ghost use Rattle.std.specs.Prelude.{◌≡◌, IfOk, replicate};
ghost use Rattle.std.specs.List.{range_with_len};

use std::alloc::{AllocError, Global};

/// `count` copies of the value.
pub(crate) fn copies<T: Copy>(alloc: Global, value: T, count: usize) -> Result<Vec<T>, AllocError>
    ensures { IfOk result (λ copies. copies.items ≡ replicate count value) }
{
    let mut copies = Vec::with_capacity(alloc, count)?;
    while copies.len() < count {
        copies.push_reserved(value);
    }
    Ok(copies)
}

/// The numbers below `count`.
pub(crate) fn numbers(alloc: Global, count: u16) -> Result<Vec<u32>, AllocError>
    ensures { IfOk result (λ numbers. numbers.items ≡ range_with_len 0 count) }
{
    let mut numbers = Vec::with_capacity(alloc, usize::from(count))?;
    for number in 0..count {
        numbers.push_reserved(u32::from(number));
    }
    Ok(numbers)
}
