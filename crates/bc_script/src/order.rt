//! The order of lines: which sort of line may stand after which.

ghost use Rattle.std.specs.Prelude.{◌≡◌, Some};
ghost use Rattle.bc_script.specs.declared.sort.Sort.TheVariants as sorts;
ghost use Rattle.bc_script.specs.Order as order;

use crate::sort::Sort;

/// Whether a line of this sort may stand after one of that sort, or first.
pub(crate) fn may_follow(last: Option<Sort>, sort: Sort) -> bool
    ensures { result ≡ order.may_follow last sort }
{
    match last {
        None => sort == Sort::Version,
        Some(Sort::Version) => sort == Sort::Disk,
        Some(Sort::Disk) => sort == Sort::Fallback,
        Some(Sort::Fallback) | Some(Sort::Device) => {
            sort == Sort::Device || may_follow_keys(sort)
        }
        Some(Sort::Key) => may_follow_keys(sort),
        Some(Sort::Fault) => sort == Sort::Fault || sort == Sort::Thread || sort == Sort::End,
        Some(Sort::Thread) | Some(Sort::Operation) => {
            sort == Sort::Operation || sort == Sort::Thread || sort == Sort::End
        }
        Some(Sort::End) => false,
    }
}

/// Whether a line of this sort may stand after a key's.
fn may_follow_keys(sort: Sort) -> bool
    ensures { result ≡ order.may_follow (Some sorts.Key) sort }
{
    sort == Sort::Key || sort == Sort::Fault || sort == Sort::Thread || sort == Sort::End
}
