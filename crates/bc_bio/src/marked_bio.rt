//! A bio of a request.
ghost use Rattle.std.specs.Prelude.{◌≡◌, Some};
ghost use Rattle.bc_bio.specs.Requests.{first_fault, is_after, reply_of};

use crate::{Bio, Reply};

/// A bio of a request, and the first of its units that met a fault.
#[derive(Drop)]
pub struct MarkedBio {
    pub bio: Bio,
    pub fault: Option<u32>,
}

/// The first of two units that met a fault.
pub(crate) fn first_fault(unit: u32, fault: Option<u32>) -> u32
    ensures { result ≡ first_fault unit fault }
{
    match fault {
        None => unit,
        Some(fault) => unit.min(fault),
    }
}

/// Whether an earlier unit met a fault.
pub(crate) fn is_after(unit: u32, fault: Option<u32>) -> bool
    ensures { result ≡ is_after unit fault }
{
    match fault {
        None => false,
        Some(fault) => fault < unit,
    }
}

/// What becomes of a bio that has been carried out.
pub(crate) fn reply_of(marked: MarkedBio) -> Reply
    ensures { result ≡ reply_of marked }
{
    match marked.fault {
        None => Reply::Done(marked.bio),
        Some(unit) => Reply::Fault {
            unit,
            bio: marked.bio,
        },
    }
}
