//! The laws of holds.
ghost use Rattle.bc_profile.specs.Laws.{HoldsNameProgrammings, ProgrammingsStay, LaterHoldsNameLater, HoldsAfterEvictions};

/// Does nothing, and states what the epochs of holds tell whatever other callers do: a hold names
/// the event that programmed its slot with its key, and goes on to do so; a later hold of the key
/// by the same pass names no earlier event; and after an eviction of the key that answered `Ok` it
/// names none of the events that the pass had seen by then. A caller's proof cites it from this
/// call, with what [`Profile::get`](crate::Profile::get) and
/// [`Profile::evict`](crate::Profile::evict) tell.
pub fn hold_laws()
    ensures names { HoldsNameProgrammings }
    ensures stays { ProgrammingsStay }
    ensures later { LaterHoldsNameLater }
    ensures behind { HoldsAfterEvictions }
{}
