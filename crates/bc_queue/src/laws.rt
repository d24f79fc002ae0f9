//! Laws of requests that were carried out.
ghost use Rattle.bc_queue.specs.Laws.{AttemptedByNames};

/// Does nothing, and states what was carried out of a request by the names of its units, as the orders have them: where
/// its bios have different tags, the entries are those of the units that the lawful orders attempt, each once, in their
/// order. A caller's proof cites it from this call, with what [`carry_out`](crate::carry_out) and the calls of
/// [`Queue`](crate::Queue) tell.
pub fn request_laws()
    ensures by_names { AttemptedByNames }
{}
