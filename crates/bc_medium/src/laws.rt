//! Laws of orders.
ghost use Rattle.bc_medium.specs.Laws.{AnswersStay, KnownStays};

/// Does nothing, and states what holds of all orders: what the keyed disk answers at a place it
/// answers there when entries follow, and what a caller knows of an answer stays so. A caller's
/// proof cites it from this call.
pub fn order_laws()
    ensures answers_stay { AnswersStay }
    ensures known_stays { KnownStays }
{}
