//! Laws of requests that were carried out over devices.
ghost use Rattle.bc_pieces.specs.Laws.{BecomesStays, OneWayIsWhole, PartsAppend, PlannedByBios};

use bc_medium::order_laws;
use bc_queue::request_laws;

/// Does nothing, and states what holds of requests that were carried out: two parts of a request, one after the other,
/// are one part; its units are those of its bios, one bio after the other; what became of a bio stays so, and stays
/// known, when entries follow; and a request whose units all went one way was carried out as a whole. A caller's proof
/// cites it from this call, with what [`carry_out_pieces`](crate::carry_out_pieces) tells.
pub fn piece_laws()
    ensures parts_append { PartsAppend }
    ensures by_bios { PlannedByBios }
    ensures becomes_stays { BecomesStays }
    ensures one_way { OneWayIsWhole }
{
    order_laws();
    request_laws();
}
