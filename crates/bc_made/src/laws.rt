//! The law of generated scripts.

ghost use Rattle.bc_made.specs.Laws.{RunsLeaveTheMadeImage};

use bc_bio::bio_laws;
use bc_modes::unit_laws;

/// Does nothing, and states that every lawful run of a generated script over zeros leaves the image
/// that its number of pairs decides, whatever its keyslots, its shards and the order in which its
/// threads came. A caller's proof cites it from this call.
pub fn runs_leave_the_made_image()
    ensures { RunsLeaveTheMadeImage }
{
    unit_laws();
    bio_laws();
}
