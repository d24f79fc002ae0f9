//! The laws of bios.
ghost use Rattle.bc_bio.specs.Laws.{UnitsHaveSizes, UnitsLieInBlocks, UnrefusedIsAccepted};

/// Does nothing, and states what holds of each bio: its data units have 1, 2, 4 or 8 sectors, each
/// lies in one block where the bio is aligned, and the bio is accepted where no test refuses it. A
/// caller's proof cites it from this call.
#[tactic(auto, using(crate::proofs::UnitLaws::units_have_sizes, crate::proofs::UnitLaws::units_lie_in_blocks, crate::proofs::UnitLaws::unrefused_is_accepted))]
pub fn bio_laws()
    ensures sizes { UnitsHaveSizes }
    ensures blocks { UnitsLieInBlocks }
    ensures accepted { UnrefusedIsAccepted }
{}
