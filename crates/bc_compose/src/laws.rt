//! The laws of runs and their sections.

ghost use Rattle.bc_compose.specs.ComposedRun.{SectionsMakeALawfulRun, SectionsInTurnMakeASerialRun, SerialRunsHaveKnownHolders, SerialRunsAgree, OneSectionFindsNone};

use bc_bio::bio_laws;

/// Does nothing, and states that sections that are done make a run that is lawful but for who held
/// a slot. A caller's proof cites it from this call.
pub fn sections_make_a_lawful_run()
    ensures { SectionsMakeALawfulRun }
{
    bio_laws();
}

/// Does nothing, and states that sections that are done one after the other make a serial run. A
/// caller's proof cites it from this call.
pub fn sections_in_turn_make_a_serial_run()
    ensures { SectionsInTurnMakeASerialRun }
{
    bio_laws();
}

/// Does nothing, and states that in a serial run it is known who held each slot: none is found
/// held, and all are idle at the end. A caller's proof cites it from this call.
pub fn serial_runs_have_known_holders()
    ensures { SerialRunsHaveKnownHolders }
{}

/// Does nothing, and states that a script, an image and a number of shards have one serial run at
/// most. A caller's proof cites it from this call.
pub fn serial_runs_agree()
    ensures { SerialRunsAgree }
{}

/// Does nothing, and states that a lawful run of a script of one section has no refused eviction
/// and no slot that was passed over. A caller's proof cites it from this call.
pub fn one_section_finds_none()
    ensures { OneSectionFindsNone }
{}
