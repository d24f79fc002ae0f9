//! What the operations of a thread come to.

ghost use Rattle.std.specs.Prelude.{◌≡◌, ◌++◌, flat_map, map, IfOk, OnOk};
ghost use Rattle.bc_report.specs.Answers.{read_answer};
ghost use Rattle.bc_threads.specs.Outcomes.{answer_in, answer_of_reply, bytes_of_unit, bytes_of_bio, done_answer};

use bc_base::Items;
use bc_bio::{Access, Bio, Reply, Unit};
use bc_disk::Busy;
use bc_report::Answer;
use bc_section::answer_of as answer_of_read;
use std::alloc::{AllocError, Global};

/// What an operation came to.
#[derive(Drop)]
pub enum Outcome {
    /// A bio was answered.
    Replied(Reply),
    /// No slot had the key afterwards, as far as its device's journal was seen.
    Evicted,
    /// A device found the key's slot held.
    Busy(Busy),
    Reset,
    Plug,
    Unplug,
}

/// How a report says these outcomes, in order.
pub(crate) fn answers_of(alloc: Global, outcomes: &[Outcome]) -> Result<Items<Answer>, AllocError>
    ensures { IfOk result (λ answers. answers ≡ map answer_in outcomes.now) }
{
    let mut room = Vec::new(alloc);
    let mut answers = Vec::with_capacity(alloc, outcomes.len())?;
    for outcome in outcomes {
        answers.push(answer_of(outcome, &mut room)?)?;
    }
    Ok(Items::from_vec(answers))
}

/// How it says an outcome. The bytes of a read are brought together in `room`.
fn answer_of(outcome: &Outcome, room: &mut Vec<u8>) -> Result<Answer, AllocError>
    ensures { IfOk result (λ answer. answer ≡ answer_in outcome.now) }
{
    match outcome {
        Outcome::Replied(reply) => answer_of_reply(reply, room),
        Outcome::Evicted => Ok(Answer::Evicted),
        Outcome::Busy(busy) => Ok(Answer::Busy {
            device: busy.device,
            slot: busy.slot,
            refs: busy.refs,
        }),
        Outcome::Reset => Ok(Answer::Reset),
        Outcome::Plug => Ok(Answer::Plug),
        Outcome::Unplug => Ok(Answer::Unplug),
    }
}

/// How it says a reply.
fn answer_of_reply(reply: &Reply, room: &mut Vec<u8>) -> Result<Answer, AllocError>
    ensures { IfOk result (λ answer. answer ≡ answer_of_reply reply.now) }
{
    match reply {
        Reply::Done(bio) => answer_of_done(bio, room),
        Reply::Fault { unit, .. } => Ok(Answer::Fault(*unit)),
        Reply::Refused(refusal, _) => Ok(Answer::Refused(*refusal)),
    }
}

/// How it says that a bio was done.
fn answer_of_done(bio: &Bio, room: &mut Vec<u8>) -> Result<Answer, AllocError>
    ensures { IfOk result (λ answer. answer ≡ done_answer bio.now.access bio.now) }
{
    match bio.access {
        Access::Write => Ok(Answer::Wrote),
        Access::Read => {
            bring_together(bio.units.as_slice(), room)?;
            Ok(answer_of_read(room.as_slice()))
        }
    }
}

/// Leaves in `room` the bytes of these units, one after the other, and nothing else.
fn bring_together(units: &[Unit], room: &mut Vec<u8>) -> Result<(), AllocError>
    ensures { OnOk result (room.new.items ≡ flat_map bytes_of_unit units.now) }
{
    room.clear();
    for unit in units {
        append(unit, room)?;
    }
    Ok(())
}

/// Appends the bytes of a unit.
fn append(unit: &Unit, room: &mut Vec<u8>) -> Result<(), AllocError>
    ensures { OnOk result (room.new.items ≡ room.old.items ++ bytes_of_unit unit.now) }
{
    match unit {
        Unit::Full(bytes) => room.extend_from_slice(bytes.as_slice()),
        _ => Ok(()),
    }
}
