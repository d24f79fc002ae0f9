//! A section that is to be carried out.

ghost use Rattle.std.specs.Prelude.{◌≡◌, ◌<◌, length, IfOk};

use crate::Outcome;
use crate::prepared::bios_of;
use bc_bio::{Bio, Reply};
use bc_queue::Plug;
use bc_script::Script;
use bc_script::limits::MAX_PLUGGED;
use std::alloc::{AllocError, Global};
use std::marker::Model;

/// A section of a script that is to be carried out, with all memory that this takes: its bios with
/// their units' bytes, a plug, and room for the replies and outcomes.
#[derive(Drop)]
pub struct Section<'s> {
    pub(crate) script: &'s Script,
    pub(crate) thread: u16,
    /// By operation, its bio, if it has one.
    pub(crate) bios: Vec<Option<Bio>>,
    pub(crate) plug: Plug,
    pub(crate) replies: Vec<Reply>,
    /// By operation, none yet.
    pub(crate) noted: Vec<Option<Outcome>>,
    /// Room for the outcomes in order.
    pub(crate) outcomes: Vec<Outcome>,
}

impl<'s> Model for Section<'s> {
    ghost use Rattle.std.specs.Prelude.{vec_capacity};
    ghost use Rattle.bc_threads.specs.PreparedBios.{IsPreparedSection, SectionData};

    ghost Value = { SectionData };

    ghost view = { λ s. record { script = s.script.now; thread = s.thread } };

    ghost invariant = { λ s. IsPreparedSection s.script.now s.thread s.bios.items s.plug s.replies.items
        (vec_capacity s.replies) s.noted.items s.outcomes.items (vec_capacity s.outcomes) };
}

impl<'s> Section<'s> {
    /// The section of a thread of the script, of which the first is 0, with all memory that carrying it out takes.
    /// [`work`](crate::work) carries it out.
    ///
    /// # Errors
    ///
    /// Out of memory.
    pub fn new(alloc: Global, script: &'s Script, thread: u16) -> Result<Section<'s>, AllocError>
        requires thread { thread < length script.now.threads }
        ensures { IfOk result (λ section. section ≡ record { script = script.now; thread = thread }) }
    {
        let operations = script.threads()[usize::from(thread)].as_slice();
        let bios = bios_of(alloc, script, operations)?;
        let plug = Plug::new(alloc)?;
        let replies = Vec::with_capacity(alloc, MAX_PLUGGED)?;
        let noted = none_noted(alloc, operations.len())?;
        let outcomes = Vec::with_capacity(alloc, operations.len())?;
        Ok(Section {
            script,
            thread,
            bios,
            plug,
            replies,
            noted,
            outcomes,
        })
    }
}

/// So many places, in which no outcome is noted.
fn none_noted(alloc: Global, count: usize) -> Result<Vec<Option<Outcome>>, AllocError>
    ensures { IfOk result (λ noted. length noted.items ≡ count) }
{
    let mut noted = Vec::with_capacity(alloc, count)?;
    for _ in 0..count {
        noted.push(None)?;
    }
    Ok(noted)
}
