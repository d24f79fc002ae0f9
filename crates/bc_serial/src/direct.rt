//! The device of a run by one caller: operations act at once, and no other caller comes between.

ghost use Rattle.std.specs.Prelude.{◌≡◌, ◌≤◌, None, IfOk, IfSome};
ghost use Rattle.bc_bio.specs.Conditions.{IsPlaced};
ghost use Rattle.bc_script.specs.Script.{keys_of, unit_count, IsScriptOp};
ghost use Rattle.bc_serial.specs.InTurn.{SubmitsBio};
ghost use Rattle.bc_section.specs.SectionProgress.{IsAcceptedBio};

use crate::course::Course;
use bc_bio::{Extent, Refusal};
use bc_key::KeyNo;
use bc_medium::order_laws;
use bc_report::Answer;
use bc_script::Op;
use bc_section::Device;
use std::alloc::{AllocError, Global};
use std::marker::Model;

/// Carries operations out on a course.
#[derive(Drop)]
pub(crate) struct Direct<'s> {
    pub(crate) course: Course<'s>,
    /// Room for all bytes of a bio.
    pub(crate) room: Vec<u8>,
    pub(crate) alloc: Global,
}

impl<'s> Model for Direct<'s> {
    ghost use Rattle.std.specs.Prelude.{◌≡◌, length};
    ghost use Rattle.bc_serial.specs.Standing.{CourseData};

    ghost Value = { CourseData };

    ghost view = { λ d. d.course };

    ghost invariant = { λ d. length d.room.items ≡ 131072 };
}

impl Direct<'_> {
    ghost use Rattle.bc_serial.specs.Standing.{own_device};

    /// Begins the section of a thread.
    pub(crate) fn begin(&mut self, thread: u16)
        ensures { self.new ≡ record self.old { thread = thread; begun = self.old.journals; opened = None } }
    {
        self.course.begin(thread);
    }

    /// Performs an operation's bio, which isn't refused, after the one of the window before it. Its
    /// first hold is taken anew where it doesn't run on from that one.
    fn submit(
        &mut self,
        op: u32,
        operation: &Op,
        last: &Option<Extent>,
    ) -> Result<Answer, AllocError>
        requires rules { IsScriptOp self.old.script operation.now }
        requires accepted { IsAcceptedBio self.old.script operation.now }
        requires last { IfSome last.now (IsPlaced (keys_of self.old.script)) }
        requires spare { unit_count operation.now ≤ self.old.left }
        ensures { IfOk result (SubmitsBio self.old self.new op operation.now last.now) }
    {
        let Some(bio) = operation.bio() else {
            unreachable!()
        };
        if !self.course.accepts(&bio) {
            unreachable!()
        }
        if !self.course.runs_on(last, &bio) {
            self.course.put();
        }
        match operation {
            Op::Write { text, .. } => {
                self.course
                    .write(self.alloc, op, &bio, text, self.room.as_mut_slice())
            }
            _ => Ok(self.course.read(op, &bio, self.room.as_mut_slice())),
        }
    }
}

impl Device<(), Answer, AllocError> for Direct<'_> {
    ghost use Rattle.std.specs.Prelude.{◌≤◌, ⊤};
    ghost use Rattle.bc_section.specs.Sections.{cost_in};
    ghost use Rattle.bc_serial.specs.Standing.{own_device};

    ghost facts = { λ d. own_device d };

    ghost affords = { λ d operations. cost_in operations ≤ d.left };

    ghost answer = { λ told. told };

    ghost Lent = { ⊤ };

    ghost lent = { λ d. tt };

    fn refusal(&self, bio: &Extent) -> Option<Refusal> {
        self.course.refusal(bio)
    }

    fn begin(&self, _rt: &(), _op: u32) {}

    fn refuse(&mut self, _rt: &(), _op: u32, _operation: &Op, refusal: Refusal) -> Answer {
        Answer::Refused(refusal)
    }

    fn plug(&mut self, _rt: &(), _op: u32) -> Answer {
        Answer::Plug
    }

    fn unplug(&mut self, _rt: &(), _op: u32) -> Answer {
        Answer::Unplug
    }

    fn window(
        &mut self,
        _rt: &(),
        section: &[Op],
        window: &[u32],
        answers: &mut [Option<Answer>],
    ) -> Result<(), AllocError> {
        order_laws();
        self.course.has_begun();
        self.course.has_devices();
        self.course.put();
        let mut last = None;
        for op in window {
            let operation = &section[*op as usize];
            let answer = self.submit(*op, operation, &last)?;
            answers[*op as usize] = Some(answer);
            last = operation.bio();
        }
        self.course.put();
        Ok(())
    }

    fn evict(&mut self, _rt: &(), _op: u32, key: KeyNo) -> Result<Answer, AllocError> {
        self.course.has_begun();
        self.course.has_devices();
        self.course.evict(key);
        Ok(Answer::Evicted)
    }

    fn reset(&mut self, _rt: &(), _op: u32, device: u8) -> Result<Answer, AllocError> {
        self.course.has_begun();
        self.course.has_devices();
        self.course.reset(device);
        Ok(Answer::Reset)
    }
}
