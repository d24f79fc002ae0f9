//! A report that is being read, line after line.

ghost use Rattle.std.specs.Prelude.{◌≡◌, ◌≤◌, ◌<◌, ◌++◌, ◌∷◌, [], length, OnOk, OnErr, IfErr, MatchOption};
ghost use Rattle.bc_report.specs.declared.limits.TheConstants.{MAX_THREADS, MAX_SHARDS, MAX_DEVICES};
ghost use Rattle.bc_report.specs.Report.{IsAnswer, IsEntry, IsEvent};
ghost use Rattle.bc_report.specs.declared.part.Part.TheVariants as parts;
ghost use Rattle.bc_report.specs.declared.sort.Sort.TheVariants as sorts;
ghost use Rattle.bc_report.specs.LinePlaces.{sort_of_line};
ghost use Rattle.bc_report.specs.Progress.{IsProgress, IsIn, TookReportLine, RefusesLine, IsWholeReport, IsNotWhole, lines_read, line_place_of, after_head, with_answer, with_entry, with_event, with_thread, with_shard, with_device, with_foot, thread_closed, shard_closed, device_closed, report_read};
ghost use Rattle.bc_report.specs.LinePlaces as course;

use crate::answer::Answer;
use crate::line::Line;
use crate::line_values;
use crate::part::Part;
use crate::report::Report;
use crate::sort::Sort;
use crate::unread::Unread;
use bc_base::Items;
use bc_profile::Event;
use bc_text::Parts;
use std::alloc::{AllocError, Global};
use std::marker::Model;

/// What the lines say that have been read.
#[derive(Drop)]
pub(crate) struct Reader {
    part: Part,
    /// The parts that are whole.
    threads: Vec<Items<Answer>>,
    shards: Vec<Items<Line>>,
    devices: Vec<Items<Event>>,
    /// The lines of the part that is being read, and how many it still needs.
    answers: Vec<Answer>,
    entries: Vec<Line>,
    events: Vec<Event>,
    owed: u32,
}

impl Model for Reader {
    ghost use Rattle.bc_report.specs.Progress.{Progress, IsProgress};

    ghost Value = { Progress };

    ghost view = { λ r. record {
      part = r.part;
      threads = r.threads.items;
      shards = r.shards.items;
      devices =
          r.devices.items;
      answers = r.answers.items;
      entries = r.entries.items;
      events = r.events.items;
      owed = r.owed;
    } };

    ghost invariant = { λ r. IsProgress (record {
      part = r.part;
      threads = r.threads.items;
      shards = r.shards.items;
      devices = r.devices.items;
      answers = r.answers.items;
      entries = r.entries.items;
      events = r.events.items;
      owed
          = r.owed;
    }) };
}

impl Reader {
    /// No line has been read.
    pub(crate) fn new(alloc: Global) -> Reader
        ensures nothing_read { lines_read result ≡ [] }
        ensures at_head { line_place_of result ≡ course.Head }
        ensures rules { IsProgress result }
    {
        Reader {
            part: Part::Head,
            threads: Vec::new(alloc),
            shards: Vec::new(alloc),
            devices: Vec::new(alloc),
            answers: Vec::new(alloc),
            entries: Vec::new(alloc),
            events: Vec::new(alloc),
            owed: 0,
        }
    }

    /// Reads the next line.
    pub(crate) fn take(&mut self, alloc: Global, line: Parts) -> Result<(), Unread>
        ensures ok { OnOk result (TookReportLine self.old line.entry self.new) }
        ensures bad { IfErr result (RefusesLine self.old line.entry) }
    {
        match self.part() {
            Part::Head => self.head(line),
            Part::Between => self.next_part(alloc, line),
            Part::Answers => self.in_thread(alloc, line),
            Part::Entries => self.in_shard(alloc, line),
            Part::Events => self.in_device(alloc, line),
            Part::Foot => Err(Unread::Bad),
        }
    }

    /// The report whose last line has been read, and which has nothing after it but this.
    #[tactic(auto, using(crate::proofs::Nothing::is_the_nothing, crate::proofs::Nothing::is_not_nothing))]
    pub(crate) fn finish(self, rest: Parts) -> Option<Report>
        ensures { MatchOption result (IsNotWhole self rest.entry) (IsWholeReport self rest.entry) }
    {
        if !rest.is_nothing() {
            return None;
        }
        match self.part() {
            Part::Foot => Some(self.into_report()),
            _ => None,
        }
    }

    // ---- the part that is being read goes on, or is whole

    fn head(&mut self, line: Parts) -> Result<(), Unread>
        requires { IsIn parts.Head self.old }
        ensures ok { OnOk result (TookReportLine self.old line.entry self.new) }
        ensures bad { IfErr result (RefusesLine self.old line.entry) }
    {
        if !line_values::is_head(line) {
            return Err(Unread::Bad);
        }
        self.begin();
        Ok(())
    }

    fn in_thread(&mut self, alloc: Global, line: Parts) -> Result<(), Unread>
        requires { IsIn parts.Answers self.old }
        ensures ok { OnOk result (TookReportLine self.old line.entry self.new) }
        ensures bad { IfErr result (RefusesLine self.old line.entry) }
    {
        match line_values::sort(&line) {
            Sort::Other => self.answer(line),
            _ => {
                self.close_thread(alloc)?;
                self.next_part(alloc, line)
            }
        }
    }

    fn in_shard(&mut self, alloc: Global, line: Parts) -> Result<(), Unread>
        requires { IsIn parts.Entries self.old }
        ensures ok { OnOk result (TookReportLine self.old line.entry self.new) }
        ensures bad { IfErr result (RefusesLine self.old line.entry) }
    {
        if self.owed == 0 {
            self.close_shard(alloc)?;
            return self.next_part(alloc, line);
        }
        let Some(entry) = line_values::entry(line) else {
            return Err(Unread::Bad);
        };
        self.add_entry(entry)?;
        Ok(())
    }

    fn in_device(&mut self, alloc: Global, line: Parts) -> Result<(), Unread>
        requires { IsIn parts.Events self.old }
        ensures ok { OnOk result (TookReportLine self.old line.entry self.new) }
        ensures bad { IfErr result (RefusesLine self.old line.entry) }
    {
        if self.owed == 0 {
            self.close_device(alloc)?;
            return self.next_part(alloc, line);
        }
        let Some(event) = line_values::event(line) else {
            return Err(Unread::Bad);
        };
        self.add_event(event)?;
        Ok(())
    }

    fn answer(&mut self, line: Parts) -> Result<(), Unread>
        requires part { IsIn parts.Answers self.old }
        requires sort { sort_of_line line ≡ sorts.Other }
        ensures ok { OnOk result (TookReportLine self.old line.entry self.new) }
        ensures bad { IfErr result (RefusesLine self.old line.entry) }
    {
        let Some(answer) = line_values::answer(line) else {
            return Err(Unread::Bad);
        };
        self.add_answer(answer)?;
        Ok(())
    }

    // ---- the next part, or the foot

    fn next_part(&mut self, alloc: Global, line: Parts) -> Result<(), Unread>
        requires { IsIn parts.Between self.old }
        ensures ok { OnOk result (TookReportLine self.old line.entry self.new) }
        ensures bad { IfErr result (RefusesLine self.old line.entry) }
    {
        match line_values::sort(&line) {
            Sort::Thread => self.thread(alloc, line),
            Sort::Shard => self.shard(alloc, line),
            Sort::Device => self.device(alloc, line),
            Sort::End => self.end(line),
            Sort::Other => Err(Unread::Bad),
        }
    }

    fn thread(&mut self, alloc: Global, line: Parts) -> Result<(), Unread>
        requires part { IsIn parts.Between self.old }
        requires sort { sort_of_line line ≡ sorts.Thread }
        ensures ok { OnOk result (TookReportLine self.old line.entry self.new) }
        ensures bad { IfErr result (RefusesLine self.old line.entry) }
    {
        if self.shards.len() != 0 || self.devices.len() != 0 {
            return Err(Unread::Bad);
        }
        let Some(number) = line_values::thread(line) else {
            return Err(Unread::Bad);
        };
        if number as usize != self.threads.len() {
            return Err(Unread::Bad);
        }
        self.begin_thread(alloc);
        Ok(())
    }

    fn shard(&mut self, alloc: Global, line: Parts) -> Result<(), Unread>
        requires part { IsIn parts.Between self.old }
        requires sort { sort_of_line line ≡ sorts.Shard }
        ensures ok { OnOk result (TookReportLine self.old line.entry self.new) }
        ensures bad { IfErr result (RefusesLine self.old line.entry) }
    {
        if self.devices.len() != 0 {
            return Err(Unread::Bad);
        }
        let Some((number, count)) = line_values::shard(line) else {
            return Err(Unread::Bad);
        };
        if number as usize != self.shards.len() {
            return Err(Unread::Bad);
        }
        self.begin_shard(alloc, count);
        Ok(())
    }

    fn device(&mut self, alloc: Global, line: Parts) -> Result<(), Unread>
        requires part { IsIn parts.Between self.old }
        requires sort { sort_of_line line ≡ sorts.Device }
        ensures ok { OnOk result (TookReportLine self.old line.entry self.new) }
        ensures bad { IfErr result (RefusesLine self.old line.entry) }
    {
        let Some((number, count)) = line_values::device(line) else {
            return Err(Unread::Bad);
        };
        if number as usize != self.devices.len() {
            return Err(Unread::Bad);
        }
        self.begin_device(alloc, count);
        Ok(())
    }

    fn end(&mut self, line: Parts) -> Result<(), Unread>
        requires part { IsIn parts.Between self.old }
        requires sort { sort_of_line line ≡ sorts.End }
        ensures ok { OnOk result (TookReportLine self.old line.entry self.new) }
        ensures bad { IfErr result (RefusesLine self.old line.entry) }
    {
        if !line_values::is_foot(line) {
            return Err(Unread::Bad);
        }
        self.begin_foot();
        Ok(())
    }

    // ---- what has been read changes

    /// The part that is being read.
    fn part(&self) -> Part
        ensures { IsIn result self.now }
    {
        self.part
    }

    fn begin(&mut self)
        requires { IsIn parts.Head self.old }
        ensures { self.new ≡ after_head self.old }
    {
        self.part = Part::Between;
    }

    fn begin_thread(&mut self, alloc: Global)
        requires part { IsIn parts.Between self.old }
        requires first { (self.old.shards ≡ []) × (self.old.devices ≡ []) }
        requires room { length self.old.threads < MAX_THREADS }
        ensures { self.new ≡ with_thread self.old }
    {
        self.answers = Vec::new(alloc);
        self.part = Part::Answers;
    }

    fn begin_shard(&mut self, alloc: Global, count: u32)
        requires part { IsIn parts.Between self.old }
        requires first { self.old.devices ≡ [] }
        requires room { length self.old.shards < MAX_SHARDS }
        ensures { self.new ≡ with_shard self.old count }
    {
        self.entries = Vec::new(alloc);
        self.owed = count;
        self.part = Part::Entries;
    }

    fn begin_device(&mut self, alloc: Global, count: u32)
        requires part { IsIn parts.Between self.old }
        requires room { length self.old.devices < MAX_DEVICES }
        ensures { self.new ≡ with_device self.old count }
    {
        self.events = Vec::new(alloc);
        self.owed = count;
        self.part = Part::Events;
    }

    fn begin_foot(&mut self)
        requires { IsIn parts.Between self.old }
        ensures { self.new ≡ with_foot self.old }
    {
        self.part = Part::Foot;
    }

    fn add_answer(&mut self, answer: Answer) -> Result<(), AllocError>
        requires part { IsIn parts.Answers self.old }
        requires valid { IsAnswer answer }
        ensures { OnOk result (self.new ≡ with_answer self.old answer) }
    {
        self.answers.push(answer)?;
        Ok(())
    }

    fn add_entry(&mut self, entry: Line) -> Result<(), AllocError>
        requires part { IsIn parts.Entries self.old }
        requires owed { 1 ≤ self.old.owed }
        requires valid { IsEntry entry }
        ensures { OnOk result (self.new ≡ with_entry self.old entry) }
    {
        self.entries.push(entry)?;
        self.owed -= 1;
        Ok(())
    }

    fn add_event(&mut self, event: Event) -> Result<(), AllocError>
        requires part { IsIn parts.Events self.old }
        requires owed { 1 ≤ self.old.owed }
        requires valid { IsEvent event }
        ensures { OnOk result (self.new ≡ with_event self.old event) }
    {
        self.events.push(event)?;
        self.owed -= 1;
        Ok(())
    }

    fn close_thread(&mut self, alloc: Global) -> Result<(), AllocError>
        requires { IsIn parts.Answers self.old }
        ensures { OnOk result (self.new ≡ thread_closed self.old) }
    {
        close(alloc, &mut self.answers, &mut self.threads)?;
        self.part = Part::Between;
        Ok(())
    }

    fn close_shard(&mut self, alloc: Global) -> Result<(), AllocError>
        requires part { IsIn parts.Entries self.old }
        requires whole { self.old.owed ≡ 0 }
        ensures { OnOk result (self.new ≡ shard_closed self.old) }
    {
        close(alloc, &mut self.entries, &mut self.shards)?;
        self.part = Part::Between;
        Ok(())
    }

    fn close_device(&mut self, alloc: Global) -> Result<(), AllocError>
        requires part { IsIn parts.Events self.old }
        requires whole { self.old.owed ≡ 0 }
        ensures { OnOk result (self.new ≡ device_closed self.old) }
    {
        close(alloc, &mut self.events, &mut self.devices)?;
        self.part = Part::Between;
        Ok(())
    }

    fn into_report(self) -> Report
        requires { IsIn parts.Foot self }
        ensures { result ≡ report_read self }
    {
        let Reader {
            threads,
            shards,
            devices,
            ..
        } = self;
        Report::new(
            Items::from_vec(threads),
            Items::from_vec(shards),
            Items::from_vec(devices),
        )
    }
}

/// Puts the lines of a part that is whole after those of the others.
fn close<T: Drop>(
    alloc: Global,
    lines: &mut Vec<T>,
    whole: &mut Vec<Items<T>>,
) -> Result<(), AllocError>
    ensures closed { OnOk result (whole.new.items ≡ whole.old.items ++ lines.old.items ∷ []) }
    ensures begun { OnOk result (lines.new.items ≡ []) }
    ensures kept { OnErr result (whole.new.items ≡ whole.old.items) }
    ensures going_on { OnErr result (lines.new.items ≡ lines.old.items) }
{
    whole.reserve(1)?;
    let ended = std::mem::replace(lines, Vec::new(alloc));
    let Ok(()) = whole.push(Items::from_vec(ended)) else {
        unreachable!()
    };
    Ok(())
}
