//! A script, carried out by a thread for each of its sections.

ghost use Rattle.std.specs.Prelude.{◌≡◌, ℕ, ◌*◌, ◌≤◌, List, length, map, IfOk};
ghost use Rattle.std.specs.Option.{option_map};
ghost use Rattle.bc_base.specs.Lists.{Each};
ghost use Rattle.bc_base.specs.RamStores.{RamData};
ghost use Rattle.bc_report.specs.LawfulRun.{LawfulButHolders};
ghost use Rattle.bc_report.specs.Report.{IsEntry, IsPart};
ghost use Rattle.bc_compose.specs.ClosedOrders.{report_line_of};
ghost use Rattle.bc_script.specs.Script.{bare_keys};
ghost use Rattle.bc_disk.specs.Disks.{PassData};
ghost use Rattle.bc_threads.specs.Runs.{AreCarriedOut, AreJobs, IsOpenedFor, answers_in};

use crate::journals::journals_of;
use crate::outcome::answers_of;
use crate::quotas::{events_of_callers, units_of_callers};
use crate::{Job, Outcome, Section, sections};
use bc_base::{Gate, Items, RamStore};
use bc_compose::sections_make_a_lawful_run;
use bc_disk::{Closed, Disk, Opened, Pass, Quota};
use bc_key::Keys;
use bc_medium::Entry;
use bc_report::{Answer, Line, Report};
use bc_script::{NamedKey, Script};
use bc_section::{Finished, lines_of_shards, stores_of};
use bc_stack::Stack;
use std::alloc::{AllocError, Global};
use std::sync::Wait;
use std::thread::Threads;

/// Carries a script out by a thread for each of its sections, all at once.
///
/// `image` is the disk as the run finds it: 4096 bytes for each block of the script's disk. `shards` is 1 to 64, and
/// block `b` lies in shard `b % shards`. Which orders come about depends on how the threads interleave, but each run is
/// lawful. The gate is passed before each operation, after its answer, and where a part of a request has its hold.
/// `helpers` is 0: there are no helpers yet.
///
/// # Errors
///
/// Out of memory: then the image is dropped.
pub fn threads<G: Gate + Sync, R: Threads + Wait + Sync>(
    rt: &R,
    alloc: Global,
    script: &Script,
    image: Vec<u8>,
    shards: u16,
    helpers: u16,
    gate: &G,
) -> Result<Finished, AllocError>
    requires length { length image.items ≡ 4096 * script.now.blocks }
    requires shards { (1 ≤ shards) × (shards ≤ 64) }
    requires helpers { helpers ≡ 0 }
    ensures lawful { IfOk result (λ finished.
        LawfulButHolders script.now image.items shards finished.report finished.image.items) }
{
    let _ = helpers;
    let Opened { disk, passes } = open_disk(alloc, script, image, shards)?;
    let (passes, answers) = carry_out_all(rt, alloc, script, &disk, passes, gate)?;
    finish(rt, alloc, script, disk, passes, answers)
}

/// Opens a disk for a script over an image, with a pass for each of its threads.
pub(crate) fn open_disk(
    alloc: Global,
    script: &Script,
    image: Vec<u8>,
    shards: u16,
) -> Result<Opened<RamStore>, AllocError>
    requires length { length image.items ≡ 4096 * script.now.blocks }
    requires shards { (1 ≤ shards) × (shards ≤ 64) }
    ensures { IfOk result (λ opened. IsOpenedFor script.now image.items shards opened.disk opened.passes.items) }
{
    let keys = keys_of(alloc, script.keys())?;
    let Ok(stack) = Stack::new(alloc, script.targets(), script.blocks()) else {
        return Err(AllocError);
    };
    let stores = stores_of(alloc, script, image, shards)?;
    let quota = Quota {
        units: units_of_callers(alloc, script, shards)?,
        events: events_of_callers(alloc, script)?,
    };
    Disk::open(
        alloc,
        keys,
        stack,
        script.fallback(),
        script.blocks(),
        stores,
        quota,
    )
}

/// The keys without their names, each under its number.
fn keys_of(alloc: Global, named: &[NamedKey]) -> Result<Keys, AllocError>
    requires few { length named.now ≤ 4096 }
    ensures { IfOk result (λ keys. keys.keys ≡ bare_keys named.now) }
{
    let mut keys = Keys::new(alloc);
    keys.reserve(named.len() as u16)?;
    for one in named {
        keys.add(one.key.copy());
    }
    Ok(keys)
}

/// Carries out all sections of a script, each by the pass of its thread. Returns the passes, and what each operation
/// of each thread was answered.
fn carry_out_all<G: Gate + Sync, R: Threads + Wait + Sync>(
    rt: &R,
    alloc: Global,
    script: &Script,
    disk: &Disk<RamStore>,
    passes: Vec<Pass<RamStore>>,
    gate: &G,
) -> Result<(Vec<Pass<RamStore>>, Items<Items<Answer>>), AllocError>
    requires opened { (image : List ℕ) × (shards : ℕ) × IsOpenedFor script.now image shards disk.now passes.items }
    ensures { IfOk result (λ done. AreCarriedOut script.now disk.now passes.items done.0.items done.1) }
{
    if script.threads().is_empty() {
        return Ok((passes, Items::new(alloc)));
    }
    carry_out_some(rt, alloc, script, disk, passes, gate)
}

/// The same where a script has a section.
pub(crate) fn carry_out_some<G: Gate + Sync, R: Threads + Wait + Sync>(
    rt: &R,
    alloc: Global,
    script: &Script,
    disk: &Disk<RamStore>,
    passes: Vec<Pass<RamStore>>,
    gate: &G,
) -> Result<(Vec<Pass<RamStore>>, Items<Items<Answer>>), AllocError>
    requires opened { (image : List ℕ) × (shards : ℕ) × IsOpenedFor script.now image shards disk.now passes.items }
    requires some { 1 ≤ length script.now.threads }
    ensures { IfOk result (λ done. AreCarriedOut script.now disk.now passes.items done.0.items done.1) }
{
    let mut jobs = jobs_of(alloc, script, passes)?;
    sections(rt, disk, jobs.as_mut_slice(), gate);
    taken_apart(alloc, jobs)
}

/// A job for each thread of a script, with its section and its pass.
fn jobs_of<'s>(
    alloc: Global,
    script: &'s Script,
    passes: Vec<Pass<RamStore>>,
) -> Result<Vec<Job<'s, RamStore>>, AllocError>
    requires passes { length passes.items ≡ length script.now.threads }
    ensures { IfOk result (λ jobs. AreJobs script.now passes.items
        (map (λ job. (job.pass, job.section)) jobs.items)) }
{
    let mut jobs = Vec::with_capacity(alloc, script.threads().len())?;
    for pass in passes {
        let thread = jobs.len() as u16;
        let section = Section::new(alloc, script, thread)?;
        jobs.push(Job {
            pass,
            section: Some(section),
            outcomes: None,
        })?;
    }
    Ok(jobs)
}

/// The passes of jobs, and the answers of their outcomes.
fn taken_apart(
    alloc: Global,
    jobs: Vec<Job<'_, RamStore>>,
) -> Result<(Vec<Pass<RamStore>>, Items<Items<Answer>>), AllocError>
    ensures passes { IfOk result (λ parts. parts.0.items ≡ map (λ job. job.pass) jobs.entry.items) }
    ensures answers { IfOk result (λ parts. parts.1
        ≡ map (λ job. answers_in (option_map (λ outcomes. outcomes.items) job.outcomes)) jobs.entry.items) }
{
    let mut passes = Vec::with_capacity(alloc, jobs.len())?;
    let mut answers = Vec::with_capacity(alloc, jobs.len())?;
    for job in jobs {
        let Job { pass, outcomes, .. } = job;
        passes.push(pass)?;
        answers.push(said(alloc, outcomes)?)?;
    }
    Ok((passes, Items::from_vec(answers)))
}

/// The answers of a job's outcomes, if it has any.
fn said(alloc: Global, outcomes: Option<Vec<Outcome>>) -> Result<Items<Answer>, AllocError>
    ensures { IfOk result (λ said. said ≡ answers_in (option_map (λ outcomes. outcomes.items) outcomes)) }
{
    match outcomes {
        Some(outcomes) => answers_of(alloc, outcomes.as_slice()),
        None => Ok(Items::new(alloc)),
    }
}

/// Closes the disk, and reports what was done.
pub(crate) fn finish<R: Wait>(
    rt: &R,
    alloc: Global,
    script: &Script,
    disk: Disk<RamStore>,
    passes: Vec<Pass<RamStore>>,
    answers: Items<Items<Answer>>,
) -> Result<Finished, AllocError>
    requires carried { (image : List ℕ) × (shards : ℕ) × (opened : List (PassData RamData))
        × IsOpenedFor script.now image shards disk opened
        × AreCarriedOut script.now disk opened passes.items answers }
    ensures lawful { IfOk result (λ finished. (image : List ℕ) (shards : ℕ) (opened : List (PassData RamData))
        → IsOpenedFor script.now image shards disk opened
        → AreCarriedOut script.now disk opened passes.items answers
        → LawfulButHolders script.now image shards finished.report finished.image.items) }
{
    let Ok(closed) = disk.close(rt, passes) else {
        return Err(AllocError);
    };
    let Closed {
        stores,
        shards,
        devices,
    } = closed;
    let image = RamStore::into_image(alloc, stores, script.blocks())?;
    let lines = lines_of(alloc, shards.as_slice())?;
    let journals = journals_of(alloc, devices)?;
    sections_make_a_lawful_run();
    Ok(Finished {
        image,
        report: Report::new(answers, lines, journals),
    })
}

/// The lines of the orders of the shards, if a report may have as many.
fn lines_of(alloc: Global, orders: &[Vec<Entry>]) -> Result<Items<Items<Line>>, AllocError>
    ensures lines { IfOk result (λ lines. lines ≡ map (λ order. map report_line_of order.items) orders.now) }
    ensures ranges { IfOk result (Each (IsPart IsEntry)) }
{
    for order in orders {
        if order.len() > u32::MAX as usize {
            return Err(AllocError);
        }
    }
    lines_of_shards(alloc, orders)
}
