//! Sections that are carried out at once.

ghost use Rattle.std.specs.Prelude.{◌≡◌, ◌*◌, length};
ghost use Rattle.std.specs.List.{AllByRecursion, AllZip};
ghost use Rattle.std.specs.Option.{option_map};
ghost use Rattle.std.specs.Thread.{IsSync};
ghost use Rattle.bc_threads.specs.Jobs.{IsDone, IsReadyJob};

use crate::{Outcome, Section, work};
use bc_base::{Gate, Store};
use bc_disk::{Disk, Pass};
use std::sync::Wait;
use std::thread::{self, Threads};

/// A section that is to be carried out, or was.
#[derive(Drop)]
pub struct Job<'s, S: Store> {
    pub pass: Pass<S>,
    pub section: Option<Section<'s>>,
    pub outcomes: Option<Vec<Outcome>>,
}

/// Carries out all jobs at once, each by a thread of its own. Afterwards no job has its section,
/// and each has the outcomes that [`work`] gave on its pass.
///
/// Each job has a section that [`work`] may carry out by the job's pass.
pub fn sections<S: Store + Send, G: Gate + Sync, R: Threads + Wait + Sync>(
    rt: &R,
    disk: &Disk<S>,
    jobs: &mut [Job<'_, S>],
    gate: &G,
)
    requires ready { AllByRecursion (λ job. IsReadyJob S.contents disk.now job.pass job.section) jobs.old }
    ensures length { length jobs.new ≡ length jobs.old }
    ensures done { AllZip (λ old new. IsDone S.contents disk.now old.pass new.pass old.section new.section
        (option_map (λ outcomes. outcomes.items) new.outcomes)) jobs.old jobs.new }
{
    let threads = jobs.len();
    if threads == 0 {
        return;
    }
    thread::for_each_mut(
        rt,
        jobs,
        threads,
        &|_: usize, job: &mut Job<'_, S>|
            requires { IsSync R.row × IsReadyJob S.contents disk.now job.now.pass job.now.section }
            ensures { IsDone S.contents disk.entry.now job.entry.now.pass job.exit.now.pass job.entry.now.section
                job.exit.now.section (option_map (λ outcomes. outcomes.items) job.exit.now.outcomes) }
        { carry_out(rt, disk, job, gate) },
    );
}

/// Carries out a job.
fn carry_out<S: Store, G: Gate, R: Wait>(rt: &R, disk: &Disk<S>, job: &mut Job<'_, S>, gate: &G)
    requires ready { IsReadyJob S.contents disk.now job.old.pass job.old.section }
    ensures done { IsDone S.contents disk.now job.old.pass job.new.pass job.old.section job.new.section
        (option_map (λ outcomes. outcomes.items) job.new.outcomes) }
{
    let Some(section) = job.section.take() else {
        unreachable!()
    };
    let outcomes = work(rt, disk, &mut job.pass, section, gate);
    job.outcomes = Some(outcomes);
}
