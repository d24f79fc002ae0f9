//! A script carried out by one caller.

ghost use Rattle.std.specs.Prelude.{◌≡◌, ℕ, ◌*◌, ◌<◌, ◌≤◌, [], length, map, sum_by, IfOk, OnOk, List, None, Some};
ghost use Rattle.bc_base.specs.Lists.{list_at};
ghost use Rattle.bc_base.specs.Story.{own};
ghost use Rattle.bc_medium.specs.Entries.{caller_of};
ghost use Rattle.bc_medium.specs.Shards.{orders_of};
ghost use Rattle.bc_report.specs.declared.answer.Answer.{Answer};
ghost use Rattle.bc_script.specs.Script.{IsScript, IsScriptSection, max_ops};
ghost use Rattle.bc_report.specs.LawfulRun.{LawfulRun};
ghost use Rattle.bc_report.specs.RunOf.{run_of};
ghost use Rattle.bc_report.specs.SerialRun.{IsSerial};
ghost use Rattle.bc_section.specs.Sections.{SectionsDone, cost_of_section};
ghost use Rattle.bc_section.specs.SectionProgress.{CarriesSection};
ghost use Rattle.bc_serial.specs.Standing.{HasBegun, IsBegun, own_device};

use crate::ciphers::Ciphers;
use crate::course::Course;
use crate::direct::Direct;
use crate::keyslots::Keyslots;
use bc_base::{Items, RamStore, SECTOR_BYTES};
use bc_compose::{
    sections_in_turn_make_a_serial_run, sections_make_a_lawful_run, serial_runs_have_known_holders,
};
use bc_medium::Shards;
use bc_report::{Answer, Report};
use bc_script::limits::{MAX_BIO_SECTORS, MAX_OPS, MAX_UNITS};
use bc_script::{Op, Script};
use bc_section::{Finished, carry_out, lines_of_shards, stores_of};
use std::alloc::{AllocError, Global};

/// The most data units, evictions and resets of a script.
const MAX_ACTIONS: u32 = MAX_UNITS + MAX_OPS;

/// The most bytes that a bio has.
const BIO_BYTES: usize = MAX_BIO_SECTORS as usize * SECTOR_BYTES;

/// Carries a script out by one caller: the section of thread 0, then that of thread 1, and so on. The data units of a
/// bio that isn't refused are attempted one after the other, until one meets a fault that the script plans; bios of a
/// plug are held back and submitted together, in order.
///
/// `image` is the disk as the run finds it: 4096 bytes for each block of the script's disk, as
/// [`Script::blocks`](bc_script::Script::blocks) counts them. `shards` is 1 to 64, and block `b` lies in shard
/// `b % shards`. Script, image and shards decide the whole report and the image that is left (see
/// the law `serial_runs_agree` of runs).
///
/// # Errors
///
/// `AllocError` where memory runs out; the image is then dropped.
pub fn serial(
    alloc: Global,
    script: &Script,
    image: Vec<u8>,
    shards: u16,
) -> Result<Finished, AllocError>
    requires length { length image.items ≡ 4096 * script.now.blocks }
    requires shards { (1 ≤ shards) × (shards ≤ 64) }
    ensures lawful { IfOk result (λ finished.
        LawfulRun script.now image.items shards finished.report finished.image.items) }
    ensures serial { IfOk result (λ finished.
        IsSerial script.now (run_of script.now image.items finished.report) finished.report) }
{
    let mut direct = begin(alloc, script, image, shards)?;
    let answers = carry_sections_out(alloc, &mut direct, script.threads())?;
    let Direct { course, .. } = direct;
    let Course {
        shards,
        keyslots,
        ..
    } = course;
    let devices = keyslots.close(alloc)?;
    let (stores, orders) = shards.close();
    let image = RamStore::into_image(alloc, stores, script.blocks())?;
    let lines = lines_of_shards(alloc, orders.as_slice())?;
    sections_make_a_lawful_run();
    sections_in_turn_make_a_serial_run();
    serial_runs_have_known_holders();
    Ok(Finished {
        image,
        report: Report::new(answers, lines, devices),
    })
}

/// Opens the shards of an image for a script.
fn begin<'s>(
    alloc: Global,
    script: &'s Script,
    image: Vec<u8>,
    shards: u16,
) -> Result<Direct<'s>, AllocError>
    requires length { length image.items ≡ 4096 * script.now.blocks }
    requires shards { (1 ≤ shards) × (shards ≤ 64) }
    ensures { IfOk result (IsBegun script.now image.items shards) }
{
    let stores = stores_of(alloc, script, image, shards)?;
    let quotas = vec![in alloc; MAX_ACTIONS; usize::from(shards)]?;
    let course = Course {
        script,
        ciphers: Ciphers::of_keys(alloc, script.keys())?,
        shards: Shards::open(alloc, stores, quotas)?,
        keyslots: Keyslots::open(alloc, script)?,
        thread: 0,
        left: MAX_ACTIONS,
    };
    Ok(Direct {
        course,
        room: vec![in alloc; 0; BIO_BYTES]?,
        alloc,
    })
}

/// Carries all sections out, one after the other, and returns the answers of each.
fn carry_sections_out(
    alloc: Global,
    direct: &mut Direct,
    sections: &[Items<Op>],
) -> Result<Items<Items<Answer>>, AllocError>
    requires rules { IsScript direct.old.script }
    requires sections { sections.now ≡ direct.old.script.threads }
    requires untouched { (shard : ℕ) → list_at (orders_of direct.old.shards) shard ≡ [] }
    requires unused { (device : ℕ) → list_at direct.old.journals device ≡ [] }
    requires spare { sum_by cost_of_section sections.now ≤ direct.old.left }
    ensures done { IfOk result (SectionsDone (own_device direct.old) (own_device direct.new) sections.now) }
    ensures begun { OnOk result (HasBegun direct.new.begun direct.new.journals) }
{
    let mut answers = Vec::with_capacity(alloc, sections.len())?;
    direct.course.has_begun();
    for (thread, section) in sections.iter().enumerate() {
        let answered = carry_section_out(alloc, direct, thread as u16, section.as_slice())?;
        direct.course.has_begun();
        answers.push(answered)?;
    }
    Ok(Items::from_vec(answers))
}

/// Carries the section of a thread out, and returns the answers of its operations.
fn carry_section_out(
    alloc: Global,
    direct: &mut Direct,
    thread: u16,
    section: &[Op],
) -> Result<Items<Answer>, AllocError>
    requires rules { IsScriptSection direct.old.script section.now }
    requires new { (shard : ℕ) → own caller_of thread (list_at (orders_of direct.old.shards) shard) ≡ [] }
    requires few { length section.now ≤ max_ops }
    requires spare { cost_of_section section.now ≤ direct.old.left }
    ensures { IfOk result (CarriesSection
        (own_device (record direct.old { thread = thread; begun = direct.old.journals; opened = None }))
        (own_device direct.new) section.now) }
{
    direct.begin(thread);
    let mut noted = vec![in alloc; None; section.len()]?;
    carry_out(&(), direct, section, noted.as_mut_slice())?;
    let answers = answers_of(alloc, noted.as_slice())?;
    Ok(answers)
}

/// The answers that were noted, one for each operation.
fn answers_of(alloc: Global, noted: &[Option<Answer>]) -> Result<Items<Answer>, AllocError>
    requires all { (replies : List Answer) × (noted.now ≡ map (λ a. Some a) replies) }
    ensures { IfOk result (λ answers. map (λ a. Some a) answers ≡ noted.now) }
{
    let mut answers = Vec::with_capacity(alloc, noted.len())?;
    for answer in noted {
        let Some(answer) = answer else { unreachable!() };
        answers.push(*answer)?;
    }
    Ok(Items::from_vec(answers))
}
