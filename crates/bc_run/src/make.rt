//! The command `make`: a script is generated and carried out over zeros, and the digest of what is
//! left is written.

ghost use Rattle.std.specs.Prelude.{false, ◌≡◌, ◌≢◌, ◌≤◌, ◌++◌, map, codes, IfOk, IfErr, OnOk, Err};
ghost use Rattle.std.specs.String.{string_bytes};
ghost use Rattle.std.specs.Io.KnownBytes.{Keeps};
ghost use Rattle.bc_base.specs.Outside.{HasCause};
ghost use Rattle.bc_script.specs.GeneratedScript.{generated};
ghost use Rattle.bc_report.specs.LawfulRun.{LawfulButHolders};
ghost use Rattle.bc_report.specs.SerialRun.{IsSerialRun};
ghost use Rattle.bc_run.specs.Words.{AreMakeOptions, FirstWordIs};
ghost use Rattle.bc_run.specs.Command.{zeros_for};
ghost use Rattle.bc_run.specs.Making.{IsMade, with_number, make_line_of};
ghost use Rattle.bc_run.specs.Statuses.{MakeEndsBy};
ghost use Rattle.bc_run.specs.Stages.{options_of_making, status_of};

use crate::image::zeros;
use crate::make_words::{Making, making_of_words};
use crate::program::{carry_out, write_text};
use crate::status::Status;
use crate::words::Options;
use bc_base::{Gate, Sink};
use bc_made::runs_leave_the_made_image;
use bc_script::{Script, generate};
use bc_section::Finished;
use bc_text::{put_hex, put_number};
use sha2::{Digest, Sha256};
use std::alloc::{AllocError, Global};
use std::sync::Wait;
use std::thread::Threads;

/// How many data units the script of `make` writes and reads for each of its number: sixteen
/// threads write one and read it.
const UNITS: u64 = 32;

/// Runs the command `make`, which the first word names, and returns how that ended.
pub(crate) fn make<R: Threads + Wait + Sync, K: Sink, G: Gate + Sync>(
    rt: &R,
    alloc: Global,
    words: &[String],
    out: &mut K,
    gate: &G,
) -> Status
    requires named { FirstWordIs (codes "make") (map string_bytes words.now) }
    ensures status { MakeEndsBy (map string_bytes words.now) (record {
      faults_before = K.faults out.old;
      faults_after = K.faults out.new;
      held_before = K.held out.old;
      held_after = K.held out.new;
    }) result }
    ensures untouched { result ≢ Status.Ok → result ≢ Status.WriteFault
        → Keeps (K.held out.old) (K.held out.new) }
    ensures cause { HasCause (K.faults out.old) (K.faults out.new) (result ≡ Status.WriteFault) }
{
    match write_line(rt, alloc, words, out, gate) {
        Ok(()) => Status::Ok,
        Err(status) => status,
    }
}

/// Reads the words, carries the script of their numbers out, and writes the line. An `Err` is never
/// `Ok`'s status.
fn write_line<R: Threads + Wait + Sync, K: Sink, G: Gate + Sync>(
    rt: &R,
    alloc: Global,
    words: &[String],
    out: &mut K,
    gate: &G,
) -> Result<(), Status>
    requires named { FirstWordIs (codes "make") (map string_bytes words.now) }
    ensures status { MakeEndsBy (map string_bytes words.now) (record {
      faults_before = K.faults out.old;
      faults_after = K.faults out.new;
      held_before = K.held out.old;
      held_after = K.held out.new;
    }) (status_of result) }
    ensures not_ok { IfErr result (λ status. status ≢ Status.Ok) }
    ensures untouched { IfErr result (λ status. status ≢ Status.WriteFault
        → Keeps (K.held out.old) (K.held out.new)) }
    ensures cause { HasCause (K.faults out.old) (K.faults out.new) (result ≡ Err Status.WriteFault) }
{
    let making = making_of_words(alloc, words)?;
    let line = made(rt, alloc, making, gate)?;
    write_text(out, &line)
}

/// Carries the script of these numbers out, and returns the line.
fn made<R: Threads + Wait + Sync, G: Gate + Sync>(
    rt: &R,
    alloc: Global,
    making: Making,
    gate: &G,
) -> Result<Vec<u8>, Status>
    requires ranges { AreMakeOptions (options_of_making making) }
    ensures made { IfOk result (λ line. IsMade (λ written. written ≡ line.items) (options_of_making making)) }
    ensures memory { IfErr result (λ e. e ≡ Status.NoMemory) }
{
    runs_leave_the_made_image();
    let script = script_of(alloc, making)?;
    let finished = over_zeros(rt, alloc, &script, making, gate)?;
    line_left(alloc, making.n, &finished.image)
}

/// Carries the script out over zeros.
fn over_zeros<R: Threads + Wait + Sync, G: Gate + Sync>(
    rt: &R,
    alloc: Global,
    script: &Script,
    making: Making,
    gate: &G,
) -> Result<Finished, Status>
    requires ranges { AreMakeOptions (options_of_making making) }
    ensures lawful { IfOk result (λ finished.
        LawfulButHolders script.now (zeros_for script.now) making.shards finished.report finished.image.items) }
    ensures one_caller { IfOk result (λ finished. making.at_once ≡ false
        → IsSerialRun script.now (zeros_for script.now) making.shards finished.report finished.image.items) }
    ensures memory { IfErr result (λ e. e ≡ Status.NoMemory) }
{
    let image = zeros(alloc, script)?;
    let options = Options {
        image: None,
        out: None,
        shards: making.shards,
        at_once: making.at_once,
    };
    let finished = carry_out(rt, alloc, script, image, options, gate)?;
    Ok(finished)
}

/// The script of these numbers.
fn script_of(alloc: Global, making: Making) -> Result<Script, Status>
    requires ranges { AreMakeOptions (options_of_making making) }
    ensures script { IfOk result (λ script. script ≡ generated making.n making.slots) }
    ensures memory { IfErr result (λ e. e ≡ Status.NoMemory) }
{
    match generate(alloc, making.n, making.slots) {
        Ok(script) => Ok(script),
        Err(AllocError) => Err(Status::NoMemory),
    }
}

/// The line of a run that leaves this image.
fn line_left(alloc: Global, n: u32, image: &[u8]) -> Result<Vec<u8>, Status>
    requires { n ≤ 2048 }
    ensures line { IfOk result (λ line. line.items ≡ make_line_of n image.now) }
    ensures memory { IfErr result (λ e. e ≡ Status.NoMemory) }
{
    match line_of(alloc, n, image) {
        Ok(line) => Ok(line),
        Err(AllocError) => Err(Status::NoMemory),
    }
}

/// The bytes of that line.
fn line_of(alloc: Global, n: u32, image: &[u8]) -> Result<Vec<u8>, AllocError>
    requires { n ≤ 2048 }
    ensures { IfOk result (λ line. line.items ≡ make_line_of n image.now) }
{
    let units = UNITS * u64::from(n);
    let mut line = Vec::new(alloc);
    put_counted(&mut line, b"make ", u64::from(n))?;
    put_counted(&mut line, b": bios ", units)?;
    put_counted(&mut line, b" units ", units)?;
    put_counted(&mut line, b" done ", units)?;
    put_counted(&mut line, b" faults ", 0)?;
    line.extend_from_slice(b" image ")?;
    put_hex(&mut line, &Sha256::digest(image))?;
    line.push(b'\n')?;
    Ok(line)
}

/// Appends a number after a word.
fn put_counted(line: &mut Vec<u8>, word: &[u8], number: u64) -> Result<(), AllocError>
    ensures { OnOk result (line.new.items ≡ line.old.items ++ with_number word.now number) }
{
    line.extend_from_slice(word)?;
    put_number(line, number)
}
