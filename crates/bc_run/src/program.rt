//! A run, from its words to its report, stage by stage.

ghost use Rattle.std.specs.Prelude.{◌≡◌, ◌≢◌, ◌⊎◌, ◌≤◌, ◌<◌, map, codes, length, IfSome, IfOk, IfErr, OnOk, Ok, Err};
ghost use Rattle.std.specs.String.{string_bytes};
ghost use Rattle.std.specs.Io.KnownBytes.{Consumes, Appends, IsAtEnd, Keeps};
ghost use Rattle.bc_base.specs.Outside.{Rose, HasCause, AppendsPrefix};
ghost use Rattle.bc_base.specs.Folders.{HasSame};
ghost use Rattle.bc_script.specs.ScriptText.{SaysScript};
ghost use Rattle.bc_report.specs.ReportText.{report_text};
ghost use Rattle.bc_report.specs.LawfulRun.{LawfulButHolders, LawfulRun};
ghost use Rattle.bc_report.specs.RunOf.{run_of};
ghost use Rattle.bc_report.specs.SerialRun.{IsSerial};
ghost use Rattle.bc_script.specs.declared.limits.TheConstants.{MAX_TEXT};
ghost use Rattle.bc_run.specs.Words.{FirstWordIs, IsCommand, IsMakeCommand, IsScriptCommand, IsShardCount, NamesCommand};
ghost use Rattle.bc_run.specs.Words.{options_of};
ghost use Rattle.bc_run.specs.Command.{HasImageFor, IsOneCallers, IsScriptTextOf, bytes_of_disk};
ghost use Rattle.bc_run.specs.Statuses.{ChangesOnly, EndsBy, NamesFile, ScriptEndsBy, ScriptRunEndsBy};
ghost use Rattle.bc_run.specs.Stages.{status_of, IsNotRead, said_by};
ghost use Rattle.bc_script.specs.Script as specs;

use crate::image::{opening_image, put_image};
use crate::make::make;
use crate::status::Status;
use crate::words::{Options, begins, options_of_words};
use bc_base::{Folder, Gate, ReadError, Sink, Source, read_all, write_all};
use bc_report::{Report, print};
use bc_script::limits::MAX_TEXT;
use bc_script::{ParseError, Script, no_proper_prefix, parse};
use bc_section::Finished;
use bc_serial::serial;
use bc_threads::threads;
use std::alloc::{AllocError, Global};
use std::sync::Wait;
use std::thread::Threads;

/// Runs the command that the words say, and returns how that ended. The words are those after the
/// program's name.
///
/// The first word is the command, `serial`, `threads` or `make`; the others are read by clap.
///
/// `serial` and `threads` carry a script out. Their options are `--image NAME`, `--out NAME` and
/// `--shards N` with N in 1 to 64. Their stages follow one another, and the first that refuses ends
/// the run:
///
/// 1. The words are read.
/// 2. The script is read from `script` to its end, at most 16 MiB.
/// 3. It is parsed.
/// 4. The image is got from `folder` under the name of `--image`, at most 64 MiB, and has to have
///    4096 bytes for each block of the script's disk. Without `--image` it is zeros, and no name is
///    got.
/// 5. The script is carried out over the image with the shards of `--shards`, else one: by `serial`
///    one section after the other (see [`serial`]), by `threads` a thread for each section, all at
///    once (see [`threads`]).
/// 6. The text of the report is made (see [`print`](bc_report::print)).
/// 7. The image that is left is put under the name of `--out`. Without it no name is put.
/// 8. The report is written to `out`.
///
/// Nothing is written before the image is put, and nothing is put before the whole report stands.
///
/// `make N` with N in 1 to 2048 has the options `--slots N` with N in 1 to 32, else 1, and
/// `--shards N` with N in 1 to 64, else 8, and the flag `--threads`. It generates a script (see
/// [`generate`](bc_script::generate)), carries it out over zeros, as `serial` does or with the flag
/// as `threads` does, and writes one line with the digest of the image that is left. N alone
/// decides that line (see [`make_lines_agree`](crate::make_lines_agree)). It reads nothing from
/// `script`, and gets and puts nothing.
///
/// The report and the image of `serial` are decided by script, image and shards. Those of `threads`
/// are a lawful run's, and depend on how its threads took turns: an eviction may be answered
/// `busy`, and a slot be passed over that is held, where `serial` finds it free.
///
/// The threads of `threads` and of `make --threads` pass `gate` before and after each operation,
/// and where a part of a request has its hold, so that a gate can hold one of them up until another
/// one has come somewhere; where nobody wants that it is [`FreeGate`](bc_base::FreeGate). `serial`,
/// and `make` without the flag, pass no gate.
///
/// # Errors
///
/// - [`Status::Usage`]: the first word is no command, or clap refuses the others.
/// - [`Status::ReadFault`]: the source failed, and its count of faults rose.
/// - [`Status::TooLong`]: the source had more than 16 MiB, or the image has more than 64 MiB.
/// - [`Status::BadScript`]: no script has the text; the line and the test that it fails first.
/// - [`Status::FolderFault`]: the folder failed, and its count of faults rose. Where the image was
///   being put, anything may stand under the name of `--out`.
/// - [`Status::Missing`]: the folder doesn't have the image.
/// - [`Status::ImageLength`]: the image has another length than the script's disk.
/// - [`Status::WriteFault`]: the sink failed, and its count of faults rose. It holds a prefix of
///   the report, and the image is put; or a prefix of the line of `make`.
///
/// [`Status::NoMemory`] can come at each stage but the last, and before the line is written. After
/// it, and after each other status but `Ok`, `WriteFault` and `FolderFault`, no name has changed;
/// after each but `Ok` and `WriteFault`, nothing has been written.
pub fn run<R: Threads + Wait + Sync, S: Source, K: Sink, F: Folder, G: Gate + Sync>(
    rt: &R,
    alloc: Global,
    words: &[String],
    script: &mut S,
    out: &mut K,
    folder: &mut F,
    gate: &G,
) -> Status
    // Why it ended so.
    ensures status { EndsBy (record {
      words = map string_bytes words.now;
      text = S.left script.old;
      read_faults_before = S.faults script.old;
      read_faults_after = S.faults script.new;
      effects = record {
        files_before = F.files folder.old;
        files_after = F.files folder.new;
        folder_faults_before = F.faults folder.old;
        folder_faults_after = F.faults folder.new;
        write_faults_before = K.faults out.old;
        write_faults_after = K.faults out.new;
        held_before = K.held out.old;
        held_after = K.held out.new;
      };
    }) result }
    ensures usage { (IsCommand (map string_bytes words.now) → ⊥)
        → (result ≡ Status.Usage)
        ⊎ ((result ≡ Status.NoMemory) × NamesCommand (map string_bytes words.now)) }
    ensures end { IsScriptCommand (map string_bytes words.now) → result ≡ Status.Ok → IsAtEnd (S.left script.new) }
    ensures make { FirstWordIs (codes "make") (map string_bytes words.now)
        → (script.new ≡ script.old) × (folder.new ≡ folder.old) }
    ensures untouched { result ≢ Status.Ok → result ≢ Status.WriteFault
        → Keeps (K.held out.old) (K.held out.new) }
    ensures same { result ≢ Status.Ok → result ≢ Status.WriteFault → result ≢ Status.FolderFault
        → HasSame (F.files folder.old) (F.files folder.new) }
    ensures changes { ChangesOnly (options_of (map string_bytes words.now)).out
        (F.files folder.old) (F.files folder.new) }
    ensures unused { (NamesFile (options_of (map string_bytes words.now)) → ⊥) → folder.new ≡ folder.old }
    ensures read_cause { HasCause (S.faults script.old) (S.faults script.new)
        (result ≡ Status.ReadFault) }
    ensures folder_cause { HasCause (F.faults folder.old) (F.faults folder.new)
        (result ≡ Status.FolderFault) }
    ensures write_cause { HasCause (K.faults out.old) (K.faults out.new)
        (result ≡ Status.WriteFault) }

    // A script within the limit is carried out over zeros or the image that the folder has, unless
    // a count of faults rose or memory ran out.
    ensures complete { IsScriptCommand (map string_bytes words.now)
        → IfSome (S.left script.old) (λ text. (asked : specs.Script) → IsScriptTextOf text asked
        → HasImageFor (F.files folder.old) (options_of (map string_bytes words.now)).image asked
        → (Rose (S.faults script.old) (S.faults script.new) → ⊥)
        → (Rose (F.faults folder.old) (F.faults folder.new) → ⊥)
        → (Rose (K.faults out.old) (K.faults out.new) → ⊥)
        → (result ≡ Status.Ok) ⊎ (result ≡ Status.NoMemory)) }
    // And what is generated is carried out, unless the sink's count rose or memory ran out.
    ensures make_complete { IsMakeCommand (map string_bytes words.now)
        → (Rose (K.faults out.old) (K.faults out.new) → ⊥)
        → (result ≡ Status.Ok) ⊎ (result ≡ Status.NoMemory) }
{
    no_proper_prefix();
    if begins(words, "make") {
        return make(rt, alloc, words, out, gate);
    }
    match stages(rt, alloc, words, script, out, folder, gate) {
        Ok(()) => Status::Ok,
        Err(status) => status,
    }
}

/// The stages, in their order; the first that refuses ends the run. An `Err` is never `Ok`'s
/// status.
fn stages<R: Threads + Wait + Sync, S: Source, K: Sink, F: Folder, G: Gate + Sync>(
    rt: &R,
    alloc: Global,
    words: &[String],
    source: &mut S,
    out: &mut K,
    folder: &mut F,
    gate: &G,
) -> Result<(), Status>
    ensures status { ScriptRunEndsBy (record {
      words = map string_bytes words.now;
      text = S.left source.old;
      read_faults_before = S.faults source.old;
      read_faults_after = S.faults source.new;
      effects = record {
        files_before = F.files folder.old;
        files_after = F.files folder.new;
        folder_faults_before = F.faults folder.old;
        folder_faults_after = F.faults folder.new;
        write_faults_before = K.faults out.old;
        write_faults_after = K.faults out.new;
        held_before = K.held out.old;
        held_after = K.held out.new;
      };
    }) (status_of result) }
    ensures not_ok { IfErr result (λ status. status ≢ Status.Ok) }
    ensures end { OnOk result (IsAtEnd (S.left source.new)) }
    ensures untouched { IfErr result (λ status. status ≢ Status.WriteFault
        → Keeps (K.held out.old) (K.held out.new)) }
    ensures same { IfErr result (λ status. status ≢ Status.WriteFault → status ≢ Status.FolderFault
        → HasSame (F.files folder.old) (F.files folder.new)) }
    ensures changes { ChangesOnly (options_of (map string_bytes words.now)).out
        (F.files folder.old) (F.files folder.new) }
    ensures unused { (NamesFile (options_of (map string_bytes words.now)) → ⊥) → folder.new ≡ folder.old }
    ensures read_cause { HasCause (S.faults source.old) (S.faults source.new)
        (result ≡ Err Status.ReadFault) }
    ensures folder_cause { HasCause (F.faults folder.old) (F.faults folder.new)
        (result ≡ Err Status.FolderFault) }
    ensures write_cause { HasCause (K.faults out.old) (K.faults out.new)
        (result ≡ Err Status.WriteFault) }
{
    let options = options_of_words(alloc, words)?;
    let text = read_script(alloc, source)?;
    let script = script_of_text(alloc, &text)?;
    run_script(rt, alloc, &script, options, out, folder, gate)
}

/// The stages that follow the script's parsing.
fn run_script<R: Threads + Wait + Sync, K: Sink, F: Folder, G: Gate + Sync>(
    rt: &R,
    alloc: Global,
    script: &Script,
    options: Options<'_>,
    out: &mut K,
    folder: &mut F,
    gate: &G,
) -> Result<(), Status>
    requires shards { IsShardCount options.shards }
    ensures status { ScriptEndsBy (record {
      files_before = F.files folder.old;
      files_after = F.files folder.new;
      folder_faults_before = F.faults folder.old;
      folder_faults_after = F.faults folder.new;
      write_faults_before = K.faults out.old;
      write_faults_after = K.faults out.new;
      held_before = K.held out.old;
      held_after = K.held out.new;
    }) (said_by options.entry) script.now (status_of result) }
    ensures not_ok { IfErr result (λ status. status ≢ Status.Ok) }
    ensures untouched { IfErr result (λ status. status ≢ Status.WriteFault
        → Keeps (K.held out.old) (K.held out.new)) }
    ensures same { IfErr result (λ status. status ≢ Status.WriteFault → status ≢ Status.FolderFault
        → HasSame (F.files folder.old) (F.files folder.new)) }
    ensures changes { ChangesOnly (said_by options.entry).out (F.files folder.old) (F.files folder.new) }
    ensures unused { (NamesFile (said_by options.entry) → ⊥) → folder.new ≡ folder.old }
    ensures folder_cause { HasCause (F.faults folder.old) (F.faults folder.new)
        (result ≡ Err Status.FolderFault) }
    ensures write_cause { HasCause (K.faults out.old) (K.faults out.new)
        (result ≡ Err Status.WriteFault) }
{
    let image = opening_image(alloc, folder, options.image, script)?;
    let finished = carry_out(rt, alloc, script, image, options, gate)?;
    let text = text_of_report(alloc, &finished.report)?;
    put_image(folder, options.out, &finished.image)?;
    write_text(out, &text)
}

/// The text of the script: all that is left in the source.
fn read_script<S: Source>(alloc: Global, source: &mut S) -> Result<Vec<u8>, Status>
    ensures all { IfOk result (λ text. Consumes (S.left source.old) (S.left source.new) text.items) }
    ensures end { OnOk result (IsAtEnd (S.left source.new)) }
    ensures within { IfOk result (λ text. length text.items ≤ MAX_TEXT) }
    ensures statuses { IfErr result (λ status.
        (status ≡ Status.ReadFault) ⊎ ((status ≡ Status.TooLong MAX_TEXT) ⊎ (status ≡ Status.NoMemory))) }
    ensures too_long { result ≡ Err (Status.TooLong MAX_TEXT)
        → IfSome (S.left source.old) (λ left. MAX_TEXT < length left) }
    ensures cause { HasCause (S.faults source.old) (S.faults source.new)
        (result ≡ Err Status.ReadFault) }
{
    match read_all(alloc, source, MAX_TEXT) {
        Ok(bytes) => Ok(bytes),
        Err(ReadError::Failed) => Err(Status::ReadFault),
        Err(ReadError::TooLong) => Err(Status::TooLong { limit: MAX_TEXT }),
        Err(ReadError::Memory) => Err(Status::NoMemory),
    }
}

/// The script that the text says.
fn script_of_text(alloc: Global, text: &[u8]) -> Result<Script, Status>
    ensures ok { IfOk result (SaysScript text.now) }
    ensures bad { IfErr result (IsNotRead text.now) }
{
    match parse(alloc, text) {
        Ok(script) => Ok(script),
        Err(ParseError::Bad(error)) => Err(Status::BadScript(error)),
        Err(ParseError::Memory) => Err(Status::NoMemory),
    }
}

/// Carries the script out over the image, as the options say.
pub(crate) fn carry_out<R: Threads + Wait + Sync, G: Gate + Sync>(
    rt: &R,
    alloc: Global,
    script: &Script,
    image: Vec<u8>,
    options: Options<'_>,
    gate: &G,
) -> Result<Finished, Status>
    requires length { length image.items ≡ bytes_of_disk script.now }
    requires shards { IsShardCount options.shards }
    ensures lawful { IfOk result (λ finished.
        LawfulButHolders script.now image.items options.entry.shards finished.report finished.image.items) }
    ensures one_caller { IfOk result (λ finished.
        IsOneCallers (said_by options.entry) script.now image.items finished.report finished.image.items) }
    ensures memory { IfErr result (λ e. e ≡ Status.NoMemory) }
{
    if options.at_once {
        carry_out_at_once(rt, alloc, script, image, options.shards, gate)
    } else {
        carry_out_in_turn(alloc, script, image, options.shards)
    }
}

/// Carries the script out by a thread for each section.
fn carry_out_at_once<R: Threads + Wait + Sync, G: Gate + Sync>(
    rt: &R,
    alloc: Global,
    script: &Script,
    image: Vec<u8>,
    shards: u16,
    gate: &G,
) -> Result<Finished, Status>
    requires length { length image.items ≡ bytes_of_disk script.now }
    requires shards { IsShardCount shards }
    ensures lawful { IfOk result (λ finished.
        LawfulButHolders script.now image.items shards finished.report finished.image.items) }
    ensures memory { IfErr result (λ e. e ≡ Status.NoMemory) }
{
    match threads(rt, alloc, script, image, shards, 0, gate) {
        Ok(finished) => Ok(finished),
        Err(AllocError) => Err(Status::NoMemory),
    }
}

/// Carries the script out section after section.
fn carry_out_in_turn(
    alloc: Global,
    script: &Script,
    image: Vec<u8>,
    shards: u16,
) -> Result<Finished, Status>
    requires length { length image.items ≡ bytes_of_disk script.now }
    requires shards { IsShardCount shards }
    ensures lawful { IfOk result (λ finished.
        LawfulRun script.now image.items shards finished.report finished.image.items) }
    ensures serial { IfOk result (λ finished.
        IsSerial script.now (run_of script.now image.items finished.report) finished.report) }
    ensures memory { IfErr result (λ e. e ≡ Status.NoMemory) }
{
    match serial(alloc, script, image, shards) {
        Ok(finished) => Ok(finished),
        Err(AllocError) => Err(Status::NoMemory),
    }
}

/// The text of the report.
fn text_of_report(alloc: Global, report: &Report) -> Result<Vec<u8>, Status>
    ensures ok { IfOk result (λ text. text.items ≡ report_text report.now) }
    ensures memory { IfErr result (λ e. e ≡ Status.NoMemory) }
{
    match print(alloc, report) {
        Ok(text) => Ok(text),
        Err(AllocError) => Err(Status::NoMemory),
    }
}

/// Writes the text of a report, or the line of `make`.
pub(crate) fn write_text<K: Sink>(out: &mut K, text: &[u8]) -> Result<(), Status>
    ensures ok { OnOk result (Appends (K.held out.old) (K.held out.new) text.now) }
    ensures prefix { AppendsPrefix (K.held out.old) (K.held out.new) text.now }
    ensures fault { IfErr result (λ e. e ≡ Status.WriteFault) }
    ensures cause { HasCause (K.faults out.old) (K.faults out.new)
        (result ≡ Err Status.WriteFault) }
{
    match write_all(out, text) {
        Ok(()) => Ok(()),
        Err(_) => Err(Status::WriteFault),
    }
}
