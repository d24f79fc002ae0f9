//! The whole program over memory.
ghost use Rattle.std.specs.Prelude.{false, ◌≡◌, ◌∷◌, [], IfOk, Some, None, codes, map};
ghost use Rattle.bc_base.specs.Folders.{file_bytes};
ghost use Rattle.std.specs.String.{string_bytes};
ghost use Rattle.bc_run.specs.Command.{IsCarriedOut, IsScriptAnd};

use bc_base::{FreeGate, MemFolder, MemSink, MemSource};
use bc_run::{Status, run, words_by_example};
use std::alloc::{AllocError, Global};
use std::sync::Wait;
use std::thread::Threads;

/// What the script's report may have at most, in bytes.
const ROOM: usize = 1 << 20;

/// The words of the command.
fn serial_words(alloc: Global) -> Result<Vec<String>, AllocError>
    ensures { IfOk result (λ words. map string_bytes words.items ≡ codes "serial" ∷ []) }
{
    let mut words = Vec::new(alloc);
    words.push(String::from_str(alloc, "serial")?)?;
    Ok(words)
}

/// Carries out the script that a text says, over zeros. The sink holds the report.
///
/// # Errors
/// The status of [`run`](bc_run::run) where it isn't `Ok`, and `NoMemory` where there is no memory to begin with.
#[tactic(auto, using(bc_run::proofs::MakeEnds::script_ends))]
pub fn report_of<R: Threads + Wait + Sync>(
    rt: &R,
    alloc: Global,
    text: Vec<u8>,
) -> Result<MemSink, Status>
    ensures { IfOk result (λ sink. IsScriptAnd (IsCarriedOut (λ report left. sink.held ≡ report)
        (Some (file_bytes [])) (record { image = None; out = None; shards = 1; at_once = false })) (Some text.items)) }
{
    let Ok(words) = serial_words(alloc) else {
        return Err(Status::NoMemory);
    };
    let mut script = MemSource::new(text, 4096, Vec::new(alloc));
    let Ok(mut out) = MemSink::new(alloc, ROOM, 4096, Vec::new(alloc)) else {
        return Err(Status::NoMemory);
    };
    let mut folder = MemFolder::new(alloc, Vec::new(alloc));
    words_by_example();
    match run(
        rt,
        alloc,
        &words,
        &mut script,
        &mut out,
        &mut folder,
        &FreeGate,
    ) {
        Status::Ok => Ok(out),
        status => Err(status),
    }
}
