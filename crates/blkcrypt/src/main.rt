//! blkcrypt: carries out a script of requests to an encrypted disk and writes a report of what each was answered.
//!
//! The command is read from the program's words, the script from standard input, and the report is written to
//! standard output; an image is got from a file and put into one. Where a run ends without its whole report, one line on
//! standard error says why, and the process ends with the number of that status.
#![tactic(auto)]

mod dir_folder;
mod std_sink;
mod std_source;
mod words;

use bc_base::FreeGate;
use bc_run::{Status, run};
use dir_folder::DirFolder;
use std::process::ExitCode;
use std::sync::Wait;
use std::thread::Threads;
use std_sink::StdSink;
use std_source::StdSource;

fn main(rt: HostRuntime) -> ExitCode {
    let status = match words::words(&rt) {
        Ok(words) => run_over_streams(&rt, &rt, &words),
        Err(status) => status,
    };
    if status != Status::Ok {
        // Where standard error fails too, the number of the status is all that is left to say.
        let _ = eprintln!(rt; "blkcrypt: {status}");
    }
    ExitCode::from(status.code())
}

/// Runs the words over standard input and output, and the files of the system. Only `main` can tell that the runtime
/// has threads, so it is passed once more, as what has them.
fn run_over_streams<R: Threads + Wait + Sync>(
    rt: &HostRuntime,
    threads: &R,
    words: &[String],
) -> Status {
    let mut script = StdSource::new(rt.stdin());
    let mut out = StdSink::new(rt.stdout());
    let mut folder = DirFolder::new(rt);
    run(
        threads,
        rt.alloc(),
        words,
        &mut script,
        &mut out,
        &mut folder,
        &FreeGate,
    )
}
