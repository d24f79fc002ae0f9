//! Enciphers or deciphers one data unit, as a block device with inline encryption would keep it.
//!
//! | Words | What is printed |
//! |---|---|
//! | `encrypt KEY NUMBER TEXT` | the raw bytes of a data unit's text, all in hexadecimal digits |
//! | `decrypt KEY NUMBER TEXT` | the text of a data unit's raw bytes |
//! | `encrypt KEY NUMBER`, `decrypt KEY NUMBER` | the same of the bytes of standard input, as bytes |
//!
//! KEY has 64 bytes for AES-256-XTS, or 16 for AES-128-CBC-ESSIV. NUMBER is the data unit's number
//! in hexadecimal digits. A text has 512, 1024, 2048 or 4096 bytes. The process ends with 0 where
//! the data unit is printed. Else it says why on standard error, and ends with 1 for words that are
//! no command, 2 for a word or a text that is wrong, 3 where reading failed, 4 where writing
//! failed, and 9 where memory is out.
#![tactic(auto)]

mod carrying;
mod direction;
mod refusal;

use bc_base::BLOCK_BYTES;
use direction::Direction;
use refusal::Refusal;
use std::alloc::Global;
use std::env;
use std::io::{Read, Write};
use std::process::ExitCode;

const USAGE: &str =
    "usage: bc_unit encrypt|decrypt KEY NUMBER TEXT     TEXT and what is printed in hexadecimal digits
       bc_unit encrypt|decrypt KEY NUMBER < UNIT   raw bytes on standard input and output
  KEY     64 bytes for AES-256-XTS, or 16 for AES-128-CBC-ESSIV, in hexadecimal digits
  NUMBER  the data unit's number in hexadecimal digits, 0 for the first one
A data unit has 512, 1024, 2048 or 4096 bytes.";

/// No data unit has more bytes, so of standard input at most one more is read.
const MOST_BYTES: u64 = BLOCK_BYTES as u64;

/// How the process ends where a stream fails.
const READING_FAILED: u8 = 3;

const WRITING_FAILED: u8 = 4;

/// What the process is to print, or why not, with the number that it ends with.
enum Answer {
    Printed(Vec<u8>),
    Refused(Refusal),
    NotRead,
}

/// A data unit of standard input, taken one way.
fn of_input(rt: &HostRuntime, alloc: Global, way: Direction, key: &str, number: &str) -> Answer {
    let mut unit = Vec::new(alloc);
    if rt
        .stdin()
        .take(MOST_BYTES + 1)
        .read_to_end(&mut unit)
        .is_err()
    {
        return Answer::NotRead;
    }
    match carrying::carry(alloc, way, key, number, unit.as_mut_slice()) {
        Ok(()) => Answer::Printed(unit),
        Err(refusal) => Answer::Refused(refusal),
    }
}

/// What the words ask for.
fn of_words(rt: &HostRuntime, alloc: Global, words: &[String]) -> Answer {
    if words.len() < 3 || words.len() > 4 {
        return Answer::Refused(Refusal::Usage);
    }
    let Some(way) = Direction::of_word(words[0].as_str()) else {
        return Answer::Refused(Refusal::Usage);
    };
    let (key, number) = (words[1].as_str(), words[2].as_str());
    if words.len() == 3 {
        return of_input(rt, alloc, way, key, number);
    }
    match carrying::in_digits(alloc, way, key, number, words[3].as_str()) {
        Ok(line) => Answer::Printed(line.into_bytes()),
        Err(refusal) => Answer::Refused(refusal),
    }
}

/// The words after the program's name.
fn words(rt: &HostRuntime) -> Result<Vec<String>, Refusal> {
    let Ok(all) = env::args(rt) else {
        return Err(Refusal::Usage);
    };
    all.skip(1).collect(rt.alloc()).map_err(|_| Refusal::Memory)
}

/// Says why nothing was printed, and gives the number that the process ends with.
fn complain(rt: &HostRuntime, refusal: Refusal) -> u8 {
    // Where standard error fails too, the number is all that is left to say.
    let _ = eprintln!(rt; "bc_unit: {refusal}");
    if refusal == Refusal::Usage {
        let _ = eprintln!(rt; "{USAGE}");
    }
    refusal.code()
}

/// Prints what the words ask for, or why not, and gives the number that the process ends with.
fn run(rt: &HostRuntime, words: &[String]) -> u8 {
    match of_words(rt, rt.alloc(), words) {
        Answer::Printed(bytes) => {
            if rt.stdout().write_all(bytes.as_slice()).is_ok() {
                return 0;
            }
            let _ = eprintln!(rt; "bc_unit: writing failed");
            WRITING_FAILED
        }
        Answer::Refused(refusal) => complain(rt, refusal),
        Answer::NotRead => {
            let _ = eprintln!(rt; "bc_unit: reading failed");
            READING_FAILED
        }
    }
}

/// Whether the words ask for help.
fn asks_for_help(words: &[String]) -> bool {
    words.len() == 1 && matches!(words[0].as_str(), "-h" | "--help" | "help")
}

fn main(rt: HostRuntime) -> ExitCode {
    let code = match words(&rt) {
        Ok(words) if asks_for_help(words.as_slice()) => match println!(rt; "{USAGE}") {
            Ok(()) => 0,
            Err(_) => WRITING_FAILED,
        },
        Ok(words) => run(&rt, words.as_slice()),
        Err(refusal) => complain(&rt, refusal),
    };
    ExitCode::from(code)
}
