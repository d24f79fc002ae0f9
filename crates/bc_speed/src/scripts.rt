//! A script's text: built in memory, parsed, and printed.
ghost use Rattle.std.specs.Prelude.{◌≡◌, ◌++◌, OnOk, codes};
ghost use Rattle.bc_speed.specs.Texts.{SomeScriptHas};

use crate::units::{self, PERIOD};
use anyhow::{Result, bail};
use std::alloc::{AllocError, Global};
use std::rt::Clock;
use std::time::{Duration, Instant};

/// The lines before the operations.
const HEAD: &[u8] = b"blkcrypt 1\ndisk 16384\nfallback on\nthread\n";

/// Bytes of a data unit without a key.
const UNIT: usize = 512;

/// How long a text took each way.
#[derive(Drop)]
pub struct Times {
    pub parse: Duration,
    pub print: Duration,
}

/// The text of a script with so many writes by `hex` of one data unit each, and after them so many reads of one. Each
/// write has other digits than the one before it.
pub fn text(alloc: Global, writes: u32, reads: u32) -> Result<Vec<u8>, AllocError> {
    let bytes = units::texts(alloc, PERIOD + UNIT)?;
    let mut text = HEAD.to_vec(alloc)?;
    for i in 0..writes as usize {
        let first = i % PERIOD;
        let digits = hex::encode(alloc, &bytes[first..first + UNIT])?;
        put_write(&mut text, digits.as_bytes())?;
    }
    for _ in 0..reads {
        text.extend_from_slice(b"read - 0 1 -\n")?;
    }
    text.extend_from_slice(b"end\n")?;
    Ok(text)
}

/// Appends the line of a write of these digits.
fn put_write(text: &mut Vec<u8>, digits: &[u8]) -> Result<(), AllocError>
    ensures { OnOk result (text.new.items
        ≡ ((text.old.items ++ codes "write - 0 1 - hex ") ++ digits.now) ++ codes "\n") }
{
    text.extend_from_slice(b"write - 0 1 - hex ")?;
    text.extend_from_slice(digits)?;
    text.push(b'\n')?;
    Ok(())
}

/// Parses the text and prints the script, once. `Err` also where the text is no script's, or another one was printed.
pub fn there_and_back(rt: &impl Clock, alloc: Global, text: &[u8]) -> Result<Times>
    ensures { OnOk result (SomeScriptHas text.now) }
{
    let start = Instant::now(rt)?;
    let script = bc_script::parse(alloc, text)?;
    let parse = start.elapsed(rt)?;
    let start = Instant::now(rt)?;
    let printed = bc_script::print(alloc, &script)?;
    let print = start.elapsed(rt)?;
    if printed.as_slice() != text {
        bail!("the text that was printed isn't the one that was parsed");
    }
    Ok(Times { parse, print })
}
