//! A report's text: built in memory, parsed, and printed.
use crate::measure::{TIMES, a_microsecond};
use crate::reading::MOST_BYTES;
use anyhow::{Result, bail};
use std::alloc::{AllocError, Global};
use std::rt::Clock;
use std::time::{Duration, Instant};

/// How long a text took each way.
#[derive(Drop)]
pub struct Times {
    pub parse: Duration,
    pub print: Duration,
}

/// The text of a report of one thread with so many answers, by turns of a write and of a read, and one shard with as many
/// entries, by turns soft and inline.
fn text(alloc: Global, count: u32) -> Result<Vec<u8>, AllocError> {
    let mut text = b"report 1\nthread 0\n".to_vec(alloc)?;
    for i in 0..count {
        let answer: &[u8] = if i % 2 == 0 {
            b"done\n"
        } else {
            b"done fill 5a\n"
        };
        text.extend_from_slice(answer)?;
    }
    let head = format!(in alloc; "shard 0 {count}\n")?;
    text.extend_from_slice(head.as_bytes())?;
    for i in 0..count {
        let entry = if i % 2 == 0 {
            format!(in alloc; "0 {i} 0 soft\n")?
        } else {
            format!(in alloc; "0 {i} 0 inline 0 3 {i}\n")?
        };
        text.extend_from_slice(entry.as_bytes())?;
    }
    text.extend_from_slice(b"end\n")?;
    Ok(text)
}

/// Parses the text and prints the report, once. `Err` also where the text is no report's or too long, or another one was
/// printed.
fn there_and_back(rt: &impl Clock, alloc: Global, text: &[u8]) -> Result<Times> {
    if text.len() >= MOST_BYTES {
        bail!("the text has 2^26 bytes or more");
    }
    let start = Instant::now(rt)?;
    let report = bc_report::parse(alloc, text)?;
    let parse = start.elapsed(rt)?;
    let start = Instant::now(rt)?;
    let printed = bc_report::print(alloc, &report)?;
    let print = start.elapsed(rt)?;
    if printed.as_slice() != text {
        bail!("the text that was printed isn't the one that was parsed");
    }
    Ok(Times { parse, print })
}

/// Prints how fast the text of a report with so many answers and entries is parsed and printed, in MB (millions of bytes) a
/// second: the best of a few times each.
pub fn speed(rt: &(impl Print + Clock), alloc: Global, count: u32) -> Result<()> {
    let text = text(alloc, count)?;
    let bytes = text.len() as u64;
    let mut parse = 0;
    let mut print = 0;
    for _ in 0..TIMES {
        let times = there_and_back(rt, alloc, text.as_slice())?;
        parse = a_microsecond(bytes, times.parse).max(parse);
        print = a_microsecond(bytes, times.print).max(print);
    }
    println!(rt; "report: {bytes} bytes, {count} answers and as many entries")?;
    println!(rt; "parse: {parse} MB/s")?;
    println!(rt; "print: {print} MB/s")?;
    Ok(())
}
