//! What a text from outside says: a report, or the first line that no report has there.
ghost use Rattle.std.specs.Prelude.{◌≡◌, ◌-◌, ◌^◌, ◌<◌, length, IfOk, IfErr};
ghost use Rattle.bc_report.specs.ReportErrors.{IsRefusedReport};

use anyhow::{Result, bail};
use bc_report::ReportError;
use std::alloc::Global;
use std::io::{Read, Write};

/// A text that is parsed has fewer bytes.
pub const MOST_BYTES: usize = 1 << 26;

/// The report that the text says, printed again.
fn printed_again(alloc: Global, text: &[u8]) -> Result<Vec<u8>, ReportError>
    requires { length text.now < 2 ^ 32 - 1 }
    ensures same { IfOk result (λ printed. printed.items ≡ text.now) }
    ensures refused { IfErr result (IsRefusedReport text.now) }
{
    let report = bc_report::parse(alloc, text)?;
    match bc_report::print(alloc, &report) {
        Ok(printed) => Ok(printed),
        Err(_) => Err(ReportError::Memory),
    }
}

/// Reads a text to its end, and prints the report that it says, or the line that no report has there.
pub fn answer(rt: &HostRuntime, alloc: Global) -> Result<()> {
    let mut text = Vec::new(alloc);
    rt.stdin().read_to_end(&mut text)?;
    if text.len() >= MOST_BYTES {
        bail!("the text has 2^26 bytes or more");
    }
    match printed_again(alloc, text.as_slice()) {
        Ok(printed) => rt.stdout().write_all(printed.as_slice())?,
        Err(ReportError::Bad { line }) => println!(rt; "report line {line}")?,
        Err(ReportError::Memory) => bail!("out of memory"),
    }
    Ok(())
}
