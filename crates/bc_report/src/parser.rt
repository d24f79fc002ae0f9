//! The report that a text says.

ghost use Rattle.std.specs.Prelude.{◌-◌, ◌^◌, ◌<◌, length, OnOk, IfOk, IfErr};
ghost use Rattle.bc_report.specs.ReportText.{SaysReport};
ghost use Rattle.bc_report.specs.ReportErrors.{IsRefusedReport};
ghost use Rattle.bc_report.specs.Progress.{IsWholeReport, TookReportLine, TakesNone, EndsNone};

use crate::reader::Reader;
use crate::report::Report;
use crate::report_error::ReportError;
use crate::unread::Unread;
use bc_text::{Lines, Parts};
use std::alloc::Global;

/// The report that the text says. A text has fewer than 2^32 - 1 bytes.
///
/// # Errors
///
/// `Bad` where no report has the text: the first line, from 1, that no report has there. Where each
/// line is possible and the text ends too early that is the line after the last one. A last line
/// without a line feed is itself the line named. `Memory` where the process was out of memory.
pub fn parse(alloc: Global, text: &[u8]) -> Result<Report, ReportError>
    requires { length text.now < 2 ^ 32 - 1 }
    ensures says { IfOk result (SaysReport text.now) }
    ensures refused { IfErr result (IsRefusedReport text.now) }
{
    let mut lines = Lines::new(text);
    let mut reader = Reader::new(alloc);
    let mut number = 1;
    let Some(mut line) = lines.next() else {
        unreachable!()
    };
    while let Some(next) = lines.next() {
        take(alloc, &mut reader, line, number)?;
        line = next;
        number += 1;
    }
    finish(reader, line, number)
}

/// Reads the next line, which has this number.
fn take(alloc: Global, reader: &mut Reader, line: Parts, number: u32) -> Result<(), ReportError>
    ensures ok { OnOk result (TookReportLine reader.old line.entry reader.new) }
    ensures bad { IfErr result (TakesNone reader.old line.entry number) }
{
    match reader.take(alloc, line) {
        Ok(()) => Ok(()),
        Err(Unread::Bad) => Err(ReportError::Bad { line: number }),
        Err(Unread::Memory) => Err(ReportError::Memory),
    }
}

/// The report whose last line has been read, and which has nothing after it but this, with the
/// number of the next line.
fn finish(reader: Reader, rest: Parts, number: u32) -> Result<Report, ReportError>
    ensures ok { IfOk result (IsWholeReport reader rest.entry) }
    ensures bad { IfErr result (EndsNone reader rest.entry number) }
{
    match reader.finish(rest) {
        Some(report) => Ok(report),
        None => Err(ReportError::Bad { line: number }),
    }
}
