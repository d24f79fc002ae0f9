//! The script that a text says.

ghost use Rattle.std.specs.Prelude.{◌≡◌, None, IfOk, IfErr, OnOk};
ghost use Rattle.bc_script.specs.ScriptText.{SaysScript};
ghost use Rattle.bc_script.specs.ScriptErrors.{error_of};
ghost use Rattle.bc_script.specs.Parsing.{IsRefusedScript};

use crate::reader::Reader;
use crate::script::Script;
use crate::script_error::ParseError;
use bc_text::Lines;
use std::alloc::Global;

/// The script that the text says.
///
/// # Errors
///
/// `Bad` where no script has the text: the first line that fails a test, and the first test that it
/// fails. `Memory` where there was no memory for the script.
pub fn parse(alloc: Global, text: &[u8]) -> Result<Script, ParseError>
    ensures says { IfOk result (SaysScript text.now) }
    ensures passes { OnOk result (error_of text.now ≡ None) }
    ensures refused { IfErr result (IsRefusedScript text.now) }
{
    let mut lines = Lines::new(text);
    let mut reader = Reader::new(alloc);
    let Some(mut line) = lines.next() else {
        unreachable!()
    };
    while let Some(next) = lines.next() {
        reader.take(alloc, line)?;
        line = next;
    }
    reader.finish(line)
}
