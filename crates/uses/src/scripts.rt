//! A text that is read as a script, or whose first error is reported.
ghost use Rattle.std.specs.Prelude.{◌≡◌, is_none, IfOk};
ghost use Rattle.bc_script.specs.ScriptErrors.{error_of};

use bc_script::{ParseError, parse};
use std::alloc::Global;

/// Whether the text is a script's. Where it isn't, prints the first line that fails a test, and which: `script line 4: key`.
///
/// # Errors
/// Out of memory, or printing failed.
pub fn is_script(rt: &impl Print, alloc: Global, text: &[u8]) -> anyhow::Result<bool>
    ensures { IfOk result (λ good. good ≡ is_none (error_of text.now)) }
{
    match parse(alloc, text) {
        Ok(_script) => Ok(true),
        Err(ParseError::Bad(error)) => {
            println!(rt; "{error}")?;
            Ok(false)
        }
        Err(ParseError::Memory) => anyhow::bail!("out of memory"),
    }
}
