//! The script language: what a script says, its text, and why a text is none. Whether a text is a
//! script's, or the first line that fails a test and which, as `script line 4: key` (`is_script` of
//! the crate `uses`):
//!
//!     match parse(alloc, text) {
//!         Ok(_script) => Ok(true),
//!         Err(ParseError::Bad(error)) => {
//!             println!(rt; "{error}")?;
//!             Ok(false)
//!         }
//!         Err(ParseError::Memory) => anyhow::bail!("out of memory"),
//!     }
#![tactic(auto)]

// what a script says, and within which limits
pub mod limits;
mod name;
mod named_key;
mod op;
mod script;
mod script_error;

// the forms of lines, their order, and what their fields say
mod field;
mod form;
mod order;
mod sort;
mod statement;

// the script that `make` carries out
mod generator;

// a text is read, and printed
mod laws;
mod named_keys;
mod parser;
mod printing;
mod reader;

pub use generator::generate;
pub use laws::{errors_are_exact, no_proper_prefix};
pub use name::Name;
pub use named_key::NamedKey;
pub use op::{Op, Text};
pub use parser::parse;
pub use printing::print;
pub use script::Script;
pub use script_error::{ParseError, ScriptError, ScriptWhy};
