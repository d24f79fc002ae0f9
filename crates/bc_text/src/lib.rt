//! Texts of lines, and lines of fields: what the languages of scripts and reports share.
//!
//! A line ends with one line feed, and its fields have one space between them. A number is decimal
//! without leading zeros, a byte is two hexadecimal digits of lower case. So every value has one
//! text, and a text is read as the value whose text it is: nothing else is taken for it.
#![tactic(auto)]

// reading
mod field;
mod lines;
mod parts;

// printing
mod put;

pub use field::{byte, bytes_into, number};
pub use lines::Lines;
pub use parts::Parts;
pub use put::{put_hex, put_number};

#[cfg(test)]
mod tests;
