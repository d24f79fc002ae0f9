//! The name of a key.

ghost use Rattle.std.specs.Prelude.{◌≡◌, ◌↔◌, IsTrue, IsSome, IfSome};
ghost use Rattle.std.specs.List.{list_all};
ghost use Rattle.bc_script.specs.Name.{is_name, is_name_byte, is_lower_letter};

use crate::limits::MAX_NAME;
use arrayvec::ArrayVec;
use std::marker::Model;

/// The name of a key: a lower-case letter, and then at most 15 lower-case letters or digits, all of
/// ASCII.
#[derive(Debug, Drop)]
pub struct Name {
    bytes: ArrayVec<u8, MAX_NAME>,
}

impl Model for Name {
    ghost use Rattle.std.specs.Prelude.{IsTrue, List, ℕ};
    ghost use Rattle.bc_script.specs.Name.{is_name};

    ghost Value = { List ℕ };

    ghost view = { λ name. name.bytes.items };

    ghost invariant = { λ name. IsTrue (is_name name.bytes.items) };
}

impl Name {
    /// The name that has these bytes; `None` where they are no name.
    pub fn of(bytes: &[u8]) -> Option<Name>
        ensures exactly { IsSome result ↔ IsTrue (is_name bytes.now) }
        ensures value { IfSome result (λ name. name ≡ bytes.now) }
    {
        if !is_name(bytes) {
            return None;
        }
        let Ok(bytes) = ArrayVec::try_from(bytes) else {
            unreachable!()
        };
        Some(Name { bytes })
    }

    /// Its bytes, 1 to 16.
    pub fn as_bytes(&self) -> &[u8]
        ensures value { result.now ≡ self.now }
        ensures rule { IsTrue (is_name self.now) }
    {
        self.bytes.as_slice()
    }
}

fn is_name(bytes: &[u8]) -> bool
    ensures { result ≡ is_name bytes.now }
{
    match bytes {
        [] => false,
        [first, others @ ..] => {
            first.is_ascii_lowercase() && are_name_bytes(others) && others.len() < MAX_NAME
        }
    }
}

fn are_name_bytes(bytes: &[u8]) -> bool
    ensures { result ≡ list_all is_name_byte bytes.now }
{
    bytes.iter().all(|b| is_name_byte(*b))
}

fn is_name_byte(b: u8) -> bool
    ensures { result ≡ is_name_byte b }
{
    b.is_ascii_lowercase() || b.is_ascii_digit()
}
