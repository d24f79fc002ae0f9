//! A key of a script.

use crate::name::Name;
use bc_key::Key;

/// A key with the name by which the script's operations refer to it. The script declares each name
/// once; the same key bytes under two names are two keys.
#[derive(Drop)]
pub struct NamedKey {
    pub name: Name,
    pub key: Key,
}
