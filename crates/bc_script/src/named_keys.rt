//! The keys of a script, found by their names.

ghost use Rattle.std.specs.Prelude.{◌≡◌, ◌^◌, ◌<◌, [], ◌∷◌, ◌++◌, length, OnOk, OnErr, MatchOption};
ghost use Rattle.bc_script.specs.NamedKeys.{IsNamed, IsNoName};

use crate::name::Name;
use crate::named_key::NamedKey;
use bc_base::Items;
use bc_key::KeyNo;
use std::alloc::{AllocError, Global};
use std::collections::BTreeMap;
use std::marker::Model;

/// Keys with their names, of which no two are equal. A key's number is its place. Finding the
/// number of a name takes time in the logarithm of their count.
#[derive(Drop)]
pub(crate) struct NamedKeys {
    keys: Vec<NamedKey>,
    /// The number of each key, by its name's bytes.
    numbers: BTreeMap<Vec<u8>, KeyNo>,
}

impl Model for NamedKeys {
    ghost use Rattle.std.specs.Prelude.{List};
    ghost use Rattle.bc_script.specs.declared.named_key.NamedKey.{NamedKey};
    ghost use Rattle.bc_script.specs.NamedKeys.{IsIndex};

    ghost Value = { List NamedKey };

    ghost view = { λ k. k.keys.items };

    ghost invariant = { λ k. IsIndex k.keys.items k.numbers };
}

impl NamedKeys {
    /// No keys yet.
    pub(crate) fn new(alloc: Global) -> NamedKeys
        ensures { result ≡ [] }
    {
        NamedKeys {
            keys: Vec::new(alloc),
            numbers: BTreeMap::new(alloc),
        }
    }

    /// Appends a key with a new name. Its number is the count of those before it. Nothing changes
    /// where there is no memory.
    pub(crate) fn add(&mut self, alloc: Global, named: NamedKey) -> Result<(), AllocError>
        requires room { length self.old < 2 ^ 16 }
        requires fresh { IsNoName self.old named.name }
        ensures ok { OnOk result (self.new ≡ self.old ++ named ∷ []) }
        ensures err { OnErr result (self.new ≡ self.old) }
    {
        let name = named.name.as_bytes().to_vec(alloc)?;
        let number = KeyNo(self.keys.len() as u16);
        self.keys.reserve(1)?;
        self.numbers.insert(name, number)?;
        let Ok(()) = self.keys.push(named) else {
            unreachable!()
        };
        Ok(())
    }

    /// The number of the key with this name.
    pub(crate) fn number_of(&self, name: &[u8]) -> Option<KeyNo>
        ensures { MatchOption result (IsNoName self.now name.now) (IsNamed self.now name.now) }
    {
        self.numbers.get(name).copied()
    }

    /// The keys, by number.
    pub(crate) fn as_slice(&self) -> &[NamedKey]
        ensures { result.now ≡ self.now }
    {
        self.keys.as_slice()
    }

    /// How many keys there are.
    pub(crate) fn len(&self) -> usize
        ensures { result ≡ length self.now }
    {
        self.keys.len()
    }

    /// The keys alone, by number.
    pub(crate) fn into_items(self) -> Items<NamedKey>
        ensures { result ≡ self }
    {
        let NamedKeys { keys, numbers: _ } = self;
        Items::from_vec(keys)
    }
}
