//! The keys of a script, each with its unit cipher, which is made once before the first operation.

ghost use Rattle.std.specs.Prelude.{◌≡◌, ◌*◌, ◌<◌, ◌≤◌, Some, length, IfOk};
ghost use Rattle.std.specs.Option.{option_map};
ghost use Rattle.bc_key.specs.KeyList.{key_at};
ghost use Rattle.bc_modes.specs.UnitCipher.{parts_of};
ghost use Rattle.bc_bio.specs.Extent.{unit_sectors};
ghost use Rattle.bc_bio.specs.Conditions.{HasKey};
ghost use Rattle.bc_script.specs.Script.{bare_keys};
ghost use Rattle.bc_medium.specs.KeyedDisk.{enciphered, deciphered};

use bc_bio::Context;
use bc_key::{KeyNo, Keys};
use bc_modes::UnitCipher;
use bc_script::NamedKey;
use std::alloc::{AllocError, Global};
use std::marker::Model;

/// Keys by number, each with its cipher. A contract sees the keys.
#[derive(Drop)]
pub(crate) struct Ciphers {
    keys: Keys,
    /// The cipher of each key, by the key's number.
    ciphers: Vec<UnitCipher>,
}

impl Model for Ciphers {
    ghost use Rattle.std.specs.Prelude.{◌≡◌, List, map};
    ghost use Rattle.bc_key.specs.KeyData.{KeyData};
    ghost use Rattle.bc_modes.specs.UnitCipher.{parts_of};

    ghost Value = { List KeyData };

    ghost view = { λ c. c.keys.keys };

    ghost invariant = { λ c. c.ciphers.items ≡ map parts_of c.keys.keys };
}

impl Ciphers {
    /// The ciphers of these keys.
    pub(crate) fn of_keys(alloc: Global, named: &[NamedKey]) -> Result<Ciphers, AllocError>
        requires { length named.now ≤ 4096 }
        ensures { IfOk result (λ ciphers. ciphers ≡ bare_keys named.now) }
    {
        let mut keys = Keys::new(alloc);
        keys.reserve(named.len() as u16)?;
        let mut ciphers = Vec::with_capacity(alloc, named.len())?;
        for one in named {
            ciphers.push(UnitCipher::of_key(&one.key))?;
            keys.add(one.key.copy());
        }
        Ok(Ciphers { keys, ciphers })
    }

    /// The keys alone.
    pub(crate) fn keys(&self) -> &Keys
        ensures { result.now.keys ≡ self.now }
    {
        &self.keys
    }

    /// Enciphers a data unit in place; without a context it stays as it is.
    pub(crate) fn encipher(&self, context: Option<Context>, text: &mut [u8])
        requires key { HasKey self.now context }
        requires length { length text.old ≡ 512 * unit_sectors self.now context }
        ensures { text.new ≡ enciphered self.now context text.old }
    {
        if let Some(context) = context {
            self.cipher(context.key).encrypt(&context.dun, text);
        }
    }

    /// Deciphers a data unit in place; without a context it stays as it is.
    pub(crate) fn decipher(&self, context: Option<Context>, text: &mut [u8])
        requires key { HasKey self.now context }
        requires length { length text.old ≡ 512 * unit_sectors self.now context }
        ensures { text.new ≡ deciphered self.now context text.old }
    {
        if let Some(context) = context {
            self.cipher(context.key).decrypt(&context.dun, text);
        }
    }

    /// The cipher of the key with this number.
    fn cipher(&self, number: KeyNo) -> &UnitCipher
        requires { number.0 < length self.now }
        ensures { option_map parts_of (key_at self.now number) ≡ Some result.now }
    {
        &self.ciphers[usize::from(number.0)]
    }
}
