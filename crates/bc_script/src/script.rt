//! What a script says.

ghost use Rattle.std.specs.Prelude.{◌≡◌, true};

use crate::named_key::NamedKey;
use crate::op::Op;
use bc_base::Items;
use bc_stack::Target;
use std::marker::Model;

/// A script: a disk, its devices, its keys, the faults that are planned, and for each thread the
/// section of its operations. It keeps the rules of the script language by its type, so each script
/// has a text.
#[derive(Drop)]
pub struct Script {
    blocks: u32,
    fallback: bool,
    targets: Items<Target>,
    keys: Items<NamedKey>,
    faults: Items<(u16, u32)>,
    threads: Items<Items<Op>>,
}

impl Model for Script {
    ghost use Rattle.bc_script.specs.Script as specs;

    ghost Value = { specs.Script };

    ghost view = { λ s. record {
      blocks = s.blocks;
      fallback = s.fallback;
      targets = s.targets;
      keys = s.keys;
      faults = s.faults;
      threads = s.threads;
    } };

    ghost invariant = { λ s. specs.IsScript (record {
      blocks = s.blocks;
      fallback = s.fallback;
      targets = s.targets;
      keys = s.keys;
      faults = s.faults;
      threads = s.threads;
    }) };
}

impl Script {
    ghost use Rattle.bc_script.specs.Script as specs;

    /// A script that keeps the rules.
    pub(crate) fn new(
        blocks: u32,
        fallback: bool,
        targets: Items<Target>,
        keys: Items<NamedKey>,
        faults: Items<(u16, u32)>,
        threads: Items<Items<Op>>,
    ) -> Script
        requires { specs.IsScript (record {
          blocks = blocks;
          fallback = fallback;
          targets = targets;
          keys = keys;
          faults = faults;
          threads = threads;
        }) }
        ensures { result ≡ record {
          blocks = blocks;
          fallback = fallback;
          targets = targets;
          keys = keys;
          faults = faults;
          threads = threads;
        } }
    {
        Script {
            blocks,
            fallback,
            targets,
            keys,
            faults,
            threads,
        }
    }

    /// How many blocks of 4096 bytes the disk has, 1 to 16384.
    pub fn blocks(&self) -> u32
        ensures value { result ≡ self.now.blocks }
        ensures rules { specs.IsScript self.now }
    {
        self.blocks
    }

    /// Whether software enciphers what no device can. Where it doesn't, a bio whose key isn't
    /// supported by each device is refused.
    pub fn fallback(&self) -> bool
        ensures value { result ≡ self.now.fallback }
        ensures rules { specs.IsScript self.now }
    {
        self.fallback
    }

    /// The devices, in the order of their blocks, at most 8: each with its first block and its
    /// number of blocks (of 4096 bytes), its 1 to 32 keyslots, and what it supports. Where there
    /// are some, they cover the disk.
    pub fn targets(&self) -> &[Target]
        ensures value { result.now ≡ self.now.targets }
        ensures rules { specs.IsScript self.now }
    {
        self.targets.as_slice()
    }

    /// The keys, each with its name. A key's number is its place, from 0.
    pub fn keys(&self) -> &[NamedKey]
        ensures value { result.now ≡ self.now.keys }
        ensures rules { specs.IsScript self.now }
    {
        self.keys.as_slice()
    }

    /// The faults that are planned, in ascending order: each by its shard, 0 to 63, and its place
    /// in the shard's order, 0 to 65535. One on a shard that the disk doesn't have, or at a place
    /// that isn't reached, is without effect.
    pub fn faults(&self) -> &[(u16, u32)]
        ensures value { result.now ≡ self.now.faults }
        ensures rules { specs.IsScript self.now }
    {
        self.faults.as_slice()
    }

    /// The sections. A thread's number is the place of its section, from 0.
    pub fn threads(&self) -> &[Items<Op>]
        ensures value { result.now ≡ self.now.threads }
        ensures rules { specs.IsScript self.now }
    {
        self.threads.as_slice()
    }
}
