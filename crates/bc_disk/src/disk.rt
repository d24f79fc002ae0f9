//! The block device.

ghost use Rattle.std.specs.Prelude.{◌≡◌, ◌*◌, ◌<◌, ◌++◌, ◌∷◌, [], length, None, Some, IfErr, OnOk, OnErr};
ghost use Rattle.std.specs.Prelude.{if◌then◌else◌};
ghost use Rattle.bc_bio.specs.declared.refusal.Refusal.TheVariants as refusals;
ghost use Rattle.bc_bio.specs.BioUnits.{extent_of};
ghost use Rattle.bc_base.specs.declared.geometry.TheConstants.{BLOCK_SECTORS};
ghost use Rattle.bc_bio.specs.Conditions.{HasKey, IsAccepted};
ghost use Rattle.bc_bio.specs.Requests.{tagged_bios, unmarked};
ghost use Rattle.bc_medium.specs.Medium.{shards_of};
ghost use Rattle.bc_queue.specs.Plugs.{AreRequests, IsOfWindow, IsPlug, bios_in};
ghost use Rattle.bc_disk.specs.Disks.{IsPassOf, events_left, facts_on, goes_inline, keys_in, refusal_on};
ghost use Rattle.bc_disk.specs.Disks.{supports_context};
ghost use Rattle.bc_disk.specs.Submissions.{IsPlugBack};

use crate::Pass;
use bc_base::{BLOCK_SECTORS, Store};
use bc_bio::{Bio, Context, Extent, Refusal};
use bc_key::{KeyNo, Keys};
use bc_modes::UnitCipher;
use bc_queue::{Plug, Queue};
use bc_stack::Stack;
use std::alloc::Global;
use std::marker::Model;

/// A block device of many callers: the queue of its devices over the medium, which part of the disk each device has,
/// and the ciphers of the keys that go by software, each expanded once.
#[derive(Drop)]
pub struct Disk<S: Store> {
    pub(crate) alloc: Global,
    pub(crate) queue: Queue<S>,
    pub(crate) stack: Stack,
    pub(crate) fallback: bool,
    pub(crate) blocks: u32,
    pub(crate) shards: u16,
    /// Of each key the cipher, if it doesn't go inline.
    pub(crate) ciphers: Vec<Option<UnitCipher>>,
}

impl<S: Store> Model for Disk<S> {
    ghost use Rattle.std.specs.Prelude.{◌≡◌};
    ghost use Rattle.bc_medium.specs.Medium.{shards_of};
    ghost use Rattle.bc_disk.specs.Disks.{DiskData, HasCiphers, IsDisk};

    ghost Value = { DiskData S };

    ghost view = { λ d. record {
      queue = d.queue;
      targets = d.stack.targets;
      fallback = d.fallback;
      blocks = d.blocks;
    } };

    ghost invariant = { λ d. IsDisk S.owns (record {
      queue = d.queue;
      targets = d.stack.targets;
      fallback = d.fallback;
      blocks = d.blocks;
    }) × (d.stack.blocks ≡ d.blocks) × (d.shards ≡ shards_of d.queue.medium)
        × HasCiphers d.stack.targets d.queue.medium.keys.keys d.ciphers.items };
}

/// Why a bio wasn't plugged.
#[derive(Drop)]
pub enum PlugBack {
    /// The disk refuses it.
    Refused(Refusal, Bio),
    /// The plug is full.
    Full(Bio),
}

impl<S: Store> Disk<S> {
    /// The keys.
    pub fn keys(&self) -> &Keys
        ensures { result.now ≡ self.now.queue.medium.keys }
    {
        self.queue.medium().keys()
    }

    /// Why the disk refuses a bio, if it does: the first that applies of what [`Bio::check`] tests, and then
    /// `Unsupported`, where the bio has a context that neither every device nor the fallback takes. The context's key
    /// is one of the disk's.
    pub fn refusal(&self, bio: &Bio) -> Option<Refusal>
        requires key { HasKey (keys_in self.now) bio.now.context }
        ensures refusal { result ≡ refusal_on self.now (extent_of bio.now) }
        ensures accepted { result ≡ None →
            IsAccepted (keys_in self.now) (BLOCK_SECTORS * self.now.blocks) (extent_of bio.now) }
    {
        self.refusal_of(&bio.extent())
    }

    /// Why the disk refuses a bio of this extent, if it does, as [`Disk::refusal`] tells.
    pub fn refusal_of(&self, bio: &Extent) -> Option<Refusal>
        requires key { HasKey (keys_in self.now) bio.now.context }
        ensures refusal { result ≡ refusal_on self.now bio.now }
        ensures accepted { result ≡ None →
            IsAccepted (keys_in self.now) (BLOCK_SECTORS * self.now.blocks) bio.now }
    {
        match bio.check(self.keys(), BLOCK_SECTORS * self.blocks) {
            Ok(()) => self.unsupported(bio.context),
            Err(error) => Some(Refusal::Bio(error)),
        }
    }

    /// Whether a context's key is refused, as neither every device nor a fallback takes it.
    fn unsupported(&self, context: Option<Context>) -> Option<Refusal>
        requires key { HasKey (keys_in self.now) context }
        ensures { result ≡ (if supports_context self.now context then None else Some refusals.Unsupported) }
    {
        let Some(context) = context else {
            return None;
        };
        if self.fallback || self.is_inline(context.key) {
            return None;
        }
        Some(Refusal::Unsupported)
    }

    /// Whether the key, one of the disk's, goes inline: there are devices, and each of them supports its
    /// configuration.
    pub fn is_inline(&self, key: KeyNo) -> bool
        requires { key.0 < length (keys_in self.now) }
        ensures { result ≡ goes_inline self.now.targets (keys_in self.now) key }
    {
        let key = self.keys().get(key);
        self.stack.caps().supports(&key.config())
    }

    /// Plugs a bio, for [`Disk::submit_plug`]. Its units have their bytes, and its context's key is one of the disk's.
    ///
    /// # Errors
    ///
    /// `Refused` where the disk refuses the bio, and else `Full` where the plug is full. The bio comes back, and the
    /// plug is as it was.
    pub fn plug(&self, plug: &mut Plug, bio: Bio) -> Result<(), PlugBack>
        requires plug { IsPlug plug.old }
        requires requests { AreRequests (keys_in self.now) plug.old.requests }
        requires key { HasKey (keys_in self.now) bio.context }
        ensures refused { IfErr result (IsPlugBack self.now plug.old bio) }
        ensures err { OnErr result (plug.new ≡ plug.old) }
        ensures accepted { OnOk result (refusal_on self.now (extent_of bio) ≡ None) }
        ensures bios { OnOk result (bios_in plug.new.requests ≡ bios_in plug.old.requests ++ unmarked bio ∷ []) }
        ensures window { OnOk result (IsOfWindow (keys_in self.now) plug.old.requests
            (tagged_bios (bios_in plug.old.requests)) →
            IsOfWindow (keys_in self.now) plug.new.requests (tagged_bios (bios_in plug.new.requests))) }
        ensures plug { OnOk result (IsPlug plug.new) }
        ensures requests { OnOk result (AreRequests (keys_in self.now) plug.new.requests) }
    {
        if let Some(refusal) = self.refusal(&bio) {
            return Err(PlugBack::Refused(refusal, bio));
        }
        match plug.add(self.keys(), bio) {
            Ok(()) => Ok(()),
            Err(bio) => Err(PlugBack::Full(bio)),
        }
    }

    /// The number of shards.
    pub fn shards(&self) -> u16
        ensures { result ≡ shards_of self.now.queue.medium }
    {
        self.shards
    }

    /// How many entries more the pass's caller may have at a shard, of which the first is 0. The pass is one of this
    /// disk.
    pub fn spare_units(&self, pass: &Pass<S>, shard: u16) -> u32
        requires pass { IsPassOf self.now pass.now }
        requires shard { shard < shards_of self.now.queue.medium }
        ensures { result ≡ (facts_on S.contents self.now pass.now).access.spare shard }
    {
        self.queue.medium().spare(&pass.queue.units, shard)
    }

    /// How many events more the pass's caller may make on a device, of which the first is 0. The pass is one of this
    /// disk.
    pub fn spare_events(&self, pass: &Pass<S>, device: u8) -> u32
        requires pass { IsPassOf self.now pass.now }
        requires device { device < length self.now.targets }
        ensures { result ≡ events_left self.now pass.now device }
    {
        let number = usize::from(device);
        self.queue.controllers()[number]
            .profile()
            .spare(&pass.queue.slots[number])
    }
}
