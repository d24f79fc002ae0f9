//! The keyslots of a script's devices, for one caller.

ghost use Rattle.std.specs.Prelude.{◌≡◌, ℕ, ◌*◌, ◌<◌, true, [], length, map, replicate, None, Some, Ok, IfOk};
ghost use Rattle.std.specs.Prelude.{IsOk, IsSome, IsSomeAnd};
ghost use Rattle.bc_bio.specs.Conditions.{HasKey};
ghost use Rattle.bc_bio.specs.Extent.{unit_sectors};
ghost use Rattle.bc_medium.specs.KeyedDisk.{enciphered, deciphered};
ghost use Rattle.bc_profile.specs.declared.uses.Use.TheVariants as uses;
ghost use Rattle.bc_report.specs.LawfulRun.{HaveLawfulJournals};
ghost use Rattle.bc_report.specs.Report.{IsEvent, IsPart};
ghost use Rattle.bc_script.specs.Bios.{is_inline};
ghost use Rattle.bc_script.specs.Script.{bare_keys, keys_of};
ghost use Rattle.bc_modes.specs.Entries.{read_words};
ghost use Rattle.bc_stack.specs.Devices.{device_at};
ghost use Rattle.bc_base.specs.Lists.{Each};
ghost use Rattle.bc_serial.specs.Keyslots.{IsRidOf, MayEvict, evicted, JournalHasRoom, HaveNotKey, IsCipherOf, IsOpenFor};
ghost use Rattle.bc_serial.specs.Keyslots.{MeansItsWords, OpensHold};
ghost use Rattle.bc_serial.specs.Keyslots.{row_of_key, is_open_for, used_at, used_each, via_under};
ghost use Rattle.bc_serial.specs.Standing.{HasBegun};

use crate::open_hold::OpenHold;
use crate::slot_cipher::SlotCipher;
use bc_base::Items;
use bc_bio::Context;
use bc_key::{Key, KeyNo};
use bc_medium::Via;
use bc_modes::{UfsCaps, UnitCipher, cipher_of_words, entry_laws, entry_words};
use bc_profile::{Event, ROW_WORDS, Row, Solo};
use bc_script::limits::{MAX_OPS, MAX_UNITS};
use bc_script::{NamedKey, Script};
use bc_stack::{Stack, StackError};
use std::alloc::{AllocError, Global};
use std::marker::Model;
use std::snapshot::Snapshot;

/// The keyslots of a script's devices. One hold may be open: it is given back when another one is
/// taken, and before a key is evicted or a device reset.
#[derive(Drop)]
pub(crate) struct Keyslots<'s> {
    script: &'s Script,
    stack: Stack,
    /// What each device supports.
    caps: Vec<UfsCaps>,
    devices: Vec<Solo>,
    /// Of each device the cipher of each slot.
    ciphers: Vec<Vec<Option<SlotCipher>>>,
    /// The devices as they stood when the section began.
    begun: Snapshot<Vec<Solo>>,
    opened: Option<OpenHold>,
}

impl<'s> Model for Keyslots<'s> {
    ghost use Rattle.std.specs.Prelude.{map};
    ghost use Rattle.bc_serial.specs.Keyslots.{KeyslotsData, IsKeyslots, journal_in};

    ghost Value = { KeyslotsData };

    ghost view = { λ k. record {
      script = k.script.now;
      journals = map journal_in k.devices.items;
      begun = map journal_in k.begun.value.items;
      opened = k.opened;
    } };

    ghost invariant = { λ k. IsKeyslots k.script.now k.stack k.caps.items k.devices.items
        (map (λ c. c.items) k.ciphers.items) k.begun.value.items k.opened };
}

impl<'s> Keyslots<'s> {
    /// The devices of a script, of which no slot has a key.
    pub(crate) fn open(alloc: Global, script: &'s Script) -> Result<Keyslots<'s>, AllocError>
        ensures { IfOk result (λ keyslots. keyslots ≡ record {
          script = script.now;
          journals = map (λ target. []) script.now.targets;
          begun = map (λ target. []) script.now.targets;
          opened = None;
        }) }
    {
        let mut caps = Vec::with_capacity(alloc, script.targets().len())?;
        let mut devices = Vec::with_capacity(alloc, script.targets().len())?;
        let mut ciphers = Vec::with_capacity(alloc, script.targets().len())?;
        for target in script.targets() {
            let supported = UfsCaps::of(&target.caps);
            let rows = rows_of(alloc, script.keys(), &supported)?;
            devices.push(Solo::open(alloc, target.slots, rows, MAX_EVENTS)?)?;
            ciphers.push(no_ciphers(alloc, target.slots)?)?;
            caps.push(supported)?;
        }
        let begun = Snapshot::of(&devices);
        Ok(Keyslots {
            script,
            stack: stack_of(alloc, script)?,
            caps,
            devices,
            ciphers,
            begun,
            opened: None,
        })
    }

    /// Begins a section: no hold is open.
    pub(crate) fn begin(&mut self)
        ensures { self.new ≡ record self.old { begun = self.old.journals; opened = None } }
    {
        self.put();
        self.begun = Snapshot::of(&self.devices);
    }

    /// Does nothing, and states that each journal begins as it did when the section began.
    pub(crate) fn has_begun(&self)
        ensures { HasBegun self.now.begun self.now.journals }
    {
        let _ = &self.devices;
    }

    /// Does nothing, and states that each device has a journal.
    pub(crate) fn has_devices(&self)
        ensures { length self.now.journals ≡ length self.now.script.targets }
    {
        let _ = &self.devices;
    }

    /// Whether the key goes inline: each device supports it.
    pub(crate) fn is_inline(&self, key: KeyNo) -> bool
        requires { key.0 < length (keys_of self.now.script) }
        ensures { result ≡ is_inline self.now.script key }
    {
        let key = &self.script.keys()[usize::from(key.0)].key;
        self.stack.caps().supports(&key.config())
    }

    /// The device that has the sector, which lies on the disk.
    pub(crate) fn locate(&self, sector: u32) -> Option<u8>
        ensures { result ≡ device_at self.now.script.targets sector }
    {
        self.stack.locate(sector)
    }

    /// Whether the hold that is open is of this key on this device.
    pub(crate) fn is_open(&self, device: u8, key: KeyNo) -> bool
        ensures { result ≡ is_open_for self.now.opened device key.0 }
    {
        match self.opened {
            Some(hold) => hold.device == device && hold.key == key.0,
            None => false,
        }
    }

    /// Takes a hold of the key on the device: it stays open. Where no slot has the key, the least
    /// recently idle one is programmed with it.
    pub(crate) fn hold(&mut self, device: u8, key: KeyNo)
        requires device { device < length self.old.script.targets }
        requires key { key.0 < length (keys_of self.old.script) }
        requires inline { is_inline self.old.script key ≡ true }
        requires room { JournalHasRoom self.old device 2 }
        ensures { OpensHold self.old self.new device key.0 }
    {
        entry_laws();
        self.put();
        let number = usize::from(device);
        let (slot, event) = self.devices[number].hold(key);
        let words = self.devices[number].row(slot);
        keep_cipher(
            &mut self.ciphers[number][usize::from(slot)],
            &words,
            &self.caps[number],
        );
        self.opened = Some(OpenHold {
            device,
            key: key.0,
            slot,
            event,
        });
    }

    /// Gives back the hold that is open, if one is.
    pub(crate) fn put(&mut self)
        ensures { self.new ≡ record self.old { opened = None } }
    {
        if let Some(hold) = self.opened {
            self.devices[usize::from(hold.device)].put(hold.slot);
            self.opened = None;
        }
    }

    /// How a unit goes under the hold that is open.
    pub(crate) fn via(&self) -> Via
        requires { IsSome self.now.opened }
        ensures { result ≡ via_under self.now.opened }
    {
        match self.opened {
            Some(hold) => Via::Inline {
                device: hold.device,
                slot: hold.slot,
                event: hold.event,
            },
            None => unreachable!(),
        }
    }

    /// Enciphers a data unit in place by the registers of the slot whose hold is open.
    pub(crate) fn encipher(&self, context: Context, text: &mut [u8])
        requires key { HasKey (keys_of self.now.script) (Some context) }
        requires opened { IsOpenFor self.now.opened context.key.0 }
        requires length { length text.old ≡ 512 * unit_sectors (keys_of self.now.script) (Some context) }
        ensures { text.new ≡ enciphered (keys_of self.now.script) (Some context) text.old }
    {
        self.cipher().encrypt(&context.dun, text);
    }

    /// Deciphers a data unit in place by the registers of the slot whose hold is open.
    pub(crate) fn decipher(&self, context: Context, text: &mut [u8])
        requires key { HasKey (keys_of self.now.script) (Some context) }
        requires opened { IsOpenFor self.now.opened context.key.0 }
        requires length { length text.old ≡ 512 * unit_sectors (keys_of self.now.script) (Some context) }
        ensures { text.new ≡ deciphered (keys_of self.now.script) (Some context) text.old }
    {
        self.cipher().decrypt(&context.dun, text);
    }

    /// The cipher of the slot whose hold is open.
    fn cipher(&self) -> &UnitCipher
        requires { IsSome self.now.opened }
        ensures { IsCipherOf (keys_of self.now.script) self.now.opened result.now }
    {
        let Some(hold) = self.opened else {
            unreachable!()
        };
        match &self.ciphers[usize::from(hold.device)][usize::from(hold.slot)] {
            Some(kept) => &kept.cipher,
            None => unreachable!(),
        }
    }

    /// Takes the key out of the keyslots of all devices.
    pub(crate) fn evict(&mut self, key: KeyNo)
        requires key { key.0 < length (keys_of self.old.script) }
        requires room { (device : ℕ) → device < length self.old.script.targets → JournalHasRoom self.old device 1 }
        ensures records { self.new ≡ record self.old {
          journals = used_each self.old.script (uses.Evict key) self.old.journals;
          opened = None;
        } }
        ensures gone { HaveNotKey self.old.script self.new.journals key.0 }
    {
        self.put();
        evict_from(&mut self.devices, key);
    }

    /// Has a device program its keyslots again.
    pub(crate) fn reset(&mut self, device: u8)
        requires device { device < length self.old.script.targets }
        requires room { JournalHasRoom self.old device 1 }
        ensures { self.new ≡ record self.old {
          journals = used_at self.old.script device uses.Reset self.old.journals;
          opened = None;
        } }
    {
        self.put();
        self.devices[usize::from(device)].reset();
    }

    /// The journals of the devices.
    pub(crate) fn close(self, alloc: Global) -> Result<Items<Items<Event>>, AllocError>
        ensures journals { IfOk result (λ journals. journals ≡ self.entry.journals) }
        ensures lawful { HaveLawfulJournals self.entry.script.targets self.entry.journals }
        ensures ranges { IfOk result (Each (IsPart IsEvent)) }
    {
        let mut keyslots = self;
        keyslots.put();
        let Keyslots { devices, .. } = keyslots;
        let mut journals = Vec::with_capacity(alloc, devices.len())?;
        for device in devices {
            journals.push(Items::from_vec(device.close()))?;
        }
        Ok(Items::from_vec(journals))
    }
}

/// The most events that a device may record: two for each data unit, and one for each operation.
const MAX_EVENTS: u32 = 2 * (MAX_UNITS + MAX_OPS);

/// Takes the key out of the keyslots of each of these devices, on which no slot is held.
fn evict_from(devices: &mut [Solo], key: KeyNo)
    requires { Each (MayEvict key.0) devices.old }
    ensures records { devices.new ≡ map (evicted key.0) devices.old }
    ensures gone { Each (IsRidOf key.0) devices.new }
{
    for device in devices.iter_mut() {
        device.evict(key);
    }
}

/// The stack of a script's devices.
fn stack_of(alloc: Global, script: &Script) -> Result<Stack, AllocError>
    ensures { IfOk result (λ stack. stack ≡ record { targets = script.now.targets; blocks = script.now.blocks }) }
{
    let error = match Stack::new(alloc, script.targets(), script.blocks()) {
        Ok(stack) => return Ok(stack),
        Err(error) => error,
    };
    match error {
        StackError::Memory => Err(AllocError),
        _ => unreachable!(),
    }
}

/// The register row of each key: its entry, where the device supports it, and else zeros.
fn rows_of(alloc: Global, named: &[NamedKey], caps: &UfsCaps) -> Result<Vec<Row>, AllocError>
    ensures { IfOk result (λ rows. rows.items ≡ map (row_of_key caps.now) (bare_keys named.now)) }
{
    let mut rows = Vec::with_capacity(alloc, named.len())?;
    for one in named {
        rows.push(row_of_key(&one.key, caps))?;
    }
    Ok(rows)
}

/// The register row of a key.
fn row_of_key(key: &Key, caps: &UfsCaps) -> Row
    ensures { result ≡ row_of_key caps.now key.now }
{
    match entry_words(key, caps) {
        Some(words) => words,
        None => [0; ROW_WORDS],
    }
}

/// No cipher for each of so many slots.
fn no_ciphers(alloc: Global, slots: u16) -> Result<Vec<Option<SlotCipher>>, AllocError>
    ensures { IfOk result (λ ciphers. ciphers.items ≡ replicate slots None) }
{
    let mut ciphers = Vec::with_capacity(alloc, usize::from(slots))?;
    for _ in 0..slots {
        ciphers.push(None)?;
    }
    Ok(ciphers)
}

/// Has the cipher that these words mean kept: the one that is there, where it is that of the same
/// words, and else a new one.
fn keep_cipher(kept: &mut Option<SlotCipher>, words: &Row, caps: &UfsCaps)
    requires kept { MeansItsWords caps.now kept.old }
    requires reads { IsOk (read_words words.now caps.now) }
    ensures { IsSomeAnd kept.new (λ c. (c.words ≡ words.now) × (read_words words.now caps.now ≡ Ok c.parts)) }
{
    if let Some(cipher) = kept {
        if cipher.words == *words {
            return;
        }
    }
    let Ok(cipher) = cipher_of_words(words, caps) else {
        unreachable!()
    };
    *kept = Some(SlotCipher {
        words: *words,
        cipher,
    });
}
