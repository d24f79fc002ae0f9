//! The controller: data units, enciphered and deciphered by the registers of a keyslot.
ghost use Rattle.std.specs.Prelude.{◌≡◌, ◌*◌, ◌<◌, length, Some, IsErr, IfOk, IfErr, IsSomeAnd};
ghost use Rattle.bc_key.specs.KeyData.{IsValid};
ghost use Rattle.bc_modes.specs.Entries.{entry_words};
ghost use Rattle.bc_modes.specs.UnitCipher.{parts_of};
ghost use Rattle.bc_bio.specs.declared.access.Access.{Access};
ghost use Rattle.bc_bio.specs.Conditions.{HasKey};
ghost use Rattle.bc_bio.specs.Extent.{unit_sectors};
ghost use Rattle.bc_medium.specs.KeyedDisk.{enciphered, deciphered, Written, Faulted, Text};
ghost use Rattle.bc_medium.specs.Entries.{written_entry, read_entry, failed_entry, unit_name};
ghost use Rattle.bc_medium.specs.Medium.{Belongs, HasRoom, OwnsSectors, Accesses, AnswersSeen, FailedAsPlanned};
ghost use Rattle.bc_profile.specs.Passes.{IsOf, row_at};
ghost use Rattle.bc_ufs.specs.Controllers.{Serves, via_by_device};

use crate::last_cipher::{LastCipher, is_of};
use bc_base::{BLOCK_BYTES, Place, Store};
use bc_bio::Context;
use bc_key::{Key, Keys};
use bc_medium::{Fault, Medium, MediumPass, UnitAt, Via};
use bc_modes::{UfsCaps, entry_laws};
use bc_profile::{Hold, Profile, ROW_WORDS, Row, SlotPass};
use std::marker::Model;
use std::sync::Wait;

/// A controller: the number of its device, the keyslots, and what its crypto engine can do. The register row of a key
/// that it supports is the key's entry.
#[derive(Drop)]
pub struct Controller {
    device: u8,
    profile: Profile,
    caps: UfsCaps,
}

impl Model for Controller {
    ghost use Rattle.bc_ufs.specs.Controllers.{ControllerData};

    ghost Value = { ControllerData };

    ghost view = { λ c. record { device = c.device; profile = c.profile; caps = c.caps } };

    ghost use Rattle.std.specs.Prelude.{◌≤◌, length};

    ghost invariant = { λ c. length c.caps.list ≤ 2 };
}

impl Controller {
    /// The controller of a device. A key that it doesn't support has a row of zeros, and nobody takes a hold of it.
    pub fn new(device: u8, profile: Profile, caps: UfsCaps) -> Controller
        ensures { result ≡ record { device = device; profile = profile; caps = caps } }
    {
        Controller {
            device,
            profile,
            caps,
        }
    }

    /// The number of its device.
    pub fn device(&self) -> u8
        ensures { result ≡ self.now.device }
    {
        self.device
    }

    /// Its keyslots.
    pub fn profile(&self) -> &Profile
        ensures { result.now ≡ self.now.profile }
    {
        &self.profile
    }

    /// Its keyslots, for closing.
    pub fn into_profile(self) -> Profile
        ensures { result ≡ self.profile }
    {
        self.profile
    }

    /// Writes a data unit: loads the 18 registers of the hold's slot, enciphers by them what is written, in `scratch`,
    /// and writes that to the medium. The hold is the pass's, of the context's key, which the controller supports; the
    /// row of that key is its entry. The other conditions are those of [`Medium::write_unit`], whose promise this is.
    ///
    /// # Errors
    /// The store failed: no sector has changed. The fault has the entry's place, and comes with `plain`.
    pub fn write<S: Store, R: Wait>(
        &self,
        rt: &R,
        slots: &mut SlotPass,
        hold: &Hold,
        medium: &Medium<S>,
        units: &mut MediumPass<S>,
        at: UnitAt,
        plain: Vec<u8>,
        scratch: &mut [u8; BLOCK_BYTES],
    ) -> Result<Place, (Fault, Vec<u8>)>
        requires slots { IsOf self.now.profile slots.old }
        requires held { slots.old.hold ≡ Some hold.now }
        requires serves { Serves self.now medium.now.keys.keys at.context hold.now }
        requires pass { Belongs medium.now units.old }
        requires caller { at.caller ≡ units.old.caller }
        requires length { length plain.items ≡ 512 * unit_sectors medium.now.keys.keys at.context }
        requires spare { HasRoom medium.now units.old at.sector }
        requires sectors { OwnsSectors S.owns medium.now at.sector (unit_sectors medium.now.keys.keys at.context) }
        ensures slots { slots.new ≡ slots.old }
        ensures pass { Belongs medium.now units.new }
        ensures caller { units.new.caller ≡ units.old.caller }
        ensures performs { IfOk result (Accesses medium.now units.old units.new
            (written_entry at (via_by_device self.now hold.now) plain.items)) }
        ensures performs_fault { IfErr result (λ fault. Accesses medium.now units.old units.new
            (failed_entry Access.Write at (via_by_device self.now hold.now)) fault.0.place) }
        ensures back { IfErr result (λ fault. fault.1.items ≡ plain.items) }
        ensures answer { IfOk result (AnswersSeen S.contents medium.now units.new (unit_name at) Written) }
        ensures answer_fault { IfErr result (λ fault.
            AnswersSeen S.contents medium.now units.new (unit_name at) Faulted fault.0.place) }
        ensures planned { IfOk result (FailedAsPlanned S.calls medium.now (IsErr result)) }
        ensures planned_fault { IfErr result (λ fault.
            FailedAsPlanned S.calls medium.now (IsErr result) fault.0.place) }
    {
        let mut last = None;
        self.write_with(
            rt, slots, hold, medium, units, &at, plain, scratch, &mut last,
        )
    }

    /// Writes a data unit, as [`Controller::write`]. It keeps the cipher in `last`, and takes the one that is there
    /// where the registers still have its words.
    ///
    /// # Errors
    /// A fault of the store, as [`Controller::write`] has it, with the bytes.
    pub fn write_with<S: Store, R: Wait>(
        &self,
        rt: &R,
        slots: &mut SlotPass,
        hold: &Hold,
        medium: &Medium<S>,
        units: &mut MediumPass<S>,
        at: &UnitAt,
        plain: Vec<u8>,
        scratch: &mut [u8; BLOCK_BYTES],
        last: &mut Option<LastCipher>,
    ) -> Result<Place, (Fault, Vec<u8>)>
        requires slots { IsOf self.now.profile slots.old }
        requires held { slots.old.hold ≡ Some hold.now }
        requires serves { Serves self.now medium.now.keys.keys at.now.context hold.now }
        requires pass { Belongs medium.now units.old }
        requires caller { at.now.caller ≡ units.old.caller }
        requires length { length plain.items ≡ 512 * unit_sectors medium.now.keys.keys at.now.context }
        requires spare { HasRoom medium.now units.old at.now.sector }
        requires sectors { OwnsSectors S.owns medium.now at.now.sector
            (unit_sectors medium.now.keys.keys at.now.context) }
        ensures slots { slots.new ≡ slots.old }
        ensures pass { Belongs medium.now units.new }
        ensures caller { units.new.caller ≡ units.old.caller }
        ensures performs { IfOk result (Accesses medium.now units.old units.new
            (written_entry at.now (via_by_device self.now hold.now) plain.items)) }
        ensures performs_fault { IfErr result (λ fault. Accesses medium.now units.old units.new
            (failed_entry Access.Write at.now (via_by_device self.now hold.now)) fault.0.place) }
        ensures back { IfErr result (λ fault. fault.1.items ≡ plain.items) }
        ensures answer { IfOk result (AnswersSeen S.contents medium.now units.new (unit_name at.now) Written) }
        ensures answer_fault { IfErr result (λ fault.
            AnswersSeen S.contents medium.now units.new (unit_name at.now) Faulted fault.0.place) }
        ensures planned { IfOk result (FailedAsPlanned S.calls medium.now (IsErr result)) }
        ensures planned_fault { IfErr result (λ fault.
            FailedAsPlanned S.calls medium.now (IsErr result) fault.0.place) }
    {
        let text = &mut scratch[..plain.len()];
        text.copy_from_slice(plain.as_slice());
        self.encipher(slots, hold, medium.keys(), at.context, text, last);
        medium.write_unit(rt, units, *at, self.via(hold), plain, text)
    }

    /// Reads a data unit into `text` and deciphers it there by the 18 registers of the hold's slot, which it loads. The
    /// conditions are those of [`Controller::write`].
    ///
    /// # Errors
    /// The store failed: `text` is then unspecified. The fault has the entry's place.
    pub fn read<S: Store, R: Wait>(
        &self,
        rt: &R,
        slots: &mut SlotPass,
        hold: &Hold,
        medium: &Medium<S>,
        units: &mut MediumPass<S>,
        at: UnitAt,
        text: &mut [u8],
    ) -> Result<Place, Fault>
        requires slots { IsOf self.now.profile slots.old }
        requires held { slots.old.hold ≡ Some hold.now }
        requires serves { Serves self.now medium.now.keys.keys at.context hold.now }
        requires pass { Belongs medium.now units.old }
        requires caller { at.caller ≡ units.old.caller }
        requires length { length text.old ≡ 512 * unit_sectors medium.now.keys.keys at.context }
        requires spare { HasRoom medium.now units.old at.sector }
        requires sectors { OwnsSectors S.owns medium.now at.sector (unit_sectors medium.now.keys.keys at.context) }
        ensures slots { slots.new ≡ slots.old }
        ensures pass { Belongs medium.now units.new }
        ensures caller { units.new.caller ≡ units.old.caller }
        ensures performs { IfOk result (Accesses medium.now units.old units.new
            (read_entry at (via_by_device self.now hold.now))) }
        ensures performs_fault { IfErr result (λ fault. Accesses medium.now units.old units.new
            (failed_entry Access.Read at (via_by_device self.now hold.now)) fault.place) }
        ensures length { length text.new ≡ length text.old }
        ensures answer { IfOk result (AnswersSeen S.contents medium.now units.new (unit_name at) (Text text.new)) }
        ensures answer_fault { IfErr result (λ fault.
            AnswersSeen S.contents medium.now units.new (unit_name at) Faulted fault.place) }
        ensures planned { IfOk result (FailedAsPlanned S.calls medium.now (IsErr result)) }
        ensures planned_fault { IfErr result (λ fault. FailedAsPlanned S.calls medium.now (IsErr result) fault.place) }
    {
        let mut last = None;
        self.read_with(rt, slots, hold, medium, units, &at, text, &mut last)
    }

    /// Reads a data unit, as [`Controller::read`]. It keeps the cipher in `last`, and takes the one that is there where
    /// the registers still have its words.
    ///
    /// # Errors
    /// A fault of the store, as [`Controller::read`] has it.
    pub fn read_with<S: Store, R: Wait>(
        &self,
        rt: &R,
        slots: &mut SlotPass,
        hold: &Hold,
        medium: &Medium<S>,
        units: &mut MediumPass<S>,
        at: &UnitAt,
        text: &mut [u8],
        last: &mut Option<LastCipher>,
    ) -> Result<Place, Fault>
        requires slots { IsOf self.now.profile slots.old }
        requires held { slots.old.hold ≡ Some hold.now }
        requires serves { Serves self.now medium.now.keys.keys at.now.context hold.now }
        requires pass { Belongs medium.now units.old }
        requires caller { at.now.caller ≡ units.old.caller }
        requires length { length text.old ≡ 512 * unit_sectors medium.now.keys.keys at.now.context }
        requires spare { HasRoom medium.now units.old at.now.sector }
        requires sectors { OwnsSectors S.owns medium.now at.now.sector
            (unit_sectors medium.now.keys.keys at.now.context) }
        ensures slots { slots.new ≡ slots.old }
        ensures pass { Belongs medium.now units.new }
        ensures caller { units.new.caller ≡ units.old.caller }
        ensures performs { IfOk result (Accesses medium.now units.old units.new
            (read_entry at.now (via_by_device self.now hold.now))) }
        ensures performs_fault { IfErr result (λ fault. Accesses medium.now units.old units.new
            (failed_entry Access.Read at.now (via_by_device self.now hold.now)) fault.place) }
        ensures length { length text.new ≡ length text.old }
        ensures answer { IfOk result (AnswersSeen S.contents medium.now units.new (unit_name at.now) (Text text.new)) }
        ensures answer_fault { IfErr result (λ fault.
            AnswersSeen S.contents medium.now units.new (unit_name at.now) Faulted fault.place) }
        ensures planned { IfOk result (FailedAsPlanned S.calls medium.now (IsErr result)) }
        ensures planned_fault { IfErr result (λ fault. FailedAsPlanned S.calls medium.now (IsErr result) fault.place) }
    {
        match medium.read_unit(rt, units, *at, self.via(hold), text) {
            Ok(place) => {
                self.decipher(slots, hold, medium.keys(), at.context, text, last);
                Ok(place)
            }
            Err(fault) => Err(fault),
        }
    }

    /// How a data unit goes that is enciphered under the hold.
    fn via(&self, hold: &Hold) -> Via
        ensures { result ≡ via_by_device self.now hold.now }
    {
        Via::Inline {
            device: self.device,
            slot: hold.slot(),
            event: hold.epoch(),
        }
    }

    /// Enciphers a data unit in place.
    fn encipher(
        &self,
        slots: &mut SlotPass,
        hold: &Hold,
        keys: &Keys,
        context: Option<Context>,
        text: &mut [u8],
        last: &mut Option<LastCipher>,
    )
        requires slots { IsOf self.now.profile slots.old }
        requires held { slots.old.hold ≡ Some hold.now }
        requires serves { Serves self.now keys.now.keys context hold.now }
        requires length { length text.old ≡ 512 * unit_sectors keys.now.keys context }
        ensures slots { slots.new ≡ slots.old }
        ensures enciphers { text.new ≡ enciphered keys.now.keys context text.old }
        ensures length { length text.new ≡ length text.old }
    {
        let Some(context) = context else {
            unreachable!()
        };
        self.load_cipher(slots, hold, keys.get(context.key), last);
        match last {
            Some(last) => last.cipher().encrypt(&context.dun, text),
            None => unreachable!(),
        }
    }

    /// Deciphers a data unit in place.
    fn decipher(
        &self,
        slots: &mut SlotPass,
        hold: &Hold,
        keys: &Keys,
        context: Option<Context>,
        text: &mut [u8],
        last: &mut Option<LastCipher>,
    )
        requires slots { IsOf self.now.profile slots.old }
        requires held { slots.old.hold ≡ Some hold.now }
        requires serves { Serves self.now keys.now.keys context hold.now }
        requires length { length text.old ≡ 512 * unit_sectors keys.now.keys context }
        ensures slots { slots.new ≡ slots.old }
        ensures deciphers { text.new ≡ deciphered keys.now.keys context text.old }
        ensures length { length text.new ≡ length text.old }
    {
        let Some(context) = context else {
            unreachable!()
        };
        self.load_cipher(slots, hold, keys.get(context.key), last);
        match last {
            Some(last) => last.cipher().decrypt(&context.dun, text),
            None => unreachable!(),
        }
    }

    /// Loads the registers of the hold's slot, and has the cipher that they mean: the one that is there, where it is
    /// that of the same words, and else a new one.
    fn load_cipher(
        &self,
        slots: &mut SlotPass,
        hold: &Hold,
        key: &Key,
        last: &mut Option<LastCipher>,
    )
        requires slots { IsOf self.now.profile slots.old }
        requires held { slots.old.hold ≡ Some hold.now }
        requires valid { IsValid key.now.config key.now.raw }
        requires entry { entry_words key.now self.now.caps ≡ Some (row_at self.now.profile hold.now.key) }
        ensures slots { slots.new ≡ slots.old }
        ensures cipher { IsSomeAnd last.new (λ parts. parts ≡ parts_of key.now) }
    {
        entry_laws();
        let caps = &self.caps;
        let words = self.load(slots, hold);
        if is_of(last, &words, caps) {
            return;
        }
        let Ok(cipher) = LastCipher::of_words(words, caps) else {
            unreachable!()
        };
        *last = Some(cipher);
    }

    /// The 18 registers of the hold's slot.
    fn load(&self, slots: &mut SlotPass, hold: &Hold) -> Row
        requires slots { IsOf self.now.profile slots.old }
        requires held { slots.old.hold ≡ Some hold.now }
        requires row { length (row_at self.now.profile hold.now.key) ≡ 18 }
        ensures slots { slots.new ≡ slots.old }
        ensures words { result ≡ row_at self.now.profile hold.now.key }
    {
        let mut words = [0; ROW_WORDS];
        for register in 0..ROW_WORDS {
            words[register] = self.profile.load(slots, hold, register as u8);
        }
        words
    }
}
