//! The tests of a line, in their order.

ghost use Rattle.std.specs.Prelude.{◌≡◌, ℕ, ◌+◌, ◌*◌, ◌≤◌, ◌&&◌, ◌||◌, not, nat_le, nat_lt, true, length, sum_by, IfOk, IfErr, MatchResult};
ghost use Rattle.std.specs.Str.{bytes_eq};
ghost use Rattle.bc_bio.specs.Extent.{unit_sectors};
ghost use Rattle.bc_script.specs.declared.script_error.ScriptWhy.TheVariants as why;
ghost use Rattle.bc_script.specs.declared.statement.Statement.TheVariants as statements;
ghost use Rattle.bc_script.specs.Name.{is_name};
ghost use Rattle.bc_script.specs.Script.{IsContext, bare_keys, is_before, unit_count_of_section, max_blocks, max_bio_units, max_bio_sectors, max_ops, max_units};
ghost use Rattle.bc_script.specs.ScriptText.{dash};
ghost use Rattle.bc_script.specs.Forms as forms;
ghost use Rattle.bc_script.specs.ScriptErrors.{error_at, is_declared, is_number};
ghost use Rattle.bc_script.specs.Progress.{IsProgress, blocks_of, is_whole, forms_read, sections_read};
ghost use Rattle.bc_script.specs.Says.{SaysNumber};
ghost use Rattle.bc_script.specs.Lent.{device_lent, key_lent, fault_lent, bio_lent, text_lent, form_lent};
ghost use Rattle.bc_script.specs.Statements.{IsNextStatement, DashesAgree, ReadsForm, Reports, RefusesTest, follows_faults};
ghost use Rattle.bc_script.specs.DeviceFields.{SaysDevice, RefusesDevice};
ghost use Rattle.bc_script.specs.BioFields.{IsNewName, IsDeclared, SaysKey, SaysBio, RefusesBio, context_with};

use super::{Reader, is_end, is_in_section};
use crate::form::{self, BioForm, DeviceForm, FaultForm, Form, KeyForm, TextForm};
use crate::limits::{
    LAST_ACCESS, LAST_BLOCK, LAST_SHARD, MAX_BIO_SECTORS, MAX_BIO_UNITS, MAX_BLOCKS,
    MAX_DEVICE_DUN_BYTES, MAX_DEVICES, MAX_FAULTS, MAX_KEYS, MAX_OPS, MAX_SLOTS, MAX_THREADS,
    MAX_UNIT_MASK, MAX_UNITS,
};
use crate::name::Name;
use crate::named_key::NamedKey;
use crate::op::Op;
use crate::script_error::ScriptWhy;
use crate::sort::Sort;
use crate::statement::{Statement, Unread};
use crate::{field, order};
use bc_base::SECTOR_BYTES;
use bc_bio::Context;
use bc_key::{Caps, Dun, Key, KeyNo};
use bc_stack::Target;
use bc_text::Parts;
use std::alloc::Global;

/// The fields that a bio has beside its text.
#[derive(Clone, Copy)]
struct BioFields {
    context: Option<Context>,
    sector: u32,
    units: u32,
}

impl Reader {
    /// What the next line says.
    pub(super) fn statement(&self, alloc: Global, line: Parts) -> Result<Statement, Unread>
        ensures ok { IfOk result (IsNextStatement self.now line.entry) }
        ensures bad { IfErr result (Reports (error_at (forms_read self.now) line.entry)) }
    {
        let last = self.last_sort();
        if is_end(last) {
            return Err(Unread::Bad(ScriptWhy::End));
        }
        let Some(form) = form::form_of(line) else {
            return Err(Unread::Bad(ScriptWhy::Word));
        };
        if !order::may_follow(last, form.sort()) {
            return Err(Unread::Bad(ScriptWhy::Word));
        }
        self.statement_of_form(alloc, form)
    }

    /// What a line of this form says, where it may stand.
    fn statement_of_form(&self, alloc: Global, form: Form) -> Result<Statement, Unread>
        requires { DashesAgree (form_lent form) }
        ensures { ReadsForm self.now (form_lent form.entry) result }
    {
        match form {
            Form::Version => Ok(Statement::Version),
            Form::Disk(blocks) => disk(blocks),
            Form::Fallback(on) => Ok(Statement::Fallback(on)),
            Form::Device(device) => self.device(device),
            Form::Key(key) => self.key(key),
            Form::Fault(fault) => self.fault(fault),
            Form::Thread => self.thread(),
            Form::Write(bio, text) => self.write(alloc, bio, text),
            Form::Read(bio) => self.read(bio),
            Form::Evict(name) => self.evict(name),
            Form::Reset(device) => self.reset(device),
            Form::Plug => self.plug(),
            Form::Unplug => self.unplug(),
            Form::End => self.end(),
        }
    }

    fn device(&self, form: DeviceForm) -> Result<Statement, Unread>
        ensures { ReadsForm self.now (forms.Device (device_lent form.entry)) result }
    {
        let device = device_of(form)?;
        if device.first != self.end_of_devices() {
            return Err(Unread::Bad(ScriptWhy::Device));
        }
        if self.targets.len() >= MAX_DEVICES {
            return Err(Unread::Bad(ScriptWhy::Limit));
        }
        Ok(Statement::Device(device))
    }

    /// The first block after the devices.
    fn end_of_devices(&self) -> u32
        ensures end { result ≡ blocks_of self.now.targets }
        ensures rules { IsProgress self.now }
    {
        match self.targets.last() {
            Some(last) => last.first + last.blocks,
            None => 0,
        }
    }

    /// Whether the devices, if there are any, have the disk's blocks together.
    fn are_whole(&self) -> bool
        ensures test { result ≡ is_whole self.now }
        ensures rules { IsProgress self.now }
    {
        self.targets.is_empty() || self.end_of_devices() == self.blocks
    }

    fn key(&self, form: KeyForm) -> Result<Statement, Unread>
        ensures { ReadsForm self.now (forms.Key (key_lent form.entry)) result }
    {
        let name = self.new_name(form.name)?;
        let unit = field::number(form.unit, 0, u32::MAX)?;
        let dun_bytes = field::number(form.dun_bytes, 0, 255)?;
        let Some(raw) = field::key_bytes(form.digits) else {
            return Err(Unread::Bad(ScriptWhy::Hex));
        };
        let key = match Key::new(form.mode, raw.as_slice(), unit, dun_bytes as u8) {
            Ok(key) => key,
            Err(error) => return Err(Unread::Bad(ScriptWhy::Key(error))),
        };
        if !self.are_whole() {
            return Err(Unread::Bad(ScriptWhy::Device));
        }
        if self.keys.len() >= MAX_KEYS {
            return Err(Unread::Bad(ScriptWhy::Limit));
        }
        Ok(Statement::Key(NamedKey { name, key }))
    }

    /// A name that no key has yet.
    fn new_name(&self, name: &[u8]) -> Result<Name, Unread>
        ensures { MatchResult result
            (IsNewName self.now name.now)
            (RefusesTest (is_name name.now && not (is_declared name.now (forms_read self.now))) why.Name) }
    {
        if self.keys.number_of(name).is_some() {
            return Err(Unread::Bad(ScriptWhy::Name));
        }
        match Name::of(name) {
            Some(name) => Ok(name),
            None => Err(Unread::Bad(ScriptWhy::Name)),
        }
    }

    fn fault(&self, form: FaultForm) -> Result<Statement, Unread>
        ensures { ReadsForm self.now (forms.Fault (fault_lent form.entry)) result }
    {
        let shard = field::number(form.shard, 0, LAST_SHARD)?;
        let access = field::number(form.access, 0, LAST_ACCESS)?;
        let fault = (shard as u16, access);
        if !is_after(self.faults.as_slice(), fault) {
            return Err(Unread::Bad(ScriptWhy::Order));
        }
        if !self.are_whole() {
            return Err(Unread::Bad(ScriptWhy::Device));
        }
        if self.faults.len() >= MAX_FAULTS {
            return Err(Unread::Bad(ScriptWhy::Limit));
        }
        Ok(Statement::Fault(fault))
    }

    fn thread(&self) -> Result<Statement, Unread>
        ensures { ReadsForm self.now forms.Thread result }
    {
        if self.plugged {
            return Err(Unread::Bad(ScriptWhy::Order));
        }
        if !self.are_whole() {
            return Err(Unread::Bad(ScriptWhy::Device));
        }
        if self.section_count() >= MAX_THREADS {
            return Err(Unread::Bad(ScriptWhy::Limit));
        }
        Ok(Statement::Thread)
    }

    /// How many sections there are, with the one that is being read.
    fn section_count(&self) -> usize
        ensures { result ≡ length (sections_read self.now) }
    {
        self.threads.len() + usize::from(is_in_section(self.last))
    }

    fn write(&self, alloc: Global, form: BioForm, text: TextForm) -> Result<Statement, Unread>
        requires dashes { forms.dashes_agree (bio_lent form) ≡ true }
        ensures { ReadsForm self.now (forms.Write (bio_lent form.entry) (text_lent text.entry)) result }
    {
        let BioFields {
            context,
            sector,
            units,
        } = self.bio(&form)?;
        let sectors = self.unit_sectors(&context);
        let size = units as usize * (SECTOR_BYTES * sectors as usize);
        let text = field::write_text(alloc, text, size)?;
        if !self.has_room_for(units, sectors) {
            return Err(Unread::Bad(ScriptWhy::Limit));
        }
        Ok(Statement::Operation(Op::Write {
            context,
            sector,
            units,
            text,
        }))
    }

    fn read(&self, form: BioForm) -> Result<Statement, Unread>
        requires dashes { forms.dashes_agree (bio_lent form) ≡ true }
        ensures { ReadsForm self.now (forms.Read (bio_lent form.entry)) result }
    {
        let BioFields {
            context,
            sector,
            units,
        } = self.bio(&form)?;
        if !self.has_room_for(units, self.unit_sectors(&context)) {
            return Err(Unread::Bad(ScriptWhy::Limit));
        }
        Ok(Statement::Operation(Op::Read {
            context,
            sector,
            units,
        }))
    }

    fn bio(&self, form: &BioForm) -> Result<BioFields, Unread>
        requires dashes { forms.dashes_agree (bio_lent form.now) ≡ true }
        ensures { MatchResult result (SaysBio self.now (bio_lent form.now)) (RefusesBio self.now (bio_lent form.now)) }
    {
        let key = self.bio_key(form.key)?;
        let sector = field::number(form.sector, 0, u32::MAX)?;
        let units = field::number(form.units, 0, MAX_BIO_UNITS)?;
        let dun = field::bio_number(form.number)?;
        Ok(BioFields {
            context: context_with(key, dun),
            sector,
            units,
        })
    }

    /// The key of a bio, which has none where the field is `-`.
    fn bio_key(&self, name: &[u8]) -> Result<Option<KeyNo>, Unread>
        ensures { MatchResult result
            (SaysKey self.now name.now)
            (RefusesTest (bytes_eq name.now dash || is_declared name.now (forms_read self.now)) why.Name) }
    {
        if name == b"-".as_slice() {
            return Ok(None);
        }
        Ok(Some(self.declared_key(name)?))
    }

    /// The key with this name.
    fn declared_key(&self, name: &[u8]) -> Result<KeyNo, Unread>
        ensures { MatchResult result
            (IsDeclared self.now name.now)
            (RefusesTest (is_declared name.now (forms_read self.now)) why.Name) }
    {
        match self.keys.number_of(name) {
            Some(key) => Ok(key),
            None => Err(Unread::Bad(ScriptWhy::Name)),
        }
    }

    /// How many sectors a data unit has.
    fn unit_sectors(&self, context: &Option<Context>) -> u32
        requires { IsContext (bare_keys self.now.keys) context.now }
        ensures value { result ≡ unit_sectors (bare_keys self.now.keys) context.now }
        ensures most { result ≤ 8 }
        ensures rules { IsProgress self.now }
    {
        let keys = self.keys.as_slice();
        match context {
            Some(context) => {
                let named = &keys[usize::from(context.key.0)];
                named.key.config().unit.sectors()
            }
            None => 1,
        }
    }

    /// Whether the script may have one more bio, of so many data units.
    fn has_room_for(&self, units: u32, sectors: u32) -> bool
        requires units { units ≤ max_bio_units }
        requires sectors { sectors ≤ 8 }
        ensures test { result ≡ (nat_le (units * sectors) max_bio_sectors
            && (nat_le (sum_by unit_count_of_section (sections_read self.now) + units) max_units
            && nat_lt (sum_by length (sections_read self.now)) max_ops)) }
        ensures rules { IsProgress self.now }
    {
        units * sectors <= MAX_BIO_SECTORS && self.units + units <= MAX_UNITS && self.has_room()
    }

    /// Whether the script may have one more operation.
    fn has_room(&self) -> bool
        ensures test { result ≡ nat_lt (sum_by length (sections_read self.now)) max_ops }
        ensures rules { IsProgress self.now }
    {
        self.ops < MAX_OPS
    }

    fn evict(&self, name: &[u8]) -> Result<Statement, Unread>
        ensures { ReadsForm self.now (forms.Evict name.now) result }
    {
        let key = self.declared_key(name)?;
        if !self.has_room() {
            return Err(Unread::Bad(ScriptWhy::Limit));
        }
        Ok(Statement::Operation(Op::Evict(key)))
    }

    fn reset(&self, device: &[u8]) -> Result<Statement, Unread>
        ensures { ReadsForm self.now (forms.Reset device.now) result }
    {
        let device = field::number_below(device, self.targets.len() as u32)?;
        if !self.has_room() {
            return Err(Unread::Bad(ScriptWhy::Limit));
        }
        Ok(Statement::Operation(Op::Reset(device as u8)))
    }

    fn plug(&self) -> Result<Statement, Unread>
        ensures { ReadsForm self.now forms.Plug result }
    {
        if self.plugged {
            return Err(Unread::Bad(ScriptWhy::Order));
        }
        if !self.has_room() {
            return Err(Unread::Bad(ScriptWhy::Limit));
        }
        Ok(Statement::Operation(Op::Plug))
    }

    fn unplug(&self) -> Result<Statement, Unread>
        ensures { ReadsForm self.now forms.Unplug result }
    {
        if !self.plugged {
            return Err(Unread::Bad(ScriptWhy::Order));
        }
        if !self.has_room() {
            return Err(Unread::Bad(ScriptWhy::Limit));
        }
        Ok(Statement::Operation(Op::Unplug))
    }

    fn end(&self) -> Result<Statement, Unread>
        ensures { ReadsForm self.now forms.End result }
    {
        if self.plugged {
            return Err(Unread::Bad(ScriptWhy::Order));
        }
        if !self.are_whole() {
            return Err(Unread::Bad(ScriptWhy::Device));
        }
        Ok(Statement::End)
    }
}

fn disk(blocks: &[u8]) -> Result<Statement, Unread>
    ensures { MatchResult result
        (λ statement. (n : ℕ) × (statement ≡ statements.Disk n) × SaysNumber 1 max_blocks blocks.now n)
        (RefusesTest (is_number 1 max_blocks blocks.now) why.Number) }
{
    Ok(Statement::Disk(field::number(blocks, 1, MAX_BLOCKS)?))
}

/// The device that the fields of a line say.
fn device_of(form: DeviceForm) -> Result<Target, Unread>
    ensures { MatchResult result (SaysDevice (device_lent form.entry)) (RefusesDevice (device_lent form.entry)) }
{
    let first = field::number(form.first, 0, LAST_BLOCK)?;
    let blocks = field::number(form.blocks, 1, MAX_BLOCKS)?;
    let slots = field::number(form.slots, 1, MAX_SLOTS as u32)?;
    let xts = field::number(form.xts, 0, MAX_UNIT_MASK)?;
    let essiv = field::number(form.essiv, 0, MAX_UNIT_MASK)?;
    let dun_bytes = field::number(form.dun_bytes, 1, MAX_DEVICE_DUN_BYTES)?;
    let caps = Caps {
        xts: xts as u8,
        essiv: essiv as u8,
        max_dun_bytes: dun_bytes as u8,
    };
    Ok(Target {
        first,
        blocks,
        slots: slots as u16,
        caps,
    })
}

/// Whether a fault comes after the last of these, if there is one.
fn is_after(faults: &[(u16, u32)], fault: (u16, u32)) -> bool
    ensures { result ≡ follows_faults faults.now fault }
{
    match faults.last() {
        Some(last) => is_before(*last, fault),
        None => true,
    }
}

/// Whether the first fault comes before the second.
fn is_before(first: (u16, u32), second: (u16, u32)) -> bool
    ensures { result ≡ is_before first second }
{
    first.0 < second.0 || (first.0 == second.0 && first.1 < second.1)
}

/// A key and a number make a context.
fn context_with(key: Option<KeyNo>, dun: Option<Dun>) -> Option<Context>
    ensures { result ≡ context_with key dun }
{
    match (key, dun) {
        (Some(key), Some(dun)) => Some(Context { key, dun }),
        _ => None,
    }
}
