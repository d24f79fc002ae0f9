//! The form of a line: what sort of line it is, and its fields as they are written.

ghost use Rattle.std.specs.Prelude.{◌≡◌, ◌<◌, ℕ, List, [], ◌∷◌, length, MatchOption};
ghost use Rattle.std.specs.Option.{option_map};
ghost use Rattle.std.specs.Str.{bytes_eq};
ghost use Rattle.bc_script.specs.Forms as specs;
ghost use Rattle.bc_script.specs.Lent.{bio_lent, text_lent, form_lent};

use crate::sort::Sort;
use bc_key::Mode;
use bc_text::Parts;

/// The fields of a device's line.
#[derive(Clone, Copy)]
pub(crate) struct DeviceForm<'a> {
    pub(crate) first: &'a [u8],
    pub(crate) blocks: &'a [u8],
    pub(crate) slots: &'a [u8],
    pub(crate) xts: &'a [u8],
    pub(crate) essiv: &'a [u8],
    pub(crate) dun_bytes: &'a [u8],
}

/// The fields of a key's line.
#[derive(Clone, Copy)]
pub(crate) struct KeyForm<'a> {
    pub(crate) name: &'a [u8],
    pub(crate) mode: Mode,
    pub(crate) unit: &'a [u8],
    pub(crate) dun_bytes: &'a [u8],
    pub(crate) digits: &'a [u8],
}

/// The fields of a planned fault's line.
#[derive(Clone, Copy)]
pub(crate) struct FaultForm<'a> {
    pub(crate) shard: &'a [u8],
    pub(crate) access: &'a [u8],
}

/// The fields of a bio.
#[derive(Clone, Copy)]
pub(crate) struct BioForm<'a> {
    pub(crate) key: &'a [u8],
    pub(crate) sector: &'a [u8],
    pub(crate) units: &'a [u8],
    pub(crate) number: &'a [u8],
}

/// The digits of what a write writes.
#[derive(Clone, Copy)]
pub(crate) enum TextForm<'a> {
    /// Of a byte.
    Fill(&'a [u8]),
    /// Of all bytes.
    Hex(&'a [u8]),
}

/// A line of one of the forms that there are.
#[derive(Clone, Copy)]
pub(crate) enum Form<'a> {
    Version,
    Disk(&'a [u8]),
    Fallback(bool),
    Device(DeviceForm<'a>),
    Key(KeyForm<'a>),
    Fault(FaultForm<'a>),
    Thread,
    Write(BioForm<'a>, TextForm<'a>),
    Read(BioForm<'a>),
    Evict(&'a [u8]),
    Reset(&'a [u8]),
    Plug,
    Unplug,
    End,
}

impl<'a> Form<'a> {
    ghost use Rattle.bc_script.specs.Forms as specs;
    ghost use Rattle.bc_script.specs.Lent.{form_lent};

    /// What the line is for.
    pub(crate) fn sort(&self) -> Sort
        ensures { result ≡ specs.sort_of (form_lent self.now) }
    {
        match self {
            Form::Version => Sort::Version,
            Form::Disk(_) => Sort::Disk,
            Form::Fallback(_) => Sort::Fallback,
            Form::Device(_) => Sort::Device,
            Form::Key(_) => Sort::Key,
            Form::Fault(_) => Sort::Fault,
            Form::Thread => Sort::Thread,
            Form::End => Sort::End,
            _ => Sort::Operation,
        }
    }
}

/// The form of a line, if it has one.
pub(crate) fn form_of(mut fields: Parts) -> Option<Form>
    ensures { option_map form_lent result ≡ specs.form_of fields.entry }
{
    let word = fields.next()?;
    form_of_word(word, fields)
}

/// The form that a line has by its first word and its other fields.
fn form_of_word<'a>(word: &[u8], fields: Parts<'a>) -> Option<Form<'a>>
    ensures { option_map form_lent result ≡ specs.form_of_word word.now fields.entry }
{
    if is(word, b"write") {
        with_bio_and_text(fields)
    } else if is(word, b"read") {
        with_bio(fields)
    } else if is(word, b"evict") {
        Some(Form::Evict(one(fields)?))
    } else if is(word, b"reset") {
        Some(Form::Reset(one(fields)?))
    } else if is(word, b"plug") {
        alone(Form::Plug, fields)
    } else if is(word, b"unplug") {
        alone(Form::Unplug, fields)
    } else if is(word, b"thread") {
        alone(Form::Thread, fields)
    } else if is(word, b"key") {
        with_key(fields)
    } else if is(word, b"fault") {
        with_fault(fields)
    } else if is(word, b"blkcrypt") {
        with_word(b"1", Form::Version, fields)
    } else if is(word, b"disk") {
        Some(Form::Disk(one(fields)?))
    } else if is(word, b"fallback") {
        with_switch(fields)
    } else if is(word, b"device") {
        with_device(fields)
    } else if is(word, b"end") {
        alone(Form::End, fields)
    } else {
        None
    }
}

/// Whether the field is this word.
fn is(field: &[u8], word: &[u8]) -> bool
    ensures { result ≡ bytes_eq field.now word.now }
{
    field == word
}

fn alone<'a>(form: Form<'a>, fields: Parts<'a>) -> Option<Form<'a>>
    ensures { option_map form_lent result ≡ specs.alone (form_lent form.entry) fields.entry }
{
    if fields.is_empty() { Some(form) } else { None }
}

fn with_word<'a>(word: &[u8], form: Form<'a>, mut fields: Parts<'a>) -> Option<Form<'a>>
    ensures { option_map form_lent result ≡ specs.form_with_word word.now (form_lent form.entry) fields.entry }
{
    if fields.next()? == word {
        alone(form, fields)
    } else {
        None
    }
}

/// The one field that is left.
fn one<'a>(mut fields: Parts<'a>) -> Option<&'a [u8]>
    ensures { MatchOption result
        ((field : List ℕ) → fields.entry ≡ field ∷ [] → ⊥)
        (λ field. fields.entry ≡ field.now ∷ []) }
{
    let field = fields.next()?;
    if fields.is_empty() { Some(field) } else { None }
}

fn with_switch(fields: Parts) -> Option<Form>
    ensures { option_map form_lent result ≡ specs.with_switch fields.entry }
{
    let word = one(fields)?;
    if is(word, b"on") {
        Some(Form::Fallback(true))
    } else if is(word, b"off") {
        Some(Form::Fallback(false))
    } else {
        None
    }
}

fn with_device(mut fields: Parts) -> Option<Form>
    ensures { option_map form_lent result ≡ specs.form_with_device fields.entry }
{
    let first = fields.next()?;
    let blocks = fields.next()?;
    let slots = fields.next()?;
    let xts = fields.next()?;
    let essiv = fields.next()?;
    let dun_bytes = one(fields)?;
    Some(Form::Device(DeviceForm {
        first,
        blocks,
        slots,
        xts,
        essiv,
        dun_bytes,
    }))
}

fn mode(word: &[u8]) -> Option<Mode>
    ensures { result ≡ specs.mode_of_word word.now }
{
    if is(word, b"aes-256-xts") {
        Some(Mode::Aes256Xts)
    } else if is(word, b"aes-128-cbc-essiv") {
        Some(Mode::Aes128CbcEssiv)
    } else {
        None
    }
}

fn with_key(mut fields: Parts) -> Option<Form>
    ensures { option_map form_lent result ≡ specs.with_key fields.entry }
{
    let name = fields.next()?;
    let word = fields.next()?;
    let unit = fields.next()?;
    let dun_bytes = fields.next()?;
    let digits = fields.next()?;
    if !fields.is_empty() {
        return None;
    }
    let mode = mode(word)?;
    Some(Form::Key(KeyForm {
        name,
        mode,
        unit,
        dun_bytes,
        digits,
    }))
}

fn with_fault(mut fields: Parts) -> Option<Form>
    ensures { option_map form_lent result ≡ specs.form_with_fault fields.entry }
{
    let shard = fields.next()?;
    let access = one(fields)?;
    Some(Form::Fault(FaultForm { shard, access }))
}

/// Takes the fields of a bio.
fn bio<'a>(fields: &mut Parts<'a>) -> Option<BioForm<'a>>
    ensures { MatchOption result (length fields.old < 4)
        (λ bio. fields.old ≡ bio.key.now ∷ bio.sector.now ∷ bio.units.now ∷ bio.number.now ∷ fields.new) }
{
    let key = fields.next()?;
    let sector = fields.next()?;
    let units = fields.next()?;
    let number = fields.next()?;
    Some(BioForm {
        key,
        sector,
        units,
        number,
    })
}

/// Whether `-` stands for the key exactly where it stands for the number.
fn dashes_agree(bio: &BioForm) -> bool
    ensures { result ≡ specs.dashes_agree (bio_lent bio.now) }
{
    is(bio.key, b"-") == is(bio.number, b"-")
}

fn text<'a>(word: &[u8], digits: &'a [u8]) -> Option<TextForm<'a>>
    ensures { option_map text_lent result ≡ specs.text_form word.now digits.now }
{
    if is(word, b"fill") {
        Some(TextForm::Fill(digits))
    } else if is(word, b"hex") {
        Some(TextForm::Hex(digits))
    } else {
        None
    }
}

fn with_bio(mut fields: Parts) -> Option<Form>
    ensures { option_map form_lent result ≡ specs.form_with_bio fields.entry }
{
    let bio = bio(&mut fields)?;
    if !fields.is_empty() || !dashes_agree(&bio) {
        return None;
    }
    Some(Form::Read(bio))
}

fn with_bio_and_text(mut fields: Parts) -> Option<Form>
    ensures { option_map form_lent result ≡ specs.with_bio_and_text fields.entry }
{
    let bio = bio(&mut fields)?;
    let word = fields.next()?;
    let text = text(word, one(fields)?)?;
    if !dashes_agree(&bio) {
        return None;
    }
    Some(Form::Write(bio, text))
}
