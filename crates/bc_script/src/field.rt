//! What fields say, and the kind of error of those that say nothing.

ghost use Rattle.std.specs.Prelude.{◌≡◌, ◌≢◌, ◌/◌, ◌||◌, false, [], ◌∷◌, length, MatchOption, MatchResult, IfOk, IsOk};
ghost use Rattle.std.specs.Str.{bytes_eq};
ghost use Rattle.bc_script.specs.declared.script_error.ScriptWhy.TheVariants as why;
ghost use Rattle.bc_script.specs.ScriptText.{dash};
ghost use Rattle.bc_script.specs.ScriptErrors.{is_number, is_number_below, is_number_text, is_hex_text, is_text};
ghost use Rattle.bc_script.specs.Lent.{text_lent};
ghost use Rattle.bc_script.specs.Says.{SaysNumber, SaysNumberBelow, SaysDataUnitNumber, SaysBytes};
ghost use Rattle.bc_script.specs.Statements.{RefusesTest};
ghost use Rattle.bc_script.specs.BioFields.{SaysNumberField, SaysText};

use crate::form::TextForm;
use crate::limits::MAX_KEY_BYTES;
use crate::op::Text;
use crate::script_error::ScriptWhy;
use crate::statement::Unread;
use arrayvec::ArrayVec;
use bc_base::Items;
use bc_key::Dun;
use std::alloc::{AllocError, Global};

/// The number that a field says, if it is one of these.
pub(crate) fn number(field: &[u8], least: u32, most: u32) -> Result<u32, Unread>
    ensures { MatchResult result
        (SaysNumber least most field.now)
        (RefusesTest (is_number least most field.now) why.Number) }
{
    match decimal_number(field, least, most) {
        Some(number) => Ok(number),
        None => Err(Unread::Bad(ScriptWhy::Number)),
    }
}

/// The number that a field says, if it is below this one.
pub(crate) fn number_below(field: &[u8], end: u32) -> Result<u32, Unread>
    ensures { MatchResult result
        (SaysNumberBelow end field.now)
        (RefusesTest (is_number_below end field.now) why.Number) }
{
    if end == 0 {
        return Err(Unread::Bad(ScriptWhy::Number));
    }
    number(field, 0, end - 1)
}

/// The number of a bio's first data unit, of which it has none where the field is `-`.
pub(crate) fn bio_number(field: &[u8]) -> Result<Option<Dun>, Unread>
    ensures { MatchResult result
        (SaysNumberField field.now)
        (RefusesTest (bytes_eq field.now dash || is_number_text field.now) why.Number) }
{
    if field == b"-".as_slice() {
        return Ok(None);
    }
    match data_unit_number(field) {
        Some(number) => Ok(Some(number)),
        None => Err(Unread::Bad(ScriptWhy::Number)),
    }
}

/// What a write writes, of so many bytes.
pub(crate) fn write_text(alloc: Global, form: TextForm, size: usize) -> Result<Text, Unread>
    ensures { MatchResult result
        (SaysText size (text_lent form.entry))
        (RefusesTest (is_text size (text_lent form.entry)) why.Hex) }
{
    match form {
        TextForm::Fill(digits) => match fill_byte(digits) {
            Some(byte) => Ok(Text::Fill(byte)),
            None => Err(Unread::Bad(ScriptWhy::Hex)),
        },
        TextForm::Hex(digits) => {
            if size == 0 {
                return Err(Unread::Bad(ScriptWhy::Hex));
            }
            match hex_bytes(alloc, digits, size)? {
                Some(bytes) => Ok(Text::Bytes(bytes)),
                None => Err(Unread::Bad(ScriptWhy::Hex)),
            }
        }
    }
}

// ---- values of fields

/// The number of a range that the field says in decimal digits.
fn decimal_number(field: &[u8], least: u32, most: u32) -> Option<u32>
    ensures { MatchOption result (is_number least most field.now ≡ false) (SaysNumber least most field.now) }
{
    bc_text::number(field, least, most)
}

/// The data unit number that the field says.
fn data_unit_number(field: &[u8]) -> Option<Dun>
    ensures { MatchOption result (is_number_text field.now ≡ false) (SaysDataUnitNumber field.now) }
{
    Dun::from_hex(field)
}

/// The byte that the field says in two digits.
fn fill_byte(field: &[u8]) -> Option<u8>
    ensures { MatchOption result
        (is_hex_text 1 1 field.now ≡ false)
        (λ byte. SaysBytes 1 1 field.now (byte ∷ [])) }
{
    bc_text::byte(field)
}

/// The bytes of a key that the field says: 1 to 128.
pub(crate) fn key_bytes(field: &[u8]) -> Option<ArrayVec<u8, MAX_KEY_BYTES>>
    ensures { MatchOption result
        (is_hex_text 1 128 field.now ≡ false)
        (λ bytes. SaysBytes 1 128 field.now bytes.items) }
{
    let mut room = [0; MAX_KEY_BYTES];
    key_bytes_in(field, &mut room)
}

/// The same, with room for the bytes.
fn key_bytes_in(field: &[u8], room: &mut [u8]) -> Option<ArrayVec<u8, MAX_KEY_BYTES>>
    requires { length room.old ≡ MAX_KEY_BYTES }
    ensures { MatchOption result
        (is_hex_text 1 128 field.now ≡ false)
        (λ bytes. SaysBytes 1 128 field.now bytes.items) }
{
    let count = field.len() / 2;
    if count < 1 || room.len() < count {
        return None;
    }
    let (bytes, _) = room.split_at_mut(count);
    bc_text::bytes_into(field, bytes)?;
    let Ok(bytes) = ArrayVec::try_from(&*bytes) else {
        unreachable!()
    };
    Some(bytes)
}

/// The `count` bytes that the field says. Takes memory only where the field is as long as their
/// digits.
fn hex_bytes(alloc: Global, field: &[u8], count: usize) -> Result<Option<Items<u8>>, AllocError>
    ensures value { IfOk result (λ answer. MatchOption answer
        (is_hex_text count count field.now ≡ false)
        (SaysBytes count count field.now)) }
    ensures takes_none { length field.now / 2 ≢ count → IsOk result }
{
    if field.len() / 2 != count {
        return Ok(None);
    }
    let bytes = vec![in alloc; 0u8; count]?;
    Ok(filled(field, bytes))
}

/// The bytes that the field says, which fill the list.
fn filled(field: &[u8], mut bytes: Vec<u8>) -> Option<Items<u8>>
    ensures { MatchOption result
        (is_hex_text (length bytes.items) (length bytes.items) field.now ≡ false)
        (SaysBytes (length bytes.items) (length bytes.items) field.now) }
{
    bc_text::bytes_into(field, &mut bytes)?;
    Some(Items::from_vec(bytes))
}
