//! Fields and the values that they are the text of.

ghost use Rattle.std.specs.Prelude.{◌≡◌, ◌≤◌, ◌<◌, ◌^◌, IsTrue, length};
ghost use Rattle.std.specs.Fmt.{decimal};
ghost use Rattle.bc_text.specs.Fields.{Reads, ReadsBytes, begins_plainly, byte_text, is_upper_digit};
ghost use Rattle.std.specs.List.{list_any};

/// The number from `least` to `most` whose decimal digits the field is, without leading zeros;
/// `None` where it is those of no such number.
pub fn number(field: &[u8], least: u32, most: u32) -> Option<u32>
    ensures { Reads (λ n. (least ≤ n) × (n ≤ most)) decimal field.now result }
{
    if !is_plain(field) {
        return None;
    }
    let n = value_of(field)?;
    if n < least || most < n {
        return None;
    }
    Some(n)
}

fn is_plain(field: &[u8]) -> bool
    ensures { result ≡ begins_plainly field.now }
{
    match field {
        [] => false,
        [b'0', rest @ ..] => rest.is_empty(),
        [first, ..] => (b'1'..=b'9').contains(first),
    }
}

fn value_of(field: &[u8]) -> Option<u32>
    requires { IsTrue (begins_plainly field.now) }
    ensures { Reads (λ n. n < 2 ^ 32) decimal field.now result }
{
    let Ok(text) = str::from_utf8(field) else {
        return None;
    };
    text.parse::<u32>().ok()
}

/// Fills `out` with the bytes whose hexadecimal digits the field is, two of lower case for each;
/// `None` where the field isn't the digits of as many bytes as `out` has, and then `out` has any
/// bytes.
pub fn bytes_into(field: &[u8], out: &mut [u8]) -> Option<()>
    ensures { ReadsBytes field.now (length out.old) out.new result }
{
    if has_upper_digit(field) {
        return None;
    }
    match hex::decode_to_slice(field, out) {
        Ok(()) => Some(()),
        Err(_) => None,
    }
}

/// The byte whose two hexadecimal digits of lower case the field is; `None` where it is those of no
/// byte.
pub fn byte(field: &[u8]) -> Option<u8>
    ensures { Reads (λ b. b < 256) byte_text field.now result }
{
    let mut out = [0; 1];
    bytes_into(field, &mut out)?;
    Some(out[0])
}

fn has_upper_digit(field: &[u8]) -> bool
    ensures { result ≡ list_any is_upper_digit field.now }
{
    field.iter().any(|b| b'A' <= *b && *b <= b'F')
}
