//! Fields as they are printed.

ghost use Rattle.std.specs.Prelude.{◌≡◌, ◌++◌, OnOk, OnErr};
ghost use Rattle.std.specs.Fmt.{decimal};
ghost use Rattle.hex.specs.Hex.{encode_lower};

use itoa::Buffer;
use std::alloc::AllocError;

/// Appends a number to a text in decimal digits without a leading zero, as
/// [`number`](crate::number) reads it.
///
/// # Errors
///
/// `AllocError` where there is no memory for the longer text; then nothing is appended.
pub fn put_number(text: &mut Vec<u8>, n: u64) -> Result<(), AllocError>
    ensures ok { OnOk result (text.new.items ≡ text.old.items ++ decimal n) }
    ensures err { OnErr result (text.new.items ≡ text.old.items) }
{
    let mut buffer = Buffer::new();
    text.extend_from_slice(buffer.format(n).as_bytes())
}

/// Appends bytes to a text, each in two hexadecimal digits of lower case, as
/// [`bytes_into`](crate::bytes_into) reads them.
///
/// # Errors
///
/// `AllocError` where there is no memory for the longer text; then some of the digits are appended.
#[tactic(auto, using(crate::proofs::Printing::encode_lower_more, crate::proofs::Printing::encode_lower_none))]
pub fn put_hex(text: &mut Vec<u8>, bytes: &[u8]) -> Result<(), AllocError>
    ensures { OnOk result (text.new.items ≡ text.old.items ++ encode_lower bytes.now) }
{
    for byte in bytes {
        let mut pair = [0; 2];
        hex::encode_to_slice([*byte].as_slice(), &mut pair).unwrap();
        text.extend_from_slice(&pair)?;
    }
    Ok(())
}
