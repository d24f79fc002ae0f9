//! The text of a script, as it is printed.

ghost use Rattle.std.specs.Prelude.{◌≡◌, ◌++◌, [], ◌∷◌, OnOk, IfOk, codes, map, flat_map};
ghost use Rattle.std.specs.Fmt.{decimal};
ghost use Rattle.hex.specs.Hex.{encode_lower};
ghost use Rattle.bc_key.specs.DataUnits.{bytes_of};
ghost use Rattle.bc_key.specs.NumberText.{number_text};
ghost use Rattle.bc_text.specs.Lines.{fields_text, line_text, lines_text};
ghost use Rattle.bc_script.specs.ScriptText.{head_lines, version_line, disk_line, on_off, fallback_line, device_line, mode_text, key_line, fault_line, key_name_of, key_field, number_field, bio_fields, text_fields, op_line, section_lines, script_text};

use crate::named_key::NamedKey;
use crate::op::{Op, Text};
use crate::script::Script;
use arrayvec::ArrayVec;
use bc_base::Items;
use bc_bio::Context;
use bc_key::{Caps, Config, KeyNo, Mode};
use bc_stack::Target;
use bc_text::{put_hex, put_number};
use std::alloc::{AllocError, Global};

/// The one text of the script: its first three lines, a line for each device, for each key, for
/// each fault that is planned and for each thread's section and its operations, and the `end` line.
///
/// # Errors
///
/// `AllocError` where there is no memory for the text.
pub fn print(alloc: Global, script: &Script) -> Result<Vec<u8>, AllocError>
    ensures text { IfOk result (λ text. text.items ≡ script_text script.now) }
{
    let mut text = Vec::new(alloc);
    put_head(&mut text, script)?;
    put_keys(&mut text, script.keys())?;
    put_faults(&mut text, script.faults())?;
    put_sections(&mut text, script.keys(), script.threads())?;
    text.extend_from_slice(b"end\n")?;
    Ok(text)
}

// ---- the first three lines, and devices

#[tactic(auto, using(crate::proofs::Printed::with_devices))]
fn put_head(text: &mut Vec<u8>, script: &Script) -> Result<(), AllocError>
    ensures { OnOk result (text.new.items ≡ text.old.items ++ lines_text (head_lines script.now)) }
{
    put_first_lines(text, script.blocks(), script.fallback())?;
    put_devices(text, script.targets())
}

#[tactic(auto, using(crate::proofs::Printed::three_lines))]
fn put_first_lines(text: &mut Vec<u8>, blocks: u32, fallback: bool) -> Result<(), AllocError>
    ensures { OnOk result (text.new.items ≡ text.old.items
        ++ lines_text (version_line ∷ disk_line blocks ∷ fallback_line fallback ∷ [])) }
{
    text.extend_from_slice(b"blkcrypt 1\n")?;
    put_disk(text, blocks)?;
    put_fallback(text, fallback)
}

fn put_disk(text: &mut Vec<u8>, blocks: u32) -> Result<(), AllocError>
    ensures { OnOk result (text.new.items ≡ text.old.items ++ line_text (disk_line blocks)) }
{
    text.extend_from_slice(b"disk ")?;
    put_number(text, u64::from(blocks))?;
    text.push(b'\n')?;
    Ok(())
}

fn put_fallback(text: &mut Vec<u8>, is_on: bool) -> Result<(), AllocError>
    ensures { OnOk result (text.new.items ≡ text.old.items ++ line_text (fallback_line is_on)) }
{
    text.extend_from_slice(b"fallback ")?;
    text.extend_from_slice(on_off(is_on))?;
    text.push(b'\n')?;
    Ok(())
}

fn on_off(is_on: bool) -> &'static [u8]
    ensures { result.now ≡ on_off is_on }
{
    if is_on { b"on" } else { b"off" }
}

#[tactic(auto, using(bc_text::proofs::Printing::lines_text_more))]
fn put_devices(text: &mut Vec<u8>, devices: &[Target]) -> Result<(), AllocError>
    ensures { OnOk result (text.new.items ≡ text.old.items ++ lines_text (map device_line devices.now)) }
{
    for device in devices {
        put_device(text, device)?;
    }
    Ok(())
}

#[tactic(auto, using(crate::proofs::Printed::device_parts))]
fn put_device(text: &mut Vec<u8>, device: &Target) -> Result<(), AllocError>
    ensures { OnOk result (text.new.items ≡ text.old.items ++ line_text (device_line device.now)) }
{
    text.extend_from_slice(b"device ")?;
    put_blocks(text, device)?;
    put_caps(text, &device.caps)?;
    text.push(b'\n')?;
    Ok(())
}

/// The first block, the blocks and the keyslots of a device.
fn put_blocks(text: &mut Vec<u8>, device: &Target) -> Result<(), AllocError>
    ensures { OnOk result (text.new.items ≡ text.old.items ++ fields_text
        (decimal device.now.first ∷ decimal device.now.blocks ∷ decimal device.now.slots ∷ [])) }
{
    put_number(text, u64::from(device.first))?;
    text.push(b' ')?;
    put_number(text, u64::from(device.blocks))?;
    text.push(b' ')?;
    put_number(text, u64::from(device.slots))
}

/// The masks of data unit sizes and the number bytes, each with a space before it.
fn put_caps(text: &mut Vec<u8>, caps: &Caps) -> Result<(), AllocError>
    ensures { OnOk result (text.new.items ≡ text.old.items ++ (codes " " ++ fields_text
        (decimal caps.now.xts ∷ decimal caps.now.essiv ∷ decimal caps.now.max_dun_bytes ∷ []))) }
{
    text.push(b' ')?;
    put_number(text, u64::from(caps.xts))?;
    text.push(b' ')?;
    put_number(text, u64::from(caps.essiv))?;
    text.push(b' ')?;
    put_number(text, u64::from(caps.max_dun_bytes))
}

// ---- keys

#[tactic(auto, using(bc_text::proofs::Printing::lines_text_more))]
fn put_keys(text: &mut Vec<u8>, keys: &[NamedKey]) -> Result<(), AllocError>
    ensures { OnOk result (text.new.items ≡ text.old.items ++ lines_text (map key_line keys.now)) }
{
    for key in keys {
        put_key(text, key)?;
    }
    Ok(())
}

#[tactic(auto, using(crate::proofs::Printed::key_parts))]
fn put_key(text: &mut Vec<u8>, named: &NamedKey) -> Result<(), AllocError>
    ensures { OnOk result (text.new.items ≡ text.old.items ++ line_text (key_line named.now)) }
{
    text.extend_from_slice(b"key ")?;
    text.extend_from_slice(named.name.as_bytes())?;
    put_config(text, named.key.config())?;
    put_digits(text, named.key.raw())?;
    Ok(())
}

/// The mode, the data unit's bytes and the number bytes, each with a space before it.
fn put_config(text: &mut Vec<u8>, config: Config) -> Result<(), AllocError>
    ensures { OnOk result (text.new.items ≡ text.old.items ++ (codes " "
        ++ fields_text (mode_text config.mode ∷ decimal (bytes_of config.unit) ∷ decimal config.dun_bytes ∷ []))) }
{
    text.push(b' ')?;
    text.extend_from_slice(mode_text(config.mode))?;
    text.push(b' ')?;
    put_number(text, u64::from(config.unit.bytes()))?;
    text.push(b' ')?;
    put_number(text, u64::from(config.dun_bytes))
}

/// The last field of a key's line, with a space before it and a line feed after it.
fn put_digits(text: &mut Vec<u8>, raw: &[u8]) -> Result<(), AllocError>
    ensures { OnOk result (text.new.items ≡ text.old.items ++ (codes " " ++ (encode_lower raw.now ++ codes "\n"))) }
{
    text.push(b' ')?;
    put_hex(text, raw)?;
    text.push(b'\n')?;
    Ok(())
}

fn mode_text(mode: Mode) -> &'static [u8]
    ensures { result.now ≡ mode_text mode }
{
    match mode {
        Mode::Aes256Xts => b"aes-256-xts",
        Mode::Aes128CbcEssiv => b"aes-128-cbc-essiv",
    }
}

// ---- faults

#[tactic(auto, using(bc_text::proofs::Printing::lines_text_more))]
fn put_faults(text: &mut Vec<u8>, faults: &[(u16, u32)]) -> Result<(), AllocError>
    ensures { OnOk result (text.new.items ≡ text.old.items ++ lines_text (map fault_line faults.now)) }
{
    for fault in faults {
        put_fault(text, fault.0, fault.1)?;
    }
    Ok(())
}

fn put_fault(text: &mut Vec<u8>, shard: u16, place: u32) -> Result<(), AllocError>
    ensures { OnOk result (text.new.items ≡ text.old.items ++ line_text (fault_line (shard, place))) }
{
    text.extend_from_slice(b"fault ")?;
    put_number(text, u64::from(shard))?;
    text.push(b' ')?;
    put_number(text, u64::from(place))?;
    text.push(b'\n')?;
    Ok(())
}

// ---- sections

#[tactic(auto, using(crate::proofs::Printed::parts_more))]
fn put_sections(
    text: &mut Vec<u8>,
    keys: &[NamedKey],
    threads: &[Items<Op>],
) -> Result<(), AllocError>
    ensures { OnOk result
        (text.new.items ≡ text.old.items ++ lines_text (flat_map (section_lines keys.now) threads.now)) }
{
    for section in threads {
        put_section(text, keys, section.as_slice())?;
    }
    Ok(())
}

#[tactic(auto, using(bc_text::proofs::Printing::lines_text_more))]
fn put_section(text: &mut Vec<u8>, keys: &[NamedKey], section: &[Op]) -> Result<(), AllocError>
    ensures { OnOk result (text.new.items ≡ text.old.items ++ lines_text (section_lines keys.now section.now)) }
{
    text.extend_from_slice(b"thread\n")?;
    for op in section {
        put_op(text, keys, op)?;
    }
    Ok(())
}

fn put_op(text: &mut Vec<u8>, keys: &[NamedKey], op: &Op) -> Result<(), AllocError>
    ensures { OnOk result (text.new.items ≡ text.old.items ++ line_text (op_line keys.now op.now)) }
{
    match op {
        Op::Write {
            context,
            sector,
            units,
            text: bytes,
        } => {
            put_bio(text, b"write", keys, context, *sector, *units)?;
            put_text(text, bytes)?;
        }
        Op::Read {
            context,
            sector,
            units,
        } => put_bio(text, b"read", keys, context, *sector, *units)?,
        Op::Evict(key) => {
            text.extend_from_slice(b"evict ")?;
            put_name(text, keys, *key)?;
        }
        Op::Reset(device) => {
            text.extend_from_slice(b"reset ")?;
            put_number(text, u64::from(*device))?;
        }
        Op::Plug => text.extend_from_slice(b"plug")?,
        Op::Unplug => text.extend_from_slice(b"unplug")?,
    }
    text.push(b'\n')?;
    Ok(())
}

/// The first word of a bio's line, and the fields of its bio.
#[tactic(auto, using(crate::proofs::Printed::bio_parts))]
fn put_bio(
    text: &mut Vec<u8>,
    word: &[u8],
    keys: &[NamedKey],
    context: &Option<Context>,
    sector: u32,
    units: u32,
) -> Result<(), AllocError>
    ensures { OnOk result (text.new.items
        ≡ text.old.items ++ fields_text (word.now ∷ bio_fields keys.now context.now sector units)) }
{
    text.extend_from_slice(word)?;
    put_key_field(text, keys, context)?;
    put_extent(text, sector, units)?;
    put_number_field(text, context)?;
    Ok(())
}

// Each of the next four puts a space before each field.

fn put_key_field(
    text: &mut Vec<u8>,
    keys: &[NamedKey],
    context: &Option<Context>,
) -> Result<(), AllocError>
    ensures { OnOk result (text.new.items ≡ text.old.items ++ (codes " " ++ key_field keys.now context.now)) }
{
    text.push(b' ')?;
    match context {
        None => text.extend_from_slice(b"-"),
        Some(context) => put_name(text, keys, context.key),
    }
}

fn put_extent(text: &mut Vec<u8>, sector: u32, units: u32) -> Result<(), AllocError>
    ensures { OnOk result (text.new.items
        ≡ text.old.items ++ (codes " " ++ fields_text (decimal sector ∷ decimal units ∷ []))) }
{
    text.push(b' ')?;
    put_number(text, u64::from(sector))?;
    text.push(b' ')?;
    put_number(text, u64::from(units))
}

fn put_number_field(text: &mut Vec<u8>, context: &Option<Context>) -> Result<(), AllocError>
    ensures { OnOk result (text.new.items ≡ text.old.items ++ (codes " " ++ number_field context.now)) }
{
    text.push(b' ')?;
    match context {
        None => text.extend_from_slice(b"-"),
        Some(context) => {
            let mut digits = ArrayVec::new();
            context.dun.write_hex(&mut digits);
            text.extend_from_slice(digits.as_slice())
        }
    }
}

fn put_text(text: &mut Vec<u8>, bytes: &Text) -> Result<(), AllocError>
    ensures { OnOk result (text.new.items ≡ text.old.items ++ (codes " " ++ fields_text (text_fields bytes.now))) }
{
    match bytes {
        Text::Fill(byte) => {
            text.extend_from_slice(b" fill ")?;
            put_hex(text, &[*byte])
        }
        Text::Bytes(bytes) => {
            text.extend_from_slice(b" hex ")?;
            put_hex(text, bytes.as_slice())
        }
    }
}

// ---- fields

/// The name of the key with this number.
fn put_name(text: &mut Vec<u8>, keys: &[NamedKey], number: KeyNo) -> Result<(), AllocError>
    ensures { OnOk result (text.new.items ≡ text.old.items ++ key_name_of keys.now number) }
{
    match keys.get(usize::from(number.0)) {
        None => Ok(()),
        Some(named) => text.extend_from_slice(named.name.as_bytes()),
    }
}
