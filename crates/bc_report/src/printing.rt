//! The text of a report, as it is printed.

ghost use Rattle.std.specs.Prelude.{◌≡◌, [], ◌∷◌, ◌++◌, OnOk, IfOk, codes, map};
ghost use Rattle.std.specs.Fmt.{decimal};
ghost use Rattle.hex.specs.Hex.{encode_lower};
ghost use Rattle.bc_text.specs.Lines.{lines_text, line_text, fields_text};
ghost use Rattle.bc_report.specs.ReportText.{refusal_word, answer_line, via_fields, entry_line, skip_field, skip_fields, event_line, thread_lines, shard_line, shard_lines, device_line, device_lines, all_threads, all_shards, all_devices, report_text};
ghost use Rattle.bc_report.specs.SpacedFields.{spaced};

use crate::answer::Answer;
use crate::line::Line;
use crate::report::Report;
use bc_base::Items;
use bc_bio::{BioError, Refusal};
use bc_medium::Via;
use bc_profile::{Event, Skip};
use bc_text::{put_hex, put_number};
use std::alloc::{AllocError, Global};

/// The one text of the report: its head, a part for each thread, each shard and each device, and
/// its foot. Each line ends with a line feed.
///
/// # Errors
///
/// The process was out of memory.
#[tactic(auto, using(crate::proofs::Printed::whole_text))]
pub fn print(alloc: Global, report: &Report) -> Result<Vec<u8>, AllocError>
    ensures text { IfOk result (λ text. text.items ≡ report_text report.now) }
{
    let mut text = Vec::new(alloc);
    text.extend_from_slice(b"report 1\n")?;
    put_threads(&mut text, report.threads())?;
    put_shards(&mut text, report.shards())?;
    put_devices(&mut text, report.devices())?;
    text.extend_from_slice(b"end\n")?;
    Ok(text)
}

// ---- threads and their answers

fn put_threads(text: &mut Vec<u8>, threads: &[Items<Answer>]) -> Result<(), AllocError>
    ensures { OnOk result (text.new.items ≡ text.old.items ++ lines_text (all_threads threads.now)) }
{
    for (number, answers) in threads.iter().enumerate() {
        put_thread(text, number, answers.as_slice())?;
    }
    Ok(())
}

#[tactic(auto, using(bc_text::proofs::Printing::lines_text_more))]
fn put_thread(text: &mut Vec<u8>, number: usize, answers: &[Answer]) -> Result<(), AllocError>
    ensures { OnOk result (text.new.items ≡ text.old.items ++ lines_text (thread_lines (number, answers.now))) }
{
    text.extend_from_slice(b"thread ")?;
    put_number(text, number as u64)?;
    text.push(b'\n')?;
    for answer in answers {
        put_answer(text, answer)?;
    }
    Ok(())
}

fn put_answer(text: &mut Vec<u8>, answer: &Answer) -> Result<(), AllocError>
    ensures { OnOk result (text.new.items ≡ text.old.items ++ line_text (answer_line answer.now)) }
{
    match answer {
        Answer::Wrote => text.extend_from_slice(b"done\n"),
        Answer::ReadFill(byte) => put_digits(text, b"done fill ", &[*byte]),
        Answer::ReadSum(digest) => put_digits(text, b"done sha256 ", digest),
        Answer::Fault(unit) => put_word_and_number(text, b"fault ", *unit),
        Answer::Refused(refusal) => put_refusal(text, refusal),
        Answer::Evicted => text.extend_from_slice(b"evicted\n"),
        Answer::Busy { device, slot, refs } => {
            put_busy(text, u32::from(*device), u32::from(*slot), u32::from(*refs))
        }
        Answer::Reset => text.extend_from_slice(b"reset\n"),
        Answer::Plug => text.extend_from_slice(b"plug\n"),
        Answer::Unplug => text.extend_from_slice(b"unplug\n"),
    }
}

fn put_refusal(text: &mut Vec<u8>, refusal: &Refusal) -> Result<(), AllocError>
    ensures { OnOk result (text.new.items ≡ text.old.items
        ++ (codes "refused " ++ (refusal_word refusal.now ++ codes "\n"))) }
{
    text.extend_from_slice(b"refused ")?;
    text.extend_from_slice(refusal_word(refusal))?;
    text.push(b'\n')?;
    Ok(())
}

fn refusal_word(refusal: &Refusal) -> &'static [u8]
    ensures { result.now ≡ refusal_word refusal.now }
{
    match refusal {
        Refusal::Bio(BioError::Empty) => b"empty",
        Refusal::Bio(BioError::Misaligned) => b"misaligned",
        Refusal::Bio(BioError::Outside) => b"outside",
        Refusal::Bio(BioError::DunRange) => b"dun",
        Refusal::Unsupported => b"unsupported",
    }
}

// ---- shards and their entries

fn put_shards(text: &mut Vec<u8>, shards: &[Items<Line>]) -> Result<(), AllocError>
    ensures { OnOk result (text.new.items ≡ text.old.items ++ lines_text (all_shards shards.now)) }
{
    for (number, entries) in shards.iter().enumerate() {
        put_shard(text, number, entries.as_slice())?;
    }
    Ok(())
}

#[tactic(auto, using(bc_text::proofs::Printing::lines_text_more))]
fn put_shard(text: &mut Vec<u8>, number: usize, entries: &[Line]) -> Result<(), AllocError>
    ensures { OnOk result (text.new.items ≡ text.old.items ++ lines_text (shard_lines (number, entries.now))) }
{
    put_count(text, b"shard ", number, entries.len())?;
    for entry in entries {
        put_entry(text, entry)?;
    }
    Ok(())
}

fn put_entry(text: &mut Vec<u8>, entry: &Line) -> Result<(), AllocError>
    ensures { OnOk result (text.new.items ≡ text.old.items ++ line_text (entry_line entry.now)) }
{
    put_number(text, u64::from(entry.thread))?;
    put_next_number(text, entry.op)?;
    put_next_number(text, entry.unit)?;
    put_via(text, entry.via)
}

fn put_via(text: &mut Vec<u8>, via: Via) -> Result<(), AllocError>
    ensures { OnOk result (text.new.items ≡ text.old.items ++ (codes " " ++ line_text (via_fields via))) }
{
    match via {
        Via::Plain => text.extend_from_slice(b" plain\n"),
        Via::Soft => text.extend_from_slice(b" soft\n"),
        Via::Inline {
            device,
            slot,
            event,
        } => put_inline(text, u32::from(device), u32::from(slot), event),
    }
}

fn put_inline(text: &mut Vec<u8>, device: u32, slot: u32, event: u32) -> Result<(), AllocError>
    ensures { OnOk result (text.new.items ≡ text.old.items
        ++ (codes " inline" ++ (codes " " ++ line_text (decimal device ∷ decimal slot ∷ decimal event ∷ [])))) }
{
    text.extend_from_slice(b" inline")?;
    put_next_number(text, device)?;
    put_next_number(text, slot)?;
    put_next_number(text, event)?;
    text.push(b'\n')?;
    Ok(())
}

// ---- devices and their events

fn put_devices(text: &mut Vec<u8>, devices: &[Items<Event>]) -> Result<(), AllocError>
    ensures { OnOk result (text.new.items ≡ text.old.items ++ lines_text (all_devices devices.now)) }
{
    for (number, events) in devices.iter().enumerate() {
        put_device(text, number, events.as_slice())?;
    }
    Ok(())
}

#[tactic(auto, using(bc_text::proofs::Printing::lines_text_more))]
fn put_device(text: &mut Vec<u8>, number: usize, events: &[Event]) -> Result<(), AllocError>
    ensures { OnOk result (text.new.items ≡ text.old.items ++ lines_text (device_lines (number, events.now))) }
{
    put_count(text, b"device ", number, events.len())?;
    for event in events {
        put_event(text, event)?;
    }
    Ok(())
}

fn put_event(text: &mut Vec<u8>, event: &Event) -> Result<(), AllocError>
    ensures { OnOk result (text.new.items ≡ text.old.items ++ line_text (event_line event.now)) }
{
    match event {
        Event::Program { slot, key, skipped } => {
            put_program(text, u32::from(*slot), u32::from(*key), skipped.as_slice())
        }
        Event::Idle { slot } => put_word_and_number(text, b"idle ", u32::from(*slot)),
        Event::Evict { slot, key } => put_evict(text, u32::from(*slot), u32::from(*key)),
        Event::Busy { slot, key, refs } => {
            put_busy(text, u32::from(*slot), u32::from(*key), u32::from(*refs))
        }
        Event::Reset => text.extend_from_slice(b"reset\n"),
    }
}

fn put_program(text: &mut Vec<u8>, slot: u32, key: u32, skipped: &[Skip]) -> Result<(), AllocError>
    ensures { OnOk result (text.new.items ≡ text.old.items
        ++ line_text (codes "program" ∷ decimal slot ∷ decimal key ∷ skip_fields skipped.now)) }
{
    text.extend_from_slice(b"program")?;
    put_next_number(text, slot)?;
    put_next_number(text, key)?;
    put_skips(text, skipped)?;
    text.push(b'\n')?;
    Ok(())
}

/// The fields of the slots that were passed over, each with a space before it.
#[tactic(auto, using(crate::proofs::Printed::spaced_more, crate::proofs::Printed::some_skips, crate::proofs::Printed::no_skips))]
fn put_skips(text: &mut Vec<u8>, skipped: &[Skip]) -> Result<(), AllocError>
    ensures { OnOk result (text.new.items ≡ text.old.items ++ spaced (skip_fields skipped.now)) }
{
    if skipped.is_empty() {
        return Ok(());
    }
    text.extend_from_slice(b" skip")?;
    for skip in skipped {
        put_skip(text, skip)?;
    }
    Ok(())
}

fn put_skip(text: &mut Vec<u8>, skip: &Skip) -> Result<(), AllocError>
    ensures { OnOk result (text.new.items ≡ text.old.items ++ (codes " " ++ skip_field skip.now)) }
{
    put_next_number(text, u32::from(skip.slot))?;
    text.push(b':')?;
    put_number(text, u64::from(skip.refs))
}

fn put_evict(text: &mut Vec<u8>, slot: u32, key: u32) -> Result<(), AllocError>
    ensures { OnOk result (text.new.items ≡ text.old.items
        ++ line_text (codes "evict" ∷ decimal slot ∷ decimal key ∷ [])) }
{
    text.extend_from_slice(b"evict")?;
    put_next_number(text, slot)?;
    put_next_number(text, key)?;
    text.push(b'\n')?;
    Ok(())
}

// ---- lines and fields that several have

/// The first line of a shard or a device, whose word has a space after it.
fn put_count(text: &mut Vec<u8>, word: &[u8], number: usize, count: usize) -> Result<(), AllocError>
    ensures { OnOk result (text.new.items ≡ text.old.items
        ++ (word.now ++ line_text (decimal number ∷ decimal count ∷ []))) }
{
    text.extend_from_slice(word)?;
    put_number(text, number as u64)?;
    text.push(b' ')?;
    put_number(text, count as u64)?;
    text.push(b'\n')?;
    Ok(())
}

fn put_busy(text: &mut Vec<u8>, first: u32, second: u32, refs: u32) -> Result<(), AllocError>
    ensures { OnOk result (text.new.items ≡ text.old.items
        ++ line_text (codes "busy" ∷ decimal first ∷ decimal second ∷ decimal refs ∷ [])) }
{
    text.extend_from_slice(b"busy")?;
    put_next_number(text, first)?;
    put_next_number(text, second)?;
    put_next_number(text, refs)?;
    text.push(b'\n')?;
    Ok(())
}

fn put_word_and_number(text: &mut Vec<u8>, word: &[u8], number: u32) -> Result<(), AllocError>
    ensures { OnOk result (text.new.items ≡ text.old.items ++ (word.now ++ (decimal number ++ codes "\n"))) }
{
    text.extend_from_slice(word)?;
    put_number(text, u64::from(number))?;
    text.push(b'\n')?;
    Ok(())
}

fn put_digits(text: &mut Vec<u8>, words: &[u8], bytes: &[u8]) -> Result<(), AllocError>
    ensures { OnOk result (text.new.items ≡ text.old.items ++ (words.now ++ (encode_lower bytes.now ++ codes "\n"))) }
{
    text.extend_from_slice(words)?;
    put_hex(text, bytes)?;
    text.push(b'\n')?;
    Ok(())
}

/// The number, with a space before it.
fn put_next_number(text: &mut Vec<u8>, number: u32) -> Result<(), AllocError>
    ensures { OnOk result (text.new.items ≡ text.old.items ++ (codes " " ++ decimal number)) }
{
    text.push(b' ')?;
    put_number(text, u64::from(number))
}
