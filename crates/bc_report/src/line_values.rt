//! What single lines say.

ghost use Rattle.std.specs.Prelude.{◌≡◌, ◌≤◌, ◌<◌, [], ◌∷◌, List, ℕ, IsTrue, ◌↔◌, MatchOption, codes, ⊤, ◌^◌};
ghost use Rattle.std.specs.Fmt.{decimal};
ghost use Rattle.std.specs.Str.{bytes_eq};
ghost use Rattle.bc_text.specs.Fields.{Reads};
ghost use Rattle.bc_report.specs.declared.limits.TheConstants.{MAX_THREADS, MAX_SHARDS, MAX_DEVICES};
ghost use Rattle.bc_report.specs.LinePlaces.{sort_of_line, sort_of_word};
ghost use Rattle.bc_report.specs.Report.{IsAnswer, IsVia, IsEntry, IsSkip, AreSkips, IsEvent};
ghost use Rattle.bc_report.specs.ReportText.{refusal_word, answer_line, via_fields, entry_line, skip_field, skip_fields, event_line, thread_line, shard_line, device_line, head_line, foot_line};

use crate::answer::Answer;
use crate::limits::{MAX_DEVICES, MAX_SHARDS, MAX_THREADS};
use crate::line::Line;
use crate::sort::Sort;
use bc_bio::{BioError, Refusal};
use bc_medium::Via;
use bc_profile::{Event, Skip, Skips};
use bc_text::{Parts, number};

const MAX_U8: u32 = 255;

const MAX_U16: u32 = 65535;

// ---- answers

/// The answer that the line says.
pub(crate) fn answer(mut line: Parts) -> Option<Answer>
    ensures { Reads IsAnswer answer_line line.entry result }
{
    let word = line.next()?;
    if line.is_empty() {
        return one_word(word);
    }
    if is(word, b"done") {
        return done(line);
    }
    if is(word, b"fault") {
        return fault(line);
    }
    if is(word, b"refused") {
        return refused(line);
    }
    if is(word, b"busy") {
        return busy(line);
    }
    None
}

/// The answer whose line is this word alone.
fn one_word(word: &[u8]) -> Option<Answer>
    ensures { Reads IsAnswer answer_line (word.now ∷ []) result }
{
    if is(word, b"done") {
        return Some(Answer::Wrote);
    }
    if is(word, b"plug") {
        return Some(Answer::Plug);
    }
    if is(word, b"unplug") {
        return Some(Answer::Unplug);
    }
    if is(word, b"evicted") {
        return Some(Answer::Evicted);
    }
    if is(word, b"reset") {
        return Some(Answer::Reset);
    }
    None
}

/// The answer of a read, by the fields after `done`, of which there are some.
fn done(fields: Parts) -> Option<Answer>
    requires { fields ≡ [] → ⊥ }
    ensures { Reads IsAnswer answer_line (codes "done" ∷ fields.entry) result }
{
    let (form, digits) = two(fields)?;
    if is(form, b"fill") {
        return Some(Answer::ReadFill(bc_text::byte(digits)?));
    }
    if is(form, b"sha256") {
        return sum(digits);
    }
    None
}

fn sum(digits: &[u8]) -> Option<Answer>
    ensures { Reads IsAnswer answer_line (codes "done" ∷ codes "sha256" ∷ digits.now ∷ []) result }
{
    let mut digest = [0; 32];
    bc_text::bytes_into(digits, &mut digest)?;
    Some(Answer::ReadSum(digest))
}

fn fault(fields: Parts) -> Option<Answer>
    ensures { Reads IsAnswer answer_line (codes "fault" ∷ fields.entry) result }
{
    let unit = one_number(fields, u32::MAX)?;
    Some(Answer::Fault(unit))
}

fn refused(fields: Parts) -> Option<Answer>
    ensures { Reads IsAnswer answer_line (codes "refused" ∷ fields.entry) result }
{
    let why = refusal(one(fields)?)?;
    Some(Answer::Refused(why))
}

fn refusal(word: &[u8]) -> Option<Refusal>
    ensures { Reads (λ _. ⊤) refusal_word word.now result }
{
    if is(word, b"empty") {
        return Some(Refusal::Bio(BioError::Empty));
    }
    if is(word, b"misaligned") {
        return Some(Refusal::Bio(BioError::Misaligned));
    }
    if is(word, b"outside") {
        return Some(Refusal::Bio(BioError::Outside));
    }
    if is(word, b"dun") {
        return Some(Refusal::Bio(BioError::DunRange));
    }
    if is(word, b"unsupported") {
        return Some(Refusal::Unsupported);
    }
    None
}

fn busy(fields: Parts) -> Option<Answer>
    ensures { Reads IsAnswer answer_line (codes "busy" ∷ fields.entry) result }
{
    let (device, slot, refs) = three_numbers(fields, MAX_U8, MAX_U16, MAX_U16)?;
    Some(Answer::Busy {
        device: device as u8,
        slot: slot as u16,
        refs: refs as u16,
    })
}

// ---- entries

/// The entry that the line says.
pub(crate) fn entry(mut line: Parts) -> Option<Line>
    ensures { Reads IsEntry entry_line line.entry result }
{
    let thread = number(line.next()?, 0, MAX_U16)?;
    let op = number(line.next()?, 0, u32::MAX)?;
    let unit = number(line.next()?, 0, u32::MAX)?;
    let via = via(line)?;
    Some(Line {
        thread: thread as u16,
        op,
        unit,
        via,
    })
}

fn via(mut fields: Parts) -> Option<Via>
    ensures { Reads IsVia via_fields fields.entry result }
{
    let word = fields.next()?;
    if is(word, b"inline") {
        return inline(fields);
    }
    if !fields.is_empty() {
        return None;
    }
    if is(word, b"plain") {
        return Some(Via::Plain);
    }
    if is(word, b"soft") {
        return Some(Via::Soft);
    }
    None
}

fn inline(fields: Parts) -> Option<Via>
    ensures { Reads IsVia via_fields (codes "inline" ∷ fields.entry) result }
{
    let (device, slot, event) = three_numbers(fields, MAX_U8, MAX_U16, u32::MAX)?;
    Some(Via::Inline {
        device: device as u8,
        slot: slot as u16,
        event,
    })
}

// ---- events

/// The event that the line says.
pub(crate) fn event(mut line: Parts) -> Option<Event>
    ensures { Reads IsEvent event_line line.entry result }
{
    let word = line.next()?;
    if is(word, b"program") {
        return program(line);
    }
    if is(word, b"idle") {
        return idle(line);
    }
    if is(word, b"evict") {
        return evict(line);
    }
    if is(word, b"busy") {
        return found_busy(line);
    }
    if is(word, b"reset") && line.is_empty() {
        return Some(Event::Reset);
    }
    None
}

fn program(mut fields: Parts) -> Option<Event>
    ensures { Reads IsEvent event_line (codes "program" ∷ fields.entry) result }
{
    let slot = number(fields.next()?, 0, MAX_U16)?;
    let key = number(fields.next()?, 0, MAX_U16)?;
    let skipped = skips(fields)?;
    Some(Event::Program {
        slot: slot as u16,
        key: key as u16,
        skipped,
    })
}

/// The slots that were passed over, by the fields after the key.
fn skips(mut fields: Parts) -> Option<Skips>
    ensures { Reads AreSkips skip_fields fields.entry result }
{
    let mut skips = Skips::new();
    if fields.is_empty() {
        return Some(skips);
    }
    fields.expect(b"skip")?;
    while let Some(field) = fields.next() {
        if skips.is_full() {
            return None;
        }
        skips.push(skip(field)?);
    }
    if skips.len() == 0 {
        return None;
    }
    Some(skips)
}

fn skip(field: &[u8]) -> Option<Skip>
    ensures { Reads IsSkip skip_field field.now result }
{
    halves(Parts::new(field, b':'))
}

/// What a slot and its references say, which stand on both sides of a colon.
fn halves(parts: Parts) -> Option<Skip>
    ensures { Reads IsSkip (λ skip. decimal skip.slot ∷ decimal skip.refs ∷ []) parts.entry result }
{
    let (slot, refs) = two_numbers(parts, MAX_U16, MAX_U16)?;
    Some(Skip {
        slot: slot as u16,
        refs: refs as u16,
    })
}

fn idle(fields: Parts) -> Option<Event>
    ensures { Reads IsEvent event_line (codes "idle" ∷ fields.entry) result }
{
    let slot = one_number(fields, MAX_U16)?;
    Some(Event::Idle { slot: slot as u16 })
}

fn evict(fields: Parts) -> Option<Event>
    ensures { Reads IsEvent event_line (codes "evict" ∷ fields.entry) result }
{
    let (slot, key) = two_numbers(fields, MAX_U16, MAX_U16)?;
    Some(Event::Evict {
        slot: slot as u16,
        key: key as u16,
    })
}

fn found_busy(fields: Parts) -> Option<Event>
    ensures { Reads IsEvent event_line (codes "busy" ∷ fields.entry) result }
{
    let (slot, key, refs) = three_numbers(fields, MAX_U16, MAX_U16, MAX_U16)?;
    Some(Event::Busy {
        slot: slot as u16,
        key: key as u16,
        refs: refs as u16,
    })
}

// ---- lines between parts

/// Whether the line is a report's first one.
pub(crate) fn is_head(mut line: Parts) -> bool
    ensures { IsTrue result ↔ (line.entry ≡ head_line) }
{
    let Some(()) = line.expect(b"report") else {
        return false;
    };
    let Some(()) = line.expect(b"1") else {
        return false;
    };
    line.is_empty()
}

/// Whether the line is a report's last one.
pub(crate) fn is_foot(mut line: Parts) -> bool
    ensures { IsTrue result ↔ (line.entry ≡ foot_line) }
{
    let Some(()) = line.expect(b"end") else {
        return false;
    };
    line.is_empty()
}

/// What the line is for between parts, by its first field.
pub(crate) fn sort(line: &Parts) -> Sort
    ensures { result ≡ sort_of_line line.now }
{
    match line.first() {
        Some(word) => sort_of_word(word),
        None => Sort::Other,
    }
}

fn sort_of_word(word: &[u8]) -> Sort
    ensures { result ≡ sort_of_word word.now }
{
    if equals(word, b"thread") {
        Sort::Thread
    } else if equals(word, b"shard") {
        Sort::Shard
    } else if equals(word, b"device") {
        Sort::Device
    } else if equals(word, b"end") {
        Sort::End
    } else {
        Sort::Other
    }
}

fn equals(field: &[u8], word: &[u8]) -> bool
    ensures { result ≡ bytes_eq field.now word.now }
{
    field == word
}

/// The number of the thread that begins.
pub(crate) fn thread(mut line: Parts) -> Option<u32>
    ensures { Reads (λ number. number < MAX_THREADS) thread_line line.entry result }
{
    line.expect(b"thread")?;
    let number = one_number(line, MAX_THREADS as u32 - 1)?;
    Some(number)
}

/// The number of the shard that begins, and how many entries it has.
pub(crate) fn shard(mut line: Parts) -> Option<(u32, u32)>
    ensures { Reads (λ n. (n.0 < MAX_SHARDS) × (n.1 < 2 ^ 32)) (λ n. shard_line n.0 n.1) line.entry result }
{
    line.expect(b"shard")?;
    let (number, count) = two_numbers(line, MAX_SHARDS as u32 - 1, u32::MAX)?;
    Some((number, count))
}

/// The number of the device that begins, and how many events it has.
pub(crate) fn device(mut line: Parts) -> Option<(u32, u32)>
    ensures { Reads (λ n. (n.0 < MAX_DEVICES) × (n.1 < 2 ^ 32)) (λ n. device_line n.0 n.1) line.entry result }
{
    line.expect(b"device")?;
    let (number, count) = two_numbers(line, MAX_DEVICES as u32 - 1, u32::MAX)?;
    Some((number, count))
}

// ---- fields that several lines have

/// Whether the field is this word.
pub(crate) fn is(field: &[u8], word: &[u8]) -> bool
    ensures { IsTrue result ↔ (field.now ≡ word.now) }
{
    field == word
}

/// The one field that is left.
fn one(mut fields: Parts) -> Option<&[u8]>
    ensures { MatchOption result ((a : List ℕ) → fields.entry ≡ a ∷ [] → ⊥) (λ f. fields.entry ≡ f.now ∷ []) }
{
    let field = fields.next()?;
    if fields.is_empty() { Some(field) } else { None }
}

/// The two fields that are left.
fn two(mut fields: Parts) -> Option<(&[u8], &[u8])>
    ensures { MatchOption result ((a b : List ℕ) → fields.entry ≡ a ∷ b ∷ [] → ⊥)
        (λ f. fields.entry ≡ f.0.now ∷ f.1.now ∷ []) }
{
    let first = fields.next()?;
    let second = one(fields)?;
    Some((first, second))
}

/// The one number that is left, at most `most`.
pub(crate) fn one_number(fields: Parts, most: u32) -> Option<u32>
    ensures { Reads (λ n. n ≤ most) (λ n. decimal n ∷ []) fields.entry result }
{
    number(one(fields)?, 0, most)
}

/// The two numbers that are left, each at most its limit.
pub(crate) fn two_numbers(mut fields: Parts, most: u32, most_second: u32) -> Option<(u32, u32)>
    ensures { Reads (λ n. (n.0 ≤ most) × (n.1 ≤ most_second))
        (λ n. decimal n.0 ∷ decimal n.1 ∷ []) fields.entry result }
{
    let first = number(fields.next()?, 0, most)?;
    let second = one_number(fields, most_second)?;
    Some((first, second))
}

/// The three numbers that are left, each at most its limit.
fn three_numbers(
    mut fields: Parts,
    most: u32,
    most_second: u32,
    most_third: u32,
) -> Option<(u32, u32, u32)>
    ensures { Reads (λ n. (n.0 ≤ most) × (n.1 ≤ most_second) × (n.2 ≤ most_third))
        (λ n. decimal n.0 ∷ decimal n.1 ∷ decimal n.2 ∷ []) fields.entry result }
{
    let first = number(fields.next()?, 0, most)?;
    let (second, third) = two_numbers(fields, most_second, most_third)?;
    Some((first, second, third))
}
