//! Measures the unit ciphers, the texts of scripts and reports, and the keyslot managers.
//!
//! | Words | What is printed |
//! |---|---|
//! | `encrypt MODE SIZE UNITS` | how fast so many data units of SIZE bytes are enciphered, and the digest of what comes out |
//! | `decrypt MODE SIZE UNITS` | the same of deciphering |
//! | `expand MODE KEYS` | how fast so many keys are expanded |
//! | `digest MODE SIZE UNITS` | the digests of both ways alone, which are the same at each run |
//! | `keyslots HOLDS` | how long so many holds of keys take by a keyslot manager for one caller, and how many events it records |
//! | `profile HOLDS` | how long a hold of a key takes by a keyslot manager for many callers: by one caller, and by four at once |
//! | `script HEX READS` | the bytes and operations of a script's text, and how fast it is parsed and printed |
//! | `report COUNT` | the bytes of a report's text, and how fast it is parsed and printed |
//! | `read` | the report that standard input says, printed again, or the first line that no report has there |
//!
//! MODE is `xts` or `essiv`. Unit i of a measurement has the number i, its texts are the same at each run, and the key has
//! the bytes 00 to 3f, or 00 to 0f. The script has HEX writes by `hex` and READS reads, each of one data unit of 512 bytes
//! without a key; it is refused where they are more than a script may have. The report has one thread with COUNT answers and
//! one shard with as many entries.
#![tactic(auto)]

ghost use Rattle.std.specs.Prelude.{◌≡◌, ◌≤◌, length, IfOk};

// data units
mod direction;
mod units;

// what is measured
mod keyslots;
mod measure;
mod profiles;
mod reports;
mod scripts;

// what is read
mod reading;

use anyhow::{Context, Result, bail};
use bc_key::{DataUnit, Mode};
use direction::Direction;
use std::alloc::Global;
use std::env;
use std::rt::Clock;
use std::sync::Wait;
use std::thread::Threads;

const USAGE: &str =
    "words: encrypt|decrypt|digest xts|essiv SIZE UNITS, expand xts|essiv KEYS, keyslots HOLDS, profile HOLDS, script HEX READS, report COUNT, read";

/// How many data units a measurement may have: those of 4096 bytes then fill 256 MiB.
const MOST_UNITS: u32 = 65536;

/// How many keys may be expanded.
const MOST_KEYS: u32 = 100_000_000;

/// How many writes the script may have, and how many reads. A script may have no more operations than this.
const MOST_OPERATIONS: u32 = 65536;

/// A data unit's size.
fn size(word: &str) -> Result<DataUnit> {
    let bytes = number(word, 4096)?;
    DataUnit::of_bytes(bytes).context("SIZE is 512, 1024, 2048 or 4096")
}

/// A number of at least 1 and at most `most`.
fn number(word: &str, most: u32) -> Result<u32>
    ensures { IfOk result (λ number. (1 ≤ number) × (number ≤ most)) }
{
    let Ok(number) = word.parse::<u32>() else {
        bail!("{word:?} is no number");
    };
    if number < 1 || most < number {
        bail!("{number} is not in 1..={most}");
    }
    Ok(number)
}

/// Which mode.
fn mode(word: &str) -> Result<Mode> {
    if word == "xts" {
        Ok(Mode::Aes256Xts)
    } else if word == "essiv" {
        Ok(Mode::Aes128CbcEssiv)
    } else {
        bail!("MODE is xts or essiv")
    }
}

/// Measures, or prints digests: a word, the mode, the data unit's size and how many units.
fn many_units(rt: &(impl Print + Clock), alloc: Global, words: &[String]) -> Result<()>
    requires { length words.now ≡ 4 }
{
    let mode = mode(words[1].as_str())?;
    let unit = size(words[2].as_str())?;
    let units = number(words[3].as_str(), MOST_UNITS)?;
    if words[0].as_str() == "digest" {
        return measure::digests(rt, alloc, mode, unit, units);
    }
    let way = Direction::of_word(words[0].as_str()).context(USAGE)?;
    measure::speed(rt, alloc, way, mode, unit, units)
}

/// Does what the words ask for.
fn run<R: Print + Clock + Threads + Wait + Sync>(
    rt: &R,
    alloc: Global,
    words: &[String],
) -> Result<()> {
    if words.len() == 4 {
        return many_units(rt, alloc, words);
    }
    if words.len() == 2 && words[0].as_str() == "keyslots" {
        let holds = number(words[1].as_str(), keyslots::MOST_HOLDS)?;
        return keyslots::show(rt, alloc, holds);
    }
    if words.len() == 2 && words[0].as_str() == "profile" {
        let holds = number(words[1].as_str(), profiles::MOST_HOLDS)?;
        return profiles::show(rt, alloc, holds);
    }
    if words.len() == 3 && words[0].as_str() == "expand" {
        let keys = number(words[2].as_str(), MOST_KEYS)?;
        return measure::expansions(rt, mode(words[1].as_str())?, keys);
    }
    if words.len() == 3 && words[0].as_str() == "script" {
        let writes = number(words[1].as_str(), MOST_OPERATIONS)?;
        let reads = number(words[2].as_str(), MOST_OPERATIONS)?;
        return measure::script(rt, alloc, writes, reads);
    }
    if words.len() == 2 && words[0].as_str() == "report" {
        return reports::speed(rt, alloc, number(words[1].as_str(), MOST_OPERATIONS)?);
    }
    bail!("{USAGE}")
}

fn main(rt: HostRuntime) -> Result<()> {
    let alloc = rt.alloc();
    let words: Vec<String> = env::args(&rt)?.skip(1).collect(alloc)?;
    if words.len() == 1 && words[0].as_str() == "read" {
        return reading::answer(&rt, alloc);
    }
    run(&rt, alloc, words.as_slice())
}
