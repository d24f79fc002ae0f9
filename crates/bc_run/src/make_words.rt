//! The words of the command `make`, read by `clap`.

ghost use Rattle.std.specs.Prelude.{false, ◌≡◌, ◌≤◌, ◌⊎◌, IfSome, map, codes, IfOk, IfErr, OnOk};
ghost use Rattle.std.specs.String.{string_bytes};
ghost use Rattle.std.specs.Option.{option_map_or};
ghost use Rattle.clap.specs.Words.{FailsBy, HasMatchesOf, IsPlainArg, fault_of, first_value, found_of, rule_of};
ghost use Rattle.bc_run.specs.Words.{IsNumberIn, FirstWordIs, IsMakeCommand, IsShardCount, AreMakeOptions, make_options_of};
ghost use Rattle.bc_run.specs.Words.{is_set, required_number, make_command, number_of_value};
ghost use Rattle.bc_run.specs.Stages.{options_of_making};

use crate::status::Status;
use crate::words::{flag_named, number_named, status_of};
use clap::builder::ValueParser;
use clap::{Arg, ArgMatches, Command, Error};
use std::alloc::Global;

/// What the words of `make` say.
#[derive(Clone, Copy)]
pub(crate) struct Making {
    /// How many pairs of a write and a read each thread has.
    pub n: u32,
    /// How many keyslots the device has.
    pub slots: u16,
    /// Over how many shards the image lies.
    pub shards: u16,
    /// Whether all sections are carried out at once, by `threads`.
    pub at_once: bool,
}

/// What the words say, where they are the command `make`, which the first of them names.
pub(crate) fn making_of_words(alloc: Global, words: &[String]) -> Result<Making, Status>
    requires named { FirstWordIs (codes "make") (map string_bytes words.now) }
    ensures taken { OnOk result (IsMakeCommand (map string_bytes words.now)) }
    ensures said { IfOk result (λ making. options_of_making making ≡ make_options_of (map string_bytes words.now)) }
    ensures ranges { IfOk result (λ making. AreMakeOptions (options_of_making making)) }
    ensures statuses { IfErr result (λ e.
        ((e ≡ Status.Usage) × (IsMakeCommand (map string_bytes words.now) → ⊥)) ⊎ (e ≡ Status.NoMemory)) }
{
    match matches_of_words(alloc, words) {
        Ok(matches) => Ok(Making {
            n: pairs_of(&matches),
            slots: slots_of(&matches),
            shards: shards_of(&matches),
            at_once: at_once_of(&matches),
        }),
        Err(error) => Err(status_of(&error)),
    }
}

/// A word that has to be given, a number in this range.
fn required_named<'a>(alloc: Global, name: &'a str, least: u64, most: u64) -> Arg<'a>
    ensures rule { rule_of result ≡ required_number name.entry.now least most }
    ensures plain { IsPlainArg result }
    ensures local { result.global ≡ false }
{
    Arg::new(alloc, name)
        .required(true)
        .value_parser(ValueParser::unsigned(least, most))
}

/// What clap finds in the words, read as the command `make`.
fn matches_of_words<'w>(alloc: Global, words: &'w [String]) -> Result<ArgMatches<'w>, Error>
    ensures found { IfOk result (HasMatchesOf make_command (map string_bytes words.now)) }
    ensures faults { FailsBy (fault_of make_command (map string_bytes words.now)) result }
    ensures pairs { IfOk result (λ matches. IfSome (first_value (found_of matches) (codes "n")) (IsNumberIn 1 2048)) }
    ensures slots { IfOk result (λ matches. IfSome (first_value (found_of matches) (codes "slots")) (IsNumberIn 1 32)) }
    ensures shards { IfOk result (λ matches.
        IfSome (first_value (found_of matches) (codes "shards")) (IsNumberIn 1 64)) }
{
    let command = Command::new(alloc, "make")
        .arg(required_named(alloc, "n", 1, 2048))?
        .arg(number_named(alloc, "slots", 1, 32))?
        .arg(number_named(alloc, "shards", 1, 64))?
        .arg(flag_named(alloc, "threads"))?;
    command.try_get_matches_from(words)
}

/// How many pairs each thread has. Words that are taken have a number.
fn pairs_of(matches: &ArgMatches<'_>) -> u32
    requires { IfSome (first_value (found_of matches.now) (codes "n")) (IsNumberIn 1 2048) }
    ensures number { result ≡ option_map_or number_of_value (first_value (found_of matches.now) (codes "n")) 1 }
    ensures range { (1 ≤ result) × (result ≤ 2048) }
{
    match matches.get_str("n") {
        None => 1,
        Some(text) => text.parse::<u32>().unwrap_or(1),
    }
}

/// The number of keyslots.
fn slots_of(matches: &ArgMatches<'_>) -> u16
    requires { IfSome (first_value (found_of matches.now) (codes "slots")) (IsNumberIn 1 32) }
    ensures number { result ≡ option_map_or number_of_value (first_value (found_of matches.now) (codes "slots")) 1 }
    ensures range { (1 ≤ result) × (result ≤ 32) }
{
    match matches.get_str("slots") {
        None => 1,
        Some(text) => text.parse::<u16>().unwrap_or(1),
    }
}

/// The number of shards.
fn shards_of(matches: &ArgMatches<'_>) -> u16
    requires { IfSome (first_value (found_of matches.now) (codes "shards")) (IsNumberIn 1 64) }
    ensures number { result ≡ option_map_or number_of_value (first_value (found_of matches.now) (codes "shards")) 8 }
    ensures range { IsShardCount result }
{
    match matches.get_str("shards") {
        None => 8,
        Some(text) => text.parse::<u16>().unwrap_or(8),
    }
}

/// Whether the flag `--threads` is among the words.
fn at_once_of(matches: &ArgMatches<'_>) -> bool
    ensures { result ≡ is_set (first_value (found_of matches.now) (codes "threads")) }
{
    match matches.get_str("threads") {
        None => false,
        Some(text) => text == "true",
    }
}
