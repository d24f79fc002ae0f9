//! The words of the commands `serial` and `threads`, read by `clap`.

ghost use Rattle.std.specs.Prelude.{true, false, ◌≡◌, ◌⊎◌, ◌≢◌, IfSome, map, codes, IfOk, IfErr, OnOk};
ghost use Rattle.std.specs.String.{string_bytes};
ghost use Rattle.std.specs.Option.{option_map_or};
ghost use Rattle.clap.specs.Words.{FailsBy, kind_of, HasMatchesOf, IsPlainArg, fault_of, first_value, found_of};
ghost use Rattle.clap.specs.Words.{rule_of};
ghost use Rattle.bc_run.specs.Words.{FirstWordIs, IsNumberIn, IsScriptCommand, IsShardCount, NamesScript, names_threads};
ghost use Rattle.bc_run.specs.Words.{flag_rule, number_of_value, number_rule, option_rule, options_of, script_command};
ghost use Rattle.bc_run.specs.Stages.{said_by};

use crate::status::Status;
use clap::builder::ValueParser;
use clap::error::ErrorKind;
use clap::{Arg, ArgAction, ArgMatches, Command, Error};
use std::alloc::Global;

/// What the words of `serial` or `threads` say.
#[derive(Clone, Copy)]
pub(crate) struct Options<'w> {
    /// Under which name the folder has the image; without it the image is zeros.
    pub image: Option<&'w str>,
    /// Under which name the image that is left is put, if it is.
    pub out: Option<&'w str>,
    /// Over how many shards the image lies.
    pub shards: u16,
    /// Whether all sections are carried out at once, by `threads`.
    pub at_once: bool,
}

/// What the words say, where they are the command `serial` or `threads`.
pub(crate) fn options_of_words<'w>(
    alloc: Global,
    words: &'w [String],
) -> Result<Options<'w>, Status>
    ensures taken { OnOk result (IsScriptCommand (map string_bytes words.now)) }
    ensures said { IfOk result (λ options. said_by options ≡ options_of (map string_bytes words.now)) }
    ensures range { IfOk result (λ options. IsShardCount options.shards) }
    ensures statuses { IfErr result (λ e.
        ((e ≡ Status.Usage) × (IsScriptCommand (map string_bytes words.now) → ⊥))
        ⊎ ((e ≡ Status.NoMemory) × NamesScript (map string_bytes words.now))) }
{
    let at_once = at_once(words)?;
    match matches_of_words(alloc, words) {
        Ok(matches) => Ok(Options {
            image: matches.get_str("image"),
            out: matches.get_str("out"),
            shards: shards_of(&matches),
            at_once,
        }),
        Err(error) => Err(status_of(&error)),
    }
}

/// Whether the first word is `threads`, where it names one of the two commands.
fn at_once(words: &[String]) -> Result<bool, Status>
    ensures named { OnOk result (NamesScript (map string_bytes words.now)) }
    ensures at_once { IfOk result (λ at_once. at_once ≡ names_threads (map string_bytes words.now)) }
    ensures usage { IfErr result (λ e.
        (e ≡ Status.Usage) × (NamesScript (map string_bytes words.now) → ⊥)) }
{
    if begins(words, "serial") {
        return Ok(false);
    }
    if begins(words, "threads") {
        return Ok(true);
    }
    Err(Status::Usage)
}

/// Whether the first word is this one.
pub(crate) fn begins(words: &[String], name: &str) -> bool
    ensures yes { result ≡ true → FirstWordIs name.now (map string_bytes words.now) }
    ensures no { result ≡ false → FirstWordIs name.now (map string_bytes words.now) → ⊥ }
{
    match words.first() {
        Some(word) => word.as_str() == name,
        None => false,
    }
}

/// An option `--name` with one value.
fn option_named<'a>(alloc: Global, name: &'a str) -> Arg<'a>
    ensures rule { rule_of result ≡ option_rule name.entry.now }
    ensures plain { IsPlainArg result }
    ensures local { result.global ≡ false }
{
    Arg::new(alloc, name).long(name)
}

/// A flag `--name`.
pub(crate) fn flag_named<'a>(alloc: Global, name: &'a str) -> Arg<'a>
    ensures rule { rule_of result ≡ flag_rule name.entry.now }
    ensures plain { IsPlainArg result }
    ensures local { result.global ≡ false }
{
    option_named(alloc, name).action(ArgAction::SetTrue)
}

/// An option whose value is a number in this range.
pub(crate) fn number_named<'a>(alloc: Global, name: &'a str, least: u64, most: u64) -> Arg<'a>
    ensures rule { rule_of result ≡ number_rule name.entry.now least most }
    ensures plain { IsPlainArg result }
    ensures local { result.global ≡ false }
{
    option_named(alloc, name).value_parser(ValueParser::unsigned(least, most))
}

/// What clap finds in the words, read as one simple command, whichever of the two the first word
/// names.
fn matches_of_words<'w>(alloc: Global, words: &'w [String]) -> Result<ArgMatches<'w>, Error>
    ensures found { IfOk result (HasMatchesOf script_command (map string_bytes words.now)) }
    ensures faults { FailsBy (fault_of script_command (map string_bytes words.now)) result }
    ensures range { IfOk result (λ matches.
        IfSome (first_value (found_of matches) (codes "shards")) (IsNumberIn 1 64)) }
{
    let command = Command::new(alloc, "script")
        .arg(number_named(alloc, "shards", 1, 64))?
        .arg(option_named(alloc, "image"))?
        .arg(option_named(alloc, "out"))?;
    command.try_get_matches_from(words)
}

/// The number of shards.
fn shards_of(matches: &ArgMatches<'_>) -> u16
    requires { IfSome (first_value (found_of matches.now) (codes "shards")) (IsNumberIn 1 64) }
    ensures number { result ≡ option_map_or number_of_value (first_value (found_of matches.now) (codes "shards")) 1 }
    ensures range { IsShardCount result }
{
    match matches.get_str("shards") {
        None => 1,
        Some(text) => text.parse::<u16>().unwrap_or(1),
    }
}

/// The status of a refusal.
pub(crate) fn status_of(error: &Error) -> Status
    ensures memory { kind_of error.now ≡ ErrorKind.OutOfMemory → result ≡ Status.NoMemory }
    ensures usage { kind_of error.now ≢ ErrorKind.OutOfMemory → result ≡ Status.Usage }
{
    match error.kind() {
        ErrorKind::OutOfMemory => Status::NoMemory,
        _ => Status::Usage,
    }
}
