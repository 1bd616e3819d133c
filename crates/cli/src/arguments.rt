//! The arguments that the programs have in common, and what the parser finds for them.

ghost use Rattle.std.specs.Prelude.{◌≡◌, IfOk, MatchOption, length, map, option_map, unwrap_or, string_bytes, vec_len, codes, []};
ghost use Rattle.clap.specs.Matches.{found_of};
ghost use Rattle.clap.specs.Values.{kind_of};
ghost use Rattle.clap.specs.Walk.{rows_of, first_of};
ghost use Rattle.cli.specs.Arguments.{journal_rule, stock_rule, to_rule, IsReadBy, HasNoJournal, IsJournalIn, IsProfileIn};
ghost use Rattle.cli.specs.Arguments.{paths_in, AreFoundSessions, Chooses, TellsOf};

use crate::choices::{LineError, SessionOptions};
use clap::error::ErrorKind;
use clap::{Arg, ArgAction, ArgMatches, Error, value_parser};
use epochlog::MAX_CAPACITY;
use mapparts::Profile;
use server::MAX_SCRIPTS;
use std::alloc::{AllocError, Global};

/// `--journal N`.
pub fn journal_option<'a>(alloc: Global) -> Arg<'a>
    ensures { IsReadBy journal_rule result }
{
    Arg::new(alloc, "journal")
        .long("journal")
        .value_name("N")
        .help("How many changes the journal holds: 1 to 65536")
        .action(ArgAction::Set)
        .value_parser(value_parser!(u32).range(1..=i64::from(MAX_CAPACITY)))
        .default_value("1024")
}

/// `--stock`.
pub fn stock_option<'a>(alloc: Global) -> Arg<'a>
    ensures { IsReadBy stock_rule result }
{
    Arg::new(alloc, "stock")
        .long("stock")
        .help("Takes maps and changes of stock Ceph clusters: with straw2 buckets too")
        .action(ArgAction::SetTrue)
}

/// `--to ANSWERS`.
pub fn to_option<'a>(alloc: Global) -> Arg<'a>
    ensures { IsReadBy to_rule result }
{
    Arg::new(alloc, "to")
        .long("to")
        .value_name("ANSWERS")
        .help(
            "The file of a script's answers, each put out as its line is read; once for each SCRIPT, or not at all; \
- is standard output",
        )
        .action(ArgAction::Append)
}

/// Why the parser refused the words.
pub fn line_error(alloc: Global, error: &Error) -> LineError
    ensures { TellsOf (kind_of error.now) result }
{
    let kind = error.kind();
    if kind == ErrorKind::OutOfMemory {
        return LineError::Memory;
    }
    let Ok(text) = format!(in alloc; "{error}") else {
        return LineError::Memory;
    };
    match kind {
        ErrorKind::DisplayHelp | ErrorKind::DisplayVersion => LineError::Help(text),
        _ => LineError::Usage(text),
    }
}

/// Copies of words.
fn copies_of(alloc: Global, words: &[&str]) -> Result<Vec<String>, AllocError>
    ensures texts { IfOk result (λ copies. map string_bytes copies.items ≡ map (λ word. word.now) words.now) }
    ensures count { IfOk result (λ copies. vec_len copies ≡ length words.now) }
{
    let mut copies = Vec::new(alloc);
    for word in words {
        copies.push(String::from_str(alloc, word)?)?;
    }
    Ok(copies)
}

/// The number given for the journal.
fn journal_in(matches: &ArgMatches<'_>) -> Option<u32>
    ensures { MatchOption result (HasNoJournal (rows_of (found_of matches.now)))
        (IsJournalIn (rows_of (found_of matches.now))) }
{
    matches.get_one("journal")
}

/// The profile: stock where `--stock` was given.
fn profile_in(matches: &ArgMatches<'_>) -> Profile
    ensures { IsProfileIn (rows_of (found_of matches.now)) result }
{
    if matches.get_flag("stock") {
        Profile::Stock
    } else {
        Profile::Plain
    }
}

/// The first word for an argument.
pub fn path_in<'a>(matches: &ArgMatches<'a>, id: &str) -> Option<&'a str>
    ensures { option_map (λ word. word.now) result ≡ first_of id.now (rows_of (found_of matches.now)) }
{
    matches.get_str(id)
}

/// The words for an argument.
fn words_in<'m>(matches: &'m ArgMatches<'_>, id: &str) -> Option<&'m [&'m str]>
    ensures { unwrap_or (option_map (λ words. map (λ word. word.now) words.now) result) []
        ≡ paths_in id.now (rows_of (found_of matches.now)) }
{
    matches.get_strs(id)
}

/// Copies of the words for an argument: none where it is not given.
fn paths_for(alloc: Global, matches: &ArgMatches<'_>, id: &str) -> Result<Vec<String>, AllocError>
    ensures { IfOk result (λ copies. map string_bytes copies.items ≡ paths_in id.now (rows_of (found_of matches.now))) }
{
    match words_in(matches, id) {
        Some(words) => copies_of(alloc, words),
        None => Ok(Vec::new(alloc)),
    }
}

/// The options of sessions in words that the parser took. A value that it had to find and did not is told as out of
/// memory.
pub fn session_options(alloc: Global, matches: &ArgMatches<'_>) -> Result<SessionOptions, LineError>
    ensures { Chooses AreFoundSessions (rows_of (found_of matches.now)) result }
{
    let journal = journal_in(matches).ok_or(LineError::Memory)?;
    if journal < 1 || journal > MAX_CAPACITY {
        return Err(LineError::Memory);
    }
    let scripts = paths_for(alloc, matches, "SCRIPT")?;
    if scripts.len() > MAX_SCRIPTS {
        return Err(LineError::TooMany);
    }
    let answers = paths_for(alloc, matches, "to")?;
    if !answers.is_empty() && answers.len() != scripts.len() {
        return Err(LineError::Unpaired);
    }
    Ok(SessionOptions {
        journal,
        profile: profile_in(matches),
        scripts,
        answers,
    })
}
