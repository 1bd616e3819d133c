//! The command line.

ghost use Rattle.std.specs.Prelude.{◌≡◌, false, IfOk, map, option_map, unwrap_or, string_bytes, []};
ghost use Rattle.clap.specs.Matches.{found_of};
ghost use Rattle.clap.specs.Simple.{app_of};
ghost use Rattle.clap.specs.Values.{kind_of};
ghost use Rattle.clap.specs.Walk.{rows_of, rule_of};
ghost use Rattle.readmap.specs.CommandLine.{file_rule, texts_rule, judge_rule, reader_app};
ghost use Rattle.readmap.specs.CommandLine.{words_found, AreFilesFound, ReadsReaderLine, IsErrorOf};

use crate::choices::{Options, WordsError};
use clap::error::ErrorKind;
use clap::{Arg, ArgAction, ArgMatches, Command, Error};
use std::alloc::{AllocError, Global};

/// What `--version` tells beside the program's name.
const VERSION: &str = "0.2.0";

/// What the program says of itself where help is asked for.
const ABOUT: &str =
    "Tells what stands in maps of a Ceph cluster, as `ceph osd getmap -o FILE` writes them, and what a script of \
commands does to one. Statuses: 0 all is told, and each command is to be given; 1 a file has no such map, or a command \
is in doubt; 2 command line. What each answer means is in docs/COMMANDS.md.";

/// FILE.
fn file_words<'a>(alloc: Global) -> Arg<'a>
    ensures rule { rule_of result ≡ file_rule }
    ensures own { result.global ≡ false }
{
    Arg::new(alloc, "FILE")
        .help("Tells what stands in the map of this file")
        .num_args(0..)
        .action(ArgAction::Append)
}

/// `--map FILE..`.
fn map_option<'a>(alloc: Global) -> Arg<'a>
    ensures rule { rule_of result ≡ texts_rule }
    ensures own { result.global ≡ false }
{
    Arg::new(alloc, "map")
        .long("map")
        .value_name("FILE")
        .help("Tells the map of each of these files as its text, which `rekhuso import` writes")
        .num_args(1..)
        .action(ArgAction::Set)
}

/// `--judge SCRIPT FILE..`.
fn judge_option<'a>(alloc: Global) -> Arg<'a>
    ensures rule { rule_of result ≡ judge_rule }
    ensures own { result.global ≡ false }
{
    Arg::new(alloc, "judge")
        .long("judge")
        .value_names(&["SCRIPT", "FILE"])
        .help(
            "Tells what the commands of a script do to the map of each of these files, up to the first in doubt",
        )
        .num_args(2..)
        .action(ArgAction::Set)
}

/// The command line that the program takes.
fn command<'a>(alloc: Global) -> Result<Command<'a>, AllocError>
    ensures { IfOk result (λ c. app_of c ≡ reader_app) }
{
    Command::new(alloc, "readmap")
        .about(ABOUT)
        .version(VERSION)
        .arg_required_else_help(true)
        .arg(map_option(alloc))?
        .arg(judge_option(alloc))?
        .arg(file_words(alloc))
}

/// Copies of words.
fn copies_of(alloc: Global, words: &[&str]) -> Result<Vec<String>, AllocError>
    ensures { IfOk result (λ copies. map string_bytes copies.items ≡ map (λ word. word.now) words.now) }
{
    let mut copies = Vec::new(alloc);
    for word in words {
        copies.push(String::from_str(alloc, word)?)?;
    }
    Ok(copies)
}

/// The words for an argument.
fn words_in<'m>(matches: &'m ArgMatches<'_>, id: &str) -> Option<&'m [&'m str]>
    ensures { unwrap_or (option_map (λ words. map (λ word. word.now) words.now) result) []
        ≡ words_found id.now (rows_of (found_of matches.now)) }
{
    matches.get_strs(id)
}

/// Copies of the words for an argument: none where it is not given.
fn paths_for(alloc: Global, matches: &ArgMatches<'_>, id: &str) -> Result<Vec<String>, AllocError>
    ensures { IfOk result (λ copies. map string_bytes copies.items
        ≡ words_found id.now (rows_of (found_of matches.now))) }
{
    match words_in(matches, id) {
        Some(words) => copies_of(alloc, words),
        None => Ok(Vec::new(alloc)),
    }
}

/// The options of words that the parser took.
fn options_in(alloc: Global, matches: &ArgMatches<'_>) -> Result<Options, AllocError>
    ensures { IfOk result (AreFilesFound (rows_of (found_of matches.now))) }
{
    Ok(Options {
        parts: paths_for(alloc, matches, "FILE")?,
        texts: paths_for(alloc, matches, "map")?,
        judged: paths_for(alloc, matches, "judge")?,
    })
}

/// Why the parser refused the words.
fn line_error(alloc: Global, error: &Error) -> WordsError
    ensures { IsErrorOf (kind_of error.now) result }
{
    let kind = error.kind();
    if kind == ErrorKind::OutOfMemory {
        return WordsError::Memory;
    }
    let Ok(text) = format!(in alloc; "{error}") else {
        return WordsError::Memory;
    };
    match kind {
        ErrorKind::DisplayHelp | ErrorKind::DisplayVersion => WordsError::Help(text),
        _ => WordsError::Usage(text),
    }
}

/// What a command line asks for, the program's name first: `[--map FILE..] [--judge SCRIPT FILE..] [FILE..]`. The
/// options are those that the parser finds in the words, exactly where it has nothing against them; `Help` where help
/// was asked for, `Usage` for what else the parser has against the words, else `Memory`.
pub(crate) fn options(alloc: Global, words: &[String]) -> Result<Options, WordsError>
    ensures { ReadsReaderLine (map string_bytes words.now) result }
{
    match command(alloc)?.try_get_matches_from(words) {
        Ok(matches) => Ok(options_in(alloc, &matches)?),
        Err(error) => Err(line_error(alloc, &error)),
    }
}
