//! The command line.

ghost use Rattle.std.specs.Prelude.{◌≡◌, IfOk, map, option_map, string_bytes};
ghost use Rattle.clap.specs.Matches.{found_of};
ghost use Rattle.clap.specs.Simple.{app_of};
ghost use Rattle.clap.specs.Walk.{first_of, rows_of};
ghost use Rattle.cli.specs.Arguments.{Chooses, IsReadBy};
ghost use Rattle.osdmapstore.specs.CommandLine.{flag_rule, word_rule, many_rule, keep_rule, store_rule};
ghost use Rattle.osdmapstore.specs.CommandLine.{without_log_rule, any_scripts_rule, store_program, store_app};
ghost use Rattle.osdmapstore.specs.CommandLine.{store_program_of_sessions, store_program_with_maps};
ghost use Rattle.osdmapstore.specs.CommandLine.{store_program_with_changes, store_program_with_runs};
ghost use Rattle.osdmapstore.specs.CommandLine.{store_program_with_options};
ghost use Rattle.osdmapstore.specs.CommandLine.{AreStoreFound, IsGivenIn, IsNumberIn, ReadsStoreLine};

use crate::choices::Options;
use clap::{Arg, ArgAction, ArgMatches, Command, value_parser};
use cli::{LineError, line_error, path_in, session_options, stock_option, to_option};
use epochlog::MAX_CAPACITY;
use std::alloc::{AllocError, Global};

/// How many changes an open may be told to leave at most.
const MOST_KEPT: i64 = 1_000_000;

/// What `--version` tells beside the program's name.
const VERSION: &str = "0.2.0";

/// What the program says of itself where help is asked for.
const ABOUT: &str =
    "Keeps the OSDMap of a Ceph-like cluster in a file that outlives it: makes or opens the store, tells its epoch, \
answers the lines of scripts over it, one line each, all scripts at once, and ends. Each change is in the file before \
it is answered. Statuses: 0 done, 1 command line, 2 map refused, 3 file or output, 4 memory, 5 store, 6 a change was \
not stored, 7 a change was lost, 8 the journal is full (--end-when-full). The formats of stores, maps, changes, \
scripts and answers are in docs/FORMATS.md.";

const BEGIN: &str = "Makes the store first, with the map of this file, as JSON";

const OPEN_OR_BEGIN: &str =
    "Makes the store first, with the map of this file, where there is none yet";

const WARY: &str =
    "Syncs each change twice, for a disk that may tear what it writes in a crash of the machine";

const BY: &str =
    "Puts this word beside each change of the run, which `rekhuso history` tells: at most 64 characters of visible \
ASCII";

const END_WHEN_FULL: &str =
    "Ends the run, with status 8, once it has taken as many changes as --journal says";

const LIFE: &str = "Tells the number of the store's life behind its epoch, if it has one";

const BACKUP: &str =
    "Only makes a copy of the store in this new file, also while a program has it open, and tells its epoch";

const WITHOUT_LOG: &str =
    "Opens a store whose log is missing by its file alone, where a start that was refused for that has told this \
epoch: changes behind it that the log alone had are lost";

const RESTORE: &str =
    "With --backup: the copy is to go on by itself, as a store with another number";

/// `--journal N`, as many as may be where it is not given: a store is to run on.
fn journal_option<'a>(alloc: Global) -> Arg<'a>
    ensures { IsReadBy many_rule result }
{
    Arg::new(alloc, "journal")
        .long("journal")
        .value_name("N")
        .help("How many changes a run takes: 1 to 65536")
        .action(ArgAction::Set)
        .value_parser(value_parser!(u32).range(1..=i64::from(MAX_CAPACITY)))
        .default_value("65536")
}

/// An option without a value.
fn flag<'a>(alloc: Global, name: &'a str, help: &'a str) -> Arg<'a>
    ensures { IsReadBy (flag_rule name.entry.now) result }
{
    Arg::new(alloc, name)
        .long(name)
        .help(help)
        .action(ArgAction::SetTrue)
}

/// An option whose value is a word.
fn word_option<'a>(alloc: Global, name: &'a str, value: &'a str, help: &'a str) -> Arg<'a>
    ensures { IsReadBy (word_rule name.entry.now) result }
{
    Arg::new(alloc, name)
        .long(name)
        .value_name(value)
        .help(help)
        .action(ArgAction::Set)
}

/// `--keep N`.
fn keep_option<'a>(alloc: Global) -> Arg<'a>
    ensures { IsReadBy keep_rule result }
{
    Arg::new(alloc, "keep")
        .long("keep")
        .value_name("N")
        .help(
            "How many of the changes that it finds an open leaves in the store, this one and each later one: 0 to \
1000000; 1024 where it was never said; a start without a script for which it is not said leaves all",
        )
        .action(ArgAction::Set)
        .value_parser(value_parser!(u32).range(0..=MOST_KEPT))
}

/// `--without-log EPOCH`.
fn without_log_option<'a>(alloc: Global) -> Arg<'a>
    ensures { IsReadBy without_log_rule result }
{
    Arg::new(alloc, "without-log")
        .long("without-log")
        .value_name("EPOCH")
        .help(WITHOUT_LOG)
        .action(ArgAction::Set)
        .value_parser(value_parser!(u32).range(1..=i64::from(u32::MAX)))
}

/// STORE.
fn store_word<'a>(alloc: Global) -> Arg<'a>
    ensures { IsReadBy store_rule result }
{
    Arg::new(alloc, "STORE")
        .help("The file of the store")
        .required(true)
        .action(ArgAction::Set)
}

/// SCRIPT, of which the parser takes any number, so that more than 64 are told by a text of ours.
fn script_words<'a>(alloc: Global) -> Arg<'a>
    ensures { IsReadBy any_scripts_rule result }
{
    Arg::new(alloc, "SCRIPT")
        .help(
            "The file of a script: lines such as up 1.0, groups 2, epoch, await 3, dump, change {..}; at most 64 \
scripts; - is standard input, answered line by line",
        )
        .num_args(0..)
        .action(ArgAction::Append)
}

/// The program by itself.
fn program<'a>(alloc: Global) -> Command<'a>
    ensures { app_of result ≡ store_program }
{
    Command::new(alloc, "osdmapstore")
        .about(ABOUT)
        .version(VERSION)
}

/// The program with the options of its sessions.
fn program_of_sessions<'a>(alloc: Global) -> Result<Command<'a>, AllocError>
    ensures { IfOk result (λ c. app_of c ≡ store_program_of_sessions) }
{
    program(alloc)
        .arg(journal_option(alloc))?
        .arg(stock_option(alloc))?
        .arg(to_option(alloc))
}

/// The program with what makes a store, too.
fn program_with_maps<'a>(alloc: Global) -> Result<Command<'a>, AllocError>
    ensures { IfOk result (λ c. app_of c ≡ store_program_with_maps) }
{
    program_of_sessions(alloc)?
        .arg(word_option(alloc, "begin", "MAP", BEGIN))?
        .arg(word_option(alloc, "open-or-begin", "MAP", OPEN_OR_BEGIN))
}

/// The program with how changes are kept, too.
fn program_with_changes<'a>(alloc: Global) -> Result<Command<'a>, AllocError>
    ensures { IfOk result (λ c. app_of c ≡ store_program_with_changes) }
{
    program_with_maps(alloc)?
        .arg(keep_option(alloc))?
        .arg(flag(alloc, "wary", WARY))?
        .arg(word_option(alloc, "by", "WORD", BY))
}

/// The program with how a run begins and ends, too.
fn program_with_runs<'a>(alloc: Global) -> Result<Command<'a>, AllocError>
    ensures { IfOk result (λ c. app_of c ≡ store_program_with_runs) }
{
    program_with_changes(alloc)?
        .arg(flag(alloc, "end-when-full", END_WHEN_FULL))?
        .arg(flag(alloc, "life", LIFE))
}

/// The program with all its options.
fn program_with_options<'a>(alloc: Global) -> Result<Command<'a>, AllocError>
    ensures { IfOk result (λ c. app_of c ≡ store_program_with_options) }
{
    program_with_runs(alloc)?
        .arg(word_option(alloc, "backup", "FILE", BACKUP))?
        .arg(flag(alloc, "restore", RESTORE))?
        .arg(without_log_option(alloc))
}

/// The command line that the program takes.
fn command<'a>(alloc: Global) -> Result<Command<'a>, AllocError>
    ensures { IfOk result (λ c. app_of c ≡ store_app) }
{
    program_with_options(alloc)?
        .arg(store_word(alloc))?
        .arg(script_words(alloc))
}

/// A copy of the word that was found for an option, where there is one.
fn copied_word(
    alloc: Global,
    matches: &ArgMatches<'_>,
    id: &str,
) -> Result<Option<String>, AllocError>
    ensures { IfOk result (λ word. option_map string_bytes word ≡ first_of id.now (rows_of (found_of matches.now))) }
{
    match path_in(matches, id) {
        Some(word) => Ok(Some(String::from_str(alloc, word)?)),
        None => Ok(None),
    }
}

/// The number given for an option, where there is one.
fn number_in(matches: &ArgMatches<'_>, id: &str) -> Option<u32>
    ensures { IsNumberIn id.now (rows_of (found_of matches.now)) result }
{
    matches.get_one(id)
}

/// Whether an option without a value was given.
fn is_given(matches: &ArgMatches<'_>, id: &str) -> bool
    ensures { IsGivenIn id.now (rows_of (found_of matches.now)) result }
{
    matches.get_flag(id)
}

/// The options of words that the parser took. A value that it had to find and did not is told as out of memory.
fn options_in(alloc: Global, matches: &ArgMatches<'_>) -> Result<Options, LineError>
    ensures { Chooses AreStoreFound (rows_of (found_of matches.now)) result }
{
    let store = path_in(matches, "STORE").ok_or(LineError::Memory)?;
    let sessions = session_options(alloc, matches)?;
    Ok(Options {
        begin: copied_word(alloc, matches, "begin")?,
        open_or_begin: copied_word(alloc, matches, "open-or-begin")?,
        keep: number_in(matches, "keep"),
        wary: is_given(matches, "wary"),
        by: copied_word(alloc, matches, "by")?,
        end_when_full: is_given(matches, "end-when-full"),
        life: is_given(matches, "life"),
        backup: copied_word(alloc, matches, "backup")?,
        restore: is_given(matches, "restore"),
        without_log: number_in(matches, "without-log"),
        store: String::from_str(alloc, store)?,
        sessions,
    })
}

/// What a command line asks for, the program's name first: `[--journal N] [--stock] [--to ANSWERS].. [--begin MAP]
/// [--open-or-begin MAP] [--keep N] [--wary] [--by WORD] [--end-when-full] [--life] [--backup FILE] [--restore]
/// [--without-log EPOCH] STORE [SCRIPT..]`, the journal's N from 1 to 65,536, and 65,536 where it is not given, the
/// other from 0 to 1,000,000, the epoch from 1 to 4,294,967,295, at most 64 scripts, and as many files of answers or
/// none. The options are those that the parser finds in the words, exactly where it has nothing against them and the
/// numbers are so; `Help` where help was asked for, `Usage` for what else the parser has against the words, `TooMany`
/// where there are more scripts, `Unpaired` where there are files of answers but another number of them, else `Memory`.
pub fn options(alloc: Global, words: &[String]) -> Result<Options, LineError>
    ensures { ReadsStoreLine (map string_bytes words.now) result }
{
    match command(alloc)?.try_get_matches_from(words) {
        Ok(matches) => options_in(alloc, &matches),
        Err(error) => Err(line_error(alloc, &error)),
    }
}
