//! The command line.

ghost use Rattle.std.specs.Prelude.{◌≡◌, ◌≤◌, IfOk, map, string_bytes, vec_len};
ghost use Rattle.clap.specs.Matches.{found_of};
ghost use Rattle.clap.specs.Simple.{app_of};
ghost use Rattle.clap.specs.Walk.{rows_of};
ghost use Rattle.cli.specs.Arguments.{Chooses, IsReadBy};
ghost use Rattle.osdmapd.specs.CommandLine.{map_rule, script_rule, program, program_with_options, app};
ghost use Rattle.osdmapd.specs.CommandLine.{AreFound, ReadsLine, ReadsUsual};

use crate::choices::Options;
use clap::{Arg, ArgAction, ArgMatches, Command};
use cli::{
    LineError, journal_option, line_error, path_in, session_options, stock_option, to_option,
};
use std::alloc::{AllocError, Global};

/// What `--version` tells beside the program's name.
const VERSION: &str = "0.2.0";

/// What the program says of itself where help is asked for.
const ABOUT: &str =
    "Keeps the OSDMap of a Ceph-like cluster: reads a map, answers the lines of scripts over it, one line each, all \
scripts at once, and ends. Statuses: 0 done, 1 command line, 2 map refused, 3 file or output, 4 memory, 7 a change was \
lost. The formats of maps, changes, scripts and answers are in docs/FORMATS.md.";

/// MAP.
fn map_word<'a>(alloc: Global) -> Arg<'a>
    ensures { IsReadBy map_rule result }
{
    Arg::new(alloc, "MAP")
        .help("The file of the first map, as JSON")
        .required(true)
        .action(ArgAction::Set)
}

/// SCRIPT, of which the parser takes any number, so that more than 64 are told by a text of ours.
fn script_words<'a>(alloc: Global) -> Arg<'a>
    ensures { IsReadBy script_rule result }
{
    Arg::new(alloc, "SCRIPT")
        .help(
            "The file of a script: lines such as up 1.0, groups 2, epoch, await 3, dump, change {..}; 1 to 64 scripts; \
- is standard input, answered line by line",
        )
        .required(true)
        .num_args(1..)
        .action(ArgAction::Append)
}

/// The program by itself.
fn program<'a>(alloc: Global) -> Command<'a>
    ensures { app_of result ≡ program }
{
    Command::new(alloc, "osdmapd").about(ABOUT).version(VERSION)
}

/// The program with its options.
fn program_with_options<'a>(alloc: Global) -> Result<Command<'a>, AllocError>
    ensures { IfOk result (λ c. app_of c ≡ program_with_options) }
{
    program(alloc)
        .arg(journal_option(alloc))?
        .arg(stock_option(alloc))?
        .arg(to_option(alloc))
}

/// The command line that the program takes.
fn command<'a>(alloc: Global) -> Result<Command<'a>, AllocError>
    ensures { IfOk result (λ c. app_of c ≡ app) }
{
    program_with_options(alloc)?
        .arg(map_word(alloc))?
        .arg(script_words(alloc))
}

/// The options of words that the parser took. A value that it had to find and did not is told as out of memory.
fn options_in(alloc: Global, matches: &ArgMatches<'_>) -> Result<Options, LineError>
    ensures some { IfOk result (λ o. 1 ≤ vec_len o.sessions.scripts) }
    ensures taken { Chooses AreFound (rows_of (found_of matches.now)) result }
{
    let map = path_in(matches, "MAP").ok_or(LineError::Memory)?;
    let sessions = session_options(alloc, matches)?;
    if sessions.scripts.is_empty() {
        return Err(LineError::Memory);
    }
    Ok(Options {
        map: String::from_str(alloc, map)?,
        sessions,
    })
}

/// What a command line asks for, the program's name first: `[--journal N] [--stock] [--to ANSWERS].. MAP SCRIPT..`, N
/// from 1 to 65,536 and 1,024 where it is not given, 1 to 64 scripts, and as many files of answers or none. The options
/// are those that the parser finds in the words, exactly where it has nothing against them and the numbers are so;
/// `Help` where help was asked for, `Usage` for what else the parser has against the words, `TooMany` where there are
/// more scripts, `Unpaired` where there are files of answers but another number of them, else `Memory`. So where MAP
/// and the scripts begin with no hyphen, they are the map and the scripts, there is no file of answers, the journal is
/// N or 1,024, and the profile is stock with `--stock` and else plain.
pub fn options(alloc: Global, words: &[String]) -> Result<Options, LineError>
    ensures some { IfOk result (λ o. 1 ≤ vec_len o.sessions.scripts) }
    ensures read { ReadsLine (map string_bytes words.now) result }
    ensures usual { ReadsUsual (map string_bytes words.now) result }
{
    match command(alloc)?.try_get_matches_from(words) {
        Ok(matches) => options_in(alloc, &matches),
        Err(error) => Err(line_error(alloc, &error)),
    }
}
