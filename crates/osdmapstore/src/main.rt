//! Answers scripts of commands over the map of a cluster that a file keeps, so that no change that was answered is lost
//! in a crash: `osdmapstore [--journal N] [--stock] [--to ANSWERS].. [--begin MAP] [--open-or-begin MAP] [--keep N]
//! [--wary] [--by WORD] [--end-when-full] [--life] [--backup FILE] [--restore] [--without-log EPOCH] STORE [SCRIPT..]`,
//! where `-` for a script is standard input, and for a file of answers standard output.
//!
//! - `line`, `choices`: what a command line asks for
//! - `word`: which words may sign a change
//! - `ending`: how a run ends
#![tactic(auto)]

ghost use Rattle.std.specs.Prelude.{◌≡◌, ◌≤◌, [], IfErr, IfOk, length, vec_len};
ghost use Rattle.std.specs.Process.{exit_status};
ghost use Rattle.mapstore.specs.JournalTexts.{begun};
ghost use Rattle.mapstore.specs.Openings.{IsFoundIn};
ghost use Rattle.mapstore.specs.Stores.{HoldsJournal};
ghost use Rattle.sqlite.specs.Files.{over_files};
ghost use Rattle.sqlite.specs.WalFiles.{image_at};
ghost use Rattle.server.specs.Serving.{max_scripts};
ghost use Rattle.cli.specs.Endings.{status_of};
ghost use Rattle.osdmapstore.specs.Endings.{store_run_status, store_status_of, ChecksOptions};

mod choices;
mod ending;
mod line;
mod word;

use choices::Options;
use cli::{check_streams, parts_of, put_served, read, tell_line};
use ending::Ending;
use journalstore::{Facts, Place, StoreError};
use mapjson::read_map;
use mapparts::Profile;
use mapstore::{FileMaps, KEPT, Keep, MapStore, OpenError, Witness};
use osdmap::OsdMap;
use server::{Fault, First, Part, System, Terms, serve_map};
use session::Buffer;
use sqlite::{Alter, Start, Unknown, Wary};
use std::alloc::AllocError;
use std::process::ExitCode;
use std::random::RandomSource;
use std::rt::Files;
use std::sync::Wait;
use std::thread::Threads;
use word::is_word;

/// The greatest number of a new store's life.
const LAST_LIFE: i64 = (1 << 53) - 1;

/// Ends a run: where something kept it from being done, standard error tells why.
fn end_run(rt: &impl Eprint, done: Result<(), Ending<'_>>) -> ExitCode
    ensures { exit_status result ≡ store_run_status done.entry }
{
    match done {
        Ok(()) => ExitCode::SUCCESS,
        Err(ending) => {
            let _ = eprint!(rt; "{ending}");
            ExitCode::from(ending.status())
        }
    }
}

/// The map of a file.
fn read_first<'a, R: Files + AllocGlobal>(
    rt: &R,
    path: &'a str,
    profile: Profile,
) -> Result<OsdMap, cli::Ending<'a>>
    ensures { IfErr result (λ e. 2 ≤ status_of e) }
{
    let text = read(rt, path)?;
    match read_map(rt.alloc(), &text, profile) {
        Ok(map) => Ok(map),
        Err(refusal) => Err(cli::Ending::of_fault(Fault::of_refusal(refusal))),
    }
}

/// The number of a new store's life: from 0 to 2^53 - 1, which each reader of JSON takes, by the machine's source of
/// random numbers. Where that fails it is told as of a disk.
fn new_life<'a>(host: &HostRuntime) -> Result<i64, Ending<'a>>
    ensures { IfErr result (λ e. 2 ≤ store_status_of e) }
{
    let mut bytes = [0; 8];
    match host.fill_bytes(&mut bytes) {
        Ok(()) => Ok(i64::from_le_bytes(bytes) & LAST_LIFE),
        Err(_) => Err(Ending::Store(OpenError::Store(StoreError::Disk))),
    }
}

/// What a new store notes of itself.
fn new_facts<'a>(host: &HostRuntime, options: &Options) -> Result<Facts, Ending<'a>>
    ensures { IfErr result (λ e. 2 ≤ store_status_of e) }
{
    let life = new_life(host)?;
    let keep = options.keep.unwrap_or(KEPT);
    Ok(Facts { life, keep })
}

/// Makes the store with the map of a file, and opens it: the store, and its map.
fn begin<'a, R: Files + AllocGlobal, V: Start, W: Start>(
    system: &System<'_, R>,
    options: &'a Options,
    path: &'a str,
    starts: (V, W),
    witness: Witness,
) -> Result<First<FileMaps<W>>, Ending<'a>>
    ensures holds { IfOk result (λ first. HoldsJournal over_files first.store (begun first.map.map)) }
    ensures found { IfOk result (λ first. IsFoundIn over_files (image_at W.Start) first.store first.map.map) }
    ensures status { IfErr result (λ e. 2 ≤ store_status_of e) }
{
    let map = read_first(system.rt, path, options.sessions.profile)?;
    let first = (&map, new_facts(system.host, options)?);
    match mapstore::begin(system.host, options.store.as_str(), starts, first, witness) {
        Ok((store, map)) => Ok(First { map, store }),
        Err(error) => Err(Ending::of_open(error)),
    }
}

/// Where the store lies, and whether it may have lost its log.
fn place_in(options: &Options) -> Place<'_> {
    Place {
        path: options.store.as_str(),
        without_log: options.without_log,
    }
}

/// How many changes an open leaves: as many as are said, else all of them where no session is to run.
fn kept_by(options: &Options) -> Keep {
    match options.keep {
        Some(keep) => Keep::Only(keep),
        None if options.sessions.scripts.is_empty() => Keep::All,
        None => Keep::AsNoted,
    }
}

/// Opens the store: the store, and the map that its texts stand for.
fn open<'a, R, W: Start>(
    system: &System<'_, R>,
    options: &Options,
    start: W,
    witness: Witness,
) -> Result<First<FileMaps<W>>, Ending<'a>>
    ensures holds { IfOk result (λ first. HoldsJournal over_files first.store (begun first.map.map)) }
    ensures found { IfOk result (λ first. IsFoundIn over_files (image_at W.Start) first.store first.map.map) }
    ensures status { IfErr result (λ e. 2 ≤ store_status_of e) }
{
    match mapstore::open(
        system.host,
        place_in(options),
        start,
        kept_by(options),
        witness,
    ) {
        Ok((store, map)) => Ok(First { map, store }),
        Err(error) => Err(Ending::of_open(error)),
    }
}

/// The map of the file that a store is to begin with, if one is to be made.
fn map_to_begin<'a>(host: &HostRuntime, options: &'a Options) -> Option<&'a str> {
    match (&options.begin, &options.open_or_begin) {
        (Some(path), _) => Some(path.as_str()),
        (None, Some(path)) if journalstore::is_missing(host, options.store.as_str()) => {
            Some(path.as_str())
        }
        _ => None,
    }
}

/// Makes the store, where the command line says so, or opens it: the store, and its map, which is the one that the
/// texts in its file stand for. `starts` stands for what the files hold before a store is made, and as one is opened.
fn begin_or_open<'a, R: Files + AllocGlobal, V: Start, W: Start>(
    system: &System<'_, R>,
    options: &'a Options,
    starts: (V, W),
    witness: Witness,
) -> Result<First<FileMaps<W>>, Ending<'a>>
    ensures holds { IfOk result (λ first. HoldsJournal over_files first.store (begun first.map.map)) }
    ensures found { IfOk result (λ first. IsFoundIn over_files (image_at W.Start) first.store first.map.map) }
    ensures status { IfErr result (λ e. 2 ≤ store_status_of e) }
{
    match map_to_begin(system.host, options) {
        Some(path) => begin(system, options, path, starts, witness),
        None => {
            let (_, start) = starts;
            open(system, options, start, witness)
        }
    }
}

/// Has the file of an open store claim its log, behind the epoch of its map: the store, and its map.
fn claim_log<'a, W: Start>(first: First<FileMaps<W>>) -> Result<First<FileMaps<W>>, Ending<'a>>
    requires holds { HoldsJournal over_files first.store (begun first.map.map) }
    requires found { IsFoundIn over_files (image_at W.Start) first.store first.map.map }
    ensures holds { IfOk result (λ first. HoldsJournal over_files first.store (begun first.map.map)) }
    ensures found { IfOk result (λ first. IsFoundIn over_files (image_at W.Start) first.store first.map.map) }
    ensures status { IfErr result (λ e. 2 ≤ store_status_of e) }
{
    let First { map, store } = first;
    match mapstore::claim_log(store) {
        Ok(store) => Ok(First { map, store }),
        Err(error) => Err(Ending::of_open(error)),
    }
}

/// Makes the store or opens it; where sessions are to run, its file claims its log from then on.
fn start_store<'a, R: Files + AllocGlobal, V: Start, W: Start>(
    system: &System<'_, R>,
    options: &'a Options,
    starts: (V, W),
    witness: Witness,
) -> Result<First<FileMaps<W>>, Ending<'a>>
    ensures holds { IfOk result (λ first. HoldsJournal over_files first.store (begun first.map.map)) }
    ensures found { IfOk result (λ first. IsFoundIn over_files (image_at W.Start) first.store first.map.map) }
    ensures status { IfErr result (λ e. 2 ≤ store_status_of e) }
{
    let first = begin_or_open(system, options, starts, witness)?;
    if options.sessions.scripts.is_empty() {
        return Ok(first);
    }
    claim_log(first)
}

/// Copies the log of the store into its file, which is then the store by itself, unless another program has opened it.
fn end_store<'a, R, W: Start>(
    system: &System<'_, R>,
    path: &str,
    start: W,
) -> Result<(), Ending<'a>>
    ensures { IfErr result (λ e. 2 ≤ store_status_of e) }
{
    match journalstore::fold_log(system.host, path, start) {
        Ok(_) | Err(StoreError::InUse) => Ok(()),
        Err(error) => Err(Ending::Store(OpenError::Store(error))),
    }
}

/// The number that a copy is to have, where it is to go on by itself.
fn life_by<'a>(host: &HostRuntime, options: &Options) -> Result<Option<i64>, Ending<'a>>
    ensures { IfErr result (λ e. 2 ≤ store_status_of e) }
{
    if options.restore {
        Ok(Some(new_life(host)?))
    } else {
        Ok(None)
    }
}

/// Makes a copy of the store, and tells its epoch.
fn back_up<'a, R: Print, W: Start>(
    system: &System<'_, R>,
    options: &Options,
    to: &str,
    start: W,
) -> Result<(), Ending<'a>>
    ensures { IfErr result (λ e. 2 ≤ store_status_of e) }
{
    let life = life_by(system.host, options)?;
    match mapstore::copy_store(system.host, place_in(options), to, start, life) {
        Ok(map) => {
            tell_epoch(system.rt, &map)?;
            Ok(())
        }
        Err(error) => Err(Ending::of_open(error)),
    }
}

/// Tells the epoch of a map.
fn tell_epoch<'a>(rt: &impl Print, map: &OsdMap) -> Result<(), cli::Ending<'a>>
    ensures { IfErr result (λ e. 2 ≤ status_of e) }
{
    let epoch = map.epoch();
    print!(rt; "epoch {epoch}\n").map_err(|_| cli::Ending::Output)
}

/// Runs the sessions of some parts over a store and its map, and puts their answers to standard output.
fn serve_parts<'a, R: AllocGlobal + Print + Eprint + Threads + Wait + Sync, S: Alter + Drop + Send>(
    system: &System<'_, R>,
    terms: Terms,
    first: First<MapStore<S>>,
    parts: &[Part],
) -> Result<(), cli::Ending<'a>>
    requires some { 1 ≤ length parts.now }
    requires few { length parts.now ≤ max_scripts }
    requires holds { HoldsJournal S.Store first.store (begun first.map.map) }
    ensures { IfErr result (λ e. 2 ≤ status_of e) }
{
    let mut out = Buffer::new(system.rt.alloc());
    let served = serve_map(system, terms, first, parts, &mut out);
    put_served(system.rt, out.bytes(), served)
}

/// Tells the number of a store's life, where it is to be told and there is one.
fn tell_life<'a>(
    rt: &impl Print,
    options: &Options,
    facts: Option<Facts>,
) -> Result<(), cli::Ending<'a>>
    ensures { IfErr result (λ e. 2 ≤ status_of e) }
{
    match facts {
        Some(facts) if options.life => {
            let life = facts.life;
            print!(rt; "life {life}\n").map_err(|_| cli::Ending::Output)
        }
        _ => Ok(()),
    }
}

/// Serves the sessions of some parts over a store and its map, which it ends, and whose epoch it tells first.
fn serve_store<'a, R: AllocGlobal + Print + Eprint + Threads + Wait + Sync, S: Alter + Drop + Send>(
    system: &System<'_, R>,
    options: &Options,
    first: First<MapStore<S>>,
    parts: &[Part],
) -> Result<(), cli::Ending<'a>>
    requires few { length parts.now ≤ max_scripts }
    requires holds { HoldsJournal S.Store first.store (begun first.map.map) }
    ensures { IfErr result (λ e. 2 ≤ status_of e) }
{
    tell_epoch(system.rt, &first.map)?;
    tell_life(system.rt, options, first.store.facts())?;
    if parts.is_empty() {
        return Ok(());
    }
    let terms = Terms {
        journal: options.sessions.journal,
        profile: options.sessions.profile,
    };
    serve_parts(system, terms, first, parts)
}

/// How a run ends whose store may have failed, which its witness has seen.
fn end_of<'a>(witness: &Witness, done: Result<(), cli::Ending<'a>>) -> Result<(), Ending<'a>>
    requires { IfErr done (λ e. 2 ≤ status_of e) }
    ensures { IfErr result (λ e. 2 ≤ store_status_of e) }
{
    if witness.has_seen_failure() {
        return Err(Ending::Failed(done.err()));
    }
    match done {
        Ok(()) => Ok(()),
        Err(ending) => Err(Ending::Run(ending)),
    }
}

/// Two witnesses who note together, of whom the second signs changes with the word that is given.
fn two_witnesses(host: &HostRuntime, options: &Options) -> Result<(Witness, Witness), AllocError> {
    let witness = Witness::new(host, options.sessions.journal)?;
    let other = witness.again()?;
    match &options.by {
        Some(word) => Ok((witness, other.signing(word.as_str())?)),
        None => Ok((witness, other)),
    }
}

/// What the sessions are played from; they end once the journal is full, where the command line says so.
fn parts_by<'a, R: Files + AllocGlobal>(
    system: &System<'_, R>,
    options: &'a Options,
    witness: &Witness,
) -> Result<Vec<Part>, cli::Ending<'a>>
    ensures count { IfOk result (λ parts. vec_len parts ≡ vec_len options.now.sessions.scripts) }
    ensures status { IfErr result (λ e. 2 ≤ status_of e) }
{
    let sessions = &options.sessions;
    if !options.end_when_full {
        return parts_of(system, sessions, None);
    }
    match witness.full_mark() {
        Ok(mark) => parts_of(system, sessions, Some(&mark)),
        Err(_) => Err(cli::Ending::Memory),
    }
}

/// How a run ends that has gone well: as one whose journal was full, where it was to end there.
fn end_full<'a>(options: &Options, witness: &Witness) -> Result<(), Ending<'a>>
    ensures { IfErr result (λ e. 2 ≤ store_status_of e) }
{
    if options.end_when_full && witness.has_seen_full() {
        return Err(Ending::Full);
    }
    Ok(())
}

/// Reads the scripts, makes or opens the store, tells its epoch, and puts the answers to standard output; where there
/// are files of answers, the epoch alone, and each session opens its own. At the end the store's file is the store by
/// itself, if nothing failed; only then is it told that the journal was full. `starts` stands for what the files hold
/// before a store is made, as one is opened, and at the end.
fn work<
    'a,
    R: Files + AllocGlobal + Print + Eprint + Threads + Wait + Sync,
    V: Start,
    W: Start + Send,
    E: Start,
>(system: &System<'_, R>, options: &'a Options, starts: (V, W, E)) -> Result<(), Ending<'a>>
    ensures { IfErr result (λ e. 2 ≤ store_status_of e) }
{
    let (none, start, left) = starts;
    let path = options.store.as_str();
    if let Some(to) = &options.backup {
        return back_up(system, options, to.as_str(), start);
    }
    let Ok((witness, other)) = two_witnesses(system.host, options) else {
        return Err(Ending::Run(cli::Ending::Memory));
    };
    let parts = parts_by(system, options, &witness)?;
    let first = start_store(system, options, (none, start), other)?;
    let done = serve_store(system, options, first, &parts);
    end_of(&witness, done)?;
    end_store(system, path, left)?;
    end_full(options, &witness)
}

/// Does the work of a command line over files of which nothing is known, by the reading of a crash that it asks for.
fn work_on<'a, R: Files + AllocGlobal + Print + Eprint + Threads + Wait + Sync>(
    system: &System<'_, R>,
    options: &'a Options,
) -> Result<(), Ending<'a>>
    ensures { IfErr result (λ e. 2 ≤ store_status_of e) }
{
    if options.wary {
        work(system, options, (Wary, Wary, Wary))
    } else {
        work(system, options, (Unknown, Unknown, Unknown))
    }
}

/// Tests the options that the parser takes: the streams of the sessions, and the word that signs changes.
fn check_options<'a>(options: &'a Options) -> Result<(), Ending<'a>>
    ensures { ChecksOptions options.entry.now result }
{
    check_streams(&options.sessions)?;
    match &options.by {
        Some(word) if !is_word(word.as_str()) => Err(Ending::Word),
        _ => Ok(()),
    }
}

fn main(rt: HostRuntime) -> ExitCode {
    let alloc = rt.alloc();
    let words = match std::env::args(&rt) {
        Ok(words) => words,
        Err(error) => return end_run(&rt, Err(Ending::Run(cli::Ending::of_words(&error)))),
    };
    let Ok(words) = words.collect::<Vec<String>>(alloc) else {
        return end_run(&rt, Err(Ending::Run(cli::Ending::Memory)));
    };
    let options = match line::options(alloc, words.as_slice()) {
        Ok(options) => options,
        Err(error) => {
            return match tell_line(&rt, &error) {
                Ok(()) => end_run(&rt, Ok(())),
                Err(ending) => end_run(&rt, Err(Ending::Run(ending))),
            };
        }
    };
    let system = System { rt: &rt, host: &rt };
    match check_options(&options) {
        Ok(()) => end_run(&rt, work_on(&system, &options)),
        Err(ending) => end_run(&rt, Err(ending)),
    }
}
