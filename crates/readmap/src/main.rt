//! Tells what stands in files that `ceph osd getmap -o FILE` has written, and what a script does to such a map:
//! `readmap [--map FILE..] [--judge SCRIPT FILE..] [FILE..]`. Of a file that is no such map, or is damaged, the first
//! fault is told. Of the files behind `--map` the map is told as its text, as `rekhuso import` writes it, or on
//! standard error why it does not come in as one map. Behind `--judge` it is told what the commands of a script do to
//! each map. The status is 0 where each map is told and all commands are to be given, 2 where the command line means
//! nothing, and else 1.
//!
//! - `line`, `choices`: what a command line asks for
//! - `told`: what is told of a map
//! - `text`: the text of a map
//! - `judged`: what a script does to a map
//! - `verdicts`: what is told of that
//! - `words`: why there is no answer, or why a line is not to be given
#![tactic(auto)]

mod choices;
mod judged;
mod line;
mod text;
mod told;
mod verdicts;
mod words;

use cephmap::{CephMap, checked_map};
use choices::{Options, WordsError};
use judged::judged_script;
use line::options;
use std::process::ExitCode;
use std::rt::Files;
use std::thread::Threads;
use std::{fs, io};
use text::map_text;
use told::tell_map;
use verdicts::tell_verdict;
use words::fault;

/// What is to be told of files.
#[derive(Drop)]
enum Asked {
    /// What stands in them.
    Parts,
    /// The text of a map.
    Text,
    /// What a script does.
    Verdict(Vec<u8>),
}

/// Tells the map of a cluster as its text, or why there is none; whether there is one.
fn tell_text<R: AllocGlobal + Print + Eprint>(
    rt: &R,
    name: &str,
    map: &CephMap,
) -> io::Result<bool> {
    match map_text(rt.alloc(), map) {
        Ok(text) => {
            io::Write::write_all(&mut io::writer(rt), &text)?;
            println!(rt; "")?;
            Ok(true)
        }
        Err(why) => {
            eprintln!(rt; "{name}: {why}")?;
            Ok(false)
        }
    }
}

/// Tells what a script does to the map of a cluster, or why there is no such map; whether all of it is to be given.
fn tell_script<R: AllocGlobal + Print + Eprint + Threads + Sync>(
    rt: &R,
    name: &str,
    map: &CephMap,
    script: &[u8],
) -> io::Result<bool> {
    match judged_script(rt, rt.alloc(), map, script) {
        Ok(judged) => tell_verdict(rt, &judged),
        Err(why) => {
            eprintln!(rt; "{name}: {why}")?;
            Ok(false)
        }
    }
}

/// The bytes of a file, or nothing where it is not read, which is told.
fn bytes_of<R: Files + AllocGlobal + Eprint>(rt: &R, name: &str) -> io::Result<Option<Vec<u8>>> {
    match fs::read(rt, name) {
        Ok(bytes) => Ok(Some(bytes)),
        Err(error) => {
            eprintln!(rt; "{name}: {error}")?;
            Ok(None)
        }
    }
}

/// Tells of the map that bytes are what is asked; whether that is well.
fn tell_bytes<R: AllocGlobal + Print + Eprint + Threads + Sync>(
    rt: &R,
    asked: &Asked,
    name: &str,
    bytes: &[u8],
) -> io::Result<bool> {
    match (checked_map(rt.alloc(), bytes), asked) {
        (Ok(map), Asked::Text) => tell_text(rt, name, &map),
        (Ok(map), Asked::Verdict(script)) => tell_script(rt, name, &map, script),
        (Ok(map), Asked::Parts) => {
            tell_map(rt, name, &map)?;
            Ok(true)
        }
        (Err(error), Asked::Parts) => {
            println!(rt; "{name}: {}", fault(&error))?;
            Ok(true)
        }
        (Err(error), _) => {
            eprintln!(rt; "{name}: {}", fault(&error))?;
            Ok(false)
        }
    }
}

/// Tells of the map in each file what is asked; whether all is well.
fn tell_files<R: Files + AllocGlobal + Print + Eprint + Threads + Sync>(
    rt: &R,
    asked: &Asked,
    names: &[String],
) -> io::Result<bool> {
    let mut all = true;
    for name in names {
        let name = name.as_str();
        all = match bytes_of(rt, name)? {
            Some(bytes) => tell_bytes(rt, asked, name, &bytes)? && all,
            None => false,
        };
    }
    Ok(all)
}

/// Tells what a script does to the map in each file, the script's name first; whether all of it is to be given.
fn tell_judged<R: Files + AllocGlobal + Print + Eprint + Threads + Sync>(
    rt: &R,
    judged: &[String],
) -> io::Result<bool> {
    let Some((script, names)) = judged.split_first() else {
        return Ok(true);
    };
    match bytes_of(rt, script.as_str())? {
        Some(script) => tell_files(rt, &Asked::Verdict(script), names),
        None => Ok(false),
    }
}

/// Tells all that a command line asks for; whether all is well.
fn tell_all<R: Files + AllocGlobal + Print + Eprint + Threads + Sync>(
    rt: &R,
    options: &Options,
) -> io::Result<bool> {
    let parts = tell_files(rt, &Asked::Parts, &options.parts)?;
    let texts = tell_files(rt, &Asked::Text, &options.texts)?;
    Ok(tell_judged(rt, &options.judged)? && texts && parts)
}

/// Shows the help that a command line asks for, or tells why it means nothing.
fn tell_line<R: Print + Eprint>(rt: &R, error: &WordsError) -> io::Result<ExitCode> {
    match error {
        WordsError::Help(text) => {
            print!(rt; "{text}")?;
            return Ok(ExitCode::SUCCESS);
        }
        WordsError::Usage(text) => eprint!(rt; "{text}")?,
        WordsError::Memory => eprintln!(rt; "there is no memory for the command line")?,
    }
    Ok(ExitCode::from(2))
}

fn main(rt: HostRuntime) -> io::Result<ExitCode> {
    let alloc = rt.alloc();
    let words = std::env::args(&rt)?.collect::<Vec<String>>(alloc)?;
    match options(alloc, words.as_slice()) {
        Ok(options) if tell_all(&rt, &options)? => Ok(ExitCode::SUCCESS),
        Ok(_) => Ok(ExitCode::FAILURE),
        Err(error) => tell_line(&rt, &error),
    }
}
