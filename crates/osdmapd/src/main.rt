//! Answers scripts of commands over the map of a cluster: `osdmapd [--journal N] [--stock] [--to ANSWERS].. MAP
//! SCRIPT..`, where `-` for a script is standard input, and for a file of answers standard output.
//!
//! - `line`, `choices`: what a command line asks for
#![tactic(auto)]

ghost use Rattle.std.specs.Prelude.{◌≡◌, ◌≤◌, IfErr, vec_len};
ghost use Rattle.std.specs.Process.{exit_status};
ghost use Rattle.cli.specs.Endings.{status_of};

mod choices;
mod line;

use choices::Options;
use cli::{Ending, check_streams, end_run, parts_of, put_served, read, tell_line};
use server::{System, Terms, serve};
use session::Buffer;
use std::process::ExitCode;
use std::rt::Files;
use std::sync::Wait;
use std::thread::Threads;

/// Reads the files, the map first, and puts the answers to standard output; where there are files of answers, the map
/// alone, and each session opens its own.
fn work<'a, R: Files + AllocGlobal + Print + Eprint + Threads + Wait + Sync>(
    system: &System<'_, R>,
    options: &'a Options,
) -> Result<(), Ending<'a>>
    requires { 1 ≤ vec_len options.now.sessions.scripts }
    ensures { IfErr result (λ e. 2 ≤ status_of e) }
{
    let map = read(system.rt, options.map.as_str())?;
    let sessions = &options.sessions;
    let parts = parts_of(system, sessions, None)?;
    let mut out = Buffer::new(system.rt.alloc());
    let terms = Terms {
        journal: sessions.journal,
        profile: sessions.profile,
    };
    let served = serve(system, terms, &map, &parts, &mut out);
    put_served(system.rt, out.bytes(), served)
}

fn main(rt: HostRuntime) -> ExitCode {
    let alloc = rt.alloc();
    let words = match std::env::args(&rt) {
        Ok(words) => words,
        Err(error) => return end_run(&rt, Err(Ending::of_words(&error))),
    };
    let Ok(words) = words.collect::<Vec<String>>(alloc) else {
        return end_run(&rt, Err(Ending::Memory));
    };
    let system = System { rt: &rt, host: &rt };
    let options = match line::options(alloc, words.as_slice()) {
        Ok(options) => options,
        Err(error) => return end_run(&rt, tell_line(&rt, &error)),
    };
    match check_streams(&options.sessions) {
        Ok(()) => end_run(&rt, work(&system, &options)),
        Err(ending) => end_run(&rt, Err(ending)),
    }
}
