//! The files and streams that a command line names.

ghost use Rattle.std.specs.Prelude.{◌≡◌, ◌≤◌, IfOk, IfErr, length, vec_len, nat_lt, count_by};
ghost use Rattle.std.specs.declared.io.ErrorKind.{ErrorKind};
ghost use Rattle.cli.specs.Arguments.{is_standard};
ghost use Rattle.cli.specs.declared.ending.Ending.TheVariants.{Output};
ghost use Rattle.cli.specs.Endings.{file_ending, status_of, ChecksStreams};

use crate::choices::SessionOptions;
use crate::ending::Ending;
use refusal::Memory;
use server::{Part, Source, Streams, System, Target};
use std::alloc::AllocError;
use std::rt::Files;
use std::sync::Arc;
use std::sync::atomic::AtomicBool;
use std::{fs, io};

/// The word for a script that is standard input, and for a file of answers that is standard output.
const STANDARD: &str = "-";

/// The bytes of a file.
pub fn read<'a, R: Files + AllocGlobal>(rt: &R, path: &'a str) -> Result<Vec<u8>, Ending<'a>>
    ensures ending { IfErr result (λ e. (kind : ErrorKind) × (e ≡ file_ending kind path.entry)) }
    ensures status { IfErr result (λ e. 3 ≤ status_of e) }
{
    fs::read(rt, path).map_err(|error| Ending::of_file(&error, path))
}

/// Whether more than one of these paths is that of standard input or output.
fn is_given_twice(paths: &[String]) -> bool
    ensures { result ≡ nat_lt 1 (count_by is_standard paths.now) }
{
    let mut times: usize = 0;
    for path in paths {
        if path.as_str() == STANDARD {
            times += 1;
        }
    }
    times > 1
}

/// Tests that no more than one script is standard input, and that no more than one file of answers is standard output.
///
/// # Errors
///
/// `TwoInputs`, else `TwoOutputs`.
pub fn check_streams<'a>(options: &SessionOptions) -> Result<(), Ending<'a>>
    ensures { ChecksStreams options.now result }
{
    if is_given_twice(options.scripts.as_slice()) {
        return Err(Ending::TwoInputs);
    }
    if is_given_twice(options.answers.as_slice()) {
        return Err(Ending::TwoOutputs);
    }
    Ok(())
}

/// Where the lines of a path come from.
fn source_of(host: &HostRuntime, path: &str) -> Result<Source, AllocError> {
    if path == STANDARD {
        return Ok(Source::Standard(host.stdin()));
    }
    Ok(Source::File(String::from_str(host.alloc(), path)?))
}

/// Where the answers of a path go.
fn target_of(host: &HostRuntime, path: &str) -> Result<Target, AllocError> {
    if path == STANDARD {
        return Ok(Target::Standard(host.stdout()));
    }
    Ok(Target::File(String::from_str(host.alloc(), path)?))
}

/// The same mark, where there is one.
fn again(mark: Option<&Arc<AtomicBool>>) -> Result<Option<Arc<AtomicBool>>, AllocError> {
    match mark {
        Some(mark) => Ok(Some(Arc::try_clone(mark)?)),
        None => Ok(None),
    }
}

/// What the session of each of these paths is played from, its answers to the file of another path.
fn live_parts(
    host: &HostRuntime,
    options: &SessionOptions,
    mark: Option<&Arc<AtomicBool>>,
) -> Result<Vec<Part>, Memory>
    requires { vec_len options.now.answers ≡ vec_len options.now.scripts }
    ensures { IfOk result (λ parts. vec_len parts ≡ vec_len options.now.scripts) }
{
    let mut parts = Vec::new(host.alloc());
    for k in 0..options.scripts.len() {
        let source = source_of(host, options.scripts[k].as_str())?;
        let target = target_of(host, options.answers[k].as_str())?;
        let end = again(mark)?;
        parts.push(Part::Live(Streams {
            source,
            target,
            end,
        }))?;
    }
    Ok(parts)
}

/// What the session of each of these paths is played from.
fn script_parts<'a, R: Files + AllocGlobal>(
    system: &System<'_, R>,
    paths: &'a [String],
    mark: Option<&Arc<AtomicBool>>,
) -> Result<Vec<Part>, Ending<'a>>
    ensures count { IfOk result (λ parts. vec_len parts ≡ length paths.now) }
    ensures status { IfErr result (λ e. 3 ≤ status_of e) }
{
    let mut parts = Vec::new(system.rt.alloc());
    for path in paths {
        let part = if path.as_str() == STANDARD {
            Part::Live(Streams {
                source: Source::Standard(system.host.stdin()),
                target: Target::Standard(system.host.stdout()),
                end: again(mark).map_err(|_| Ending::Memory)?,
            })
        } else {
            Part::Script(read(system.rt, path.as_str())?)
        };
        if parts.push(part).is_err() {
            return Err(Ending::Memory);
        }
    }
    Ok(parts)
}

/// What the sessions of a run are played from: scripts are read; where there are files of answers, each session opens
/// its own files. Live sessions read no more lines once a mark is set, where there is one.
///
/// # Errors
///
/// `File` with the path of a script that is not read, or `Memory`.
pub fn parts_of<'a, R: Files + AllocGlobal>(
    system: &System<'_, R>,
    options: &'a SessionOptions,
    mark: Option<&Arc<AtomicBool>>,
) -> Result<Vec<Part>, Ending<'a>>
    ensures count { IfOk result (λ parts. vec_len parts ≡ vec_len options.now.scripts) }
    ensures status { IfErr result (λ e. 3 ≤ status_of e) }
{
    if options.answers.is_empty() {
        script_parts(system, options.scripts.as_slice(), mark)
    } else {
        live_parts(system.host, options, mark).map_err(|_| Ending::Memory)
    }
}

/// Puts bytes to standard output.
///
/// # Errors
///
/// `Output`.
pub(crate) fn put_out<'a>(rt: &impl Print, bytes: &[u8]) -> Result<(), Ending<'a>>
    ensures { IfErr result (λ e. e ≡ Output) }
{
    io::Write::write_all(&mut io::writer(rt), bytes).map_err(|_| Ending::Output)
}
