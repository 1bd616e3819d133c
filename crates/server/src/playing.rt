//! What the thread of a session plays.
ghost use Rattle.std.specs.Prelude.{◌≡◌, ◌≢◌, ◌++◌, ℕ, List, false, OnOk, IfOk, IfErr, IfSome};
ghost use Rattle.monitor.specs.Members.{IsNewMemberOf};
ghost use Rattle.session.specs.Buffers.{bytes_of, is_short};
ghost use Rattle.session.specs.Ends.{has_sink_failed};
ghost use Rattle.server.specs.Players.{IsAskerOf, IsNewAskerOf, sight_of};
ghost use Rattle.server.specs.Serving.{heading, HasAnsweredBy, IsTextBy, IsLeftBy};

use crate::failure::Failure;
use crate::left::{Asker, Left};
use crate::out::Out;
use crate::part::{Part, Source, Streams, Target};
use crate::until::Until;
use epochlog::Keeps;
use monitor::Member;
use refusal::Memory;
use session::{Buffer, Desk, Open, SessionError, Sink, write_whole};
use std::alloc::Global;
use std::io::{ErrorKind, Read};
use std::sync::Wait;
use std::thread::Threads;
use std::{fs, io};

/// Where sessions are played: the desk that they ask at, and what opens their files.
#[derive(Drop)]
pub struct Stage<'a, R, K: Keeps + Drop> {
    /// Where they ask; each line is let through.
    pub desk: Desk<'a, R, Open, K>,
    /// What opens their files.
    pub host: &'a HostRuntime,
}

/// A text that begins with the heading of the session of a number. `None` where memory is short.
fn begin_text(alloc: Global, number: usize) -> Option<Buffer>
    ensures heading { IfSome result (λ text. bytes_of text ≡ heading number) }
    ensures whole { IfSome result (λ text. is_short text ≡ false) }
{
    let mut text = Buffer::new(alloc);
    let heading = format!(in alloc; "session {number}\n").ok()?;
    write_whole(&mut text, heading.as_bytes()).ok()?;
    Some(text)
}

/// The text of the session of a script: its heading and its answers. The one error is that memory is short.
fn play_script<R: Wait + Threads + Sync, K: Keeps + Drop>(
    desk: &Desk<'_, R, Open, K>,
    asker: &mut Asker,
    number: usize,
    script: &[u8],
) -> Option<Buffer>
    requires { IsNewAskerOf desk.now.monitor.now asker.old }
    ensures asker { IsAskerOf desk.now.monitor.now asker.new }
    ensures text { IfSome result (λ text.
        IsTextBy desk.now.monitor.now number script.now (bytes_of text) (sight_of asker.new)) }
{
    let mut text = begin_text(desk.alloc, number)?;
    match desk.run(&mut asker.member, &mut asker.follower, script, &mut text) {
        Ok(()) => Some(text),
        Err(SessionError::Write | SessionError::Memory) => None,
        Err(SessionError::Held | SessionError::Read) => unreachable!(),
    }
}

/// Plays the session of a reader's lines: puts its heading and its answers to a sink, and has all out before each read
/// and at its end.
fn play_lines<R: Wait + Threads + Sync, B: Read, W: Sink, K: Keeps + Drop>(
    desk: &Desk<'_, R, Open, K>,
    asker: &mut Asker,
    number: usize,
    reader: &mut B,
    out: &mut W,
) -> Result<(), SessionError>
    requires asker { IsNewAskerOf desk.now.monitor.now asker.old }
    requires unfailed { W.has_failed out.old ≡ false }
    ensures asker { IsAskerOf desk.now.monitor.now asker.new }
    ensures held { IfErr result (λ e. e ≢ SessionError.Held) }
    ensures out { OnOk result (W.holds_back out.new ≡ false) }
    ensures failed { W.has_failed out.new ≡ has_sink_failed result }
    ensures ok { OnOk result ((read : List ℕ) × (text : List ℕ)
        × IfSome (B.remaining reader.old) (λ xs. xs ≡ read)
        × IsTextBy desk.now.monitor.now number read text (sight_of asker.new)
        × (W.written out.new ≡ W.written out.old ++ text)) }
    ensures answered { HasAnsweredBy desk.now.monitor.now (sight_of asker.new) }
{
    let Some(text) = begin_text(desk.alloc, number) else {
        return Err(SessionError::Memory);
    };
    write_whole(out, text.bytes())?;
    desk.run_from(&mut asker.member, &mut asker.follower, reader, out)
}

/// Plays the session of a reader's lines, its answers to a writer.
fn play_to_writer<R: Wait + Threads + Sync, B: Read, W: io::Write + Drop, K: Keeps + Drop>(
    desk: &Desk<'_, R, Open, K>,
    asker: &mut Asker,
    number: usize,
    reader: &mut B,
    to: W,
) -> Result<(), SessionError>
    requires { IsNewAskerOf desk.now.monitor.now asker.old }
    ensures asker { IsAskerOf desk.now.monitor.now asker.new }
    ensures held { IfErr result (λ e. e ≢ SessionError.Held) }
    ensures answered { HasAnsweredBy desk.now.monitor.now (sight_of asker.new) }
{
    let mut out = Out::new(desk.alloc, to);
    match play_lines(desk, asker, number, reader, &mut out) {
        Err(SessionError::Write) if out.is_short() => Err(SessionError::Memory),
        done => done,
    }
}

/// How a session ends one of whose files is not opened: out of memory, else as is said.
fn open_failure(error: &io::Error, otherwise: SessionError) -> SessionError
    requires { otherwise ≢ SessionError.Held }
    ensures { result ≢ SessionError.Held }
{
    match error.kind() {
        ErrorKind::OutOfMemory => SessionError::Memory,
        _ => otherwise,
    }
}

/// Plays the session of a reader's lines; a file for its answers is made, or emptied.
fn play_to_target<R: Wait + Threads + Sync, B: Read, K: Keeps + Drop>(
    stage: &Stage<'_, R, K>,
    asker: &mut Asker,
    number: usize,
    reader: &mut B,
    target: &Target,
) -> Result<(), SessionError>
    requires { IsNewAskerOf stage.now.desk.monitor.now asker.old }
    ensures asker { IsAskerOf stage.now.desk.monitor.now asker.new }
    ensures held { IfErr result (λ e. e ≢ SessionError.Held) }
    ensures answered { HasAnsweredBy stage.now.desk.monitor.now (sight_of asker.new) }
{
    match target {
        Target::Standard(output) => play_to_writer(&stage.desk, asker, number, reader, *output),
        Target::File(path) => match fs::create(stage.host, path.as_str()) {
            Ok(file) => play_to_writer(&stage.desk, asker, number, reader, file),
            Err(error) => Err(open_failure(&error, SessionError::Write)),
        },
    }
}

/// Plays a live session: opens the file of its lines first, then that of its answers.
fn play_streams<R: Wait + Threads + Sync, K: Keeps + Drop>(
    stage: &Stage<'_, R, K>,
    asker: &mut Asker,
    number: usize,
    streams: &Streams,
) -> Result<(), SessionError>
    requires { IsNewAskerOf stage.now.desk.monitor.now asker.old }
    ensures asker { IsAskerOf stage.now.desk.monitor.now asker.new }
    ensures held { IfErr result (λ e. e ≢ SessionError.Held) }
    ensures answered { HasAnsweredBy stage.now.desk.monitor.now (sight_of asker.new) }
{
    match &streams.source {
        Source::Standard(input) => {
            let mut reader = Until::new(*input, streams);
            play_to_target(stage, asker, number, &mut reader, &streams.target)
        }
        Source::File(path) => match fs::open(stage.host, path.as_str()) {
            Ok(file) => {
                let mut reader = Until::new(file, streams);
                play_to_target(stage, asker, number, &mut reader, &streams.target)
            }
            Err(error) => Err(open_failure(&error, SessionError::Read)),
        },
    }
}

/// Tells on standard error what of a live session has failed.
fn tell(rt: &impl Eprint, failure: Failure<'_>) {
    let _ = eprint!(rt; "{failure}");
}

/// Plays a live session: whether one of its files has failed, which is told. The one error is that memory is short.
fn play_live<R: Wait + Threads + Eprint + Sync, K: Keeps + Drop>(
    stage: &Stage<'_, R, K>,
    asker: &mut Asker,
    number: usize,
    streams: &Streams,
) -> Result<bool, Memory>
    requires { IsNewAskerOf stage.now.desk.monitor.now asker.old }
    ensures asker { IsAskerOf stage.now.desk.monitor.now asker.new }
    ensures answered { HasAnsweredBy stage.now.desk.monitor.now (sight_of asker.new) }
{
    match play_streams(stage, asker, number, streams) {
        Ok(()) => return Ok(false),
        Err(SessionError::Read) => tell(stage.desk.rt, streams.source.failure()),
        Err(SessionError::Write) => tell(stage.desk.rt, streams.target.failure()),
        Err(SessionError::Memory) => return Err(Memory),
        Err(SessionError::Held) => unreachable!(),
    }
    Ok(true)
}

/// Plays the session of a part: what is left of it, and its member. The one error is that memory is short.
pub fn play<R: Wait + Threads + Eprint + Sync, K: Keeps + Drop>(
    stage: &Stage<'_, R, K>,
    member: Member,
    number: usize,
    part: &Part,
) -> Result<Left, Memory>
    requires { IsNewMemberOf stage.now.desk.monitor.now member }
    ensures { IfOk result (IsLeftBy stage.now.desk.monitor.now number part.now) }
{
    let mut asker = Asker {
        member,
        follower: None,
    };
    let (text, has_told) = match part {
        Part::Script(script) => {
            let text = play_script(&stage.desk, &mut asker, number, script).ok_or(Memory)?;
            (text, false)
        }
        Part::Live(streams) => {
            let has_told = play_live(stage, &mut asker, number, streams)?;
            (Buffer::new(stage.desk.alloc), has_told)
        }
    };
    let Asker { member, follower } = asker;
    Ok(Left {
        text,
        member,
        follower,
        has_told,
    })
}
