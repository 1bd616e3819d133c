//! A session whose lines come while it runs: each is answered as soon as it has ended.
ghost use Rattle.std.specs.Prelude.{◌≡◌, ◌<◌, ◌≤◌, ◌+◌, ◌^◌, ◌++◌, [], true, false, length, take, IfOk, OnOk, IfErr, OnErr, MatchOption};
ghost use Rattle.std.specs.String.{string_bytes};
ghost use Rattle.std.specs.Io.KnownBytes.{Consumes, Keeps, IsAtEnd};

use crate::desk::Desk;
use crate::error::SessionError;
use crate::gate::Gate;
use crate::line::{cut, read_line};
use crate::progress::Progress;
use crate::sink::Sink;
use crate::telling::flush;
use epochlog::Keeps;
use monitor::{Follower, Member};
use std::io;
use std::io::Read;
use std::sync::Wait;
use std::thread::Threads;

/// How many bytes are read at once, at most.
const CHUNK: usize = 16_384;

/// A session keeps room for so many bytes of an answer, of a line that has begun and of a change, from one read or line
/// to the next.
pub(crate) const KEPT: usize = 65_536;

/// What a session that reads its lines has of its own: its progress, and the line that has begun.
#[derive(Drop)]
struct Reading {
    progress: Progress,
    begun: Vec<u8>,
}

/// Stands where a session may wait for input: no answer waits in its sink then.
fn may_wait<W: Sink>(sink: &W)
    requires { W.holds_back sink.now ≡ false }
{
    let _ = sink;
}

/// Whether a read is to be asked for again.
fn is_interrupted(error: &io::Error) -> bool {
    error.kind() == io::ErrorKind::Interrupted
}

/// Reads what is there: how many bytes came, none at the end of the input. `None` where the read is to be asked for
/// again.
fn read_some<B: Read>(reader: &mut B, chunk: &mut [u8]) -> Result<Option<usize>, SessionError>
    requires { 0 < length chunk.old }
    ensures room { length chunk.new ≡ length chunk.old }
    ensures came { IfOk result (λ taken. MatchOption taken (Keeps (B.remaining reader.old) (B.remaining reader.new))
        (λ n. (n ≤ length chunk.new)
        × Consumes (B.remaining reader.old) (B.remaining reader.new) (take n chunk.new)
        × (n ≡ 0 → IsAtEnd (B.remaining reader.new)))) }
    ensures error { IfErr result (λ error. error ≡ SessionError.Read) }
    ensures kept { OnErr result (Keeps (B.remaining reader.old) (B.remaining reader.new)) }
{
    match reader.read(chunk) {
        Ok(taken) => Ok(Some(taken)),
        Err(error) if is_interrupted(&error) => Ok(None),
        Err(_) => Err(SessionError::Read),
    }
}

/// Whether a line's number can count as many lines more.
fn can_count(number: u64, more: usize) -> bool
    ensures { result ≡ true → number + more < 2 ^ 64 }
{
    more as u64 <= u64::MAX - number
}

/// Keeps more of the line that has begun.
fn keep_more(begun: &mut Vec<u8>, more: &[u8]) -> Result<(), SessionError>
    ensures more { OnOk result (begun.new.items ≡ begun.old.items ++ more.now) }
    ensures memory { IfErr result (λ error. error ≡ SessionError.Memory) }
{
    begun
        .extend_from_slice(more)
        .map_err(|_| SessionError::Memory)
}

/// Gives back what a long answer took, once it is out.
fn give_back(text: &mut String)
    ensures { string_bytes text.new ≡ [] }
{
    text.clear();
    text.shrink_to(KEPT);
}

impl<'a, R: Wait + Threads + Sync, G: Gate, K: Keeps + Drop> Desk<'a, R, G, K> {
    ghost use Rattle.std.specs.Prelude.{◌≡◌, ◌++◌, ◌+◌, ◌<◌, ◌^◌, [], None, true, false, length, IfOk, OnOk, IfErr};
    ghost use Rattle.std.specs.Io.KnownBytes.{IsAtEnd};
    ghost use Rattle.monitor.specs.Members.{IsMemberOf};
    ghost use Rattle.session.specs.Sessions.{session_at, first_sight, sight_by, stand, reader_at, IsAtDesk, IsFollowerOf, IsReadOut, IsCutShort};
    ghost use Rattle.session.specs.Readings.{IsUnended, AnswersLine, AnswersLines, AnswersAll, TakesMore};
    ghost use Rattle.session.specs.Ends.{has_sink_failed};

    /// Answers the line that has begun, with its end behind it.
    fn answer_begun<W: Sink>(
        &self,
        member: &mut Member,
        reading: &mut Reading,
        end: &[u8],
        sink: &mut W,
    ) -> Result<(), SessionError>
        requires session { IsAtDesk self.now member.old reading.old.progress (W.has_failed sink.old) false }
        requires few { reading.old.progress.number + 1 < 2 ^ 64 }
        ensures session { IsAtDesk self.now member.new reading.new.progress (W.has_failed sink.new)
            (has_sink_failed result) }
        ensures number { OnOk result (reading.new.progress.number ≡ reading.old.progress.number + 1) }
        ensures none { OnOk result (reading.new.begun.items ≡ []) }
        ensures answers { AnswersLine (session_at self.now G.lets) (stand member.old reading.old.progress)
            (stand member.new reading.new.progress) (reading.old.begun.items ++ end.now)
            (W.written sink.old) (W.written sink.new) result }
    {
        keep_more(&mut reading.begun, end)?;
        self.answer(
            member,
            &mut reading.progress,
            read_line(&reading.begun),
            sink,
        )?;
        reading.begun.clear();
        reading.begun.shrink_to(KEPT);
        reading.progress.number += 1;
        Ok(())
    }

    /// Answers each line that ends in a text, the first with what has begun before it, and keeps what is left.
    fn answer_part<W: Sink>(
        &self,
        member: &mut Member,
        reading: &mut Reading,
        text: &[u8],
        sink: &mut W,
    ) -> Result<(), SessionError>
        requires session { IsAtDesk self.now member.old reading.old.progress (W.has_failed sink.old) false }
        requires begun { IsUnended reading.old.begun.items }
        requires few { reading.old.progress.number + length text.now < 2 ^ 64 }
        ensures session { IsAtDesk self.now member.new reading.new.progress (W.has_failed sink.new)
            (has_sink_failed result) }
        ensures begun { OnOk result (IsUnended reading.new.begun.items) }
        ensures answers { AnswersLines (session_at self.now G.lets) (stand member.old reading.old.progress)
            (stand member.new reading.new.progress) (reading.old.begun.items ++ text.now)
            (λ _. reading.new.begun.items) (W.written sink.old) (W.written sink.new) result }
    {
        let Some(first) = cut(text) else {
            return keep_more(&mut reading.begun, text);
        };
        self.answer_begun(member, reading, first.line, sink)?;
        let rest = self.answer_lines(member, &mut reading.progress, first.rest, sink)?;
        keep_more(&mut reading.begun, rest)
    }

    /// Reads more, and answers each line that ends in it: whether the input has ended. Before it reads, all answers are
    /// out.
    fn take_more<B: Read, W: Sink>(
        &self,
        member: &mut Member,
        reading: &mut Reading,
        reader: &mut B,
        sink: &mut W,
    ) -> Result<bool, SessionError>
        requires session { IsAtDesk self.now member.old reading.old.progress (W.has_failed sink.old) false }
        requires begun { IsUnended reading.old.begun.items }
        ensures session { IsAtDesk self.now member.new reading.new.progress (W.has_failed sink.new)
            (has_sink_failed result) }
        ensures begun { OnOk result (IsUnended reading.new.begun.items) }
        ensures ended { IfOk result (λ ended. ended ≡ true → IsAtEnd (B.remaining reader.new)) }
        ensures takes { TakesMore (session_at self.now G.lets)
            (reader_at member.old reading.old (B.remaining reader.old))
            (reader_at member.new reading.new (B.remaining reader.new))
            (W.written sink.old) (W.written sink.new) result }
    {
        flush(sink)?;
        give_back(&mut reading.progress.text);
        may_wait(sink);
        if !can_count(reading.progress.number, CHUNK) {
            return Err(SessionError::Read);
        }
        let mut chunk = [0; CHUNK];
        let Some(taken) = read_some(reader, &mut chunk)? else {
            return Ok(false);
        };
        self.answer_part(member, reading, &chunk[..taken], sink)?;
        Ok(taken == 0)
    }

    /// Answers the line that has begun, where there is one, as the last, and has all answers out.
    fn finish<W: Sink>(
        &self,
        member: &mut Member,
        reading: &mut Reading,
        sink: &mut W,
    ) -> Result<(), SessionError>
        requires session { IsAtDesk self.now member.old reading.old.progress (W.has_failed sink.old) false }
        requires begun { IsUnended reading.old.begun.items }
        ensures session { IsAtDesk self.now member.new reading.new.progress (W.has_failed sink.new)
            (has_sink_failed result) }
        ensures out { OnOk result (W.holds_back sink.new ≡ false) }
        ensures answers { AnswersAll (session_at self.now G.lets) (stand member.old reading.old.progress)
            (stand member.new reading.new.progress) reading.old.begun.items
            (W.written sink.old) (W.written sink.new) result }
    {
        self.answer_last(member, &mut reading.progress, &reading.begun, sink)?;
        flush(sink)?;
        Ok(())
    }

    /// Runs the lines of a reader as they come, as `run` those of a script: it answers all that have ended before it
    /// reads on, and each read begins with all answers out. The session ends with the input; what stands behind the
    /// last newline is a line.
    ///
    /// # Errors
    ///
    /// Those of `run`; `Write` also where the sink cannot have all out; `Memory` also where a line found no memory; and
    /// `Read` where a read failed, or more lines came than 64 bits count: each line that has ended before that is
    /// answered then, and nothing else is out.
    pub fn run_from<B: Read, W: Sink>(
        &self,
        member: &mut Member,
        follower: &mut Option<Follower>,
        reader: &mut B,
        sink: &mut W,
    ) -> Result<(), SessionError>
        requires member { IsMemberOf self.now.monitor.now member.old }
        requires none { follower.old ≡ None }
        requires unfailed { W.has_failed sink.old ≡ false }
        ensures member { IsMemberOf self.now.monitor.now member.new }
        ensures follower { IsFollowerOf self.now.monitor.now follower.new }
        ensures out { OnOk result (W.holds_back sink.new ≡ false) }
        ensures ok { OnOk result (IsReadOut (session_at self.now G.lets) (B.remaining reader.old)
            (first_sight member.old) (sight_by member.new follower.new) (W.written sink.old) (W.written sink.new)) }
        ensures err { IfErr result (IsCutShort (session_at self.now G.lets) (B.remaining reader.old)
            (B.remaining reader.new) (first_sight member.old) (sight_by member.new follower.new)
            (W.written sink.old) (W.written sink.new)) }
        ensures failed { W.has_failed sink.new ≡ has_sink_failed result }
    {
        let mut reading = Reading {
            progress: Progress::new(self.alloc),
            begun: Vec::new(self.alloc),
        };
        let done = self.read_lines(member, &mut reading, reader, sink);
        let Reading { progress, .. } = reading;
        *follower = progress.follower;
        done
    }

    /// Does the commands of a reader's lines, before whose first line a session stands.
    fn read_lines<B: Read, W: Sink>(
        &self,
        member: &mut Member,
        reading: &mut Reading,
        reader: &mut B,
        sink: &mut W,
    ) -> Result<(), SessionError>
        requires session { IsAtDesk self.now member.old reading.old.progress (W.has_failed sink.old) false }
        requires number { reading.old.progress.number ≡ 1 }
        requires none { reading.old.progress.follower ≡ None }
        requires begun { reading.old.begun.items ≡ [] }
        ensures session { IsAtDesk self.now member.new reading.new.progress (W.has_failed sink.new)
            (has_sink_failed result) }
        ensures out { OnOk result (W.holds_back sink.new ≡ false) }
        ensures ok { OnOk result (IsReadOut (session_at self.now G.lets) (B.remaining reader.old)
            (first_sight member.old) (sight_by member.new reading.new.progress.follower)
            (W.written sink.old) (W.written sink.new)) }
        ensures err { IfErr result (IsCutShort (session_at self.now G.lets) (B.remaining reader.old)
            (B.remaining reader.new) (first_sight member.old) (sight_by member.new reading.new.progress.follower)
            (W.written sink.old) (W.written sink.new)) }
    {
        for _ in self.rt.forever() {
            if self.take_more(member, reading, reader, sink)? {
                return self.finish(member, reading, sink);
            }
        }
        unreachable!()
    }
}
