//! The lines of a session, one after the other: each is read into its command, asked, and its answer told.

use crate::command::Command;
use crate::desk::Desk;
use crate::error::SessionError;
use crate::gate::Gate;
use crate::line::{Asking, FirstLine, Line, cut, read_line};
use crate::parse::known_in;
use crate::progress::Progress;
use crate::sink::Sink;
use crate::telling::{flush_if_full, tell_reply};
use epochlog::Keeps;
use monitor::Member;
use std::sync::Wait;
use std::thread::Threads;

impl<'a, R: Wait + Threads + Sync, G: Gate, K: Keeps + Drop> Desk<'a, R, G, K> {
    ghost use Rattle.std.specs.Prelude.{◌≡◌, ◌<◌, ◌+◌, ◌^◌, false, length, IfOk};
    ghost use Rattle.session.specs.Sessions.{session_at, stand, text_from, IsAtDesk};
    ghost use Rattle.session.specs.Readings.{IsUnended, IsLeft, AnswersLine, AnswersLines, AnswersAll};
    ghost use Rattle.session.specs.Ends.{has_sink_failed};

    /// Does the command of a line, of the session's next number, and tells its answer whole.
    pub(crate) fn answer<W: Sink>(
        &self,
        member: &mut Member,
        progress: &mut Progress,
        line: Line<'_>,
        sink: &mut W,
    ) -> Result<(), SessionError>
        requires session { IsAtDesk self.now member.old progress.old (W.has_failed sink.old) false }
        ensures session { IsAtDesk self.now member.new progress.new (W.has_failed sink.new) (has_sink_failed result) }
        ensures number { progress.new.number ≡ progress.old.number }
        ensures answers { AnswersLine (session_at self.now G.lets) (stand member.old progress.old)
            (stand member.new progress.new) line.entry.text.now (W.written sink.old) (W.written sink.new) result }
    {
        if line.text.is_empty() {
            return Ok(());
        }
        if !self.gate.pass(progress.number) {
            return Err(SessionError::Held);
        }
        let command = known_in(self.monitor.profile(), line.command);
        let reply = self.do_command(
            member,
            &mut progress.follower,
            &mut progress.scratch,
            command,
        );
        tell_reply(reply, &mut progress.text, sink)
    }

    /// Answers the first line of a text, and where it is a question such as follow it: what is left of the text.
    fn answer_first<'t, W: Sink>(
        &self,
        member: &mut Member,
        progress: &mut Progress,
        first: FirstLine<'t>,
        sink: &mut W,
    ) -> Result<&'t [u8], SessionError>
        requires session { IsAtDesk self.now member.old progress.old (W.has_failed sink.old) false }
        requires line { IsUnended first.line.now }
        requires few { progress.old.number + length (text_from first) < 2 ^ 64 }
        ensures session { IsAtDesk self.now member.new progress.new (W.has_failed sink.new) (has_sink_failed result) }
        ensures left { IfOk result (λ rest. IsLeft (progress.old.number + 1) progress.new.number
            first.entry.rest.now rest.now) }
        ensures answers { AnswersLines (session_at self.now G.lets) (stand member.old progress.old)
            (stand member.new progress.new) (text_from first.entry) (λ rest. rest.now)
            (W.written sink.old) (W.written sink.new) result }
    {
        let FirstLine { line: text, rest } = first;
        let line = read_line(text);
        if let Some(Command::Ask(question)) = line.command {
            if self.may_share(member, rest, sink) {
                let asking = Asking {
                    line: text,
                    question,
                    rest,
                };
                return self.answer_run(member, progress, asking, sink);
            }
        }
        self.answer(member, progress, line, sink)?;
        progress.number += 1;
        Ok(rest)
    }

    /// Answers each line that ends in a text: what is left of the text, in which no line ends.
    pub(crate) fn answer_lines<'t, W: Sink>(
        &self,
        member: &mut Member,
        progress: &mut Progress,
        text: &'t [u8],
        sink: &mut W,
    ) -> Result<&'t [u8], SessionError>
        requires session { IsAtDesk self.now member.old progress.old (W.has_failed sink.old) false }
        requires few { progress.old.number + length text.now < 2 ^ 64 }
        ensures session { IsAtDesk self.now member.new progress.new (W.has_failed sink.new) (has_sink_failed result) }
        ensures part { IfOk result (λ rest. IsUnended rest.now) }
        ensures answers { AnswersLines (session_at self.now G.lets) (stand member.old progress.old)
            (stand member.new progress.new) text.now (λ rest. rest.now)
            (W.written sink.old) (W.written sink.new) result }
    {
        let mut rest = text;
        while let Some(first) = cut(rest) {
            flush_if_full(sink)?;
            rest = self.answer_first(member, progress, first, sink)?;
        }
        Ok(rest)
    }

    /// Answers the last line, which no newline ends, where there is one.
    pub(crate) fn answer_last<W: Sink>(
        &self,
        member: &mut Member,
        progress: &mut Progress,
        line: &[u8],
        sink: &mut W,
    ) -> Result<(), SessionError>
        requires session { IsAtDesk self.now member.old progress.old (W.has_failed sink.old) false }
        requires line { IsUnended line.now }
        ensures session { IsAtDesk self.now member.new progress.new (W.has_failed sink.new) (has_sink_failed result) }
        ensures answers { AnswersAll (session_at self.now G.lets) (stand member.old progress.old)
            (stand member.new progress.new) line.now (W.written sink.old) (W.written sink.new) result }
    {
        if line.is_empty() {
            return Ok(());
        }
        self.answer(member, progress, read_line(line), sink)
    }
}
