//! A session: each line of a script, one after the other, and its answer to a sink.
use crate::desk::Desk;
use crate::error::SessionError;
use crate::gate::Gate;
use crate::progress::Progress;
use crate::sink::Sink;
use epochlog::Keeps;
use monitor::{Follower, Member};
use std::sync::Wait;
use std::thread::Threads;

impl<'a, R: Wait + Threads + Sync, G: Gate, K: Keeps + Drop> Desk<'a, R, G, K> {
    ghost use Rattle.std.specs.Prelude.{◌≡◌, None, false, OnOk, IfErr};
    ghost use Rattle.monitor.specs.Members.{IsMemberOf};
    ghost use Rattle.session.specs.Sessions.{first_sight, sight_by, session_at, IsAtDesk, IsFollowerOf, IsPlayed, IsStopped};
    ghost use Rattle.session.specs.Ends.{has_sink_failed};

    /// Runs a script for a member of the monitor: does the command of each line in order, and writes its answer whole
    /// before the next command. A line that is no command answers `BadCommand` (33), a refused one its number and name,
    /// and the session goes on. Before each line that is not empty it asks the gate, by the line's number in the
    /// script, from 1.
    ///
    /// What is written is a transcript: each line is answered by one history, that of the member after it, which is
    /// lawful from the first map and goes on from the one that the line before it left; the first goes on from what the
    /// member had seen before. The lines of the session's follower are answered by the follower's history, which is
    /// empty at first; the follower is left in `follower`, where a line has needed one.
    ///
    /// # Errors
    ///
    /// `Write` only where the sink has failed, which is not written to again; `Memory` only where the text of an answer
    /// found no memory and the sink has not failed; and `Held` only where the gate answered `false`, with nothing done
    /// for that line. What is out is then a beginning of the answers up to the last command done.
    pub fn run<W: Sink>(
        &self,
        member: &mut Member,
        follower: &mut Option<Follower>,
        script: &[u8],
        sink: &mut W,
    ) -> Result<(), SessionError>
        requires member { IsMemberOf self.now.monitor.now member.old }
        requires none { follower.old ≡ None }
        requires unfailed { W.has_failed sink.old ≡ false }
        ensures member { IsMemberOf self.now.monitor.now member.new }
        ensures follower { IsFollowerOf self.now.monitor.now follower.new }
        ensures ok { OnOk result (IsPlayed (session_at self.now G.lets) (first_sight member.old) script.now
            (sight_by member.new follower.new) (W.written sink.old) (W.written sink.new)) }
        ensures err { IfErr result (IsStopped (session_at self.now G.lets) (first_sight member.old) script.now
            (sight_by member.new follower.new) (W.written sink.old) (W.written sink.new)) }
        ensures failed { W.has_failed sink.new ≡ has_sink_failed result }
    {
        let mut progress = Progress::new(self.alloc);
        let done = self.run_lines(member, &mut progress, script, sink);
        *follower = progress.follower;
        done
    }

    /// Does the command of each line of a script, before whose first line a session stands.
    fn run_lines<W: Sink>(
        &self,
        member: &mut Member,
        progress: &mut Progress,
        script: &[u8],
        sink: &mut W,
    ) -> Result<(), SessionError>
        requires session { IsAtDesk self.now member.old progress.old (W.has_failed sink.old) false }
        requires number { progress.old.number ≡ 1 }
        requires none { progress.old.follower ≡ None }
        ensures session { IsAtDesk self.now member.new progress.new (W.has_failed sink.new) (has_sink_failed result) }
        ensures ok { OnOk result (IsPlayed (session_at self.now G.lets) (first_sight member.old) script.now
            (sight_by member.new progress.new.follower) (W.written sink.old) (W.written sink.new)) }
        ensures err { IfErr result (IsStopped (session_at self.now G.lets) (first_sight member.old) script.now
            (sight_by member.new progress.new.follower) (W.written sink.old) (W.written sink.new)) }
    {
        let last = self.answer_lines(member, progress, script, sink)?;
        self.answer_last(member, progress, last, sink)
    }
}
