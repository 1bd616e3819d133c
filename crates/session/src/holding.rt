//! Questions that follow one another, answered in one hold of the lock.
ghost use Rattle.std.specs.Prelude.{◌<◌};

use crate::desk::Desk;
use crate::error::SessionError;
use crate::gate::Gate;
use crate::line::{Asking, first_asking};
use crate::progress::Progress;
use crate::sink::Sink;
use crate::telling::tell_answer;
use epochlog::Keeps;
use monitor::{Member, Shared};
use std::sync::Wait;
use std::thread::Threads;

/// How many lines a session answers in one hold of the lock. It is counted by the length of their answers.
const LINES_IN_A_HOLD: usize = 32;

/// So many bytes of an answer count as a line, in a hold of the lock.
const BYTES_IN_A_LINE: usize = 64;

/// With fewer draws left, a session answers line by line.
const FEW_DRAWS: u64 = 1 << 32;

/// A hold of the lock, and the member that shares it.
#[derive(Drop)]
struct Hold<'h, 's, 'm, K: Keeps + Drop> {
    shared: &'h Shared<'s, K>,
    member: &'m Member,
}

/// As how many lines an answer counts.
fn lines_of(answer: &str) -> usize
    ensures { 0 < result }
{
    1 + answer.len() / BYTES_IN_A_LINE
}

impl<'a, R: Wait + Threads + Sync, G: Gate, K: Keeps + Drop> Desk<'a, R, G, K> {
    ghost use Rattle.std.specs.Prelude.{◌≡◌, ◌<◌, ◌≤◌, ◌+◌, ◌^◌, ℕ, true, false, length, IfOk};
    ghost use Rattle.monitor.specs.Members.{IsMemberOf};
    ghost use Rattle.monitor.specs.Sharing.{IsSharing};
    ghost use Rattle.session.specs.Sessions.{session_at, stand, stand_in, asking_text, IsAtDesk};
    ghost use Rattle.session.specs.Readings.{IsLeft, IsAsking, AnswersLines};
    ghost use Rattle.session.specs.Ends.{has_sink_failed};
    ghost use Rattle.session.specs.Holds.{lines_in_a_hold};

    /// Answers questions that stand first in a text by the state that a member shares, at most as many as a hold of
    /// the lock has room for: what is left of the text. The text of an answer that counts already is in the progress.
    fn answer_more<'t, W: Sink>(
        &self,
        hold: Hold<'_, '_, '_, K>,
        progress: &mut Progress,
        text: &'t [u8],
        sink: &mut W,
    ) -> Result<&'t [u8], SessionError>
        requires shared { IsSharing self.now.monitor.now hold.shared.now hold.member.now }
        requires shares { ((line : ℕ) → G.lets self.now.gate.now line true) × (W.waits sink.old ≡ false) }
        requires unfailed { W.has_failed sink.old ≡ false }
        requires few { progress.old.number + length text.now < 2 ^ 64 }
        ensures follower { progress.new.follower ≡ progress.old.follower }
        ensures few { progress.new.number < progress.old.number + lines_in_a_hold }
        ensures left { IfOk result (λ rest. IsLeft progress.old.number progress.new.number text.now rest.now) }
        ensures answers { AnswersLines (session_at self.now G.lets)
            (stand_in hold.entry.shared.now hold.entry.member.now progress.old)
            (stand_in hold.entry.shared.now hold.entry.member.now progress.new) text.now (λ rest. rest.now)
            (W.written sink.old) (W.written sink.new) result }
        ensures failed { W.has_failed sink.new ≡ has_sink_failed result }
    {
        let mut rest = text;
        let mut left = LINES_IN_A_HOLD.saturating_sub(lines_of(&progress.text));
        while left > 0 {
            let Some(asking) = first_asking(rest) else {
                break;
            };
            let found = self
                .monitor
                .answer(hold.shared, hold.member, asking.question);
            tell_answer(found, &mut progress.text, sink)?;
            progress.number += 1;
            rest = asking.rest;
            left = left.saturating_sub(lines_of(&progress.text));
        }
        Ok(rest)
    }

    /// Whether a run of questions may be answered in one hold of the lock: no gate is to be asked, no write may wait,
    /// and as many draws are left as the text can have lines, so that the seat is spent at the same line as by a draw a
    /// line.
    pub(crate) fn may_share<W: Sink>(&self, member: &Member, text: &[u8], sink: &W) -> bool
        requires { IsMemberOf self.now.monitor.now member.now }
        ensures open { result ≡ true → (line : ℕ) → G.lets self.now.gate.now line true }
        ensures ready { result ≡ true → W.waits sink.now ≡ false }
    {
        if sink.may_wait() || self.monitor.draws_left(member) < FEW_DRAWS + text.len() as u64 {
            return false;
        }
        self.gate.is_open()
    }

    /// Answers a question that is the first line of a text, and questions that follow it, in one hold of the lock: what
    /// is left of the text.
    pub(crate) fn answer_run<'t, W: Sink>(
        &self,
        member: &mut Member,
        progress: &mut Progress,
        asking: Asking<'t>,
        sink: &mut W,
    ) -> Result<&'t [u8], SessionError>
        requires session { IsAtDesk self.now member.old progress.old (W.has_failed sink.old) false }
        requires shares { ((line : ℕ) → G.lets self.now.gate.now line true) × (W.waits sink.old ≡ false) }
        requires asks { IsAsking asking.line.now asking.question }
        requires few { progress.old.number + length (asking_text asking) < 2 ^ 64 }
        ensures session { IsAtDesk self.now member.new progress.new (W.has_failed sink.new) (has_sink_failed result) }
        ensures few { progress.new.number ≤ progress.old.number + lines_in_a_hold }
        ensures left { IfOk result (λ rest. IsLeft (progress.old.number + 1) progress.new.number
            asking.entry.rest.now rest.now) }
        ensures answers { AnswersLines (session_at self.now G.lets) (stand member.old progress.old)
            (stand member.new progress.new) (asking_text asking.entry) (λ rest. rest.now)
            (W.written sink.old) (W.written sink.new) result }
    {
        let shared = match self.monitor.share(self.rt, member) {
            Ok(shared) => shared,
            Err(refusal) => {
                tell_answer(Err(refusal), &mut progress.text, sink)?;
                progress.number += 1;
                return Ok(asking.rest);
            }
        };
        let found = self.monitor.answer(&shared, member, asking.question);
        let done = match tell_answer(found, &mut progress.text, sink) {
            Ok(()) => {
                progress.number += 1;
                self.answer_more(
                    Hold {
                        shared: &shared,
                        member,
                    },
                    progress,
                    asking.rest,
                    sink,
                )
            }
            Err(error) => Err(error),
        };
        self.monitor.give_back(shared, member);
        done
    }
}
