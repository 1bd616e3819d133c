//! A look at the state under the lock.

ghost use Rattle.std.specs.Prelude.{◌≡◌};
ghost use Rattle.monitor.specs.Members.{lent};

use crate::locked::Locked;
use crate::member::Member;
use crate::monitor::Monitor;
use crate::shared::Shared;
use crate::tally::Tally;
use crate::turns::state_of;
use epochlog::{Keeps, Nothing, Pass};
use state::State;
use std::sync::Wait;
use ticketlock::ReadGuard;
use tip::Seen;

/// A member that shares the lock, and looks at the state as long as it likes: nobody commits meanwhile. It must be
/// spent, by [`Look::leave`], and stays in its thread.
pub struct Look<'a, K: Keeps + Drop = Nothing> {
    pub(crate) guard: ReadGuard<'a, Locked<K>>,
    pub(crate) pass: Pass,
    pub(crate) own: Vec<bool>,
    pub(crate) seen: Seen,
    pub(crate) tally: Tally,
    pub ghost shows: { (lent guard).pass ≡ pass },
}

impl<K: Keeps + Drop> Monitor<K> {
    ghost use Rattle.std.specs.Prelude.{◌≡◌, ◌+◌, IfOk, IfErr, OnOk};
    ghost use Rattle.monitor.specs.Histories.{GoesOn};
    ghost use Rattle.monitor.specs.Members.{IsMemberOf, IsSpent, StaysAlone, draws_made};
    ghost use Rattle.monitor.specs.Looking.{IsLookOf};

    /// Shares the lock, to look at the state, by one draw. It takes no memory.
    ///
    /// # Errors
    ///
    /// The member as it was (31, `SeatSpent`), exactly where its seat has made its draws.
    pub fn look<R: Wait>(&self, rt: &R, member: Member) -> Result<Look<'_, K>, Member>
        requires { IsMemberOf self.now member }
        ensures ok { IfOk result (λ look.
            IsLookOf self.now look × GoesOn self.now.first member.pass.history look.pass.history) }
        ensures own { IfOk result (λ look. look.own ≡ member.own) }
        ensures tally { IfOk result (λ look. look.tally ≡ member.tally) }
        ensures err { IfErr result (λ back. (back ≡ member) × IsSpent self.now member) }
        ensures refused { OnOk result (¬ IsSpent self.now member) }
        ensures alone { IfOk result (λ look. StaysAlone self.now member.pass look.pass) }
        ensures once { IfOk result (λ look. look.guard.turn.place.draws ≡ draws_made member + 1) }
    {
        let mut member = member;
        match self.share(rt, &mut member) {
            Ok(Shared { guard }) => Ok(Look {
                guard,
                pass: member.pass,
                own: member.own,
                seen: member.seen,
                tally: member.tally,
            }),
            Err(_) => Err(member),
        }
    }
}

impl<'a, K: Keeps + Drop> Look<'a, K> {
    ghost use Rattle.std.specs.Prelude.{◌≡◌};
    ghost use Rattle.monitor.specs.Members.{Monitored, IsMemberOf, draws_made};
    ghost use Rattle.monitor.specs.Looking.{IsLookOf, first_of_look};

    /// The state, the same at each call: its first map is the monitor's, and it has seen what the member has.
    pub fn state(&self) -> &State<K>
        ensures first { result.now.first ≡ first_of_look self.now }
        ensures pass { result.now.pass ≡ self.now.pass }
    {
        state_of(&self.guard)
    }

    /// Leaves the lock: the member, with what it has seen.
    pub fn leave(self) -> Member
        ensures member { (monitor : Monitored) → IsLookOf monitor self.entry → IsMemberOf monitor result }
        ensures pass { result.pass ≡ self.entry.pass }
        ensures own { result.own ≡ self.entry.own }
        ensures tally { result.tally ≡ self.entry.tally }
        ensures draws { draws_made result ≡ self.entry.guard.turn.place.draws }
    {
        let Look {
            guard,
            pass,
            own,
            seen,
            tally,
        } = self;
        Member {
            seat: Some(guard.leave()),
            pass,
            own,
            seen,
            tally,
        }
    }
}
