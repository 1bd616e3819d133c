//! What one member has seen, told to another.

ghost use Rattle.std.specs.Prelude.{◌≡◌, ◌≤◌, length};
ghost use Rattle.epochlog.specs.Epochs.{Begins};

use crate::member::Member;
use crate::monitor::Monitor;
use crate::turns::locked_of;
use epochlog::{Keeps, Pass};
use refusal::{Memory, Refusal};
use std::alloc::Global;
use std::sync::Wait;
use tip::Seen;

/// What a member had seen when it was asked, to be handed to another by any way between threads: the other then sees
/// that too ([`Monitor::hear`]).
#[derive(Drop)]
pub struct News {
    pub(crate) seen: Seen,
    pub(crate) pass: Pass,
}

/// A pass that has seen no less sees all that another has.
fn takes_in(pass: &mut Pass, told: &Pass)
    requires row { pass.old.row ≡ told.now.row }
    requires seen { length told.now.history ≤ length pass.old.history }
    ensures same { pass.new ≡ pass.old }
    ensures begins { Begins told.now.history pass.new.history }
{
    pass.join(told);
}

impl<K: Keeps + Drop> Monitor<K> {
    ghost use Rattle.std.specs.Prelude.{◌≡◌, IfOk, IfErr, OnOk};
    ghost use Rattle.refusal.specs.declared.refused.Refusal.TheVariants.{SeatSpent};
    ghost use Rattle.epochlog.specs.Epochs.{Begins};
    ghost use Rattle.monitor.specs.Histories.{GoesOn};
    ghost use Rattle.monitor.specs.Members.{IsMemberOf, TakesTurn, StaysAlone};
    ghost use Rattle.monitor.specs.News.{IsNewsOf};

    /// What a member has seen by now, to be told to another.
    ///
    /// # Errors
    ///
    /// `Memory` (30) where there is no memory for it.
    pub fn news(&self, alloc: Global, member: &Member) -> Result<News, Memory>
        requires { IsMemberOf self.now member.now }
        ensures { IfOk result (λ news. IsNewsOf self.now news × (news.pass.history ≡ member.now.pass.history)) }
    {
        let mut pass = self.pass(alloc)?;
        pass.join(&member.pass);
        let seen = member.seen.again();
        Ok(News { seen, pass })
    }

    /// A member hears the news of another, in a turn at the lock: its history, by which it is answered from then on,
    /// goes on from what the other had seen, so that nothing that the other was answered is new to it or undone. It
    /// takes no memory.
    ///
    /// # Errors
    ///
    /// `SeatSpent` (31) exactly where the member's seat has made its draws.
    pub fn hear<R: Wait>(&self, rt: &R, member: &mut Member, news: &News) -> Result<(), Refusal>
        requires member { IsMemberOf self.now member.old }
        requires news { IsNewsOf self.now news.now }
        ensures turn { TakesTurn self.now member.old member.new result }
        ensures goes_on { GoesOn self.now.first member.old.pass.history member.new.pass.history }
        ensures refused { IfErr result (λ e. e ≡ SeatSpent) }
        ensures hears { OnOk result (Begins news.now.pass.history member.new.pass.history) }
        ensures own { member.new.own ≡ member.old.own }
        ensures tally { member.new.tally ≡ member.old.tally }
        ensures alone { StaysAlone self.now member.old.pass member.new.pass }
    {
        let shared = self.share(rt, member)?;
        locked_of(&shared.guard).tip.bounds(&news.seen);
        takes_in(&mut member.pass, &news.pass);
        self.give_back(shared, member);
        Ok(())
    }
}
