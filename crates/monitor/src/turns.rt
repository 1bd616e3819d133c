//! The turns that a member takes at the lock of its monitor. In a turn it has seen just what the state has.

ghost use Rattle.std.specs.Prelude.{◌≡◌};
ghost use Rattle.ticketlock.specs.Guards.{first_of_read};
ghost use Rattle.osdmap.specs.Changes.{after};
ghost use Rattle.monitor.specs.Tallies.{names_of};
ghost use Rattle.monitor.specs.Members.{Counts, lent};

use crate::locked::{Locked, compare, see};
use crate::member::Member;
use crate::monitor::Monitor;
use crate::shared::Shared;
use epochlog::Keeps;
use refusal::Refusal;
use state::State;
use std::sync::Wait;
use ticketlock::{ReadGuard, WriteGuard};

/// What a guard lends.
pub(crate) fn locked_of<'g, K: Keeps + Drop>(guard: &'g ReadGuard<'_, Locked<K>>) -> &'g Locked<K>
    ensures lends { result.now.state.value ≡ lent guard.now }
    ensures first { result.now.state.value.first ≡ (first_of_read guard.now).state.value.first }
    ensures row { result.now.state.value.pass.row ≡ (first_of_read guard.now).state.value.pass.row }
    ensures counts { Counts result.now }
    ensures name { result.now.tip.name ≡ (first_of_read guard.now).tip.name }
    ensures tallies { names_of result.now.kept.items ≡ names_of (first_of_read guard.now).kept.items }
{
    guard.value()
}

/// The state that a guard lends.
pub(crate) fn state_of<'g, K: Keeps + Drop>(guard: &'g ReadGuard<'_, Locked<K>>) -> &'g State<K>
    ensures lends { result.now ≡ lent guard.now }
    ensures first { result.now.first ≡ (first_of_read guard.now).state.value.first }
    ensures row { result.now.pass.row ≡ (first_of_read guard.now).state.value.pass.row }
    ensures map { result.now.map ≡ after result.now.first result.now.pass.history }
{
    let state: &State<K> = &locked_of(guard).state;
    let _ = state.map();
    state
}

impl<K: Keeps + Drop> Monitor<K> {
    ghost use Rattle.std.specs.Prelude.{◌≡◌, ◌-◌, length, IfOk, IsSomeAnd};
    ghost use Rattle.osdmap.specs.Changes.{after, IsLawful};
    ghost use Rattle.monitor.specs.Members.{IsMemberOf, IsStateOf, IsCountedBy, Counts, Knows, Holds, TakesHold, draws_made, draws_of};
    ghost use Rattle.monitor.specs.Sharing.{IsSharing};

    /// Shares the lock, for several questions to one state, by one draw: [`Monitor::shown`] lends it, and
    /// [`Monitor::give_back`] ends the hold. Until then the member has no seat, and asks nothing else. It takes no
    /// memory.
    ///
    /// # Errors
    ///
    /// `SeatSpent` (31) exactly where the member's seat has made its draws. The member is then as it was.
    pub fn share<R: Wait>(&self, rt: &R, member: &mut Member) -> Result<Shared<'_, K>, Refusal>
        requires { IsMemberOf self.now member.old }
        ensures turn { TakesHold self.now member.old member.new (λ shared. shared.guard.turn.place.draws) result }
        ensures shares { IfOk result (λ shared. IsSharing self.now shared member.new) }
    {
        let Some(seat) = member.seat.take() else {
            unreachable!()
        };
        match self.lock.wait_read(rt, seat) {
            Ok(guard) => {
                let locked = locked_of(&guard);
                compare(locked, &member.seen, &member.tally);
                see(&mut member.pass, &locked.state);
                member.seen = locked.tip.seen();
                Ok(Shared { guard })
            }
            Err(seat) => {
                member.seat = Some(seat);
                Err(Refusal::SeatSpent)
            }
        }
    }

    /// Takes the lock alone, by one draw; or `SeatSpent` (31) exactly where the member's seat has made its draws.
    pub(crate) fn hold<R: Wait>(
        &self,
        rt: &R,
        member: &mut Member,
    ) -> Result<WriteGuard<'_, Locked<K>>, Refusal>
        requires { IsMemberOf self.now member.old }
        ensures row { member.new.pass.row ≡ self.now.row }
        ensures turn { TakesHold self.now member.old member.new (λ guard. guard.turn.place.draws) result }
        ensures holds { IfOk result (λ guard. Holds self.now guard
            × (guard.value.state.value.first ≡ self.now.first) × (guard.value.state.value.pass ≡ member.new.pass)
            × Counts guard.value × IsCountedBy self.now guard.value) }
        ensures knows { Knows self.now member.new.seen member.new.tally member.new.pass.history }
    {
        let Some(seat) = member.seat.take() else {
            unreachable!()
        };
        match self.lock.wait_write(rt, seat) {
            Ok(guard) => {
                let locked = guard.value();
                compare(locked, &member.seen, &member.tally);
                see(&mut member.pass, &locked.state);
                member.seen = locked.tip.seen();
                Ok(guard)
            }
            Err(seat) => {
                member.seat = Some(seat);
                Err(Refusal::SeatSpent)
            }
        }
    }

    /// The state that a member shares, the same at each call: it has seen just what the member has.
    pub fn shown<'g>(&self, shared: &'g Shared<'_, K>, member: &Member) -> &'g State<K>
        requires { IsSharing self.now shared.now member.now }
        ensures map { result.now.map ≡ after self.now.first member.now.pass.history }
    {
        state_of(&shared.guard)
    }

    /// Ends a shared hold: the member has its seat again, and has seen what it saw.
    pub fn give_back(&self, shared: Shared<'_, K>, member: &mut Member)
        requires { IsSharing self.now shared member.old }
        ensures member { IsMemberOf self.now member.new }
        ensures pass { member.new.pass ≡ member.old.pass }
        ensures own { member.new.own ≡ member.old.own }
        ensures tally { member.new.tally ≡ member.old.tally }
        ensures draws { draws_made member.new ≡ shared.entry.guard.turn.place.draws }
    {
        let Shared { guard } = shared;
        member.seat = Some(guard.leave());
    }

    /// How often the member's seat may still draw.
    pub fn draws_left(&self, member: &Member) -> u64
        requires { IsMemberOf self.now member.now }
        ensures { IsSomeAnd member.now.seat (λ seat. result ≡ draws_of self.now - seat.place.draws) }
    {
        match &member.seat {
            Some(seat) => self.lock.draws_left(seat),
            None => unreachable!(),
        }
    }

    /// A member that had the lock alone has its seat again.
    pub(crate) fn put_back(&self, guard: WriteGuard<'_, Locked<K>>, member: &mut Member)
        requires holds { Holds self.now guard }
        requires state { IsStateOf self.now guard.value.state.value }
        requires row { member.old.pass.row ≡ self.now.row }
        requires lawful { IsLawful self.now.first member.old.pass.history }
        requires room { length member.old.own.items ≡ length self.now.row.cells }
        requires counts { Counts guard.value × IsCountedBy self.now guard.value }
        requires knows { Knows self.now member.old.seen member.old.tally member.old.pass.history }
        ensures member { IsMemberOf self.now member.new }
        ensures pass { member.new.pass ≡ member.old.pass }
        ensures own { member.new.own ≡ member.old.own }
        ensures tally { member.new.tally ≡ member.old.tally }
        ensures draws { draws_made member.new ≡ guard.entry.turn.place.draws }
    {
        member.seat = Some(guard.leave());
    }
}
