//! The calls that wait: they repeat the steps of those that do not, and back off between two tries.
ghost use Rattle.std.specs.Prelude.{◌≡◌, ◌+◌, ◌-◌, IfOk, IfErr};
ghost use Rattle.ticketlock.specs.Standing.{IsSame, sight_of};
ghost use Rattle.ticketlock.specs.Traces.{HasTakenSome};
ghost use Rattle.ticketlock.specs.Callers.{IsSeatOf, IsQueuedReadOf, IsQueuedWriteOf, IsTurnReadOf, IsTurnWriteOf, IsReadOf, IsWriteOf, first_of, limit_of};

use crate::fact::Fact;
use crate::lock::Lock;
use crate::patience::Patience;
use crate::read_guard::ReadGuard;
use crate::tokens::{QueuedRead, QueuedWrite, Seat, TurnRead, TurnWrite};
use crate::write_guard::WriteGuard;
use std::sync::Wait;

impl<T: Fact + Drop> Lock<T> {
    /// How often a seat may still draw.
    pub fn draws_left(&self, seat: &Seat) -> u64
        requires { IsSeatOf self.now seat.now }
        ensures { result ≡ limit_of self.now - seat.now.place.draws }
    {
        self.words.draws_left(&seat.place)
    }

    /// Looks until it is a reader's turn.
    fn wait_turn_read<R: Wait>(&self, rt: &R, queued: QueuedRead) -> TurnRead
        requires { IsQueuedReadOf self.now queued }
        ensures own { IsTurnReadOf self.now result }
        ensures same { IsSame queued.place result.place × (result.place.draws ≡ queued.place.draws) }
        ensures run { HasTakenSome (sight_of queued.place) (sight_of result.place) }
    {
        let mut patience = Patience::new();
        let mut waiting = queued;
        for _ in rt.forever() {
            match self.poll_read(waiting) {
                Ok(turn) => return turn,
                Err(again) => waiting = again,
            }
            patience.wait();
        }
        unreachable!()
    }

    /// Tries until a reader's guard has the value.
    fn wait_hold_read<R: Wait>(&self, rt: &R, turn: TurnRead) -> ReadGuard<'_, T>
        requires { IsTurnReadOf self.now turn }
        ensures { (result.turn ≡ turn) × IsReadOf self.now result }
    {
        let mut patience = Patience::new();
        let mut waiting = turn;
        for _ in rt.forever() {
            match self.try_read(waiting) {
                Ok(guard) => return guard,
                Err(again) => waiting = again,
            }
            patience.wait();
        }
        unreachable!()
    }

    /// Looks until it is a writer's turn.
    fn wait_turn_write<R: Wait>(&self, rt: &R, queued: QueuedWrite) -> TurnWrite
        requires { IsQueuedWriteOf self.now queued }
        ensures own { IsTurnWriteOf self.now result }
        ensures same { IsSame queued.place result.place × (result.place.draws ≡ queued.place.draws) }
        ensures run { HasTakenSome (sight_of queued.place) (sight_of result.place) }
    {
        let mut patience = Patience::new();
        let mut waiting = queued;
        for _ in rt.forever() {
            match self.poll_write(waiting) {
                Ok(turn) => return turn,
                Err(again) => waiting = again,
            }
            patience.wait();
        }
        unreachable!()
    }

    /// Tries until a writer's guard has the value.
    fn wait_hold_write<R: Wait>(&self, rt: &R, turn: TurnWrite) -> WriteGuard<'_, T>
        requires { IsTurnWriteOf self.now turn }
        ensures same { (result.turn ≡ turn) × IsWriteOf self.now result }
        ensures fact { T.fact (first_of self.now) result.value }
    {
        let mut patience = Patience::new();
        let mut waiting = turn;
        for _ in rt.forever() {
            match self.try_write(waiting) {
                Ok(guard) => return guard,
                Err(again) => waiting = again,
            }
            patience.wait();
        }
        unreachable!()
    }

    /// Waits until the lock is shared.
    ///
    /// # Errors
    ///
    /// The seat as it was (31, `SeatSpent`), exactly where it has made its draws.
    pub fn wait_read<R: Wait>(&self, rt: &R, seat: Seat) -> Result<ReadGuard<'_, T>, Seat>
        requires { IsSeatOf self.now seat }
        ensures own { IfOk result (IsReadOf self.now) }
        ensures same { IfOk result (λ g. IsSame seat.place g.turn.place × (g.turn.place.draws ≡ seat.place.draws + 1)) }
        ensures run { IfOk result (λ g. HasTakenSome (sight_of seat.place) (sight_of g.turn.place)) }
        ensures err { IfErr result (λ s. (s ≡ seat) × (seat.place.draws ≡ limit_of self.now)) }
    {
        let queued = self.draw_read(seat)?;
        let turn = self.wait_turn_read(rt, queued);
        Ok(self.wait_hold_read(rt, turn))
    }

    /// Waits until the lock is held alone.
    ///
    /// # Errors
    ///
    /// The seat as it was (31, `SeatSpent`), exactly where it has made its draws.
    pub fn wait_write<R: Wait>(&self, rt: &R, seat: Seat) -> Result<WriteGuard<'_, T>, Seat>
        requires { IsSeatOf self.now seat }
        ensures own { IfOk result (IsWriteOf self.now) }
        ensures same { IfOk result (λ g. IsSame seat.place g.turn.place × (g.turn.place.draws ≡ seat.place.draws + 1)) }
        ensures run { IfOk result (λ g. HasTakenSome (sight_of seat.place) (sight_of g.turn.place)) }
        ensures fact { IfOk result (λ g. T.fact (first_of self.now) g.value) }
        ensures err { IfErr result (λ s. (s ≡ seat) × (seat.place.draws ≡ limit_of self.now)) }
    {
        let queued = self.draw_write(seat)?;
        let turn = self.wait_turn_write(rt, queued);
        Ok(self.wait_hold_write(rt, turn))
    }
}
