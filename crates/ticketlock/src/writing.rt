//! The way of a writer: to draw, to look, and to hold.
ghost use Rattle.std.specs.Prelude.{◌≡◌, ◌≢◌, ◌<◌, [], ◌∷◌, IfOk, IfErr, MatchResult};
ghost use Rattle.ticketlock.specs.declared.view.Kind.TheVariants.{Write};
ghost use Rattle.ticketlock.specs.declared.view.Step.TheVariants.{Draws, WriterLooks};
ghost use Rattle.ticketlock.specs.Rule.{drawn_for};
ghost use Rattle.ticketlock.specs.Standing.{Becomes, Notes, sight_of, view_of};
ghost use Rattle.ticketlock.specs.Traces.{HasTaken};
ghost use Rattle.ticketlock.specs.Callers.{IsSeatOf, IsQueuedWriteOf, IsTurnWriteOf, IsWriteOf, first_of, limit_of};

use crate::fact::Fact;
use crate::lock::Lock;
use crate::tokens::{QueuedWrite, Seat, TurnWrite};
use crate::write_guard::WriteGuard;
use std::marker::PhantomData;

impl<T: Fact + Drop> Lock<T> {
    /// Draws a ticket to write.
    ///
    /// # Errors
    ///
    /// The seat as it was (31, `SeatSpent`), exactly where it has made its draws: no step was made.
    pub fn draw_write(&self, seat: Seat) -> Result<QueuedWrite, Seat>
        requires { IsSeatOf self.now seat }
        ensures own { MatchResult result (IsQueuedWriteOf self.now) (IsSeatOf self.now) }
        ensures ok { IfOk result (λ q. Becomes seat.place q.place (drawn_for Write q.ticket (view_of seat.place))) }
        ensures run { IfOk result (λ q. HasTaken (Draws Write ∷ []) (sight_of seat.place) (sight_of q.place)) }
        ensures room { IfOk result (λ _. seat.place.draws < limit_of self.now) }
        ensures err { IfErr result (λ s. (s ≡ seat) × (seat.place.draws ≡ limit_of self.now)) }
    {
        if self.words.is_spent(&seat.place) {
            return Err(seat);
        }
        let Seat { mut place } = seat;
        let ticket = self.words.draw_write(&mut place);
        Ok(QueuedWrite {
            place,
            ticket,
            here: PhantomData,
        })
    }

    /// Looks once at the writer word: the turn has come where it is the ticket.
    ///
    /// # Errors
    ///
    /// The caller, which still waits with its ticket, only where the word was another. That word is noted.
    pub fn poll_write(&self, queued: QueuedWrite) -> Result<TurnWrite, QueuedWrite>
        requires { IsQueuedWriteOf self.now queued }
        ensures own { MatchResult result (IsTurnWriteOf self.now) (IsQueuedWriteOf self.now) }
        ensures ticket { MatchResult result (λ t. t.ticket ≡ queued.ticket) (λ q. q.ticket ≡ queued.ticket) }
        ensures ok { IfOk result (λ t. Notes queued.ticket queued.place t.place) }
        ensures err { IfErr result (λ q. Notes (view_of q.place).noted queued.place q.place) }
        ensures noted { IfErr result (λ q. (view_of q.place).noted ≢ q.ticket) }
        ensures run { MatchResult result (λ t. HasTaken (WriterLooks ∷ []) (sight_of queued.place) (sight_of t.place))
            (λ q. HasTaken (WriterLooks ∷ []) (sight_of queued.place) (sight_of q.place)) }
    {
        let QueuedWrite {
            mut place,
            ticket,
            here,
        } = queued;
        let found = self.words.look_write(&mut place);
        if found == ticket {
            Ok(TurnWrite {
                place,
                ticket,
                here,
            })
        } else {
            Err(QueuedWrite {
                place,
                ticket,
                here,
            })
        }
    }

    /// Takes the value, once the turn has come. At `Err` a step at its slots did not win.
    pub(crate) fn try_write(&self, turn: TurnWrite) -> Result<WriteGuard<'_, T>, TurnWrite>
        requires { IsTurnWriteOf self.now turn }
        ensures ok { IfOk result (λ g. (g.turn ≡ turn) × IsWriteOf self.now g) }
        ensures fact { IfOk result (λ g. T.fact (first_of self.now) g.value) }
        ensures err { IfErr result (λ t. t ≡ turn) }
    {
        match self.slots.take() {
            Some((value, home)) => Ok(WriteGuard {
                words: &self.words,
                turn,
                home,
                value,
            }),
            None => Err(turn),
        }
    }
}
