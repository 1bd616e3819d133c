//! The way of a reader: to draw, to look and enter, and to hold.
ghost use Rattle.std.specs.Prelude.{◌≡◌, ◌≢◌, ◌<◌, [], ◌∷◌, IfOk, IfErr, MatchResult};
ghost use Rattle.ticketlock.specs.declared.view.Kind.TheVariants.{Read};
ghost use Rattle.ticketlock.specs.declared.view.Step.TheVariants.{Draws, ReaderLooks, ReaderEnters};
ghost use Rattle.ticketlock.specs.Rule.{drawn_for};
ghost use Rattle.ticketlock.specs.Standing.{Becomes, Notes, Enters, sight_of, view_of};
ghost use Rattle.ticketlock.specs.Traces.{HasTaken};
ghost use Rattle.ticketlock.specs.Callers.{IsSeatOf, IsQueuedReadOf, IsTurnReadOf, IsReadOf, limit_of};

use crate::fact::Fact;
use crate::lock::Lock;
use crate::read_guard::ReadGuard;
use crate::tokens::{QueuedRead, Seat, TurnRead};
use std::marker::PhantomData;

impl<T: Fact + Drop> Lock<T> {
    /// Draws a ticket to read.
    ///
    /// # Errors
    ///
    /// The seat as it was (31, `SeatSpent`), exactly where it has made its draws: no step was made.
    pub fn draw_read(&self, seat: Seat) -> Result<QueuedRead, Seat>
        requires { IsSeatOf self.now seat }
        ensures own { MatchResult result (IsQueuedReadOf self.now) (IsSeatOf self.now) }
        ensures ok { IfOk result (λ q. Becomes seat.place q.place (drawn_for Read q.ticket (view_of seat.place))) }
        ensures run { IfOk result (λ q. HasTaken (Draws Read ∷ []) (sight_of seat.place) (sight_of q.place)) }
        ensures room { IfOk result (λ _. seat.place.draws < limit_of self.now) }
        ensures err { IfErr result (λ s. (s ≡ seat) × (seat.place.draws ≡ limit_of self.now)) }
    {
        if self.words.is_spent(&seat.place) {
            return Err(seat);
        }
        let Seat { mut place } = seat;
        let ticket = self.words.draw_read(&mut place);
        Ok(QueuedRead {
            place,
            ticket,
            here: PhantomData,
        })
    }

    /// Looks once at the reader word, and enters where it is the ticket.
    ///
    /// # Errors
    ///
    /// The caller, which still waits with its ticket, only where the word was another. That word is noted.
    pub fn poll_read(&self, queued: QueuedRead) -> Result<TurnRead, QueuedRead>
        requires { IsQueuedReadOf self.now queued }
        ensures own { MatchResult result (IsTurnReadOf self.now) (IsQueuedReadOf self.now) }
        ensures ticket { MatchResult result (λ t. t.ticket ≡ queued.ticket) (λ q. q.ticket ≡ queued.ticket) }
        ensures ok { IfOk result (λ t. Enters queued.ticket queued.place t.place) }
        ensures err { IfErr result (λ q. Notes (view_of q.place).noted queued.place q.place) }
        ensures noted { IfErr result (λ q. (view_of q.place).noted ≢ q.ticket) }
        ensures run { MatchResult result
            (λ t. HasTaken (ReaderLooks ∷ ReaderEnters ∷ []) (sight_of queued.place) (sight_of t.place))
            (λ q. HasTaken (ReaderLooks ∷ []) (sight_of queued.place) (sight_of q.place)) }
    {
        let QueuedRead {
            mut place,
            ticket,
            here,
        } = queued;
        let found = self.words.look_read(&mut place);
        if found == ticket {
            self.words.enter(&mut place);
            Ok(TurnRead {
                place,
                ticket,
                here,
            })
        } else {
            Err(QueuedRead {
                place,
                ticket,
                here,
            })
        }
    }

    /// Shares the value, once the turn has come. At `Err` the step at its slot did not win.
    pub(crate) fn try_read(&self, turn: TurnRead) -> Result<ReadGuard<'_, T>, TurnRead>
        requires { IsTurnReadOf self.now turn }
        ensures ok { IfOk result (λ g. (g.turn ≡ turn) × IsReadOf self.now g) }
        ensures err { IfErr result (λ t. t ≡ turn) }
    {
        match self.slots.read() {
            Some(claim) => Ok(ReadGuard {
                words: &self.words,
                turn,
                claim,
            }),
            None => Err(turn),
        }
    }
}
