//! What has the lock alone.
ghost use Rattle.std.specs.Prelude.{◌≡◌, ◌≤◌};
ghost use Rattle.ticketlock.specs.Standing.{IsAt};

use crate::fact::Fact;
use crate::slots::{Hold, put_back};
use crate::table::Words;
use crate::tokens::{Seat, TurnWrite};

/// The right to the value, to read and to write. It must be spent, and stays in its thread.
pub struct WriteGuard<'a, T: Fact> {
    pub(crate) words: &'a Words,
    pub(crate) turn: TurnWrite,
    pub(crate) home: Hold<'a, T>,
    pub(crate) value: T,
    pub ghost writes: { home.right ≡ 2 },
    pub ghost own: { IsAt words.now turn.place },
}

impl<'a, T: Fact + Drop> WriteGuard<'a, T> {
    ghost use Rattle.std.specs.Prelude.{◌≡◌, [], ◌∷◌};
    ghost use Rattle.std.specs.Borrow.{sem};
    ghost use Rattle.ticketlock.specs.declared.view.Step.TheVariants.{WriterCloses, WriterLeaves};
    ghost use Rattle.ticketlock.specs.Rule.{gone_in, gone_out};
    ghost use Rattle.ticketlock.specs.Standing.{Becomes, sight_of, view_of};
    ghost use Rattle.ticketlock.specs.Traces.{HasTaken};
    ghost use Rattle.ticketlock.specs.Guards.{first_of_write};
    ghost use Rattle.ticketlock.specs.Lending.{LendsValue};

    /// The value. It meets the fact until it is changed.
    pub fn value(&self) -> &T
        ensures { result.now ≡ self.now.value }
    {
        &self.value
    }

    /// The value, to be changed. While the guard lasts it need not meet the fact.
    pub fn value_mut(&mut self) -> &mut T
        ensures* writes_back { sem 𝓛 (LendsValue T.row T.Fact self.entry result) }
        ensures value { result.now ≡ self.old.value }
    {
        &mut self.value
    }

    /// Puts the value back, which meets the fact, and leaves the lock.
    pub fn leave(self) -> Seat
        requires { T.fact (first_of_write self) self.value }
        ensures becomes { Becomes self.entry.turn.place result.place
            (gone_out (gone_in (view_of self.entry.turn.place))) }
        ensures run { HasTaken (WriterCloses ∷ WriterLeaves ∷ []) (sight_of self.entry.turn.place)
            (sight_of result.place) }
    {
        let WriteGuard {
            words,
            turn,
            home,
            value,
        } = self;
        let back = put_back(home, value);
        let TurnWrite {
            mut place,
            ticket: _,
            here: _,
        } = turn;
        words.close(&mut place, back);
        words.end(&mut place);
        Seat { place }
    }
}
