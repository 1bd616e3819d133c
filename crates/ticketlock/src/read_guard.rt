//! What shares the lock.
ghost use Rattle.std.specs.Prelude.{◌≡◌, ◌≤◌, IsSome, IsSomeAnd};
ghost use Rattle.ticketlock.specs.Standing.{IsAt};

use crate::fact::Fact;
use crate::slots::{Hold, read_no_more};
use crate::table::Words;
use crate::tokens::{Seat, TurnRead};

/// The right to read the value. It must be spent, and stays in its thread.
pub struct ReadGuard<'a, T: Fact> {
    pub(crate) words: &'a Words,
    pub(crate) turn: TurnRead,
    pub(crate) claim: Hold<'a, T>,
    pub ghost reads: { claim.right ≡ 1 },
    pub ghost filled: { ∥ IsSomeAnd claim.value (λ slot. IsSome slot) ∥₁ },
    pub ghost own: { IsAt words.now turn.place },
}

impl<'a, T: Fact + Drop> ReadGuard<'a, T> {
    ghost use Rattle.std.specs.Prelude.{◌≡◌, [], ◌∷◌};
    ghost use Rattle.ticketlock.specs.declared.view.Step.TheVariants.{ReaderLeaves};
    ghost use Rattle.ticketlock.specs.Rule.{gone_out};
    ghost use Rattle.ticketlock.specs.Standing.{Becomes, sight_of, view_of};
    ghost use Rattle.ticketlock.specs.Traces.{HasTaken};
    ghost use Rattle.ticketlock.specs.Guards.{Shows, first_of_read};

    /// The value, the same at each call while the guard lasts. It meets the fact.
    pub fn value(&self) -> &T
        ensures fact { T.fact (first_of_read self.now) result.now }
        ensures same { Shows self.now result.now }
    {
        match self.claim.get() {
            Some(kept) => &kept.value,
            None => unreachable!(),
        }
    }

    /// Leaves the lock.
    pub fn leave(self) -> Seat
        ensures becomes { Becomes self.entry.turn.place result.place (gone_out (view_of self.entry.turn.place)) }
        ensures run { HasTaken (ReaderLeaves ∷ []) (sight_of self.entry.turn.place) (sight_of result.place) }
    {
        let ReadGuard { words, turn, claim } = self;
        let back = read_no_more(claim);
        let TurnRead {
            mut place,
            ticket: _,
            here: _,
        } = turn;
        words.leave(&mut place, back);
        Seat { place }
    }
}
