//! The lock, and its seats.
ghost use Rattle.std.specs.Prelude.{◌≡◌, ◌<◌, ◌≤◌, ◌^◌, IfOk, IfErr, IfSome, All, vec_len};
ghost use Rattle.ticketlock.specs.Places.{opener, unseeing};
ghost use Rattle.ticketlock.specs.Standing.{IsAt, sight_of};
ghost use Rattle.ticketlock.specs.Traces.{EndsIn};
ghost use Rattle.ticketlock.specs.Callers.{IsNewOf, IsNewAt, IsSeatOf, first_of, limit_of};
ghost use Rattle.ticketlock.specs.Errors.{IsWithin, IsFault};

use crate::error::LockError;
use crate::fact::Fact;
use crate::limits::{MAX_DRAWS, MAX_SEATS};
use crate::slots::Slots;
use crate::table::{Place, Words};
use crate::tokens::Seat;
use crate::words::LastWords;
use std::alloc::{AllocError, Global};

/// What a lock ends with.
#[derive(Drop)]
pub struct Ended<T> {
    /// The value, as [`Lock::into_value`] has it.
    pub value: Option<T>,
    /// The words.
    pub words: LastWords,
}

/// A value behind a line of tickets.
#[derive(Drop)]
pub struct Lock<T: Fact> {
    pub(crate) words: Words,
    pub(crate) slots: Slots<T>,
}

// So many seats: the first, and the others cut off from it.
fn seats_of(
    alloc: Global,
    words: &Words,
    mut place: Place,
    count: u32,
) -> Result<Vec<Seat>, AllocError>
    requires count { 0 < count }
    requires own { IsAt words.now place × (sight_of place ≡ unseeing (opener count)) }
    ensures { IfOk result (λ v. (vec_len v ≡ count) × All (IsNewAt words.now) v.items) }
{
    let mut seats = Vec::new(alloc);
    for _i in 1..count {
        let cut = words.cut(&mut place);
        seats.push(Seat { place: cut })?;
    }
    seats.push(Seat { place })?;
    Ok(seats)
}

impl<T: Fact + Drop> Lock<T> {
    /// A lock of `value` with so many seats, 1 to 1,024, of which each may draw 2^40 times.
    ///
    /// # Errors
    ///
    /// `BadLimit` (12) exactly where the number of seats is another; else `Memory` (30) where there is no memory for
    /// it.
    pub fn new(alloc: Global, value: T, seats: u32) -> Result<(Lock<T>, Vec<Seat>), LockError>
        requires { T.fact value value }
        ensures seats { IfOk result (λ r. (vec_len r.1 ≡ seats) × All (IsNewOf r.0) r.1.items) }
        ensures value { IfOk result (λ r. (first_of r.0 ≡ value) × (limit_of r.0 ≡ 2 ^ 40)) }
        ensures within { IfOk result (λ _. IsWithin seats (2 ^ 40)) }
        ensures fault { IfErr result (IsFault seats (2 ^ 40)) }
    {
        Lock::with_limit(alloc, value, seats, MAX_DRAWS)
    }

    /// A lock of `value` with so many seats, 1 to 1,024, of which each may draw so many times, 1 to 2^40.
    ///
    /// # Errors
    ///
    /// `BadLimit` (12) exactly where one of the two numbers is another; else `Memory` (30) where there is no memory for
    /// it.
    pub fn with_limit(
        alloc: Global,
        value: T,
        seats: u32,
        draws: u64,
    ) -> Result<(Lock<T>, Vec<Seat>), LockError>
        requires { T.fact value value }
        ensures seats { IfOk result (λ r. (vec_len r.1 ≡ seats) × All (IsNewOf r.0) r.1.items) }
        ensures value { IfOk result (λ r. (first_of r.0 ≡ value) × (limit_of r.0 ≡ draws)) }
        ensures within { IfOk result (λ _. IsWithin seats draws) }
        ensures fault { IfErr result (IsFault seats draws) }
    {
        let fits = 0 < seats && seats <= MAX_SEATS && 0 < draws && draws <= MAX_DRAWS;
        if !fits {
            return Err(LockError::BadLimit);
        }
        let (words, place) = Words::new(alloc, seats, draws)?;
        let all = seats_of(alloc, &words, place, seats)?;
        let slots = Slots::new(value);
        slots.open();
        Ok((Lock { words, slots }, all))
    }

    /// The value, with which the lock ends. `None` only where a writer has lost what it took out: a guard cannot be
    /// dropped, and while one is there the lock does not end.
    pub fn into_value(self) -> Option<T>
        ensures { IfSome result (T.fact (first_of self)) }
    {
        let Lock { slots, .. } = self;
        slots.into_value()
    }

    /// The value and the three words, with which the lock ends at one of its seats. Some list of steps, with the seats
    /// that were cut off between them, has led to these words. It begins with what the seat has seen, and has of the
    /// seat the steps that it took and no others.
    pub fn end_at(self, seat: Seat) -> Ended<T>
        requires own { IsSeatOf self seat }
        ensures value { IfSome result.value (T.fact (first_of self)) }
        ensures words { EndsIn result.words.draw result.words.reader result.words.writer (sight_of seat.place) }
    {
        let Lock { words, slots } = self;
        let Seat { place } = seat;
        Ended {
            words: words.close_at(place),
            value: slots.into_value(),
        }
    }
}
