//! What no clause says: that the calls get through, in one thread and in several.
ghost use Rattle.std.specs.Prelude.{◌≡◌, ◌≤◌, ◌+◌};
ghost use Rattle.ticketlock.specs.Standing.{IsSame};
ghost use Rattle.ticketlock.specs.Callers.{IsTurnReadOf, IsTurnWriteOf, IsReadOf, IsWriteOf, first_of};
ghost use Rattle.ticketlock.specs.Guards.{first_of_write};

use crate::{Fact, Lock, ReadGuard, Seat, TurnRead, TurnWrite, WriteGuard};
use std::process::Abort;

mod steps;
mod threads;

/// How often a hold is tried before it is given up.
const MAX_TRIES: u32 = 1000;

/// A count that never falls below the first, with its double.
#[derive(Drop)]
struct Counter {
    count: u64,
    twice: u64,
}

impl Fact for Counter {
    ghost use Rattle.std.specs.Prelude.{◌≡◌, ◌≤◌, ◌+◌};

    ghost fact = { λ first now. (first.count ≤ now.count) × (now.twice ≡ now.count + now.count) };
}

fn zero() -> Counter
    ensures { (result.count ≡ 0) × (result.twice ≡ 0) }
{
    Counter { count: 0, twice: 0 }
}

// Adds one to the count, in two writes between which the fact fails, and leaves.
fn raise(guard: WriteGuard<'_, Counter>) -> Seat
    requires first { (first_of_write guard).count ≤ guard.value.count }
    requires twice { guard.value.twice ≡ guard.value.count + guard.value.count }
    ensures same { IsSame guard.entry.turn.place result.place }
    ensures draws { result.place.draws ≡ guard.entry.turn.place.draws }
{
    let mut guard = guard;
    let value = guard.value_mut();
    if value.count < 1_000_000 {
        value.count += 1;
        value.twice += 2;
    }
    guard.leave()
}

// Shares the lock, at the last of so many tries.
fn share<'a>(rt: &impl Abort, lock: &'a Lock<Counter>, turn: TurnRead) -> ReadGuard<'a, Counter>
    requires { IsTurnReadOf lock.now turn }
    ensures { IsReadOf lock.now result }
{
    let mut next = turn;
    for _ in 0..MAX_TRIES {
        match lock.try_hold(next) {
            Ok(guard) => return guard,
            Err(again) => next = again,
        }
    }
    panic!(rt; "no try to share won")
}

// Holds the lock alone, at the last of so many tries.
fn hold<'a>(rt: &impl Abort, lock: &'a Lock<Counter>, turn: TurnWrite) -> WriteGuard<'a, Counter>
    requires { IsTurnWriteOf lock.now turn }
    ensures own { IsWriteOf lock.now result }
    ensures first { (first_of lock.now).count ≤ result.value.count }
    ensures twice { result.value.twice ≡ result.value.count + result.value.count }
{
    let mut next = turn;
    for _ in 0..MAX_TRIES {
        match lock.try_hold(next) {
            Ok(guard) => return guard,
            Err(again) => next = again,
        }
    }
    panic!(rt; "no try to hold won")
}
