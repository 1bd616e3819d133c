//! Seats in one thread, step by step.
ghost use Rattle.std.specs.Prelude.{◌≡◌};
ghost use Rattle.ticketlock.specs.Callers.{IsSeatOf, IsQueuedReadOf, IsQueuedWriteOf, IsTurnReadOf, IsTurnWriteOf};

use super::{Counter, hold, raise, share, zero};
use crate::limits::MAX_DRAWS;
use crate::{Lock, QueuedRead, QueuedWrite, Seat, TurnRead, TurnWrite};
use std::alloc::Global;
use std::process::Abort;
use std::test::Fail;

// Draws that ticket to read.
fn drawn_read(rt: &impl Abort, lock: &Lock<Counter>, seat: Seat, ticket: u64) -> QueuedRead
    requires { IsSeatOf lock.now seat }
    ensures { IsQueuedReadOf lock.now result }
{
    match lock.draw_read(seat) {
        Ok(queued) if queued.ticket == ticket => queued,
        _ => panic!(rt; "not the ticket {ticket}"),
    }
}

// Draws that ticket to write.
fn drawn_write(rt: &impl Abort, lock: &Lock<Counter>, seat: Seat, ticket: u64) -> QueuedWrite
    requires { IsSeatOf lock.now seat }
    ensures { IsQueuedWriteOf lock.now result }
{
    match lock.draw_write(seat) {
        Ok(queued) if queued.ticket == ticket => queued,
        _ => panic!(rt; "not the ticket {ticket}"),
    }
}

// It is the turn of the reader.
fn entered(rt: &impl Abort, lock: &Lock<Counter>, queued: QueuedRead) -> TurnRead
    requires { IsQueuedReadOf lock.now queued }
    ensures { IsTurnReadOf lock.now result }
{
    match lock.poll_read(queued) {
        Ok(turn) => turn,
        Err(_) => panic!(rt; "the reader waits"),
    }
}

// It is not the turn of the reader.
fn waiting(rt: &impl Abort, lock: &Lock<Counter>, queued: QueuedRead) -> QueuedRead
    requires { IsQueuedReadOf lock.now queued }
    ensures { IsQueuedReadOf lock.now result }
{
    match lock.poll_read(queued) {
        Ok(_) => panic!(rt; "the reader enters"),
        Err(queued) => queued,
    }
}

// It is not the turn of the writer.
fn waiting_to_write(rt: &impl Abort, lock: &Lock<Counter>, queued: QueuedWrite) -> QueuedWrite
    requires { IsQueuedWriteOf lock.now queued }
    ensures { IsQueuedWriteOf lock.now result }
{
    match lock.poll_write(queued) {
        Ok(_) => panic!(rt; "the writer enters"),
        Err(queued) => queued,
    }
}

// It is the turn of the writer.
fn entered_to_write(rt: &impl Abort, lock: &Lock<Counter>, queued: QueuedWrite) -> TurnWrite
    requires { IsQueuedWriteOf lock.now queued }
    ensures { IsTurnWriteOf lock.now result }
{
    match lock.poll_write(queued) {
        Ok(turn) => turn,
        Err(_) => panic!(rt; "the writer waits"),
    }
}

#[test]
fn readers_share_and_the_writer_waits(rt: HostRuntime) -> Result<(), Fail> {
    let (lock, mut seats) = Lock::new(rt.alloc(), zero(), 3).ok().expect(&rt, "memory");
    let a = seats.pop().expect(&rt, "a seat");
    let b = seats.pop().expect(&rt, "a seat");
    let c = seats.pop().expect(&rt, "a seat");
    let a = drawn_read(&rt, &lock, a, 0);
    let b = drawn_read(&rt, &lock, b, 1);
    let c = drawn_write(&rt, &lock, c, 2);
    let b = waiting(&rt, &lock, b);
    let a = entered(&rt, &lock, a);
    let b = entered(&rt, &lock, b);
    let a = share(&rt, &lock, a);
    let b = share(&rt, &lock, b);
    let both = a.value().count == 0 && b.value().count == 0;
    let c = waiting_to_write(&rt, &lock, c);
    let a = a.leave();
    let c = waiting_to_write(&rt, &lock, c);
    let _b = b.leave();
    let a = drawn_read(&rt, &lock, a, 3);
    let c = entered_to_write(&rt, &lock, c);
    let c = hold(&rt, &lock, c);
    let a = waiting(&rt, &lock, a);
    let _c = raise(c);
    let a = entered(&rt, &lock, a);
    let a = share(&rt, &lock, a);
    let last = a.value().count;
    let _a = a.leave();
    assert!(rt; both && last == 1);
    Ok(())
}

// One hold, to write at an even ticket and else to read.
fn held_once(rt: &impl Abort, lock: &Lock<Counter>, seat: Seat, ticket: u64) -> Seat
    requires { IsSeatOf lock.now seat }
    ensures { IsSeatOf lock.now result }
{
    if ticket % 2 == 0 {
        let queued = drawn_write(rt, lock, seat, ticket);
        let turn = entered_to_write(rt, lock, queued);
        raise(hold(rt, lock, turn))
    } else {
        let queued = drawn_read(rt, lock, seat, ticket);
        let turn = entered(rt, lock, queued);
        share(rt, lock, turn).leave()
    }
}

// The draws of a seat are spent, and drawing again leaves the words as they were: the next seat draws the next ticket.
fn spent_after(rt: &impl Abort, lock: &Lock<Counter>, seat: Seat, next: Seat, draws: u64)
    requires { IsSeatOf lock.now seat × IsSeatOf lock.now next }
{
    let mut seat = seat;
    for ticket in 0..draws {
        seat = held_once(rt, lock, seat, ticket);
    }
    let seat = match lock.draw_read(seat) {
        Ok(_) => panic!(rt; "a draw too many to read"),
        Err(seat) => seat,
    };
    let _spent = match lock.draw_write(seat) {
        Ok(_) => panic!(rt; "a draw too many to write"),
        Err(seat) => seat,
    };
    let _ = held_once(rt, lock, next, draws);
}

#[test]
fn a_limit_of_draws_is_kept(rt: HostRuntime) -> Result<(), Fail> {
    for draws in [1, 2, 7] {
        let (lock, mut seats) = Lock::with_limit(rt.alloc(), zero(), 2, draws)
            .ok()
            .expect(&rt, "memory");
        let one = seats.pop().expect(&rt, "a seat");
        let next = seats.pop().expect(&rt, "a seat");
        spent_after(&rt, &lock, one, next, draws);
    }
    Ok(())
}

// The number of the error, or 0 where there is a lock of so many seats.
fn number(alloc: Global, seats: u32, draws: u64) -> u8 {
    match Lock::with_limit(alloc, zero(), seats, draws) {
        Ok((_lock, all)) => u8::from(all.len() != seats as usize),
        Err(error) => error.number(),
    }
}

#[test]
fn limits_are_kept(rt: HostRuntime) -> Result<(), Fail> {
    let cases = [
        (0, 1, 12),
        (1025, 1, 12),
        (1, 0, 12),
        (1, MAX_DRAWS + 1, 12),
        (1, 1, 0),
        (1024, MAX_DRAWS, 0),
    ];
    for (seats, draws, wanted) in cases {
        assert!(rt; number(rt.alloc(), seats, draws) == wanted);
    }
    Ok(())
}
