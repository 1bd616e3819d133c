//! Seats in several threads.
ghost use Rattle.std.specs.Prelude.{◌≡◌, All, IfSome};
ghost use Rattle.ticketlock.specs.Callers.{IsSeatOf, IsNewOf};

use super::{Counter, raise, zero};
use crate::{Lock, Seat};
use crossbeam_utils::Backoff;
use std::alloc::Global;
use std::sync::Wait;
use std::sync::atomic::{AtomicU64, Ordering};
use std::test::Fail;
use std::thread;
use std::thread::Threads;

/// How many holds each thread makes.
const HOLDS: u32 = 10_000;
/// How many turns a reader waits for the other.
const MAX_TURNS: u32 = 1_000_000;

// So many holds to write.
fn raised<R: Wait>(rt: &R, lock: &Lock<Counter>, seat: Seat) -> bool
    requires { IsSeatOf lock.now seat }
{
    let mut free = seat;
    for _ in 0..HOLDS {
        match lock.wait_write(rt, free) {
            Ok(guard) => free = raise(guard),
            Err(_) => return false,
        }
    }
    true
}

// So many holds to read, each of a value that meets the fact.
fn read<R: Wait>(rt: &R, lock: &Lock<Counter>, seat: Seat) -> bool
    requires { IsSeatOf lock.now seat }
{
    let mut free = seat;
    let mut met = true;
    for _ in 0..HOLDS {
        match lock.wait_read(rt, free) {
            Ok(guard) => {
                let value = guard.value();
                met = met && value.twice == value.count + value.count;
                free = guard.leave();
            }
            Err(_) => return false,
        }
    }
    met
}

// What a thread does: holds to write, or to read.
fn work<R: Wait>(rt: &R, lock: &Lock<Counter>, seat: Seat, writes: bool) -> bool
    requires { IsSeatOf lock.now seat }
{
    if writes {
        raised(rt, lock, seat)
    } else {
        read(rt, lock, seat)
    }
}

// Two seats of one lock.
type Pair = (Seat, Seat);

// Two of the seats.
fn next_pair(lock: &Lock<Counter>, seats: &mut Vec<Seat>) -> Option<Pair>
    requires { All (IsNewOf lock.now) seats.old.items }
    ensures rest { All (IsNewOf lock.now) seats.new.items }
    ensures pair { IfSome result (λ pair. IsSeatOf lock.now pair.0 × IsSeatOf lock.now pair.1) }
{
    let _ = lock;
    let one = seats.pop()?;
    let other = seats.pop()?;
    Some((one, other))
}

// Two threads, of which the first writes, and the second writes or reads.
fn work_in_two<R: Wait + Threads + Sync>(
    rt: &R,
    lock: &Lock<Counter>,
    pair: Pair,
    writes: bool,
) -> bool
    requires { IsSeatOf lock.now pair.0 × IsSeatOf lock.now pair.1 }
{
    let (one, other) = pair;
    let (first, second) = thread::join(
        rt,
        move ||
            requires { IsSeatOf lock.now one }
        { work(rt, lock, one, true) },
        move ||
            requires { IsSeatOf lock.now other }
        { work(rt, lock, other, writes) },
    );
    first && second
}

// Four threads, of which two write, and two write or read.
fn work_in_four<R: Wait + Threads + Sync>(
    rt: &R,
    lock: &Lock<Counter>,
    one: Pair,
    other: Pair,
    writes: bool,
) -> bool
    requires one { IsSeatOf lock.now one.0 × IsSeatOf lock.now one.1 }
    requires other { IsSeatOf lock.now other.0 × IsSeatOf lock.now other.1 }
{
    let (first, second) = thread::join(
        rt,
        move ||
            requires { IsSeatOf lock.now one.0 × IsSeatOf lock.now one.1 }
        { work_in_two(rt, lock, one, writes) },
        move ||
            requires { IsSeatOf lock.now other.0 × IsSeatOf lock.now other.1 }
        { work_in_two(rt, lock, other, writes) },
    );
    first && second
}

// What four threads counted, if all that they read met the fact.
fn counted<R: Wait + Threads + Sync>(rt: &R, alloc: Global, writes: bool) -> Option<u64> {
    let (lock, mut seats) = Lock::new(alloc, zero(), 6).ok()?;
    let one = next_pair(&lock, &mut seats)?;
    let other = next_pair(&lock, &mut seats)?;
    let (last, _) = next_pair(&lock, &mut seats)?;
    let met = work_in_four(rt, &lock, one, other, writes);
    let guard = lock.wait_read(rt, last).ok()?;
    let count = guard.value().count;
    let _seat = guard.leave();
    if met { Some(count) } else { None }
}

#[test]
fn four_writers_lose_nothing(rt: HostRuntime) -> Result<(), Fail> {
    assert!(rt; counted(&rt, rt.alloc(), true) == Some(40_000));
    Ok(())
}

#[test]
fn readers_beside_writers_meet_the_fact(rt: HostRuntime) -> Result<(), Fail> {
    assert!(rt; counted(&rt, rt.alloc(), false) == Some(20_000));
    Ok(())
}

// Whether another reader holds while this one does.
fn meets<R: Wait>(rt: &R, lock: &Lock<Counter>, seat: Seat, readers: &AtomicU64) -> bool
    requires { IsSeatOf lock.now seat }
{
    let Ok(guard) = lock.wait_read(rt, seat) else {
        return false;
    };
    readers.fetch_add(1, Ordering::SeqCst);
    let backoff = Backoff::new();
    let mut met = false;
    for _ in 0..MAX_TURNS {
        met = readers.load(Ordering::SeqCst) == 2;
        if met {
            break;
        }
        backoff.snooze();
    }
    let _seat = guard.leave();
    met
}

#[test]
fn two_readers_hold_at_once(rt: HostRuntime) -> Result<(), Fail> {
    let (lock, mut seats) = Lock::new(rt.alloc(), zero(), 2).ok().expect(&rt, "memory");
    let one = seats.pop().expect(&rt, "a seat");
    let other = seats.pop().expect(&rt, "a seat");
    let readers = AtomicU64::new(0);
    let (shared, count) = (&lock, &readers);
    let (first, second) = thread::join(
        &rt,
        move ||
            requires { IsSeatOf shared.now one }
        { meets(&rt, shared, one, count) },
        move ||
            requires { IsSeatOf shared.now other }
        { meets(&rt, shared, other, count) },
    );
    assert!(rt; first && second);
    Ok(())
}
