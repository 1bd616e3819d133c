//! What no clause says of members: that questions go on beside a look, that a gate is asked once for a line, and that
//! there is memory for as many seats as there may be; which changes a new monitor reads; and that news are heard.
ghost use Rattle.monitor.specs.Members.{IsMemberOf};

use crate::examples::{DOWN, FOUR_DEVICES, commit_now, open_for_two};
use mapjson::read_map;
use mapparts::Profile;
use maptypes::Pg;
use monitor::{Limits, Member, Monitor};
use refusal::Refusal;
use session::{Buffer, Desk, Gate};
use std::alloc::Global;
use std::sync::Wait;
use std::sync::atomic::{AtomicU64, Ordering};
use std::test::Fail;
use std::thread::Threads;

/// How many of the five questions a member is answered.
fn count_answers<R: Wait>(rt: &R, monitor: &Monitor, member: Member) -> u32
    requires { IsMemberOf monitor.now member }
{
    let mut member = member;
    let pg = Pg { pool: 1, number: 0 };
    let up = monitor.up(rt, &mut member, pg).is_ok();
    let count = monitor.count(rt, &mut member, 0).is_ok();
    let groups = monitor.groups(rt, &mut member, 0).is_ok();
    let epoch = monitor.epoch(rt, &mut member).is_ok();
    let dump = monitor.dump(rt, &mut member).is_ok();
    u32::from(up) + u32::from(count) + u32::from(groups) + u32::from(epoch) + u32::from(dump)
}

/// How many of the five questions a member is answered while another holds a look.
fn count_beside_look<R: Wait>(rt: &R, monitor: &Monitor, one: Member, other: Member) -> Option<u32>
    requires one { IsMemberOf monitor.now one }
    requires other { IsMemberOf monitor.now other }
{
    match monitor.look(rt, one) {
        Ok(look) => {
            let answers = count_answers(rt, monitor, other);
            let _ = look.leave();
            Some(answers)
        }
        Err(_) => None,
    }
}

/// How many are answered beside a look at a new monitor.
fn count_at_new_monitor<R: Wait + Threads + Sync>(rt: &R, alloc: Global) -> Option<u32> {
    let (monitor, one, other) = open_for_two(rt, alloc, FOUR_DEVICES, 1024)?;
    count_beside_look(rt, &monitor, one, other)
}

/// A question that took its turn to write would wait for the look, and the test would not end.
#[test]
fn five_questions_are_answered_beside_a_look(rt: HostRuntime) -> Result<(), Fail> {
    assert!(rt; count_at_new_monitor(&rt, rt.alloc()) == Some(5));
    Ok(())
}

/// The epoch that a member has seen once it has heard what another saw, who has made a change.
fn epoch_heard<R: Wait + Threads + Sync>(rt: &R, alloc: Global) -> Option<u64> {
    let (monitor, mut one, mut other) = open_for_two(rt, alloc, FOUR_DEVICES, 1024)?;
    commit_now(rt, alloc, &monitor, &mut one, DOWN).ok()?;
    let news = monitor.news(alloc, &one).ok()?;
    monitor.hear(rt, &mut other, &news).ok()?;
    Some(other.pass().epoch())
}

#[test]
fn a_member_hears_what_another_has_seen(rt: HostRuntime) -> Result<(), Fail> {
    assert!(rt; epoch_heard(&rt, rt.alloc()) == Some(2));
    Ok(())
}

/// A gate that counts how often it is asked.
#[derive(Clone, Copy)]
struct Counting<'a> {
    asked: &'a AtomicU64,
}

impl<'a> Gate for Counting<'a> {
    ghost use Rattle.std.specs.Prelude.{⊤};

    ghost lets = { λ _ _ _. ⊤ };

    fn pass(&self, _line: u64) -> bool {
        self.asked.fetch_add(1, Ordering::SeqCst);
        true
    }

    fn is_open(&self) -> bool {
        false
    }
}

/// How often the gate of a session is asked.
fn count_asks<R: Wait + Threads + Sync>(rt: &R, alloc: Global, script: &[u8]) -> Option<u64> {
    let (monitor, mut member, _) = open_for_two(rt, alloc, FOUR_DEVICES, 1024)?;
    let count = AtomicU64::new(0);
    let gate = Counting { asked: &count };
    let mut answers = Buffer::new(alloc);
    let desk = Desk {
        alloc,
        rt,
        monitor: &monitor,
        gate: &gate,
    };
    match desk.run(&mut member, &mut None, script, &mut answers) {
        Ok(()) => Some(count.load(Ordering::SeqCst)),
        Err(_) => None,
    }
}

/// Six lines, one of them empty and one that is no command.
#[test]
fn a_gate_is_asked_once_for_a_line(rt: HostRuntime) -> Result<(), Fail> {
    let script = b"epoch\nup 1.0\n\nchange {\"base\":1}\nnone\nepoch";
    assert!(rt; count_asks(&rt, rt.alloc(), script) == Some(5));
    Ok(())
}

/// How many members a monitor with so many seats has.
fn member_count<R: Threads + Sync>(
    rt: &R,
    alloc: Global,
    seats: u32,
) -> Option<Result<usize, Refusal>> {
    let map = read_map(alloc, FOUR_DEVICES.as_bytes(), Profile::Plain).ok()?;
    match Monitor::open(rt, alloc, map, 16, seats) {
        Ok((_, members)) => Some(Ok(members.len())),
        Err(refusal) => Some(Err(refusal)),
    }
}

/// How many members a monitor with so many seats has, each with so many draws.
fn limited_member_count<R: Threads + Sync>(
    rt: &R,
    alloc: Global,
    seats: u32,
    draws: u64,
) -> Option<Result<usize, Refusal>> {
    let map = read_map(alloc, FOUR_DEVICES.as_bytes(), Profile::Plain).ok()?;
    let limits = Limits {
        journal: 16,
        seats,
        draws,
    };
    match Monitor::open_limited(rt, alloc, map, limits) {
        Ok((_, members)) => Some(Ok(members.len())),
        Err(refusal) => Some(Err(refusal)),
    }
}

/// 1,024 seats are the most, and 2^40 draws.
#[test]
fn a_monitor_has_up_to_1024_seats(rt: HostRuntime) -> Result<(), Fail> {
    let alloc = rt.alloc();
    assert!(rt; member_count(&rt, alloc, 1024) == Some(Ok(1024)));
    assert!(rt; member_count(&rt, alloc, 1025) == Some(Err(Refusal::BadLimit)));
    assert!(rt; limited_member_count(&rt, alloc, 1024, 1 << 40) == Some(Ok(1024)));
    assert!(rt; limited_member_count(&rt, alloc, 1025, 1) == Some(Err(Refusal::BadLimit)));
    assert!(rt; limited_member_count(&rt, alloc, 1, (1 << 40) + 1) == Some(Err(Refusal::BadLimit)));
    Ok(())
}

/// By which profile a new monitor reads the texts of changes.
fn profile_at_first<R: Threads + Sync>(rt: &R, alloc: Global) -> Option<Profile> {
    let (monitor, _, _) = open_for_two(rt, alloc, FOUR_DEVICES, 1024)?;
    Some(monitor.profile())
}

/// What a plain map may not have comes in by no change.
#[test]
fn a_new_monitor_reads_plain_changes(rt: HostRuntime) -> Result<(), Fail> {
    assert!(rt; profile_at_first(&rt, rt.alloc()) == Some(Profile::Plain));
    Ok(())
}
