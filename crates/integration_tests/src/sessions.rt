//! Sessions: a sink that fails, a seat that is spent, a gate and a look that are held while another asks. Whoever owns
//! a monitor and its members leaves by few ways, as each way out drops them all.
ghost use Rattle.std.specs.Prelude.{◌≡◌, false};
ghost use Rattle.monitor.specs.Members.{IsMemberOf};

use crate::examples::{DOWN, FOUR_DEVICES, commit_now, open_for_two};
use crossbeam_utils::Backoff;
use monitor::{Look, Member, Monitor};
use session::{Buffer, Desk, Gate, Open, SessionError, Sink, WriteFailed};
use std::alloc::Global;
use std::sync::Wait;
use std::sync::atomic::{AtomicU64, Ordering};
use std::test::Fail;
use std::thread;
use std::thread::Threads;

/// How often the seats of the program may draw.
const MAX_DRAWS: u64 = 1 << 40;

/// A sink that takes at most 3 bytes a call, and fails once it has no calls left.
#[derive(Debug, Drop)]
struct Slow {
    bytes: Vec<u8>,
    calls: usize,
    failed: bool,
    /// Whether it was written to again once it had failed.
    again: bool,
    /// Whether a write counts as one that may wait.
    waits: bool,
}

/// Such a sink, with so many calls left.
fn slow_sink(alloc: Global, calls: usize, waits: bool) -> Slow
    ensures { result.failed ≡ false }
{
    Slow {
        bytes: Vec::new(alloc),
        calls,
        failed: false,
        again: false,
        waits,
    }
}

impl Sink for Slow {
    ghost use Rattle.std.specs.Prelude.{false};

    ghost written = { λ slow. slow.bytes.items };

    ghost has_failed = { λ slow. slow.failed };

    ghost waits = { λ slow. slow.waits };

    ghost holds_back = { λ _. false };

    ghost is_filled = { λ _. false };

    fn write(&mut self, bytes: &[u8]) -> Result<usize, WriteFailed> {
        self.again = self.failed;
        let taken = bytes.len().min(3);
        if self.calls == 0 || self.bytes.extend_from_slice(&bytes[..taken]).is_err() {
            self.failed = true;
            return Err(WriteFailed);
        }
        self.calls -= 1;
        Ok(taken)
    }

    fn failed(&self) -> bool {
        self.failed
    }

    fn may_wait(&self) -> bool {
        self.waits
    }

    fn flush(&mut self) -> Result<(), WriteFailed> {
        Ok(())
    }

    fn is_full(&self) -> bool {
        false
    }
}

/// A change and a question over four devices, to a sink that takes some calls: how the session ends, what is out, and
/// whether another member then sees the change.
fn run_cut_off<R: Wait + Threads + Sync>(
    rt: &R,
    alloc: Global,
    calls: usize,
) -> Option<(Result<(), SessionError>, Slow, bool)> {
    let (monitor, mut member, mut other) = open_for_two(rt, alloc, FOUR_DEVICES, 1024)?;
    let mut slow = slow_sink(alloc, calls, false);
    let script = b"change {\"base\":1,\"down\":[2]}\nup 1.0\n";
    let desk = Desk {
        alloc,
        rt,
        monitor: &monitor,
        gate: &Open,
    };
    let ended = desk.run(&mut member, &mut None, script, &mut slow);
    let stands = monitor.epoch(rt, &mut other) == Ok(2);
    Some((ended, slow, stands))
}

/// The first answer, of 13 bytes, takes 5 calls, and the second, of 17, takes 6. The change stands, whether it is told
/// or not.
#[test]
fn a_session_ends_at_each_failed_write(rt: HostRuntime) -> Result<(), Fail> {
    let answers = b"ok 2 evals 0\nup 2 1.0 [0,1] 0\n";
    for calls in 0..12usize {
        let out = if calls < 5 {
            3 * calls
        } else {
            13 + 3 * (calls - 5)
        };
        let wanted = if calls < 11 {
            Err(SessionError::Write)
        } else {
            Ok(())
        };
        match run_cut_off(&rt, rt.alloc(), calls) {
            Some((ended, slow, stands)) => {
                assert_eq!(rt; ended, wanted, "{calls}");
                assert_eq!(rt; slow.bytes.as_slice(), &answers[..out.min(30)], "{calls}");
                assert!(rt; stands && !slow.again, "{calls}");
            }
            None => assert!(rt; false, "{calls}"),
        }
    }
    Ok(())
}

/// What a session answers whose seat may draw twice, and how it ends.
fn run_spent_seat<R: Wait + Threads + Sync>(
    rt: &R,
    alloc: Global,
) -> Option<(Result<(), SessionError>, Buffer)> {
    let (monitor, mut member, _) = open_for_two(rt, alloc, FOUR_DEVICES, 2)?;
    let mut answers = Buffer::new(alloc);
    let script = b"epoch\nepoch\nepoch\nhello\nfup 1.0\n";
    let desk = Desk {
        alloc,
        rt,
        monitor: &monitor,
        gate: &Open,
    };
    let ended = desk.run(&mut member, &mut None, script, &mut answers);
    Some((ended, answers))
}

/// A line that is no command and a follower take no draw.
#[test]
fn a_third_draw_of_two_is_refused(rt: HostRuntime) -> Result<(), Fail> {
    let wanted = b"epoch 1\nepoch 1\nerr 31 SeatSpent\nerr 33 BadCommand\nfup 1 1.0 [2,0,1] 2\n";
    match run_spent_seat(&rt, rt.alloc()) {
        Some((ended, answers)) => {
            assert_eq!(rt; ended, Ok(()));
            assert_eq!(rt; answers.bytes(), wanted.as_slice());
        }
        None => assert!(rt; false),
    }
    Ok(())
}

/// How often a gate waits.
const MAX_WAITS: u32 = 1_000_000;

/// The gate of one of two sessions: it holds a line of the first until the second asks for its second line.
#[derive(Clone, Copy)]
struct Meeting<'a> {
    held: Option<u64>,
    asked: &'a AtomicU64,
}

impl<'a> Gate for Meeting<'a> {
    ghost use Rattle.std.specs.Prelude.{⊤};

    ghost lets = { λ _ _ _. ⊤ };

    fn pass(&self, line: u64) -> bool {
        let Some(held) = self.held else {
            self.asked.store(line, Ordering::SeqCst);
            return true;
        };
        if line != held {
            return true;
        }
        let backoff = Backoff::new();
        for _ in 0..MAX_WAITS {
            if self.asked.load(Ordering::SeqCst) >= 2 {
                return true;
            }
            backoff.snooze();
        }
        false
    }

    fn is_open(&self) -> bool {
        false
    }
}

/// How a session ends behind such a gate.
fn run_behind_gate<R: Wait + Threads + Sync>(
    rt: &R,
    alloc: Global,
    monitor: &Monitor,
    member: Member,
    gate: Meeting<'_>,
) -> Result<(), SessionError>
    requires { IsMemberOf monitor.now member }
{
    let mut member = member;
    let mut answers = Buffer::new(alloc);
    let script: &[u8] = if gate.held.is_some() {
        b"epoch\nepoch\n"
    } else {
        b"change {\"base\":1}\nepoch\n"
    };
    let desk = Desk {
        alloc,
        rt,
        monitor,
        gate: &gate,
    };
    desk.run(&mut member, &mut None, script, &mut answers)
}

/// Whether both of two sessions end well that run at once, where a line of the one is held until the other's change is
/// answered.
fn meet<R: Wait + Threads + Sync>(
    rt: &R,
    alloc: Global,
    monitor: &Monitor,
    two: (Member, Member),
    held: u64,
) -> bool
    requires { IsMemberOf monitor.now two.0 × IsMemberOf monitor.now two.1 }
{
    let (one, other) = two;
    let asked = &AtomicU64::new(0);
    let (first, second) = thread::join(
        rt,
        move ||
            requires { IsMemberOf monitor.now one }
        {
            let gate = Meeting {
                held: Some(held),
                asked,
            };
            run_behind_gate(rt, alloc, monitor, one, gate)
        },
        move ||
            requires { IsMemberOf monitor.now other }
        {
            let gate = Meeting { held: None, asked };
            run_behind_gate(rt, alloc, monitor, other, gate)
        },
    );
    first.is_ok() && second.is_ok()
}

/// Whether both of two such sessions end well at a new monitor.
fn meet_at_new_monitor<R: Wait + Threads + Sync>(rt: &R, alloc: Global, held: u64) -> Option<bool> {
    let (monitor, one, other) = open_for_two(rt, alloc, FOUR_DEVICES, 1024)?;
    Some(meet(rt, alloc, &monitor, (one, other), held))
}

/// One after the other, the first would end held.
#[test]
fn sessions_run_at_once(rt: HostRuntime) -> Result<(), Fail> {
    assert!(rt; meet_at_new_monitor(&rt, rt.alloc(), 1) == Some(true));
    Ok(())
}

/// Where the lock were held from a question to the gate of the next line, the other could not change the map.
#[test]
fn no_hold_lasts_over_a_gate(rt: HostRuntime) -> Result<(), Fail> {
    assert!(rt; meet_at_new_monitor(&rt, rt.alloc(), 2) == Some(true));
    Ok(())
}

/// Forty questions for the epoch.
const FORTY: &str = concat!(
    "epoch\nepoch\nepoch\nepoch\nepoch\nepoch\nepoch\nepoch\nepoch\nepoch\n",
    "epoch\nepoch\nepoch\nepoch\nepoch\nepoch\nepoch\nepoch\nepoch\nepoch\n",
    "epoch\nepoch\nepoch\nepoch\nepoch\nepoch\nepoch\nepoch\nepoch\nepoch\n",
    "epoch\nepoch\nepoch\nepoch\nepoch\nepoch\nepoch\nepoch\nepoch\nepoch\n",
);

/// A change, and forty questions.
const FORTY_BEHIND: &str = concat!(
    "change {\"base\":1}\n",
    "epoch\nepoch\nepoch\nepoch\nepoch\nepoch\nepoch\nepoch\nepoch\nepoch\n",
    "epoch\nepoch\nepoch\nepoch\nepoch\nepoch\nepoch\nepoch\nepoch\nepoch\n",
    "epoch\nepoch\nepoch\nepoch\nepoch\nepoch\nepoch\nepoch\nepoch\nepoch\n",
    "epoch\nepoch\nepoch\nepoch\nepoch\nepoch\nepoch\nepoch\nepoch\nepoch\n",
);

/// What a script answers by a seat that may draw so often.
fn answers_by_draws<R: Wait + Threads + Sync>(
    rt: &R,
    alloc: Global,
    draws: u64,
    script: &str,
) -> Option<Buffer> {
    let (monitor, mut member, _) = open_for_two(rt, alloc, FOUR_DEVICES, draws)?;
    let mut answers = Buffer::new(alloc);
    let desk = Desk {
        alloc,
        rt,
        monitor: &monitor,
        gate: &Open,
    };
    match desk.run(&mut member, &mut None, script.as_bytes(), &mut answers) {
        Ok(()) => Some(answers),
        Err(_) => None,
    }
}

/// The seat is spent at the line at which it is by a draw a line.
#[test]
fn a_seat_is_spent_at_its_line(rt: HostRuntime) -> Result<(), Fail> {
    for draws in 1..21usize {
        let mut wanted = String::new(rt.alloc());
        for line in 0..40usize {
            wanted.push_str(if line < draws {
                "epoch 1\n"
            } else {
                "err 31 SeatSpent\n"
            })?;
        }
        match answers_by_draws(&rt, rt.alloc(), draws as u64, FORTY) {
            Some(answers) => assert_eq!(rt; answers.bytes(), wanted.as_bytes(), "{draws}"),
            None => assert!(rt; false, "{draws}"),
        }
    }
    Ok(())
}

/// A seat is spent at its line also where its first draw is that of a change, which the member has then seen.
#[test]
fn a_seat_is_spent_at_its_line_after_a_change(rt: HostRuntime) -> Result<(), Fail> {
    for draws in 1..21usize {
        let mut wanted = String::new(rt.alloc());
        wanted.push_str("ok 2 evals 0\n")?;
        for line in 1..41usize {
            wanted.push_str(if line < draws {
                "epoch 2\n"
            } else {
                "err 31 SeatSpent\n"
            })?;
        }
        match answers_by_draws(&rt, rt.alloc(), draws as u64, FORTY_BEHIND) {
            Some(answers) => assert_eq!(rt; answers.bytes(), wanted.as_bytes(), "{draws}"),
            None => assert!(rt; false, "{draws}"),
        }
    }
    Ok(())
}

/// How 40 questions end to a sink that takes some calls, what is out, and whether another member then commits.
fn ask_cut_off<R: Wait + Threads + Sync>(
    rt: &R,
    alloc: Global,
    calls: usize,
) -> Option<(Result<(), SessionError>, Slow, bool)> {
    let (monitor, mut member, mut other) = open_for_two(rt, alloc, FOUR_DEVICES, MAX_DRAWS)?;
    let mut slow = slow_sink(alloc, calls, false);
    let desk = Desk {
        alloc,
        rt,
        monitor: &monitor,
        gate: &Open,
    };
    let ended = desk.run(&mut member, &mut None, FORTY.as_bytes(), &mut slow);
    let commits = commit_now(rt, alloc, &monitor, &mut other, DOWN).is_ok();
    Some((ended, slow, commits))
}

/// Each answer, of 8 bytes, takes 3 calls. Where the hold were kept, the commit would wait for good.
#[test]
fn a_run_of_questions_ends_at_each_failed_write(rt: HostRuntime) -> Result<(), Fail> {
    let mut wanted = String::new(rt.alloc());
    for _ in 0..40usize {
        wanted.push_str("epoch 1\n")?;
    }
    for calls in 0..121usize {
        let out = 8 * (calls / 3) + 3 * (calls % 3);
        let end = if calls < 120 {
            Err(SessionError::Write)
        } else {
            Ok(())
        };
        match ask_cut_off(&rt, rt.alloc(), calls) {
            Some((ended, slow, commits)) => {
                assert_eq!(rt; ended, end, "{calls}");
                assert_eq!(rt;
                    slow.bytes.as_slice(),
                    &wanted.as_bytes()[..out.min(wanted.len())],
                    "{calls}"
                );
                assert!(rt; commits && !slow.again, "{calls}");
            }
            None => assert!(rt; false, "{calls}"),
        }
    }
    Ok(())
}

/// A gate that lets every line through, and counts how often it is asked.
#[derive(Clone, Copy)]
struct Counted<'a> {
    asks: &'a AtomicU64,
}

impl<'a> Gate for Counted<'a> {
    ghost use Rattle.std.specs.Prelude.{◌≡◌, true};

    ghost lets = { λ _ _ passes. passes ≡ true };

    fn pass(&self, _line: u64) -> bool {
        let _ = self.asks.fetch_add(1, Ordering::SeqCst);
        true
    }

    fn is_open(&self) -> bool {
        true
    }
}

/// How often such a gate is asked over forty questions.
fn asks_for_forty<R: Wait + Threads + Sync>(rt: &R, alloc: Global) -> Option<u64> {
    let (monitor, mut member, _) = open_for_two(rt, alloc, FOUR_DEVICES, MAX_DRAWS)?;
    let asks = AtomicU64::new(0);
    let gate = Counted { asks: &asks };
    let mut answers = Buffer::new(alloc);
    let desk = Desk {
        alloc,
        rt,
        monitor: &monitor,
        gate: &gate,
    };
    match desk.run(&mut member, &mut None, FORTY.as_bytes(), &mut answers) {
        Ok(()) => Some(asks.load(Ordering::SeqCst)),
        Err(_) => None,
    }
}

/// A gate that were asked within a hold could keep the lock for as long as it likes.
#[test]
fn no_gate_is_asked_in_a_hold(rt: HostRuntime) -> Result<(), Fail> {
    assert!(rt; asks_for_forty(&rt, rt.alloc()) == Some(0));
    Ok(())
}

/// How often a session draws for three questions, to a sink whose writes may wait or do not.
fn draws_for_three<R: Wait + Threads + Sync>(rt: &R, alloc: Global, waits: bool) -> Option<u64> {
    let (monitor, mut member, _) = open_for_two(rt, alloc, FOUR_DEVICES, MAX_DRAWS)?;
    let mut slow = slow_sink(alloc, 9, waits);
    let desk = Desk {
        alloc,
        rt,
        monitor: &monitor,
        gate: &Open,
    };
    match desk.run(&mut member, &mut None, b"epoch\nepoch\nepoch\n", &mut slow) {
        Ok(()) => Some(MAX_DRAWS.saturating_sub(monitor.draws_left(&member))),
        Err(_) => None,
    }
}

/// One hold for all three would last over two writes.
#[test]
fn no_hold_lasts_over_a_write_that_waits(rt: HostRuntime) -> Result<(), Fail> {
    assert!(rt; draws_for_three(&rt, rt.alloc(), true) == Some(3));
    assert!(rt; draws_for_three(&rt, rt.alloc(), false) == Some(1));
    Ok(())
}

/// The epochs that two looks show which are held at the same time.
fn epochs_together<R: Wait>(
    rt: &R,
    monitor: &Monitor,
    first: &Look<'_>,
    other: Member,
) -> Option<(u64, u64)>
    requires { IsMemberOf monitor.now other }
{
    match monitor.look(rt, other) {
        Ok(second) => {
            let epochs = (first.state().map().epoch(), second.state().map().epoch());
            let _ = second.leave();
            Some(epochs)
        }
        Err(_) => None,
    }
}

/// The epochs that the looks of two members show, the one held within the other.
fn looks<R: Wait>(rt: &R, monitor: &Monitor, one: Member, other: Member) -> Option<(u64, u64)>
    requires one { IsMemberOf monitor.now one }
    requires other { IsMemberOf monitor.now other }
{
    match monitor.look(rt, one) {
        Ok(first) => {
            let epochs = epochs_together(rt, monitor, &first, other);
            let _ = first.leave();
            epochs
        }
        Err(_) => None,
    }
}

/// The epochs of the looks of two members, after a commit of the one.
fn epochs_after_commit<R: Wait + Threads + Sync>(rt: &R, alloc: Global) -> Option<(u64, u64)> {
    let (monitor, mut one, other) = open_for_two(rt, alloc, FOUR_DEVICES, 1024)?;
    let _ = commit_now(rt, alloc, &monitor, &mut one, DOWN);
    looks(rt, &monitor, one, other)
}

/// Where readers did not share, the second would wait for good.
#[test]
fn two_looks_are_held_at_once_after_a_commit(rt: HostRuntime) -> Result<(), Fail> {
    assert!(rt; epochs_after_commit(&rt, rt.alloc()) == Some((2, 2)));
    Ok(())
}
