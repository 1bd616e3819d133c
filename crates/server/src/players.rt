//! The threads that play the sessions of a run: started, joined, and what they have seen made one history, which the
//! store has kept.
ghost use Rattle.std.specs.Prelude.{◌≡◌, ◌↔◌, ◌==◌, ◌<◌, ◌+◌, ℕ, [], true, All, IfOk, MatchOption, length, vec_len};
ghost use Rattle.std.specs.Bool.{OnTrue};
ghost use Rattle.epochlog.specs.Epochs.{Begins};
ghost use Rattle.monitor.specs.Members.{IsMemberOf, IsNewMemberOf, IsPassOf};
ghost use Rattle.server.specs.Pairs.{Pairs};
ghost use Rattle.server.specs.Serving.{journal_of, seen_left, KeepsAll, IsLeftBy, AreLeftBy};
ghost use Rattle.server.specs.Players.{IsStartedFor, KeepsPromise, IsLeftAt, IsCountedIn, FollowsIn, ReadsRow, made_by};

use crate::fault::Unplayed;
use crate::left::{Left, LeftOf};
use crate::part::Part;
use crate::playing::{Stage, play};
use crate::system::System;
use epochlog::{Keeps, Pass};
use monitor::{Ended, Member, Monitor};
use refusal::Memory;
use session::{Desk, Open};
use std::alloc::{AllocError, Global};
use std::sync::Wait;
use std::thread;
use std::thread::{PromisedHandle, Scope, Threads};

/// A thread that plays a session.
type Player<'a, K> = PromisedHandle<Result<Left, Memory>, LeftOf<'a, K>>;

/// Takes one of the members.
pub fn take_member<K: Keeps + Drop>(
    monitor: &Monitor<K>,
    members: &mut Vec<Member>,
) -> Option<Member>
    requires { All (IsNewMemberOf monitor.now) members.old.items }
    ensures rest { All (IsNewMemberOf monitor.now) members.new.items }
    ensures next { MatchOption result (vec_len members.old ≡ 0)
        (λ member. IsNewMemberOf monitor.now member × (vec_len members.new + 1 ≡ vec_len members.old)) }
{
    let _ = monitor;
    members.pop()
}

/// Starts the thread of a session, which opens files where its part names one. The one error is that memory is short,
/// or that a thread cannot be made.
fn start<'s, E, R: Threads + Wait + Eprint + Sync, K: Keeps + Drop + Send + Sync>(
    scope: &'s Scope<'s, E>,
    system: &System<'s, R>,
    alloc: Global,
    member: Member,
    promise: LeftOf<'s, K>,
) -> Result<Player<'s, K>, AllocError>
    requires { IsNewMemberOf promise.monitor.now member }
    ensures { IfOk result (λ player. player.promise ≡ promise.entry) }
{
    let LeftOf {
        monitor,
        number,
        part,
    } = promise;
    let rt = system.rt;
    let host = system.host;
    let player = scope.spawn_with(
        promise,
        move || -> Result<Left, Memory>
            requires { IsNewMemberOf monitor.now member }
            ensures { IfOk result (IsLeftBy monitor.entry.now number part.entry.now) }
        {
            let desk = Desk {
                alloc,
                rt,
                monitor,
                gate: &Open,
            };
            play(&Stage { desk, host }, member, number, part)
        },
    )?;
    Ok(player)
}

/// Starts the threads of the sessions of these parts, in their order. The one error is that memory is short, or that a
/// thread cannot be made.
fn start_all<'s, E, R: Threads + Wait + Eprint + Sync, K: Keeps + Drop + Send + Sync>(
    scope: &'s Scope<'s, E>,
    system: &System<'s, R>,
    monitor: &'s Monitor<K>,
    members: Vec<Member>,
    parts: &'s [Part],
) -> Result<Vec<Player<'s, K>>, AllocError>
    requires members { All (IsNewMemberOf monitor.now) members.items }
    requires count { vec_len members ≡ length parts.now }
    ensures { IfOk result (λ players. Pairs (IsStartedFor monitor.now) 1 players.items parts.now) }
{
    let alloc = *members.allocator();
    let mut players = Vec::with_capacity(alloc, parts.len())?;
    let mut free = members;
    for part in parts {
        let member = take_member(monitor, &mut free).unwrap();
        let number = players.len() + 1;
        let promise = LeftOf {
            monitor,
            number,
            part,
        };
        let player = start(scope, system, alloc, member, promise)?;
        players.push(player)?;
    }
    Ok(players)
}

/// Waits for the end of each thread: what is left of its session, in the threads' order.
fn join_all<'s, R: Threads, K: Keeps + Drop>(
    rt: &R,
    alloc: Global,
    players: Vec<Player<'s, K>>,
) -> Result<Vec<Left>, Memory>
    ensures { IfOk result (λ lefts. Pairs KeepsPromise 1 players.entry.items lefts.items) }
{
    let mut lefts = Vec::with_capacity(alloc, players.len())?;
    for player in players {
        let left = player.join(rt)?;
        lefts.push(left)?;
    }
    Ok(lefts)
}

/// Joins what the members have seen that are left to what their monitor has ended with, which is no less: each of their
/// histories begins it.
fn join_seen<K: Keeps + Drop>(all: &mut Pass, ended: &Ended<K>, lefts: &[Left])
    requires row { all.old.row ≡ ended.now.state.value.pass.row }
    requires history { all.old.history ≡ ended.now.state.value.pass.history }
    requires members { All (λ left. IsCountedIn ended.now left.member) lefts.now }
    ensures row { all.new.row ≡ all.old.row }
    ensures history { all.new.history ≡ all.old.history }
    ensures begin { All (λ left. Begins (seen_left left) all.new.history) lefts.now }
{
    for left in lefts {
        ended.bounds(&left.member);
        all.join(left.member.pass());
    }
}

/// Whether the follower of a session has read no more than a pass has seen; then what it has read begins that. It has,
/// where the monitor has ended and nobody else has sealed.
fn is_followed(all: &mut Pass, left: &Left) -> bool
    requires { ReadsRow all.old.row left.now }
    ensures same { OnTrue result (all.new ≡ all.old) }
    ensures row { all.new.row ≡ all.old.row }
    ensures begins { OnTrue result (FollowsIn all.new.history left.now) }
{
    match &left.follower {
        None => true,
        Some(follower) => {
            let pass = follower.pass();
            if all.epoch() < pass.epoch() {
                return false;
            }
            all.join(pass);
            true
        }
    }
}

/// Whether each of those that are left has read no more than a pass has seen.
fn are_followed(all: &mut Pass, lefts: &[Left]) -> bool
    requires { All (ReadsRow all.old.row) lefts.now }
    ensures same { OnTrue result (all.new ≡ all.old) }
    ensures row { all.new.row ≡ all.old.row }
    ensures begin { OnTrue result (All (FollowsIn all.new.history) lefts.now) }
{
    for left in lefts {
        if !is_followed(all, left) {
            return false;
        }
    }
    true
}

/// Whether exactly one member of those that are left has made the epoch at a place of the row.
fn is_made_once(lefts: &[Left], at: usize) -> bool
    ensures { result ≡ (made_by lefts.now at == 1) }
{
    lefts.iter().filter(|left| left.has_made(at)).count() == 1
}

/// Whether each epoch after a first one that a pass has seen is one that exactly one member of those that are left has
/// made.
fn are_made_once(all: &Pass, first: u64, lefts: &[Left]) -> bool
    requires { first ≡ all.now.row.first }
    ensures { (result ≡ true) ↔ ((at : ℕ) → at < length all.now.history → made_by lefts.now at ≡ 1) }
{
    let count = (all.epoch() - first) as usize;
    for at in 0..count {
        if !is_made_once(lefts, at) {
            return false;
        }
    }
    true
}

/// Ends a monitor, and joins what its state has seen to a pass that has seen nothing: what each member has seen that is
/// left begins that, and what each follower has read; and whatever a crash leaves of the store is all of it, and at
/// most one change more. `false` only where [`Monitor::end`] is `None`, or a follower has read what nobody has made.
fn join_state<K: Keeps + Drop>(monitor: Monitor<K>, all: &mut Pass, lefts: &[Left]) -> bool
    requires pass { IsPassOf monitor all.old }
    requires none { all.old.history ≡ [] }
    requires members { All (λ left. IsMemberOf monitor left.member) lefts.now }
    requires followers { All (ReadsRow monitor.row) lefts.now }
    ensures pass { OnTrue result (IsPassOf monitor all.new) }
    ensures begin { OnTrue result (All (λ left. Begins (seen_left left) all.new.history) lefts.now) }
    ensures follow { OnTrue result (All (FollowsIn all.new.history) lefts.now) }
    ensures kept { OnTrue result (KeepsAll K.may_leave (journal_of monitor.first all.new.history)) }
{
    let Some(ended) = monitor.end() else {
        return false;
    };
    let state = ended.state();
    all.join(state.pass());
    join_seen(all, &ended, lefts);
    let _ = state.store();
    let _ = state.map();
    are_followed(all, lefts)
}

/// What is left of the sessions of these parts, in their order, each played by a thread of its own, for which it takes
/// one of the members, who have seen nothing; and a pass that has seen nothing, made before them. All threads are
/// started before one is joined, and all have ended when it returns. The one error is that memory is short, or that a
/// thread cannot be made.
fn play_in_threads<R: Threads + Wait + Eprint + Sync, K: Keeps + Drop + Send + Sync>(
    system: &System<'_, R>,
    monitor: &Monitor<K>,
    members: Vec<Member>,
    parts: &[Part],
) -> Result<(Vec<Left>, Pass), Memory>
    requires members { All (IsNewMemberOf monitor.now) members.items }
    requires count { vec_len members ≡ length parts.now }
    ensures { IfOk result (λ r. IsLeftAt monitor.now parts.now r.0.items r.1) }
{
    let rt = system.rt;
    let host = system.host;
    let alloc = *members.allocator();
    thread::scope(
        thread::scope_env(),
        rt,
        move |scope| -> Result<(Vec<Left>, Pass), Memory>
            requires { All (IsNewMemberOf monitor.now) members.items × (vec_len members ≡ length parts.now) }
            ensures { IfOk result (λ r. IsLeftAt monitor.entry.now parts.entry.now r.0.items r.1) }
        {
            let all = monitor.pass(alloc)?;
            let players = start_all(scope, &System { rt, host }, monitor, members, parts)?;
            let lefts = join_all(rt, alloc, players)?;
            Ok((lefts, all))
        },
    )
}

/// What is left of the sessions of these parts, in their order, each played by a thread of its own at a monitor, which
/// ends with them. What their members have seen at the end is of one history, each of whose epochs exactly one of them
/// has made, and all of which the store has kept. An error is that memory is short, that a thread cannot be made, or
/// that this is not so.
pub fn play_all<R: Threads + Wait + Eprint + Sync, K: Keeps + Drop + Send + Sync>(
    system: &System<'_, R>,
    monitor: Monitor<K>,
    members: Vec<Member>,
    parts: &[Part],
) -> Result<Vec<Left>, Unplayed>
    requires members { All (IsNewMemberOf monitor) members.items }
    requires count { vec_len members ≡ length parts.now }
    ensures { IfOk result (λ lefts. AreLeftBy K.may_leave monitor parts.now lefts.items) }
{
    let (lefts, mut all) = play_in_threads(system, &monitor, members, parts)?;
    let first = monitor.first_epoch();
    if !join_state(monitor, &mut all, lefts.as_slice())
        || !are_made_once(&all, first, lefts.as_slice())
    {
        return Err(Unplayed::Lost);
    }
    Ok(lefts)
}
