//! The monitor as a library: a member asks for an up set, commits a change and balances a pool, and a follower reads
//! all of it in a second thread, without the lock.
#![tactic(auto)]

ghost use Rattle.std.specs.Prelude.{◌≡◌, List, IfOk};
ghost use Rattle.maptypes.specs.Incrementals.{Step};
ghost use Rattle.osdmap.specs.Changes.{IsLawful, epoch_after};
ghost use Rattle.monitor.specs.Histories.{GoesOn};
ghost use Rattle.monitor.specs.Members.{IsMemberOf};

use mapjson::{read_change, read_map};
use monitor::{Balance, Commit, Follower, Member, Monitor, Request};
use osdmap::{Pg, Profile};
use refusal::{Memory, Refusal};
use std::alloc::Global;
use std::sync::Wait;
use std::thread::Threads;
use std::{io, thread};

/// Four OSDs of one weight, and a pool of eight groups of two.
const MAP: &str = concat!(
    r#"{"buckets":[{"id":-1,"items":[[0,65536],[1,65536],[2,65536],[3,65536]],"kind":"uniform","type":10}],"#,
    r#""epoch":1,"max_osd":4,"osds":[{"exists":true,"id":0,"up":true,"weight":65536},"#,
    r#"{"exists":true,"id":1,"up":true,"weight":65536},{"exists":true,"id":2,"up":true,"weight":65536},"#,
    r#"{"exists":true,"id":3,"up":true,"weight":65536}],"pg_upmap":[],"pg_upmap_items":[],"#,
    r#""pools":[{"id":1,"kind":"replicated","pg_num":8,"pgp_num":8,"rule":0,"size":2}],"#,
    r#""rules":[{"id":0,"kind":"replicated","steps":[["take",-1],["choose_firstn",0,0],["emit"]]}],"version":1}"#,
);

/// An OSD gets half of its share, at epoch 1.
const CHANGE: &str = r#"{"base":1,"weight":[[3,32768]]}"#;

/// Asks where a group is, commits the change, and balances the pool by at most 10 moves: the epoch then.
fn manage<R: Wait + Threads + Print + Sync>(
    rt: &R,
    alloc: Global,
    monitor: &Monitor,
    member: &mut Member,
) -> Result<u64, Refusal>
    requires { IsMemberOf monitor.now member.old }
    ensures member { IsMemberOf monitor.now member.new }
    ensures goes_on { GoesOn monitor.now.first member.old.pass.history member.new.pass.history }
{
    let (epoch, set) = monitor.up(rt, member, Pg { pool: 1, number: 0 })?;
    let _ = println!(rt; "epoch {epoch}: group 1.0 is at {set}");
    let (base, change) = read_change(alloc, CHANGE.as_bytes(), Profile::Plain)?;
    let Commit { epoch, evals } = monitor.commit(rt, member, base, change)?;
    let _ = println!(rt; "epoch {epoch}: {evals} groups were evaluated");
    let request = Request {
        pool: 1,
        limit: 10,
        carried: &[],
        apart: 256,
    };
    let Balance { epoch, moves } = monitor.balance(rt, member, request)?;
    let _ = println!(rt; "epoch {epoch}: {moves} groups were moved");
    Ok(epoch)
}

/// The epoch that a follower reaches by now, after a history that is lawful from the first map. It waits for nobody.
fn follow(alloc: Global, monitor: &Monitor) -> Result<u64, Memory>
    ensures { IfOk result (λ epoch. (history : List Step)
        × IsLawful monitor.now.first history × (epoch ≡ epoch_after monitor.now.first history)) }
{
    let mut follower = Follower::new(alloc, monitor)?;
    follower.catch_up(alloc, monitor)?;
    Ok(follower.epoch())
}

/// The epoch that a follower reaches by now in a thread of its own.
fn follow_beside<R: Wait + Threads + Sync>(
    rt: &R,
    alloc: Global,
    monitor: &Monitor,
) -> Result<u64, Memory> {
    thread::scope(
        thread::scope_env(),
        rt,
        |scope| match scope.spawn(move || follow(alloc, monitor)) {
            Ok(thread) => thread.join(rt),
            Err(_) => Err(Memory),
        },
    )
}

/// A monitor of the map, with one member, and what comes of it.
fn run<R: Wait + Threads + Print + AllocGlobal + Sync>(rt: &R) -> Result<(), Refusal> {
    let alloc = rt.alloc();
    let map = read_map(alloc, MAP.as_bytes(), Profile::Plain)?;
    let (monitor, mut members) = Monitor::open(rt, alloc, map, 16, 1)?;
    let Some(mut member) = members.pop() else {
        unreachable!()
    };
    manage(rt, alloc, &monitor, &mut member)?;
    let epoch = follow_beside(rt, alloc, &monitor)?;
    let _ = println!(rt; "a follower has reached epoch {epoch}");
    Ok(())
}

fn main(rt: HostRuntime) -> io::Result<()> {
    match run(&rt) {
        Ok(()) => Ok(()),
        Err(refusal) => println!(rt; "{refusal}"),
    }
}
