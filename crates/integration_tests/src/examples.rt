//! What the tests begin from: a map, a change, a monitor with two members, and an incremental.
ghost use Rattle.std.specs.Prelude.{◌≡◌, IfSome, All};
ghost use Rattle.monitor.specs.Members.{IsMemberOf, IsNewMemberOf};

use mapjson::{read_change, read_map};
use mapparts::Profile;
use maptypes::{Change, ChangeParts, Incremental};
use monitor::{Limits, Member, Monitor};
use refusal::Refusal;
use std::alloc::Global;
use std::sync::Wait;
use std::thread::Threads;

/// Four devices, and an explicit set for the one group.
pub const FOUR_DEVICES: &str = concat!(
    r#"{"buckets":[{"id":-1,"items":[[0,65536],[1,65536],[2,65536],[3,65536]],"kind":"uniform","type":10}],"#,
    r#""epoch":1,"max_osd":4,"osds":[{"exists":true,"id":0,"up":true,"weight":65536},"#,
    r#"{"exists":true,"id":1,"up":true,"weight":65536},{"exists":true,"id":2,"up":true,"weight":65536},"#,
    r#"{"exists":true,"id":3,"up":true,"weight":65536}],"pg_upmap":[["1.0",[2,0,1]]],"pg_upmap_items":[],"#,
    r#""pools":[{"id":1,"kind":"replicated","pg_num":1,"pgp_num":1,"rule":0,"size":3}],"#,
    r#""rules":[{"id":0,"kind":"replicated","steps":[["take",-1],["choose_firstn",0,0],["emit"]]}],"version":1}"#,
);

/// Two of the members.
fn two_of(monitor: &Monitor, members: Vec<Member>) -> Option<(Member, Member)>
    requires { All (IsNewMemberOf monitor.now) members.items }
    ensures { IfSome result (λ r. IsNewMemberOf monitor.now r.0 × IsNewMemberOf monitor.now r.1) }
{
    let mut members = members;
    let _ = monitor;
    let one = members.pop()?;
    let other = members.pop()?;
    Some((one, other))
}

/// A monitor of the map of a text, and two members of it, whose seats may draw so often.
pub fn open_for_two<R: Threads + Sync>(
    rt: &R,
    alloc: Global,
    text: &str,
    draws: u64,
) -> Option<(Monitor, Member, Member)>
    ensures { IfSome result (λ r. IsNewMemberOf r.0 r.1 × IsNewMemberOf r.0 r.2) }
{
    let map = read_map(alloc, text.as_bytes(), Profile::Plain).ok()?;
    let limits = Limits {
        journal: 16,
        seats: 2,
        draws,
    };
    let (monitor, members) = Monitor::open_limited(rt, alloc, map, limits).ok()?;
    let (one, other) = two_of(&monitor, members)?;
    Some((monitor, one, other))
}

/// An OSD goes down.
pub const DOWN: &str = r#"{"base":1,"down":[0]}"#;

/// Commits the change of a text at the present epoch; or why it is refused.
pub fn commit_now<R: Wait + Threads + Sync>(
    rt: &R,
    alloc: Global,
    monitor: &Monitor,
    member: &mut Member,
    text: &str,
) -> Result<(), Refusal>
    requires { IsMemberOf monitor.now member.old }
    ensures { IsMemberOf monitor.now member.new }
{
    let base = monitor.epoch(rt, member)?;
    let (_, change) = read_change(alloc, text.as_bytes(), Profile::Plain)?;
    monitor.commit(rt, member, base, change)?;
    Ok(())
}

/// The incremental of an epoch, whose change is empty.
pub fn incremental(alloc: Global, epoch: u64) -> Option<Box<Incremental>>
    ensures { IfSome result (λ made. made.value.epoch ≡ epoch) }
{
    let change = Change::new(ChangeParts::none(alloc, Profile::Plain)).ok()?;
    Box::new(alloc, Incremental::new(epoch, change)).ok()
}
