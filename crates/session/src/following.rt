//! What a session asks of its follower, which takes no turn at the lock.
ghost use Rattle.std.specs.Prelude.{◌≡◌, None, OnOk, OnErr, IsSomeAnd};
ghost use Rattle.osdmap.specs.Changes.{after};
ghost use Rattle.epochlog.specs.Epochs.{OneBegins};
ghost use Rattle.monitor.specs.declared.question.Question.TheVariants as question;
ghost use Rattle.monitor.specs.Histories.{GoesOn};
ghost use Rattle.monitor.specs.Followers.{Follows, RunsForOne};
ghost use Rattle.session.specs.Answers.{FindsThere, FindsKept, HasCaughtUp, TellsIdle, Tells, TellsSets};
ghost use Rattle.session.specs.Sessions.{track, track_of, IsFollowerOf};

use crate::command::Task;
use crate::pool_sets::{PoolSets, sets_of};
use epochlog::Keeps;
use maptypes::Pg;
use monitor::{Answer, Follower, Member, Monitor};
use refusal::{Memory, Refusal};
use std::alloc::Global;

/// Makes the follower, where there is none yet.
fn need_follower<K: Keeps + Drop>(
    alloc: Global,
    monitor: &Monitor<K>,
    follower: &mut Option<Follower>,
) -> Result<(), Memory>
    requires { IsFollowerOf monitor.now follower.old }
    ensures there { OnOk result (IsSomeAnd follower.new (Follows monitor.now)
        × TellsIdle (track_of follower.old) (track_of follower.new)) }
    ensures none { OnErr result ((follower.old ≡ None) × (follower.new ≡ None)) }
{
    if follower.is_none() {
        *follower = Some(Follower::new(alloc, monitor)?);
    }
    Ok(())
}

/// Has the follower go on: the epoch that it has reached.
fn catch_up<K: Keeps + Drop>(
    alloc: Global,
    monitor: &Monitor<K>,
    follower: &mut Follower,
) -> Result<Answer, Refusal>
    requires { Follows monitor.now follower.old }
    ensures follower { Follows monitor.now follower.new }
    ensures goes_on { GoesOn monitor.now.first follower.old.history follower.new.history }
    ensures finds { FindsThere (after monitor.now.first follower.new.history) question.Epoch result }
    ensures ends { OnOk result (HasCaughtUp monitor.now.first (track follower.new)) }
    ensures runs { follower.new.runs ≡ follower.old.runs }
{
    let reached = follower.catch_up(alloc, monitor);
    let _ = follower.epoch();
    Ok(Answer::Epoch(reached?))
}

/// Finds the up set of a group in the follower's map.
fn find_up(follower: &mut Follower, pg: Pg) -> Result<Answer, Refusal>
    ensures run { RunsForOne follower.old follower.new result }
    ensures finds { FindsThere (after follower.old.first follower.old.history) (question.Up pg) result }
{
    let _ = follower.epoch();
    let (epoch, set) = follower.up(pg)?;
    Ok(Answer::Up { epoch, pg, set })
}

/// Finds what a Ceph monitor would leave of the exceptions that the follower's map has of a group.
fn find_kept(follower: &mut Follower, pg: Pg) -> Result<Answer, Refusal>
    ensures run { RunsForOne follower.old follower.new result }
    ensures finds { FindsKept (after follower.old.first follower.old.history) pg result }
{
    let _ = follower.epoch();
    let (epoch, left) = follower.kept(pg)?;
    Ok(Answer::Kept { epoch, pg, left })
}

/// Finds the up sets of all groups of a pool in the follower's map.
fn find_sets(alloc: Global, follower: &mut Follower, pool: u32) -> Result<PoolSets, Refusal>
    ensures same { follower.new ≡ record follower.old { runs = follower.new.runs } }
    ensures tells { TellsSets follower.old.first (track follower.old) (track follower.new) pool result }
{
    let _ = follower.epoch();
    sets_of(alloc, follower, pool)
}

/// Finds the written form of the follower's map.
fn find_text(alloc: Global, follower: &Follower) -> Result<Answer, Refusal>
    ensures { FindsThere (after follower.now.first follower.now.history) question.Dump result }
{
    let _ = follower.epoch();
    Ok(Answer::of_text(follower.dump(alloc)?))
}

/// What the follower answers to a task.
fn answer_task<K: Keeps + Drop>(
    alloc: Global,
    monitor: &Monitor<K>,
    follower: &mut Follower,
    task: Task,
) -> Result<Answer, Refusal>
    requires { Follows monitor.now follower.old }
    ensures follower { Follows monitor.now follower.new }
    ensures tells { Tells monitor.now.first (track follower.old) (track follower.new) task result }
{
    match task {
        Task::CatchUp => catch_up(alloc, monitor, follower),
        Task::Up(pg) => find_up(follower, pg),
        Task::Dump => find_text(alloc, follower),
        Task::Kept(pg) => find_kept(follower, pg),
    }
}

/// What the session's follower, which is made where there is none yet, answers to a task. After it the follower's
/// history is known to begin the member's, or the member's the follower's.
pub(crate) fn follow<K: Keeps + Drop>(
    alloc: Global,
    monitor: &Monitor<K>,
    member: &mut Member,
    follower: &mut Option<Follower>,
    task: Task,
) -> Result<Answer, Refusal>
    requires member { member.old.pass.row ≡ monitor.now.row }
    requires follower { IsFollowerOf monitor.now follower.old }
    ensures member { member.new ≡ member.old }
    ensures follower { IsFollowerOf monitor.now follower.new }
    ensures tells { Tells monitor.now.first (track_of follower.old) (track_of follower.new) task result }
    ensures meets { OneBegins (track_of follower.new).history member.new.pass.history }
{
    need_follower(alloc, monitor, follower)?;
    match follower {
        Some(follower) => {
            let answer = answer_task(alloc, monitor, follower, task);
            follower.meet(member);
            answer
        }
        None => unreachable!(),
    }
}

/// The up sets of all groups of a pool in the map of the session's follower, which is made where there is none yet.
/// After it the follower's history is known to begin the member's, or the member's the follower's.
pub(crate) fn follow_sets<K: Keeps + Drop>(
    alloc: Global,
    monitor: &Monitor<K>,
    member: &mut Member,
    follower: &mut Option<Follower>,
    pool: u32,
) -> Result<PoolSets, Refusal>
    requires member { member.old.pass.row ≡ monitor.now.row }
    requires follower { IsFollowerOf monitor.now follower.old }
    ensures member { member.new ≡ member.old }
    ensures follower { IsFollowerOf monitor.now follower.new }
    ensures tells { TellsSets monitor.now.first (track_of follower.old) (track_of follower.new) pool result }
    ensures meets { OneBegins (track_of follower.new).history member.new.pass.history }
{
    need_follower(alloc, monitor, follower)?;
    match follower {
        Some(follower) => {
            let sets = find_sets(alloc, follower, pool);
            follower.meet(member);
            sets
        }
        None => unreachable!(),
    }
}
