//! The commands of a script, one after the other.

ghost use Rattle.std.specs.Prelude.{◌≡◌, ⊤, None, IfOk, OnErr, MatchResult};
ghost use Rattle.osdmap.specs.Placement.{group_fault};
ghost use Rattle.verdict.specs.Orders.{group_of_order};
ghost use Rattle.verdict.specs.Scripts.{said_in};
ghost use Rattle.verdict.specs.Verdicts.{set_at, map_with_order, refusal_of, order_fault, is_excepted, left_doubt, order_doubt, said_verdict, map_behind, judged};
ghost use Rattle.verdict.specs.Stops.{GivesOr, IsDoubt, IsAnswer, UnlessShort};
ghost use Rattle.verdict.specs.Reading.{IsVerdict, IsEnded};

use crate::doubt::{Doubt, Stop, doubt_of};
use crate::order::Order;
use crate::script::{Said, read_script};
use crush::Work;
use mapparts::Profile;
use maptypes::{Change, Incremental, Pg, UpSet};
use osdmap::OsdMap;
use refusal::{Memory, Refusal};
use std::alloc::Global;
use upmap_cleanup::remnant_of;

/// What a command does.
#[derive(Clone, Copy, Debug)]
pub struct Taken {
    /// How many lines stand before its own.
    pub line: usize,
    /// Its group.
    pub pg: Pg,
    /// The group's mapped set before it.
    pub before: UpSet,
    /// The group's mapped set after it.
    pub after: UpSet,
}

/// A line that is in doubt.
#[derive(Clone, Copy, Debug)]
pub struct Doubted {
    /// How many lines stand before it.
    pub line: usize,
    /// Why.
    pub why: Doubt,
}

/// What a script does.
#[derive(Drop)]
pub struct Verdict {
    /// What its commands do, up to the first that is in doubt.
    pub taken: Vec<Taken>,
    /// The first line that is in doubt, where one is.
    pub doubt: Option<Doubted>,
    /// The map behind the last command that it took.
    pub map: OsdMap,
}

/// The mapped set of a group.
fn set_at(map: &OsdMap, pg: Pg, work: &mut Work) -> Result<UpSet, Stop>
    ensures { GivesOr (group_fault map.now.map pg) result (λ set. set ≡ set_at map.now.map pg) }
{
    Ok(map.mapped_of(pg, work)?)
}

/// Tests that the map refuses nothing of a change.
#[tactic(auto, using(crate::proofs::Faults::fault_stops))]
fn accept(map: &OsdMap, change: &Change) -> Result<(), Stop>
    ensures { GivesOr (refusal_of map.now.map change.now) result (λ _. ⊤) }
{
    if map.epoch() == u64::MAX {
        return Err(Stop::Doubt(Doubt::Refused(Refusal::JournalFull)));
    }
    Ok(map.check(change)?)
}

/// Makes the map the one after a command, whose group is there.
#[tactic(auto, unfolding(crate::specs::Verdicts::order_fault))]
fn obey(alloc: Global, map: &mut OsdMap, profile: Profile, order: &Order) -> Result<(), Stop>
    requires { group_fault map.old.map (group_of_order order.now) ≡ None }
    ensures taken { GivesOr (order_fault profile map.old.map order.now) result
        (λ _. map.new.map ≡ map_with_order profile map.old.map order.now) }
    ensures same { OnErr result (map.new.map ≡ map.old.map) }
{
    let change = order.change(alloc, profile)?;
    accept(map, &change)?;
    map.reserve_for(alloc, &change)?;
    map.apply(&Incremental::new(map.epoch() + 1, change));
    Ok(())
}

/// Whether a group has exceptions.
fn is_excepted(map: &OsdMap, pg: Pg) -> bool
    ensures { result ≡ is_excepted map.now.map pg }
{
    map.explicit(pg).is_some() || map.items(pg).is_some()
}

/// Tests that a monitor would leave the exceptions of a group that is there.
#[tactic(auto, unfolding(crate::specs::Verdicts::left_doubt))]
fn stay(map: &OsdMap, pg: Pg, work: &mut Work) -> Result<(), Stop>
    requires { group_fault map.now.map pg ≡ None }
    ensures { MatchResult result (λ _. left_doubt map.now.map pg ≡ None) (IsDoubt (left_doubt map.now.map pg)) }
{
    if !is_excepted(map, pg) {
        return Ok(());
    }
    match doubt_of(remnant_of(map, pg, work)?) {
        Ok(()) => Ok(()),
        Err(why) => Err(Stop::Doubt(why)),
    }
}

/// Makes the map the one after a command: what that does.
#[tactic(auto, unfolding(crate::specs::Verdicts::order_fault, crate::specs::Verdicts::left_doubt))]
fn take(
    alloc: Global,
    map: &mut OsdMap,
    work: &mut Work,
    profile: Profile,
    said: &Said,
) -> Result<Taken, Stop>
    ensures answer { IsAnswer (said_verdict profile map.old.map said.now) result }
    ensures map { UnlessShort result (map.new.map ≡ map_behind profile map.old.map said.now) }
{
    let Some(order) = said.order else {
        return Err(Stop::Doubt(Doubt::Unknown));
    };
    let pg = order.group();
    let before = set_at(map, pg, work)?;
    obey(alloc, map, profile, &order)?;
    let after = set_at(map, pg, work)?;
    stay(map, pg, work)?;
    Ok(Taken {
        line: said.line,
        pg,
        before,
        after,
    })
}

/// What a script does that ends at a line, as memory ran out or that is in doubt.
fn stopped(taken: Vec<Taken>, line: usize, map: OsdMap, stop: Stop) -> Result<Verdict, Memory>
    ensures { IfOk result (λ v. IsEnded v taken.items line map.map stop) }
{
    match stop {
        Stop::Memory => Err(Memory),
        Stop::Doubt(why) => Ok(Verdict {
            taken,
            doubt: Some(Doubted { line, why }),
            map,
        }),
    }
}

/// What lines do to a map, by the limits of a profile, up to the first that is in doubt.
fn judge_all(
    alloc: Global,
    map: OsdMap,
    work: &mut Work,
    profile: Profile,
    said: &[Said],
) -> Result<Verdict, Memory>
    ensures { IfOk result (λ v. IsVerdict v (judged profile map.map said.now)) }
{
    let mut map = map;
    let mut taken = Vec::new(alloc);
    for one in said {
        match take(alloc, &mut map, work, profile, one) {
            Ok(what) => taken.push(what)?,
            Err(stop) => return stopped(taken, one.line, map, stop),
        }
    }
    Ok(Verdict {
        taken,
        doubt: None,
        map,
    })
}

/// What the commands of a script do to a map, by the limits of a profile, up to the first that is in doubt.
///
/// # Errors
///
/// `Memory` (30) where there is no memory for it.
pub fn judge(alloc: Global, map: OsdMap, profile: Profile, script: &[u8]) -> Result<Verdict, Memory>
    ensures { IfOk result (λ v. IsVerdict v (judged profile map.map (said_in script.now))) }
{
    let mut work = Work::new(alloc, map.forest())?;
    let said = read_script(alloc, script)?;
    judge_all(alloc, map, &mut work, profile, &said)
}
