//! Whether a Ceph monitor keeps the exceptions of a group (Ceph 16.2, OSDMap.cc: `check_pg_upmaps`).

ghost use Rattle.std.specs.Prelude.{◌≡◌, true, Some, None, pos, not, length, option_and_then};
ghost use Rattle.std.specs.List.{list_any, list_all};
ghost use Rattle.std.specs.Option.{option_map_or, option_copied};
ghost use Rattle.refusal.specs.Outcomes.{Gives};
ghost use Rattle.crush.specs.Paths.{reaches, takes_above};
ghost use Rattle.maptypes.specs.Exceptions.{said_of};
ghost use Rattle.maptypes.specs.Sets.{is_of};
ghost use Rattle.osdmap.specs.Mapped.{is_weightless};
ghost use Rattle.osdmap.specs.Placement.{group_fault, group_of, steps_of, raw_set, mapped_set, RunsOnce};
ghost use Rattle.upmap_cleanup.specs.Causes.{first};
ghost use Rattle.upmap_cleanup.specs.Kept.{osd_fault, place_fault, places_fault, set_fault, says_more, explicit_fault, acts, pairs_fault, remnant_at};

use crate::cause::Cause;
use crate::reading::Reading;
use crush::{Forest, Step, Work};
use maptypes::{Pair, Pg, Pool, UpSet};
use osdmap::{GroupSets, OsdMap};
use refusal::Refusal;

/// What a monitor leaves of the exceptions of a group.
#[derive(Clone, Copy, Debug, PartialEq, Eq)]
pub enum Remnant {
    /// All of them.
    All,
    /// Its explicit set, and some of its pairs alone.
    Fewer,
    /// None, and why.
    Gone(Cause),
}

/// A pool of a map, with the steps of its rule.
#[derive(Clone, Copy)]
struct Judge<'a> {
    map: &'a OsdMap,
    pool: Pool,
    steps: &'a [Step],
    ghost ruled: { steps_of map.now.map pool ≡ steps.now },
}

/// The steps of a pool's rule.
fn steps_of<'a>(map: &'a OsdMap, pool: &Pool) -> &'a [Step]
    ensures { result.now ≡ steps_of map.now.map pool.now }
{
    match map.rule(pool.rule()) {
        Some(rule) => rule.steps(),
        None => &[],
    }
}

/// Whether a step takes a bucket above an OSD.
fn takes_above(forest: &Forest, osd: u32, step: &Step) -> bool
    ensures { result ≡ takes_above forest.now (pos osd) step.now }
{
    match step {
        Step::Take(bucket) => forest.is_above_device(*bucket, osd),
        _ => false,
    }
}

/// Whether a rule of these steps reaches an OSD.
fn reaches(forest: &Forest, steps: &[Step], osd: u32) -> bool
    ensures { result ≡ reaches forest.now steps.now (pos osd) }
{
    steps.iter().any(|step| takes_above(forest, osd, step))
}

/// Whether an OSD stands at a place.
fn is_at(osd: u32, place: Option<u16>) -> bool
    ensures { result ≡ is_of osd place }
{
    match place {
        Some(own) => u32::from(own) == osd,
        None => false,
    }
}

/// Whether an explicit set is another than some places.
fn says_more(places: &[Option<u16>], osds: &[u32]) -> bool
    ensures { result ≡ says_more places.now osds.now }
{
    match places {
        [] => match osds {
            [] => false,
            [_, ..] => true,
        },
        [place, others @ ..] => match osds {
            [] => true,
            [osd, rest @ ..] => !is_at(*osd, *place) || says_more(others, rest),
        },
    }
}

/// Whether an OSD is out.
fn is_weightless(map: &OsdMap, osd: u32) -> bool
    ensures { result ≡ is_weightless map.now.map.weights osd }
{
    map.has_weightless(&[osd])
}

/// Whether a pair leads from an OSD that the rule gives to one that is in.
#[tactic(auto, unfolding(crate::specs::Kept::acts))]
fn acts(map: &OsdMap, raw: &UpSet, pair: &Pair) -> bool
    ensures { result ≡ acts map.now.map.weights raw.now pair.now }
{
    raw.has(u32::from(pair.from)) && !is_weightless(map, u32::from(pair.to))
}

/// Whether one of some pairs does.
fn any_acts(map: &OsdMap, raw: &UpSet, pairs: &[Pair]) -> bool
    ensures { result ≡ list_any (acts map.now.map.weights raw.now) pairs.now }
{
    pairs.iter().any(|pair| acts(map, raw, pair))
}

/// Whether each of some pairs does.
fn all_act(map: &OsdMap, raw: &UpSet, pairs: &[Pair]) -> bool
    ensures { result ≡ list_all (acts map.now.map.weights raw.now) pairs.now }
{
    pairs.iter().all(|pair| acts(map, raw, pair))
}

impl Judge<'_> {
    /// What is wrong with an OSD of a set.
    #[tactic(auto, unfolding(crate::specs::Kept::osd_fault))]
    fn osd_fault(&self, own: u16) -> Option<Cause>
        ensures { result ≡ osd_fault self.now.map.now.map self.now.pool own }
    {
        let osd = u32::from(own);
        if !reaches(self.map.forest(), self.steps, osd) {
            Some(Cause::Unreached(Some(own)))
        } else if is_weightless(self.map, osd) {
            Some(Cause::Out(own))
        } else {
            None
        }
    }

    /// What is wrong with a place of a set.
    fn place_fault(&self, place: Option<u16>) -> Option<Cause>
        ensures { result ≡ place_fault self.now.map.now.map self.now.pool place }
    {
        match place {
            None => Some(Cause::Unreached(None)),
            Some(osd) => self.osd_fault(osd),
        }
    }

    /// What is wrong with the first of some places that is wrong.
    fn places_fault(&self, places: &[Option<u16>]) -> Option<Cause>
        ensures { result ≡ places_fault self.now.map.now.map self.now.pool places.now }
    {
        match places {
            [] => None,
            [place, rest @ ..] => match self.place_fault(*place) {
                Some(cause) => Some(cause),
                None => self.places_fault(rest),
            },
        }
    }

    /// Why a set may not stand in the pool.
    #[tactic(auto, unfolding(crate::specs::Kept::set_fault))]
    fn set_fault(&self, set: &UpSet) -> Option<Cause>
        ensures { result ≡ set_fault self.now.map.now.map self.now.pool set.now }
    {
        let reading = Reading {
            forest: self.map.forest(),
            steps: self.steps,
            size: self.pool.size(),
        };
        match reading.fault(set.places()) {
            Some(cause) => Some(cause),
            None => self.places_fault(set.places()),
        }
    }

    /// Why an explicit set does not serve.
    fn explicit_fault(&self, raw: &UpSet, osds: &[u32]) -> Option<Cause>
        ensures { result ≡ explicit_fault self.now.pool raw.now osds.now }
    {
        if !says_more(raw.places(), osds) {
            return Some(Cause::IdleSet);
        }
        if osds.len() == usize::from(self.pool.size()) {
            None
        } else {
            Some(Cause::SetLength)
        }
    }

    /// Why a group's explicit set does not serve, where it has one.
    fn own_set_fault(&self, raw: &UpSet, pg: Pg) -> Option<Cause>
        ensures { result
            ≡ option_and_then (explicit_fault self.now.pool raw.now) (said_of self.now.map.now.map.explicit pg) }
    {
        match self.map.explicit(pg) {
            None => None,
            Some(osds) => self.explicit_fault(raw, osds),
        }
    }

    /// Why a group's pairs do not serve, where it has some.
    fn own_pairs_fault(&self, raw: &UpSet, pg: Pg) -> Option<Cause>
        ensures { result ≡ option_and_then (pairs_fault self.now.map.now.map.weights raw.now)
            (said_of self.now.map.now.map.items pg) }
    {
        match self.map.items(pg) {
            None => None,
            Some(pairs) => {
                if any_acts(self.map, raw, pairs) {
                    None
                } else {
                    Some(Cause::IdlePairs)
                }
            }
        }
    }

    /// Why none of a group's exceptions stays, by its raw set and its mapped set.
    fn cause(&self, raw: &UpSet, mapped: &UpSet, pg: Pg) -> Option<Cause>
        ensures { result ≡ first (set_fault self.now.map.now.map self.now.pool mapped.now)
            (first (option_and_then (explicit_fault self.now.pool raw.now)
            (said_of self.now.map.now.map.explicit pg))
            (option_and_then (pairs_fault self.now.map.now.map.weights raw.now)
            (said_of self.now.map.now.map.items pg))) }
    {
        if let Some(cause) = self.set_fault(mapped) {
            return Some(cause);
        }
        match self.own_set_fault(raw, pg) {
            Some(cause) => Some(cause),
            None => self.own_pairs_fault(raw, pg),
        }
    }

    /// Whether each of a group's pairs acts.
    fn has_good_pairs(&self, raw: &UpSet, pg: Pg) -> bool
        ensures { result ≡ option_map_or (list_all (acts self.now.map.now.map.weights raw.now))
            (said_of self.now.map.now.map.items pg) true }
    {
        match self.map.items(pg) {
            None => true,
            Some(pairs) => all_act(self.map, raw, pairs),
        }
    }
}

/// What a Ceph monitor leaves of the exceptions of a group, by its raw set, its mapped set and themselves. It takes one
/// run of the rule, which `work` counts.
///
/// # Errors
///
/// `UnknownPool` (23) where the map has no such pool; else `UnknownGroup` (25) where the pool has no such group; else
/// `Memory` (30) where there is no memory for the run. No run is counted then.
#[tactic(auto, unfolding(crate::specs::Kept::remnant_of, crate::specs::Kept::cause_of, crate::specs::Kept::all_act))]
pub fn remnant_of(map: &OsdMap, pg: Pg, work: &mut Work) -> Result<Remnant, Refusal>
    ensures left { Gives result (group_fault map.now.map pg) (λ left. Some left ≡ remnant_at map.now.map pg) }
    ensures run { RunsOnce work.old work.new result }
{
    let GroupSets { raw, mapped } = map.sets_of(pg, work)?;
    let Some(pool) = map.pool(pg.pool) else {
        return Err(Refusal::UnknownPool);
    };
    let steps = steps_of(map, &pool);
    let own = Pg {
        pool: pool.id(),
        number: pg.number,
    };
    let judge = Judge { map, pool, steps };
    if let Some(cause) = judge.cause(&raw, &mapped, own) {
        return Ok(Remnant::Gone(cause));
    }
    if judge.has_good_pairs(&raw, own) {
        Ok(Remnant::All)
    } else {
        Ok(Remnant::Fewer)
    }
}
