//! What a plan goes by and no move changes.

ghost use Rattle.std.specs.Prelude.{◌≡◌, ◌*◌, ◌≤◌, ◌^◌, pos, ◌<ℤ◌, length, Some, IfOk};
ghost use Rattle.buckets.specs.Limits.{max_devices};
ghost use Rattle.osdmap.specs.Maps.{pool_at};
ghost use Rattle.std.specs.List.{list_all};
ghost use Rattle.osdmap.specs.Placement.{steps_of};
ghost use Rattle.balancer.specs.Shares.{candidate_osds, total_weight, group_weight, least_gap, aim_of, AreItemWeights, AreSmall};
ghost use Rattle.balancer.specs.Moves.{level_chosen, levels_of, last_level, domains_of, are_under_same};

use crate::domains::{are_under_same, domains_of};
use crate::request::Request;
use crate::shares::{are_small, candidates, total};
use crate::weights::item_weights;
use crush::Step;
use maptypes::Pool;
use osdmap::OsdMap;
use refusal::Memory;
use std::alloc::Global;

/// The type that a step chooses.
fn level_chosen(step: &Step) -> Option<u8>
    ensures { result ≡ level_chosen step.now }
{
    match step {
        Step::Choose(choose) => Some(choose.level),
        _ => None,
    }
}

/// The types that some steps choose, in order; or `Memory` (30).
fn levels_of(alloc: Global, steps: &[Step]) -> Result<Vec<u8>, Memory>
    ensures { IfOk result (λ levels. levels.items ≡ levels_of steps.now) }
{
    Ok(
        steps
            .iter()
            .filter_map(|step| level_chosen(step))
            .collect(alloc)?,
    )
}

/// The types that the rule of a pool chooses, in order; or `Memory` (30).
fn levels(alloc: Global, map: &OsdMap, pool: &Pool) -> Result<Vec<u8>, Memory>
    ensures { IfOk result (λ levels. levels.items ≡ levels_of (steps_of map.now.map pool.now)) }
{
    match map.rule(pool.rule()) {
        Some(rule) => levels_of(alloc, rule.steps()),
        None => Ok(Vec::new(alloc)),
    }
}

/// The last of some types.
fn last_of(levels: &[u8]) -> u8
    ensures { result ≡ last_level levels.now }
{
    levels.last().copied().unwrap_or(0)
}

/// Whether two OSDs are under the same bucket of each of some types, or under none.
fn are_under_same_all(map: &OsdMap, some: u32, other: u32, levels: &[u8]) -> bool
    ensures { result ≡ list_all (are_under_same map.now.map some other) levels.now }
{
    levels
        .iter()
        .all(|level| are_under_same(map, some, other, *level))
}

/// A weight so many times.
fn multiply(count: u32, weight: u64) -> i128
    requires { weight ≤ 2 ^ 60 }
    ensures value { result ≡ pos (count * weight) }
    ensures small { result <ℤ pos (2 ^ 92) }
{
    i128::from(count) * i128::from(weight)
}

/// What a plan for a pool goes by and no move changes.
#[derive(Drop)]
pub(crate) struct Frame<'a> {
    pub map: &'a OsdMap,
    pub pool: Pool,
    /// How much more of the pool each OSD counts as having than its groups, by number, in 256ths of a group.
    pub carried: &'a [i32],
    /// By how much two OSDs must differ for a move between them to be good, in 256ths of a group.
    pub apart: u32,
    /// The types that the pool's rule chooses, in order.
    pub levels: Vec<u8>,
    /// The failure domains of all OSDs, by number.
    pub domains: Vec<Option<i64>>,
    /// The candidates, by number upwards.
    pub osds: Vec<u32>,
    /// The weights of all OSDs in their buckets, by number.
    pub weights: Vec<u32>,
    /// What the candidates weigh together.
    pub weight: u64,
    ghost pool_is: { pool_at map.now.map.pools pool.id ≡ Some pool },
    ghost carried_small: { AreSmall carried.now },
    ghost apart_least: { 256 ≤ apart },
    ghost levels_are: { levels.items ≡ levels_of (steps_of map.now.map pool) },
    ghost domains_are: { domains.items ≡ domains_of map.now.map (last_level levels.items) },
    ghost osds_are: { osds.items ≡ candidate_osds map.now.map pool },
    ghost osds_few: { length osds.items ≤ max_devices },
    ghost weights_are: { AreItemWeights map.now.map.buckets (length map.now.map.presences) weights.items },
    ghost weight_is: { weight ≡ total_weight map.now.map pool },
    ghost weight_small: { weight ≤ 2 ^ 60 },
}

impl<'a> Frame<'a> {
    ghost use Rattle.std.specs.Prelude.{◌≡◌, ◌≤◌, Some, IfOk};
    ghost use Rattle.osdmap.specs.Maps.{pool_at};
    ghost use Rattle.balancer.specs.Shares.{aim_of};
    ghost use Rattle.balancer.specs.Requests.{asked_aim};

    /// What the plan that is asked for goes by, of a pool of a map; or `Memory` (30).
    #[tactic(auto, unfolding(crate::specs::Shares::total_weight))]
    pub fn new(
        alloc: Global,
        map: &'a OsdMap,
        pool: Pool,
        request: Request<'a>,
    ) -> Result<Frame<'a>, Memory>
        requires { pool_at map.now.map.pools pool.id ≡ Some pool }
        ensures map { IfOk result (λ frame. frame.map.now.map ≡ map.now.map) }
        ensures pool { IfOk result (λ frame. frame.pool ≡ pool) }
        ensures aim { IfOk result (λ frame. aim_of frame.carried.now frame.apart ≡ asked_aim request.entry) }
    {
        let Request { carried, apart, .. } = request;
        are_small(carried);
        let levels = levels(alloc, map, &pool)?;
        let domains = domains_of(alloc, map, last_of(&levels))?;
        let osds = candidates(alloc, map, &pool)?;
        let weights = item_weights(alloc, map.forest().buckets(), map.max_osd())?;
        let weight = total(map, &weights, &osds);
        Ok(Frame {
            map,
            pool,
            carried,
            apart,
            levels,
            domains,
            osds,
            weights,
            weight,
        })
    }
}

impl Frame<'_> {
    ghost use Rattle.std.specs.Prelude.{◌≡◌, ◌<◌, pos, length, position, IfSome, true, false};
    ghost use Rattle.std.specs.List.{list_all};
    ghost use Rattle.osdmap.specs.Placement.{steps_of};
    ghost use Rattle.balancer.specs.Moves.{are_under_same, are_beside, earlier_levels, last_level, levels_of, is_allowed};
    ghost use Rattle.balancer.specs.declared.moves.Move.{Move};
    ghost use Rattle.balancer.specs.Shares.{group_weight, least_gap, aim_of};

    /// What a group weighs.
    #[tactic(auto, unfolding(crate::specs::Shares::group_weight))]
    pub fn group_weight(&self) -> i128
        ensures { result ≡ pos (group_weight self.now.map.now.map self.now.pool) }
    {
        multiply(256, self.weight)
    }

    /// By how much two deviations must differ for a move to be good.
    #[tactic(auto, unfolding(crate::specs::Shares::least_gap))]
    pub fn least_gap(&self) -> i128
        ensures { result ≡ pos (least_gap self.now.map.now.map self.now.pool
            (aim_of self.now.carried.now self.now.apart)) }
    {
        multiply(self.apart, self.weight) + 255
    }

    /// The types that the pool's rule chooses before the last.
    fn earlier_levels(&self) -> &[u8]
        ensures { result.now ≡ earlier_levels (levels_of (steps_of self.now.map.now.map self.now.pool)) }
    {
        match self.levels.as_slice().split_last() {
            Some((_, earlier)) => earlier,
            None => &[],
        }
    }

    /// Whether two OSDs are under the same bucket of each type that the pool's rule chooses before the last, or under
    /// none.
    #[tactic(auto, unfolding(crate::specs::Moves::are_beside))]
    pub fn are_beside(&self, some: u32, other: u32) -> bool
        ensures value { result ≡ are_beside self.now.map.now.map self.now.pool some other }
        ensures apart { result ≡ false → (v : Move) → v.from ≡ some → v.to ≡ other
            → is_allowed self.now.map.now.map self.now.pool v ≡ false }
    {
        are_under_same_all(self.map, some, other, self.earlier_levels())
    }

    /// The last type that the pool's rule chooses.
    pub fn last_level(&self) -> u8
        ensures { result ≡ last_level (levels_of (steps_of self.now.map.now.map self.now.pool)) }
    {
        last_of(&self.levels)
    }
}
