//! The map of a cluster as the parts of a map, or why it does not come in.

ghost use Rattle.std.specs.Prelude.{◌≡◌, None, Some, MatchResult, IfOk};
ghost use Rattle.cephimport.specs.Buckets.{all_parts};
ghost use Rattle.cephimport.specs.Reach.{kept};
ghost use Rattle.cephimport.specs.Why.{ImportGives};
ghost use Rattle.cephimport.specs.Whole.{pool_is_there, is_pool_set, has_pool_set, buckets_why, rules_why, others_why, why, sets_anything, rule_sets, any_sets, form_version, capped, profile_of, imported_parts, within_limits, imported};

use crate::exceptions::{leads_nowhere, pair_parts, set_parts};
use crate::fit_buckets::{BucketTest, any_unknown, some_bucket_fails, stand_once};
use crate::fit_rules::{RuleTest, some_rule_fails};
use crate::forest::all_parts;
use crate::osds::imported_osds;
use crate::pools::{all_hash_well, pool_parts};
use crate::reach::kept;
use crate::rules::rule_parts;
use crate::tuned::are_settable;
use crate::uses::has_pools;
use crate::why::{ImportError, StaysOut};
use cephmap::{CephMap, Pool, WeightSet};
use keylist::Entries;
use mapparts::fits::parts_fit_in;
use mapparts::{BucketPart, MapParts, Profile, RulePart, StepPart};
use std::alloc::{AllocError, Global};

/// Whether there is a pool of an id.
fn pool_is_there(pools: &[Pool], id: i64) -> bool
    ensures { result ≡ pool_is_there pools.now id }
{
    pools.iter().any(|pool| pool.id == id)
}

/// Whether a weight set is one of a pool alone.
#[tactic(auto, unfolding(crate::specs::Whole::is_pool_set))]
fn is_pool_set(pools: &[Pool], set: &WeightSet) -> bool
    ensures { result ≡ is_pool_set pools.now set.now }
{
    set.pool != -1 && (!has_pools(pools) || pool_is_there(pools, set.pool))
}

/// Whether some weight set is.
fn has_pool_set(pools: &[Pool], sets: &[WeightSet]) -> bool
    ensures { result ≡ has_pool_set pools.now sets.now }
{
    sets.iter().any(|set| is_pool_set(pools, set))
}

/// Why buckets keep a map out.
#[tactic(auto, unfolding(crate::specs::Whole::buckets_why))]
fn buckets_why(map: &CephMap, kept: &[BucketPart]) -> Option<StaysOut>
    ensures { result ≡ buckets_why map.now kept.now }
{
    if some_bucket_fails(BucketTest::Kind, &map.crush, kept) {
        return Some(StaysOut::StrawBucket);
    }
    if some_bucket_fails(BucketTest::Hash, &map.crush, kept) {
        return Some(StaysOut::BucketHash);
    }
    if some_bucket_fails(BucketTest::WeightSet, &map.crush, kept) {
        return Some(StaysOut::WeightSet);
    }
    if !stand_once(kept) {
        return Some(StaysOut::SeveralTrees);
    }
    if any_unknown(map, kept) {
        return Some(StaysOut::UnknownOsd);
    }
    None
}

/// Why rules keep it out.
#[tactic(auto, unfolding(crate::specs::Whole::rules_why))]
fn rules_why(map: &CephMap) -> Option<StaysOut>
    ensures { result ≡ rules_why map.now }
{
    if some_rule_fails(RuleTest::Kind, map) {
        return Some(StaysOut::RuleKind);
    }
    if some_rule_fails(RuleTest::Words, map) {
        return Some(StaysOut::RuleStep);
    }
    if some_rule_fails(RuleTest::Length, map) {
        return Some(StaysOut::RuleLength);
    }
    if some_rule_fails(RuleTest::Counts, map) {
        return Some(StaysOut::RuleCount);
    }
    None
}

/// Why tunables, weight sets, pools or exceptions keep it out.
#[tactic(auto, unfolding(crate::specs::Whole::others_why))]
fn others_why(map: &CephMap) -> Option<StaysOut>
    ensures { result ≡ others_why map.now }
{
    if !are_settable(&map.crush.tunables) {
        return Some(StaysOut::Tunable);
    }
    if has_pool_set(&map.pools, &map.crush.weight_sets) {
        return Some(StaysOut::PoolWeightSet);
    }
    if !all_hash_well(&map.pools) {
        return Some(StaysOut::PoolHash);
    }
    if leads_nowhere(map) {
        return Some(StaysOut::ExceptionOsd);
    }
    None
}

/// Answers `Ok` where nothing keeps a map out, else what does first.
fn judged(map: &CephMap, kept: &[BucketPart]) -> Result<(), StaysOut>
    ensures { MatchResult result (λ _. why map.now kept.now ≡ None) (λ e. why map.now kept.now ≡ Some e) }
{
    if let Some(why) = buckets_why(map, kept) {
        return Err(why);
    }
    if let Some(why) = rules_why(map) {
        return Err(why);
    }
    match others_why(map) {
        Some(why) => Err(why),
        None => Ok(()),
    }
}

/// Whether a step sets anything.
fn sets_anything(step: &StepPart) -> bool
    ensures { result ≡ sets_anything step.now }
{
    match step {
        StepPart::SetChooseTries(_)
        | StepPart::SetChooseleafTries(_)
        | StepPart::SetChooseleafVaryR(_)
        | StepPart::SetChooseleafStable(_) => true,
        StepPart::Take(_) | StepPart::Choose(_) | StepPart::Emit => false,
    }
}

/// Whether a step of a rule does.
fn rule_sets(rule: &RulePart) -> bool
    ensures { result ≡ rule_sets rule.now }
{
    rule.steps.iter().any(|step| sets_anything(step))
}

/// Whether a step of some rule does.
fn any_sets(rules: &[RulePart]) -> bool
    ensures { result ≡ any_sets rules.now }
{
    rules.iter().any(|rule| rule_sets(rule))
}

/// The version of the form that has such rules.
#[tactic(auto, unfolding(crate::specs::Whole::form_version))]
fn form_version(rules: &[RulePart]) -> i128
    ensures { result ≡ form_version rules.now }
{
    if any_sets(rules) { 2 } else { 1 }
}

/// The profile that has such buckets and rules.
#[tactic(auto, unfolding(crate::specs::Whole::profile_of))]
pub fn profile_of(buckets: &[BucketPart], rules: &[RulePart]) -> Profile
    ensures { result ≡ profile_of buckets.now rules.now }
{
    if Profile::Plain.has_kinds(buckets) && Profile::Plain.has_words(rules) {
        Profile::Plain
    } else {
        Profile::Stock
    }
}

/// A number that is at least 1, and at most another.
#[tactic(auto, unfolding(crate::specs::Whole::capped))]
fn capped(number: u32, most: i128) -> i128
    ensures { result ≡ capped number most }
{
    if number == 0 {
        1
    } else if most < i128::from(number) {
        most
    } else {
        i128::from(number)
    }
}

/// The parts of a map with such buckets in use.
#[tactic(auto, unfolding(crate::specs::Whole::imported_parts))]
fn imported_parts(
    alloc: Global,
    map: &CephMap,
    kept: Vec<BucketPart>,
) -> Result<MapParts, AllocError>
    ensures { IfOk result (λ parts. parts ≡ imported_parts map.now kept.items) }
{
    let rules = rule_parts(alloc, map)?;
    let pools = pool_parts(alloc, &map.pools)?;
    let osds = imported_osds(alloc, &map.osds)?;
    let sets = set_parts(alloc, map)?;
    let pairs = pair_parts(alloc, map)?;
    let limits = profile_of(&kept, &rules).limits();
    Ok(MapParts {
        version: form_version(&rules),
        epoch: i128::from(map.epoch),
        max_osd: capped(map.osds.max_osd, limits.max_osd),
        buckets: Entries::new(kept),
        rules: Entries::new(rules),
        pools: Entries::new(pools),
        osds: Entries::new(osds),
        pg_upmap: Entries::new(sets),
        pg_upmap_items: Entries::new(pairs),
    })
}

/// Parts that are within the limits of their profile.
#[tactic(auto, unfolding(crate::specs::Whole::within_limits))]
fn within_limits(parts: MapParts) -> Result<MapParts, StaysOut>
    ensures { result ≡ within_limits parts }
{
    let profile = profile_of(&parts.buckets, &parts.rules);
    if parts_fit_in(&parts, profile) {
        Ok(parts)
    } else {
        Err(StaysOut::Limit)
    }
}

/// The buckets in use.
fn kept_buckets(alloc: Global, map: &CephMap) -> Result<Vec<BucketPart>, AllocError>
    ensures { IfOk result (λ found. found.items ≡ kept map.now (all_parts map.now.crush)) }
{
    let all = all_parts(alloc, &map.crush)?;
    kept(alloc, map, all)
}

/// The parts of the map that a cluster's own map is.
///
/// # Errors
///
/// `StaysOut` with what first keeps it out: a bucket, a rule, else something else; at last a number or a length outside
/// the limits. `Memory` where memory runs out.
#[tactic(auto, unfolding(crate::specs::Whole::imported))]
pub fn imported(alloc: Global, map: &CephMap) -> Result<MapParts, ImportError>
    ensures { ImportGives result (imported map.now) }
{
    let kept = kept_buckets(alloc, map)?;
    judged(map, &kept)?;
    let parts = imported_parts(alloc, map, kept)?;
    Ok(within_limits(parts)?)
}
