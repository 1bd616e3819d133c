//! The change that stated parts within their limits stand for. Most lists of a change are empty, and are told apart at
//! once.
ghost use Rattle.std.specs.Prelude.{◌≡◌, true, IsTrue, All, IfOk, map, pos, nat_abs};
ghost use Rattle.std.specs.List.{list_all};
ghost use Rattle.std.specs.Option.{option_map_or};
ghost use Rattle.buckets.specs.Limits.{max_devices};
ghost use Rattle.mapparts.specs.Parts.{crush_fits, growth_fits, grows_evenly, has_enough_groups, is_between, pool_fits};
ghost use Rattle.maptypes.specs.CrushMaps.{crush_fault, IsCrushOf};
ghost use Rattle.maptypes.specs.Values.{growth_of, pool_of, pg_of};
ghost use Rattle.refusal.specs.declared.refused.Refusal.TheVariants.{BadPool};
ghost use Rattle.refusal.specs.Outcomes.{refused_unless};
ghost use Rattle.refusal.specs.Outcomes.{Makes};
ghost use Rattle.mapparts.specs.Changes.{reweight_fits, pool_changes_fit, osd_changes_fit, change_fits, are_even};
ghost use Rattle.mapjson.specs.ChangeTexts.{reweight_within, pools_within, osds_within, parts_within, new_crush_fault, IsCrushStated};

use buckets::limits::MAX_DEVICES;
use keylist::Entries;
use mapparts::numbers::word;
use mapparts::{
    CrushParts, ExceptionChanges, GrowPart, OsdChanges, PgParts, PoolChanges, PoolPart, Profile,
    RawChange, ReweightPart,
};
use maptypes::{ChangeParts, CrushMap, Grow, Pg, Pool, Reweight, exceptions_of};
use refusal::{Memory, Refusal};
use std::alloc::{AllocError, Global};

/// Numbers that are words, as words.
fn words(alloc: Global, numbers: &[i128]) -> Result<Vec<u32>, AllocError>
    requires { All (λ number. IsTrue (is_between (pos 0) (pos 4294967295) number)) numbers.now }
    ensures { IfOk result (λ found. found.items ≡ map nat_abs numbers.now) }
{
    if numbers.is_empty() {
        return Ok(Vec::new(alloc));
    }
    numbers.iter().map(|number| word(*number)).collect(alloc)
}

/// A reweight that is within the limits.
#[tactic(auto, unfolding(mapparts::specs::Changes::reweight_fits_in), using(mapparts::proofs::Within::osd_id_word))]
fn reweight(stated: &ReweightPart) -> Reweight
    requires { IsTrue (reweight_fits stated.now) }
    ensures { result ≡ reweight_within stated.now }
{
    Reweight {
        osd: word(stated.osd),
        weight: word(stated.weight),
    }
}

/// Reweights that are within the limits.
fn reweights(alloc: Global, stated: &[ReweightPart]) -> Result<Vec<Reweight>, AllocError>
    requires { All (λ one. IsTrue (reweight_fits one)) stated.now }
    ensures { IfOk result (λ found. found.items ≡ map reweight_within stated.now) }
{
    if stated.is_empty() {
        return Ok(Vec::new(alloc));
    }
    stated.iter().map(|one| reweight(one)).collect(alloc)
}

/// Groups that are within the limits.
fn groups(alloc: Global, stated: &[PgParts]) -> Result<Vec<Pg>, AllocError>
    ensures { IfOk result (λ found. found.items ≡ map pg_of stated.now) }
{
    if stated.is_empty() {
        return Ok(Vec::new(alloc));
    }
    stated.iter().map(|one| Pg::of_parts(one)).collect(alloc)
}

/// Pools whose numbers are within the limits: `BadPool` (15) where one of them has more groups for placement than
/// groups.
#[tactic(auto, using(crate::proofs::Refusing::refused_with_one))]
fn pools(alloc: Global, stated: &[PoolPart]) -> Result<Vec<Pool>, Refusal>
    requires { list_all pool_fits stated.now ≡ true }
    ensures { Makes result (refused_unless (list_all has_enough_groups stated.now) BadPool)
        (λ pools. pools.items ≡ map pool_of stated.now) }
{
    let mut pools = Vec::with_capacity(alloc, stated.len())?;
    for part in stated {
        pools.push(Pool::of_fitting(*part)?)?;
    }
    Ok(pools)
}

/// Growths whose numbers are within their limits: `BadPool` (15) where one of them has more groups for placement than
/// groups.
#[tactic(auto, using(crate::proofs::Refusing::refused_with_one))]
fn growths(alloc: Global, stated: &[GrowPart]) -> Result<Vec<Grow>, Refusal>
    requires { list_all growth_fits stated.now ≡ true }
    ensures { Makes result (refused_unless (list_all grows_evenly stated.now) BadPool)
        (λ found. found.items ≡ map growth_of stated.now) }
{
    let mut found = Vec::with_capacity(alloc, stated.len())?;
    for part in stated {
        found.push(Grow::of_fitting(*part)?)?;
    }
    Ok(found)
}

/// The CRUSH map of a change that is within the limits, where it has one: `BadForest` (13), `BadRule` (14).
#[inline(always)]
pub(super) fn crush_within(
    alloc: Global,
    crush: &Option<CrushParts>,
) -> Result<Option<CrushMap>, Refusal>
    requires { option_map_or crush_fits crush.now true ≡ true }
    ensures { Makes result (new_crush_fault crush.now) (IsCrushStated crush.now) }
{
    match crush {
        Some(parts) => Ok(Some(make_crush(alloc, parts)?)),
        None => Ok(None),
    }
}

/// The CRUSH map over 4,096 devices that parts within the limits state: `BadForest` (13), `BadRule` (14).
#[tactic(auto, unfolding(mapparts::specs::Parts::crush_fits_in))]
fn make_crush(alloc: Global, parts: &CrushParts) -> Result<CrushMap, Refusal>
    requires { crush_fits parts.now ≡ true }
    ensures { Makes result (crush_fault parts.now.buckets parts.now.rules max_devices)
        (IsCrushOf parts.now.buckets parts.now.rules) }
{
    CrushMap::of_parts(alloc, &parts.buckets, &parts.rules, MAX_DEVICES)
}

/// What a change within the limits does with pools: `BadPool` (15) where a pool that comes or grows has more groups for
/// placement than groups; or `Memory` (30).
fn pools_within(
    alloc: Global,
    stated: &PoolChanges<i128, PoolPart, GrowPart>,
) -> Result<PoolChanges<u32, Pool, Grow>, Refusal>
    requires { pool_changes_fit stated.now ≡ true }
    ensures { Makes result (refused_unless (are_even stated.now) BadPool) (λ found. found ≡ pools_within stated.now) }
{
    let come = pools(alloc, &stated.come)?;
    let grow = growths(alloc, &stated.grow)?;
    Ok(PoolChanges {
        gone: Entries::new(words(alloc, &stated.gone)?),
        come: Entries::new(come),
        grow: Entries::new(grow),
    })
}

/// What it does with OSDs.
fn osds_within(alloc: Global, stated: &OsdChanges<i128>) -> Result<OsdChanges<u32>, AllocError>
    requires { osd_changes_fit stated.now ≡ true }
    ensures { IfOk result (λ found. found ≡ osds_within stated.now) }
{
    Ok(OsdChanges {
        down: Entries::new(words(alloc, &stated.down)?),
        up: Entries::new(words(alloc, &stated.up)?),
    })
}

/// The parts of a change that is within the limits, of a profile and with a CRUSH map: `BadPool` (15) where a pool that
/// comes or grows has more groups for placement than groups; or `Memory` (30).
#[tactic(auto, unfolding(mapparts::specs::Changes::change_fits_in))]
#[inline(always)]
pub(super) fn parts_within(
    alloc: Global,
    change: &RawChange,
    crush: Option<CrushMap>,
    profile: Profile,
) -> Result<ChangeParts, Refusal>
    requires { change_fits change.now ≡ true }
    ensures { Makes result (refused_unless (are_even change.now.pools) BadPool)
        (λ parts. parts ≡ parts_within profile change.now crush) }
{
    Ok(ChangeParts {
        profile,
        pools: pools_within(alloc, &change.pools)?,
        crush,
        osds: osds_within(alloc, &change.osds)?,
        weights: Entries::new(reweights(alloc, &change.weights)?),
        explicit: ExceptionChanges {
            gone: Entries::new(groups(alloc, &change.explicit.gone)?),
            come: Entries::new(exceptions_of(alloc, &change.explicit.come)?),
        },
        items: ExceptionChanges {
            gone: Entries::new(groups(alloc, &change.items.gone)?),
            come: Entries::new(exceptions_of(alloc, &change.items.come)?),
        },
    })
}

/// The base of a change that is within the limits.
#[tactic(auto, unfolding(mapparts::specs::Changes::change_fits_in, mapparts::specs::Parts::is_between))]
pub(super) fn base_within(change: &RawChange) -> u64
    requires { change_fits change.now ≡ true }
    ensures { result ≡ nat_abs change.now.base }
{
    change.base as u64
}
