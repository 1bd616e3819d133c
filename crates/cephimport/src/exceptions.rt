//! Exceptions as a map states them.

ghost use Rattle.std.specs.Prelude.{◌≡◌, map, IfOk};
ghost use Rattle.std.specs.List.{list_any, filter, filter_map};
ghost use Rattle.cephimport.specs.Exceptions.{word_in, imported_group, is_group, imported_set, set_of_group, set_parts, imported_pair, pair_acts, own_pairs, pairs_part, pair_parts, is_missing, set_leads_nowhere, pairs_lead_nowhere, leads_nowhere};

use crate::osds::exists_osd;
use cephmap::{CephMap, Group, GroupOsds, GroupPairs, Osds, Pair, Pool};
use keylist::Entries;
use mapparts::{ExceptionPart, PairPart, PgParts};
use std::alloc::{AllocError, Global};

/// A number, where it has no sign and at most 32 bits.
pub(crate) fn word_in(number: i128) -> Option<u32>
    ensures { result ≡ word_in number }
{
    u32::try_from(number).ok()
}

/// A group as a map states it.
fn imported_group(group: &Group) -> PgParts
    ensures { result ≡ imported_group group.now }
{
    PgParts {
        pool: word_in(i128::from(group.pool)),
        number: Some(group.number),
    }
}

/// Whether a group is one of a pool's.
#[tactic(auto, unfolding(crate::specs::Exceptions::is_group))]
fn is_group(pools: &[Pool], group: &Group) -> bool
    ensures { result ≡ is_group pools.now group.now }
{
    pools
        .iter()
        .any(|pool| pool.id == group.pool && group.number < pool.pg_num)
}

/// The OSDs of an explicit set.
fn set_entries(alloc: Global, osds: &[i32]) -> Result<Vec<i128>, AllocError>
    ensures { IfOk result (λ entries. entries.items ≡ osds.now) }
{
    osds.iter().map(|osd| i128::from(*osd)).collect(alloc)
}

/// An explicit set as a map states it.
#[tactic(auto, unfolding(crate::specs::Exceptions::imported_set))]
fn imported_set(alloc: Global, set: &GroupOsds) -> Result<ExceptionPart<i128>, AllocError>
    ensures { IfOk result (λ part. part ≡ imported_set set.now) }
{
    Ok(ExceptionPart {
        pg: imported_group(&set.group),
        entries: Entries::new(set_entries(alloc, &set.osds)?),
    })
}

/// The explicit sets of groups that are there, as a map states them.
#[tactic(auto, unfolding(crate::specs::Exceptions::set_parts))]
pub(crate) fn set_parts(
    alloc: Global,
    map: &CephMap,
) -> Result<Vec<ExceptionPart<i128>>, AllocError>
    ensures { IfOk result (λ parts. parts.items ≡ set_parts map.now) }
{
    let sets: &[GroupOsds] = &map.upmaps.sets;
    let mut parts = Vec::new(alloc);
    for set in sets {
        if is_group(&map.pools, &set.group) {
            parts.push(imported_set(alloc, set)?)?;
        }
    }
    Ok(parts)
}

/// A pair as a map states it.
fn imported_pair(pair: &Pair) -> PairPart
    ensures { result ≡ imported_pair pair.now }
{
    PairPart {
        from: i128::from(pair.from),
        to: i128::from(pair.to),
    }
}

/// Whether a pair may act: between two OSDs that exist.
#[tactic(auto, unfolding(crate::specs::Exceptions::pair_acts))]
fn pair_acts(osds: &Osds, pair: &Pair) -> bool
    ensures { result ≡ pair_acts osds.now pair.now }
{
    exists_osd(osds, pair.from) && exists_osd(osds, pair.to) && pair.from != pair.to
}

/// The pairs that may act, as a map states them.
#[tactic(auto, unfolding(crate::specs::Exceptions::own_pairs))]
fn own_pairs(alloc: Global, osds: &Osds, pairs: &[Pair]) -> Result<Vec<PairPart>, AllocError>
    ensures { IfOk result (λ parts. parts.items ≡ own_pairs osds.now pairs.now) }
{
    pairs
        .iter()
        .filter(|pair| pair_acts(osds, *pair))
        .map(|pair| imported_pair(pair))
        .collect(alloc)
}

/// The pairs of a group, as a map states them; none where none may act.
#[tactic(auto, unfolding(crate::specs::Exceptions::pairs_part))]
fn pairs_part(
    alloc: Global,
    map: &CephMap,
    group: &GroupPairs,
) -> Result<Option<ExceptionPart<PairPart>>, AllocError>
    ensures { IfOk result (λ part. part ≡ pairs_part map.now group.now) }
{
    let entries = own_pairs(alloc, &map.osds, &group.pairs)?;
    if entries.is_empty() || !is_group(&map.pools, &group.group) {
        return Ok(None);
    }
    Ok(Some(ExceptionPart {
        pg: imported_group(&group.group),
        entries: Entries::new(entries),
    }))
}

/// The pairs of groups that are there, as a map states them.
#[tactic(auto, unfolding(crate::specs::Exceptions::pair_parts))]
pub(crate) fn pair_parts(
    alloc: Global,
    map: &CephMap,
) -> Result<Vec<ExceptionPart<PairPart>>, AllocError>
    ensures { IfOk result (λ parts. parts.items ≡ pair_parts map.now) }
{
    let groups: &[GroupPairs] = &map.upmaps.pairs;
    let mut parts = Vec::new(alloc);
    for group in groups {
        if let Some(part) = pairs_part(alloc, map, group)? {
            parts.push(part)?;
        }
    }
    Ok(parts)
}

/// Whether some number is not that of an OSD that exists.
fn any_missing(osds: &Osds, ids: &[i32]) -> bool
    ensures { result ≡ list_any (is_missing osds.now) ids.now }
{
    ids.iter().any(|id| !exists_osd(osds, *id))
}

/// Whether some pair leads to an OSD that does not exist.
fn any_to_missing(osds: &Osds, pairs: &[Pair]) -> bool
    ensures { result ≡ list_any (λ p. is_missing osds.now p.to) pairs.now }
{
    pairs.iter().any(|pair| !exists_osd(osds, pair.to))
}

/// Whether an explicit set of a group that is there has an OSD that does not exist.
#[tactic(auto, unfolding(crate::specs::Exceptions::set_leads_nowhere))]
fn set_leads_nowhere(map: &CephMap, set: &GroupOsds) -> bool
    ensures { result ≡ set_leads_nowhere map.now set.now }
{
    is_group(&map.pools, &set.group) && any_missing(&map.osds, &set.osds)
}

/// Whether pairs of a group that is there lead to an OSD that does not exist.
#[tactic(auto, unfolding(crate::specs::Exceptions::pairs_lead_nowhere))]
fn pairs_lead_nowhere(map: &CephMap, group: &GroupPairs) -> bool
    ensures { result ≡ pairs_lead_nowhere map.now group.now }
{
    is_group(&map.pools, &group.group) && any_to_missing(&map.osds, &group.pairs)
}

/// Whether some explicit set of a group that is there has an OSD that does not exist.
fn sets_lead_nowhere(map: &CephMap, sets: &[GroupOsds]) -> bool
    ensures { result ≡ list_any (set_leads_nowhere map.now) sets.now }
{
    sets.iter().any(|set| set_leads_nowhere(map, set))
}

/// Whether pairs of some group that is there lead to an OSD that does not exist.
fn any_pairs_lead_nowhere(map: &CephMap, groups: &[GroupPairs]) -> bool
    ensures { result ≡ list_any (pairs_lead_nowhere map.now) groups.now }
{
    groups.iter().any(|group| pairs_lead_nowhere(map, group))
}

/// Whether an exception of a group that is there leads to an OSD that does not exist.
#[tactic(auto, unfolding(crate::specs::Exceptions::leads_nowhere))]
pub(crate) fn leads_nowhere(map: &CephMap) -> bool
    ensures { result ≡ leads_nowhere map.now }
{
    sets_lead_nowhere(map, &map.upmaps.sets) || any_pairs_lead_nowhere(map, &map.upmaps.pairs)
}
