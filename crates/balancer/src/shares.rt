//! Who is a candidate, and what OSDs weigh.

ghost use Rattle.std.specs.Prelude.{◌≡◌, ◌*◌, ◌≤◌, ◌<◌, ◌^◌, ◌&&◌, not, pos, length, slice_index, slice_index_or, Some, IfOk};
ghost use Rattle.std.specs.List.{sum_by};
ghost use Rattle.crush.specs.Limits.{full_weight};
ghost use Rattle.buckets.specs.Limits.{max_devices};
ghost use Rattle.crush.specs.Paths as paths;
ghost use Rattle.mapparts.specs.Limits.{max_groups};
ghost use Rattle.osdmap.specs.Maps.{pool_at, osd_exists, osd_is_up};
ghost use Rattle.osdmap.specs.Mapped.{is_weightless};
ghost use Rattle.osdmap.specs.Placement.{steps_of};
ghost use Rattle.pgtable.specs.Index.{count_in};
ghost use Rattle.pgtable.specs.Tables.{IsTableOf};
ghost use Rattle.balancer.specs.Shares.{is_candidate, osds_of, candidate_osds, weight_in_map, AreItemWeights, AreSmall};

use maptypes::Pool;
use osdmap::OsdMap;
use pgtable::PgTable;
use refusal::Memory;
use std::alloc::Global;

/// Whether the rule of a pool reaches an OSD.
fn reaches(map: &OsdMap, pool: &Pool, osd: u32) -> bool
    ensures { result ≡ paths.reaches map.now.map.buckets (steps_of map.now.map pool.now) (pos osd) }
{
    match map.rule(pool.rule()) {
        Some(rule) => rule.reaches(map.forest(), osd),
        None => false,
    }
}

/// Whether an OSD exists, is up, and is not out.
fn is_in_use(map: &OsdMap, osd: u32) -> bool
    ensures { result ≡ (osd_exists map.now.map osd && osd_is_up map.now.map osd
        && not (is_weightless map.now.map.weights osd)) }
{
    match map.osd(osd) {
        Some(state) => state.exists && state.up && state.weight != 0,
        None => false,
    }
}

/// Whether groups of a pool may be moved from or to an OSD.
#[tactic(auto, unfolding(crate::specs::Shares::is_candidate))]
pub(crate) fn is_candidate(map: &OsdMap, pool: &Pool, osd: u32) -> bool
    ensures { result ≡ is_candidate map.now.map pool.now osd }
{
    reaches(map, pool, osd) && is_in_use(map, osd)
}

/// The OSDs between which groups of a pool may be moved, by number upwards; or `Memory` (30).
pub(crate) fn candidates(alloc: Global, map: &OsdMap, pool: &Pool) -> Result<Vec<u32>, Memory>
    ensures osds { IfOk result (λ osds. osds.items ≡ candidate_osds map.now.map pool.now) }
    ensures few { IfOk result (λ osds. length osds.items ≤ max_devices) }
{
    let mut osds = Vec::with_capacity(alloc, map.max_osd() as usize)?;
    for osd in 0..map.max_osd() {
        if is_candidate(map, pool, osd) {
            osds.push(osd)?;
        }
    }
    Ok(osds)
}

/// The reweight of an OSD: 0 to 65,536.
pub(crate) fn reweight(map: &OsdMap, osd: u32) -> u32
    ensures value { result ≡ slice_index map.now.map.weights osd }
    ensures few { result ≤ full_weight }
{
    map.holds_together();
    match map.osd(osd) {
        Some(state) => state.weight,
        None => 0,
    }
}

/// The weight that an OSD has in its bucket, by the list of all of them.
fn listed_weight(weights: &[u32], osd: u32) -> u32
    ensures { result ≡ slice_index_or weights.now osd 0 }
{
    weights.get(osd as usize).copied().unwrap_or(0)
}

/// The weight of an OSD: that in its bucket times its reweight.
pub(crate) fn weight_of(map: &OsdMap, weights: &[u32], osd: u32) -> u64
    requires { AreItemWeights map.now.map.buckets (length map.now.map.presences) weights.now }
    ensures value { result ≡ weight_in_map map.now.map osd }
    ensures small { result < 2 ^ 48 }
{
    map.holds_together();
    u64::from(listed_weight(weights, osd)) * u64::from(reweight(map, osd))
}

/// What some OSDs weigh together.
pub(crate) fn total(map: &OsdMap, weights: &[u32], osds: &[u32]) -> u64
    requires few { length osds.now ≤ max_devices }
    requires weights { AreItemWeights map.now.map.buckets (length map.now.map.presences) weights.now }
    ensures value { result ≡ sum_by (weight_in_map map.now.map) osds.now }
    ensures small { result ≤ 2 ^ 60 }
{
    let mut total = 0;
    for osd in osds {
        total += weight_of(map, weights, *osd);
    }
    total
}

/// What OSDs carry has 32 bits, as each number shows once it is read.
pub(crate) fn are_small(carried: &[i32])
    ensures { AreSmall carried.now }
{
    for groups in carried {
        let _groups = *groups;
    }
}

/// How many groups of a pool stand on an OSD: at most 65,536.
pub(crate) fn count(map: &OsdMap, table: &PgTable, pool: &Pool, osd: u32) -> u64
    requires table { IsTableOf table.now map.now.map }
    requires there { pool_at map.now.map.pools pool.now.id ≡ Some pool.now }
    ensures value { result ≡ count_in map.now.map pool.now.id osd }
    ensures few { result ≤ max_groups }
{
    map.holds_together();
    pool.is_within_limits();
    table.count_in(pool.id(), osd) as u64
}

/// How many places of groups of a pool some OSDs have together.
pub(crate) fn places(map: &OsdMap, table: &PgTable, pool: &Pool, osds: &[u32]) -> u64
    requires table { IsTableOf table.now map.now.map }
    requires there { pool_at map.now.map.pools pool.now.id ≡ Some pool.now }
    requires few { length osds.now ≤ max_devices }
    ensures value { result ≡ sum_by (count_in map.now.map pool.now.id) osds.now }
    ensures small { result ≤ max_devices * max_groups }
{
    let mut places = 0;
    for osd in osds {
        places += count(map, table, pool, *osd);
    }
    places
}
