//! The mapped sets of the groups of a map, as they are stored.

ghost use Rattle.std.specs.Prelude.{◌≡◌, ◌<◌, ◌≤◌, ◌-◌, map, Some, IfOk, IfSome, OnOk, All};
ghost use Rattle.std.specs.List.{range_with_len};
ghost use Rattle.buckets.specs.Limits.{max_devices};
ghost use Rattle.osdmap.specs.Maps.{pool_at};
ghost use Rattle.osdmap.specs.Placement.{mapped_set, RunsOnce};
ghost use Rattle.pgtable.specs.Tables.{pool_table, RunsMore};

use crush::Work;
use grouptable::{OsdSet, SetList};
use maptypes::{Pool, UpSet};
use osdmap::{OsdMap, Placing};
use refusal::Memory;
use std::alloc::Global;

/// A set, as a table stores it.
pub(crate) fn store_set(set: &UpSet) -> OsdSet
    requires { All (λ place. IfSome place (λ osd. osd < max_devices)) set.now }
    ensures { result ≡ set.now }
{
    let mut stored = OsdSet::new();
    for place in set.places() {
        stored.push(*place);
    }
    stored
}

/// The mapped set of the group of a number, as a table stores it, by one run of the pool's rule; or `Memory` (30).
pub(crate) fn mapped_set(placing: &Placing, number: u32, work: &mut Work) -> Result<OsdSet, Memory>
    ensures set { IfOk result (λ set. set ≡ mapped_set placing.now.map.now.map placing.now.pool number) }
    ensures run { RunsOnce work.old work.new result }
{
    placing.map.holds_together();
    let set = placing.mapped_set(number, work)?;
    Ok(store_set(&set))
}

/// The mapped sets of the groups of a pool of a map from one number to below another, by a run of the pool's rule for
/// each; or `Memory` (30).
pub(crate) fn sets_between(
    alloc: Global,
    placing: &Placing,
    from: u32,
    to: u32,
    work: &mut Work,
) -> Result<SetList, Memory>
    requires there { pool_at placing.now.map.now.map.pools placing.now.pool.id ≡ Some placing.now.pool }
    requires range { from ≤ to }
    requires within { to ≤ placing.now.pool.pg_num }
    ensures sets { IfOk result (λ sets. sets ≡ record {
      width = placing.now.pool.size;
      sets = map (mapped_set placing.now.map.now.map placing.now.pool) (range_with_len from (to - from));
    }) }
    ensures runs { OnOk result (RunsMore (to - from) work.old work.new) }
{
    let _ = work.runs();
    placing.map.holds_together();
    let pool = placing.pool;
    pool.is_within_limits();
    let mut sets = SetList::with_room(alloc, usize::from(pool.size()), (to - from) as usize)?;
    for number in from..to {
        sets.push(&mapped_set(placing, number, work)?)?;
    }
    Ok(sets)
}

/// The mapped sets of all groups of a pool of a map, by a run of the pool's rule for each; or `Memory` (30).
pub(crate) fn all_mapped_sets(
    alloc: Global,
    map: &OsdMap,
    pool: &Pool,
    work: &mut Work,
) -> Result<SetList, Memory>
    requires { pool_at map.now.map.pools pool.now.id ≡ Some pool.now }
    ensures sets { IfOk result (λ sets. sets ≡ (pool_table map.now.map pool.now).groups) }
    ensures runs { OnOk result (RunsMore pool.now.pg_num work.old work.new) }
{
    let placing = map.placing(pool);
    sets_between(alloc, &placing, 0, pool.pg_num(), work)
}
