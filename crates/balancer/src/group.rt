//! Groups as a plan keeps them.

ghost use Rattle.std.specs.Prelude.{◌≡◌, ◌<◌, ◌≤◌, length, position, Some, IfOk};
ghost use Rattle.buckets.specs.Limits.{max_devices};
ghost use Rattle.osdmap.specs.Maps.{pool_at};
ghost use Rattle.maptypes.specs.Sets.{replace, is_of};
ghost use Rattle.pgtable.specs.Tables.{pool_table, IsTableOf};
ghost use Rattle.balancer.specs.Moves.{pairs_in};
ghost use Rattle.balancer.specs.Boards.{is_fixed, group_at, board_groups, group_after};

use crate::moves::Move;
use maptypes::{Blank, Pair, Pg, Pool, Short};
use osdmap::OsdMap;
use pgtable::PgTable;
use pgtable::pool_table::PoolTable;
use refusal::Memory;
use std::alloc::Global;

/// What is kept of a group.
#[derive(Clone, Copy, Debug)]
pub struct Group {
    /// Its mapped set.
    pub places: Short<Option<u32>>,
    /// Its pairs.
    pub pairs: Short<Pair>,
    /// Whether an OSD of its explicit set is out, so that pairs do nothing.
    pub is_fixed: bool,
}

/// A few entries, in place.
fn short_of<T: Blank>(entries: &[T]) -> Short<T>
    requires { length entries.now ≤ 20 }
    ensures { result ≡ entries.now }
{
    let mut short = Short::new();
    for entry in entries {
        short.push(*entry);
    }
    short
}

/// The pairs of a group.
fn pairs_in(map: &OsdMap, pg: Pg) -> Short<Pair>
    ensures { result ≡ pairs_in map.now.map pg }
{
    match map.items(pg) {
        Some(pairs) => short_of(pairs),
        None => Short::new(),
    }
}

/// Whether an OSD of the explicit set of a group is out, so that pairs do nothing.
#[tactic(auto, unfolding(crate::specs::Boards::is_fixed))]
fn is_fixed(map: &OsdMap, pg: Pg) -> bool
    ensures { result ≡ is_fixed map.now.map pg }
{
    match map.explicit(pg) {
        Some(osds) => map.has_weightless(osds),
        None => false,
    }
}

/// What is kept of a group of a pool, of whose table its mapped set is read.
#[tactic(auto, unfolding(crate::specs::Boards::group_at))]
fn group_at(map: &OsdMap, table: &PoolTable, pool: &Pool, number: u32) -> Group
    requires table { table.now ≡ pool_table map.now.map pool.now }
    requires there { number < pool.now.pg_num }
    ensures { result ≡ group_at map.now.map pool.now number }
{
    let Some(places) = table.mapped(number) else {
        unreachable!();
    };
    let pg = Pg {
        pool: pool.id(),
        number,
    };
    Group {
        places,
        pairs: pairs_in(map, pg),
        is_fixed: is_fixed(map, pg),
    }
}

/// What is kept of the groups of a pool, by number; or `Memory` (30).
pub(crate) fn groups(
    alloc: Global,
    map: &OsdMap,
    table: &PgTable,
    pool: &Pool,
) -> Result<Vec<Group>, Memory>
    requires pool { pool_at map.now.map.pools pool.now.id ≡ Some pool.now }
    requires table { IsTableOf table.now map.now.map }
    ensures { IfOk result (λ groups. groups.items ≡ board_groups map.now.map pool.now) }
{
    let Some(table) = table.sets(pool.id()) else {
        unreachable!();
    };
    let mut groups = Vec::with_capacity(alloc, pool.pg_num() as usize)?;
    for number in 0..pool.pg_num() {
        groups.push(group_at(map, table, pool, number))?;
    }
    Ok(groups)
}

/// The place where an OSD first stands.
fn place_of(places: &[Option<u32>], osd: u32) -> Option<usize>
    ensures { result ≡ position (is_of osd) places.now }
{
    places.iter().position(|place| *place == Some(osd))
}

/// One OSD goes to another where it first stands.
fn replace(places: &mut Short<Option<u32>>, pair: Pair)
    ensures { places.new ≡ replace pair places.old }
{
    if let Some(place) = place_of(places.as_slice(), u32::from(pair.from)) {
        places.set(place, Some(u32::from(pair.to)));
    }
}

/// The group after a move of it.
pub(crate) fn move_group(group: Group, step: Move) -> Group
    requires room { length group.pairs < 20 }
    requires ends { (step.from < max_devices) × (step.to < max_devices) }
    ensures { result ≡ group_after group step }
{
    let pair = Pair {
        from: step.from as u16,
        to: step.to as u16,
    };
    let mut group = group;
    replace(&mut group.places, pair);
    group.pairs.push(pair);
    group
}
