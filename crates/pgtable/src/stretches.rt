//! Pools of a map that are placed side by side: each room has a stretch of them, and makes their tables.

ghost use Rattle.std.specs.Prelude.{◌≡◌, ◌≤◌, ◌*◌, length, nat_lt, IfOk, OnOk};
ghost use Rattle.std.specs.List.{list_any};
ghost use Rattle.maptypes.specs.Pools.{total_groups};
ghost use Rattle.pgtable.specs.Stretches.{HasPools, begun_before, tables_for};
ghost use Rattle.pgtable.specs.Tables.{RunsMore};

use crate::mapped::all_mapped_sets;
use crate::pool_table::PoolTable;
use crate::rooms::{MANY_GROUPS, Room, Rooms, count_groups, forget, take_tables};
use crush::Work;
use grouptable::GroupTable;
use maptypes::Pool;
use osdmap::OsdMap;
use refusal::Memory;
use std::alloc::Global;
use std::thread;
use std::thread::Threads;

/// How many pools begin before a group, where the groups of all are counted pool by pool.
fn begun_before(pools: &[Pool], groups: u64) -> usize
    ensures value { result ≡ begun_before groups pools.now }
    ensures few { result ≤ length pools.now }
{
    let mut left = groups;
    for i in 0..pools.len() {
        if left == 0 {
            return i;
        }
        left = left.saturating_sub(u64::from(pools[i].pg_num()));
    }
    pools.len()
}

/// The tables of pools of a map, all in one room, by a run for each of their groups; or `Memory` (30).
fn tables_in_one(
    alloc: Global,
    map: &OsdMap,
    pools: &[Pool],
    work: &mut Work,
) -> Result<Vec<PoolTable>, Memory>
    requires { HasPools map.now.map pools.now }
    ensures tables { IfOk result (λ tables. tables.items ≡ tables_for map.now.map pools.now) }
    ensures runs { OnOk result (RunsMore (total_groups pools.now) work.old work.new) }
{
    let _ = work.runs();
    let mut tables = Vec::with_capacity(alloc, pools.len())?;
    for pool in pools {
        let sets = all_mapped_sets(alloc, map, pool, work)?;
        let groups = GroupTable::of(alloc, sets)?;
        tables.push(PoolTable {
            pool: *pool,
            groups,
        })?;
    }
    Ok(tables)
}

/// Pools of a map, in stretches of so many groups, up to the end of a pool: one for each room.
#[derive(Drop)]
pub(crate) struct Stretches<'a> {
    pub map: &'a OsdMap,
    pub pools: &'a [Pool],
    pub size: u64,
    ghost there: { HasPools map.now.map pools.now },
}

impl Stretches<'_> {
    ghost use Rattle.std.specs.Prelude.{◌≡◌, ◌<◌, ◌≤◌, ◌*◌, ◌^◌, ℕ, map, length, take, slice_index_or, IfOk, OnOk, IfSome, IsSome};
    ghost use Rattle.maptypes.specs.Pools.{total_groups};
    ghost use Rattle.pgtable.specs.declared.rooms.Room.{Room};
    ghost use Rattle.pgtable.specs.Rooms.{RunMore};
    ghost use Rattle.pgtable.specs.Stretches.{first_of, stretch_of, IsStretch, tables_for};

    /// The first pool of the stretch of a room.
    fn first(&self, room: usize) -> usize
        ensures value { result ≡ first_of room self.now.size self.now.pools.now }
        ensures few { result ≤ length self.now.pools.now }
    {
        begun_before(self.pools, (room as u64).saturating_mul(self.size))
    }

    /// The pools of the stretch of a room.
    fn stretch(&self, room: usize) -> &[Pool]
        ensures { result.now ≡ stretch_of room self.now.size self.now.pools.now }
    {
        let from = self.first(room);
        let to = self.first(room.saturating_add(1));
        &self.pools[from..to]
    }

    /// The stretch of a room is placed.
    fn place(&self, alloc: Global, number: usize, room: &mut Room)
        ensures { IfSome room.new.tables (λ tables. IsStretch self.now.map.now.map
            (stretch_of number self.now.size self.now.pools.now) room.old.work room.new.work tables.items) }
    {
        let pools = self.stretch(number);
        room.tables = tables_in_one(alloc, self.map, pools, &mut room.work).ok();
    }

    /// The stretches of all rooms are placed, each in a thread of its own, or one after another where no thread can be
    /// made.
    fn place_all<R: Threads + Sync>(&self, rt: &R, alloc: Global, rooms: &mut [Room])
        requires { 0 < length rooms.old }
        ensures { (k : ℕ) (d : Room) → k < length rooms.old → IfSome (slice_index_or rooms.new k d).tables (λ tables.
            IsStretch self.now.map.now.map (stretch_of k self.now.size self.now.pools.now)
            (slice_index_or rooms.old k d).work (slice_index_or rooms.new k d).work tables.items) }
    {
        let threads = rooms.len();
        thread::for_each_mut(
            rt,
            rooms,
            threads,
            &|number, room| self.place(alloc, number, room),
        );
    }

    /// The tables of the stretches of all rooms, in their order; or `Memory` (30), which may have been short in a room.
    fn join(&self, alloc: Global, rooms: &mut [Room]) -> Result<Vec<PoolTable>, Memory>
        requires { (k : ℕ) (d : Room) → k < length rooms.old → IfSome (slice_index_or rooms.old k d).tables (λ tables.
            tables.items ≡ tables_for self.now.map.now.map (stretch_of k self.now.size self.now.pools.now)) }
        ensures tables { IfOk result (λ tables. tables.items ≡ tables_for self.now.map.now.map
            (take (first_of (length rooms.old) self.now.size self.now.pools.now) self.now.pools.now)) }
        ensures all { OnOk result ((k : ℕ) (d : Room) → k < length rooms.old
            → IsSome (slice_index_or rooms.old k d).tables) }
        ensures works { map (λ room. room.work) rooms.new ≡ map (λ room. room.work) rooms.old }
    {
        let mut tables = Vec::with_capacity(alloc, self.pools.len())?;
        for i in 0..rooms.len() {
            let Some(mut stretch) = take_tables(&mut rooms[i]) else {
                return Err(Memory);
            };
            tables.append(&mut stretch)?;
        }
        Ok(tables)
    }

    /// The tables of all pools, a stretch of them in each room; or `Memory` (30).
    pub(crate) fn tables<R: Threads + Sync>(
        &self,
        rt: &R,
        alloc: Global,
        rooms: &mut [Room],
    ) -> Result<Vec<PoolTable>, Memory>
        requires some { 0 < length rooms.old }
        requires few { total_groups self.now.pools.now < 2 ^ 32 }
        requires size { total_groups self.now.pools.now < length rooms.old * self.now.size }
        ensures tables { IfOk result (λ tables. tables.items ≡ tables_for self.now.map.now.map self.now.pools.now) }
        ensures runs { OnOk result (RunMore (total_groups self.now.pools.now) (map (λ room. room.work) rooms.old)
            (map (λ room. room.work) rooms.new)) }
    {
        self.place_all(rt, alloc, rooms);
        let tables = self.join(alloc, rooms);
        forget(rooms);
        tables
    }
}

/// Whether one of some pools has more than a quarter of so many groups.
fn has_large(pools: &[Pool], size: u64) -> bool
    ensures { result ≡ list_any (λ p. nat_lt size (p.pg_num * 4)) pools.now }
{
    pools.iter().any(|pool| size < u64::from(pool.pg_num()) * 4)
}

impl Rooms {
    ghost use Rattle.std.specs.Prelude.{◌≡◌, ◌<◌, ◌^◌, Some, IfOk, OnOk};
    ghost use Rattle.maptypes.specs.Pools.{total_groups};
    ghost use Rattle.osdmap.specs.Maps.{pool_at};
    ghost use Rattle.pgtable.specs.Rooms.{RunMore};
    ghost use Rattle.pgtable.specs.Stretches.{HasPools, tables_for};
    ghost use Rattle.pgtable.specs.Tables.{pool_table};

    /// The table of a pool of a map, by a run of the pool's rule for each of its groups; or `Memory` (30).
    fn table<R: Threads + Sync>(
        &mut self,
        rt: &R,
        alloc: Global,
        map: &OsdMap,
        pool: Pool,
    ) -> Result<PoolTable, Memory>
        requires { pool_at map.now.map.pools pool.id ≡ Some pool }
        ensures table { IfOk result (λ t. t ≡ pool_table map.now.map pool) }
        ensures runs { OnOk result (RunMore pool.pg_num self.old self.new) }
    {
        pool.is_within_limits();
        let sets = self.all_sets(rt, alloc, map, &pool)?;
        let groups = GroupTable::of(alloc, sets)?;
        Ok(PoolTable { pool, groups })
    }

    /// The tables of pools of a map, one pool after another; or `Memory` (30).
    fn tables_in_turn<R: Threads + Sync>(
        &mut self,
        rt: &R,
        alloc: Global,
        map: &OsdMap,
        pools: &[Pool],
    ) -> Result<Vec<PoolTable>, Memory>
        requires { HasPools map.now.map pools.now }
        ensures tables { IfOk result (λ tables. tables.items ≡ tables_for map.now.map pools.now) }
        ensures runs { OnOk result (RunMore (total_groups pools.now) self.old self.new) }
    {
        let _ = &self.rooms;
        let mut tables = Vec::with_capacity(alloc, pools.len())?;
        for pool in pools {
            tables.push(self.table(rt, alloc, map, *pool)?)?;
        }
        Ok(tables)
    }

    /// The tables of pools of a map, by a run for each of their groups; or `Memory` (30). Where there is more than one
    /// room, and no pool is large beside what each of them has to place, each room takes whole pools.
    pub(crate) fn tables<R: Threads + Sync>(
        &mut self,
        rt: &R,
        alloc: Global,
        map: &OsdMap,
        pools: &[Pool],
    ) -> Result<Vec<PoolTable>, Memory>
        requires there { HasPools map.now.map pools.now }
        requires few { total_groups pools.now < 2 ^ 32 }
        ensures tables { IfOk result (λ tables. tables.items ≡ tables_for map.now.map pools.now) }
        ensures runs { OnOk result (RunMore (total_groups pools.now) self.old self.new) }
    {
        let groups = count_groups(pools);
        let size = groups / self.rooms.len() as u64 + 1;
        if self.rooms.len() < 2 || groups < MANY_GROUPS || has_large(pools, size) {
            return self.tables_in_turn(rt, alloc, map, pools);
        }
        let stretches = Stretches { map, pools, size };
        stretches.tables(rt, alloc, &mut self.rooms)
    }
}
