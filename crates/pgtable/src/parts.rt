//! All groups of a pool, a large one side by side: each room has a part of them.

ghost use Rattle.std.specs.Prelude.{◌≡◌, Some};
ghost use Rattle.osdmap.specs.Maps.{pool_at};

use crate::mapped::{all_mapped_sets, sets_between};
use crate::rooms::{LEAST_SHARED, Room, Rooms, forget};
use grouptable::SetList;
use maptypes::Pool;
use osdmap::{OsdMap, Placing};
use refusal::Memory;
use std::alloc::Global;
use std::thread;
use std::thread::Threads;

/// A pool of a map, whose groups are placed in parts of so many, one for each room.
#[derive(Drop)]
pub(crate) struct Parts<'a> {
    pub placing: &'a Placing<'a>,
    pub size: usize,
    ghost there: { pool_at placing.now.map.now.map.pools placing.now.pool.id ≡ Some placing.now.pool },
}

impl Parts<'_> {
    ghost use Rattle.std.specs.Prelude.{◌≡◌, ◌<◌, ◌≤◌, ◌*◌, ℕ, map, length, slice_index_or, IfOk, OnOk, IfSome, IsSome};
    ghost use Rattle.pgtable.specs.declared.rooms.Room.{Room};
    ghost use Rattle.pgtable.specs.Rooms.{start_of, part_of, parts_before, IsPart, RunMore};
    ghost use Rattle.pgtable.specs.Tables.{pool_table};

    /// Where the part of a room begins.
    fn start(&self, room: usize) -> u32
        ensures { result ≡ start_of room self.now.size self.now.placing.now.pool.pg_num }
    {
        let count = self.placing.pool.pg_num();
        room.saturating_mul(self.size).min(count as usize) as u32
    }

    /// The part of a room is placed.
    fn place(&self, alloc: Global, number: usize, room: &mut Room)
        ensures { IfSome room.new.made (λ made. IsPart self.now.placing.now.map.now.map self.now.placing.now.pool
            number self.now.size room.old.work room.new.work made) }
    {
        let from = self.start(number);
        let to = self.start(number.saturating_add(1));
        room.made = sets_between(alloc, self.placing, from, to, &mut room.work).ok();
    }

    /// The parts of all rooms are placed, each in a thread of its own, or one after another where no thread can be
    /// made.
    fn place_all<R: Threads + Sync>(&self, rt: &R, alloc: Global, rooms: &mut [Room])
        requires { 0 < length rooms.old }
        ensures { (k : ℕ) (d : Room) → k < length rooms.old → IfSome (slice_index_or rooms.new k d).made (λ made.
            IsPart self.now.placing.now.map.now.map self.now.placing.now.pool k self.now.size
            (slice_index_or rooms.old k d).work (slice_index_or rooms.new k d).work made) }
    {
        let threads = rooms.len();
        thread::for_each_mut(
            rt,
            rooms,
            threads,
            &|number, room| self.place(alloc, number, room),
        );
    }

    /// The sets of the parts of all rooms, in their order; or `Memory` (30), which may have been short in a room.
    fn join(&self, alloc: Global, rooms: &[Room]) -> Result<SetList, Memory>
        requires { (k : ℕ) (d : Room) → k < length rooms.now → IfSome (slice_index_or rooms.now k d).made (λ made.
            made ≡ part_of self.now.placing.now.map.now.map self.now.placing.now.pool k self.now.size) }
        ensures sets { IfOk result (λ sets. sets ≡ parts_before self.now.placing.now.map.now.map
            self.now.placing.now.pool (length rooms.now) self.now.size) }
        ensures all { OnOk result ((k : ℕ) (d : Room) → k < length rooms.now
            → IsSome (slice_index_or rooms.now k d).made) }
    {
        let pool = self.placing.pool;
        pool.is_within_limits();
        let mut sets = SetList::with_room(alloc, usize::from(pool.size()), pool.pg_num() as usize)?;
        for room in rooms {
            let Some(part) = &room.made else {
                return Err(Memory);
            };
            sets.append(part)?;
        }
        Ok(sets)
    }

    /// The mapped sets of all groups of the pool, a part of them in each room; or `Memory` (30).
    pub(crate) fn sets<R: Threads + Sync>(
        &self,
        rt: &R,
        alloc: Global,
        rooms: &mut [Room],
    ) -> Result<SetList, Memory>
        requires some { 0 < length rooms.old }
        requires size { self.now.placing.now.pool.pg_num ≤ self.now.size * length rooms.old }
        ensures sets { IfOk result (λ sets. sets
            ≡ (pool_table self.now.placing.now.map.now.map self.now.placing.now.pool).groups) }
        ensures runs { OnOk result (RunMore self.now.placing.now.pool.pg_num (map (λ room. room.work) rooms.old)
            (map (λ room. room.work) rooms.new)) }
    {
        self.place_all(rt, alloc, rooms);
        let sets = self.join(alloc, rooms);
        forget(rooms);
        sets
    }
}

impl Rooms {
    ghost use Rattle.std.specs.Prelude.{◌≡◌, Some, IfOk, OnOk};
    ghost use Rattle.osdmap.specs.Maps.{pool_at};
    ghost use Rattle.pgtable.specs.Rooms.{RunMore};
    ghost use Rattle.pgtable.specs.Tables.{pool_table};

    /// The mapped sets of all groups of a pool of a map, all in one room; or `Memory` (30).
    fn sets_in_one(&mut self, alloc: Global, map: &OsdMap, pool: &Pool) -> Result<SetList, Memory>
        requires { pool_at map.now.map.pools pool.now.id ≡ Some pool.now }
        ensures sets { IfOk result (λ sets. sets ≡ (pool_table map.now.map pool.now).groups) }
        ensures runs { OnOk result (RunMore pool.now.pg_num self.old self.new) }
    {
        all_mapped_sets(alloc, map, pool, &mut self.rooms[0].work)
    }

    /// The mapped sets of all groups of a pool of a map, a part of them in each room; or `Memory` (30).
    fn sets_in_parts<R: Threads + Sync>(
        &mut self,
        rt: &R,
        alloc: Global,
        map: &OsdMap,
        pool: &Pool,
    ) -> Result<SetList, Memory>
        requires { pool_at map.now.map.pools pool.now.id ≡ Some pool.now }
        ensures sets { IfOk result (λ sets. sets ≡ (pool_table map.now.map pool.now).groups) }
        ensures runs { OnOk result (RunMore pool.now.pg_num self.old self.new) }
    {
        let placing = map.placing(pool);
        let size = (pool.pg_num() as usize).div_ceil(self.rooms.len());
        let parts = Parts {
            placing: &placing,
            size,
        };
        parts.sets(rt, alloc, &mut self.rooms)
    }

    /// The mapped sets of all groups of a pool of a map, by a run of the pool's rule for each; or `Memory` (30).
    pub(crate) fn all_sets<R: Threads + Sync>(
        &mut self,
        rt: &R,
        alloc: Global,
        map: &OsdMap,
        pool: &Pool,
    ) -> Result<SetList, Memory>
        requires { pool_at map.now.map.pools pool.now.id ≡ Some pool.now }
        ensures sets { IfOk result (λ sets. sets ≡ (pool_table map.now.map pool.now).groups) }
        ensures runs { OnOk result (RunMore pool.now.pg_num self.old self.new) }
    {
        if self.rooms.len() < 2 || pool.pg_num() < LEAST_SHARED {
            self.sets_in_one(alloc, map, pool)
        } else {
            self.sets_in_parts(rt, alloc, map, pool)
        }
    }
}
