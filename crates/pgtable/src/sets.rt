//! The mapped sets of groups after a change, by their source.

use crate::candidates::{may_be_in, names_rise};
use crate::concerned::concerned_numbers;
use crate::mapped::{mapped_set, store_set};
use crate::patch::PatchedGroups;
use crate::rooms::{LEAST_SHARED, Rooms};
use crate::shares::Shares;
use crate::update::Update;
use crush::Work;
use grouptable::{GroupTable, OsdSet};
use maptypes::{Pg, Pool};
use refusal::{Memory, Refusal};
use std::alloc::Global;
use std::thread::Threads;

impl Update<'_> {
    ghost use Rattle.std.specs.Prelude.{◌≡◌, ◌<◌, true, false, [], length, Some, IfOk, OnOk, All};
    ghost use Rattle.osdmap.specs.Maps.{pool_at};
    ghost use Rattle.osdmap.specs.Placement.{mapped_set, RunsOnce};
    ghost use Rattle.pgtable.specs.After.{map_after, HasPool, is_touched_by, pool_evals};
    ghost use Rattle.pgtable.specs.Patches.{concerned_numbers, with_sets, LeadGroups};
    ghost use Rattle.pgtable.specs.Rooms.{RunMore};
    ghost use Rattle.pgtable.specs.Tables.{pool_table, RunsMore};

    /// The mapped set of a group of a pool by the map after the change; or `Memory` (30).
    fn placed_set(&self, pool: &Pool, number: u32, work: &mut Work) -> Result<OsdSet, Memory>
        requires there { HasPool self.now pool.now }
        requires after { self.now.is_after ≡ true }
        ensures set { IfOk result (λ set. set ≡ mapped_set (map_after self.now) pool.now number) }
        ensures run { RunsOnce work.old work.new result }
    {
        self.holds();
        let placing = self.source.placing(pool);
        mapped_set(&placing, number, work)
    }

    /// A pool of the map after the change is one of the map before it, where that is the source: for proofs alone.
    fn had_pool(&self, pool: &Pool)
        requires there { HasPool self.now pool.now }
        requires before { self.now.is_after ≡ false }
        ensures { pool_at self.now.before.now.map.pools pool.now.id ≡ Some pool.now }
    {
        self.holds();
        let _ = pool;
    }

    /// The mapped set of a group of a pool after the change, by the map before it: its raw set there under what the
    /// change makes of its exceptions; or `Memory` (30).
    fn changed_set(&self, pool: &Pool, number: u32, work: &mut Work) -> Result<OsdSet, Memory>
        requires there { HasPool self.now pool.now }
        requires inside { number < pool.now.pg_num }
        requires before { self.now.is_after ≡ false }
        ensures set { IfOk result (λ set. set ≡ mapped_set (map_after self.now) pool.now number) }
        ensures run { RunsOnce work.old work.new result }
    {
        let pg = Pg {
            pool: pool.id(),
            number,
        };
        self.holds();
        self.had_pool(pool);
        let map = self.before;
        let change = self.change;
        names_rise(map, change);
        let explicit = change.explicit_after(map.explicit(pg), pg);
        let items = change.items_after(map.items(pg), pg);
        match map.mapped_with(pg, explicit, items, work) {
            Ok(set) => Ok(store_set(&set)),
            Err(Refusal::Memory) => Err(Memory),
            Err(_) => unreachable!(),
        }
    }

    /// The mapped set of a group of a pool after the change, by one run of the pool's rule; or `Memory` (30).
    fn set(&self, pool: &Pool, number: u32, work: &mut Work) -> Result<OsdSet, Memory>
        requires there { HasPool self.now pool.now }
        requires inside { number < pool.now.pg_num }
        ensures set { IfOk result (λ set. set ≡ mapped_set (map_after self.now) pool.now number) }
        ensures run { RunsOnce work.old work.new result }
    {
        if self.is_after {
            self.placed_set(pool, number, work)
        } else {
            self.changed_set(pool, number, work)
        }
    }

    /// Some groups of a pool with their mapped sets after the change, by one run of the pool's rule for each, all in
    /// one room; or `Memory` (30).
    pub fn with_sets_in_one(
        &self,
        alloc: Global,
        pool: &Pool,
        numbers: &[u32],
        work: &mut Work,
    ) -> Result<Vec<(u32, OsdSet)>, Memory>
        requires there { HasPool self.now pool.now }
        requires inside { All (λ number. number < pool.now.pg_num) numbers.now }
        ensures changes { IfOk result (λ changes. changes.items ≡ with_sets (map_after self.now) pool.now numbers.now) }
        ensures runs { OnOk result (RunsMore (length numbers.now) work.old work.new) }
    {
        let _ = work.runs();
        let mut changes = Vec::with_capacity(alloc, numbers.len())?;
        for number in numbers {
            changes.push((*number, self.set(pool, *number, work)?))?;
        }
        Ok(changes)
    }

    /// Some groups of a pool with their mapped sets after the change, by one run of the pool's rule for each; or
    /// `Memory` (30).
    fn with_sets<R: AllocGlobal + Threads + Sync>(
        &self,
        rt: &R,
        pool: &Pool,
        numbers: &[u32],
        rooms: &mut Rooms,
    ) -> Result<Vec<(u32, OsdSet)>, Memory>
        requires there { HasPool self.now pool.now }
        requires inside { All (λ number. number < pool.now.pg_num) numbers.now }
        ensures changes { IfOk result (λ changes. changes.items ≡ with_sets (map_after self.now) pool.now numbers.now) }
        ensures runs { OnOk result (RunMore (length numbers.now) rooms.old rooms.new) }
    {
        if rooms.rooms.len() < 2 || numbers.len() < LEAST_SHARED as usize {
            self.with_sets_in_one(rt.alloc(), pool, numbers, &mut rooms.rooms[0].work)
        } else {
            self.with_sets_in_shares(rt, pool, numbers, rooms)
        }
    }

    /// The same, a share of the groups in each room, side by side.
    fn with_sets_in_shares<R: AllocGlobal + Threads + Sync>(
        &self,
        rt: &R,
        pool: &Pool,
        numbers: &[u32],
        rooms: &mut Rooms,
    ) -> Result<Vec<(u32, OsdSet)>, Memory>
        requires there { HasPool self.now pool.now }
        requires inside { All (λ number. number < pool.now.pg_num) numbers.now }
        ensures changes { IfOk result (λ changes. changes.items ≡ with_sets (map_after self.now) pool.now numbers.now) }
        ensures runs { OnOk result (RunMore (length numbers.now) rooms.old rooms.new) }
    {
        let size = numbers.len().div_ceil(rooms.rooms.len());
        let shares = Shares {
            update: self,
            pool,
            numbers,
            size,
        };
        shares.changes(rt, rt.alloc(), &mut rooms.rooms)
    }

    /// Whether the change may concern exceptions of groups of a pool.
    fn may_concern(&self, pool: &Pool) -> bool
        ensures { result ≡ false → [] ≡ concerned_numbers self.now.source.now.map self.now.change.now pool.now }
    {
        self.holds();
        may_be_in(pool, &self.groups)
    }

    /// Other sets for the groups of a pool whose exceptions the change concerns, where it does not touch the pool as a
    /// whole, by a run of the pool's rule for each of them; or `Memory` (30).
    #[inline(never)]
    pub fn patch_concerned<R: AllocGlobal + Threads + Sync>(
        &self,
        rt: &R,
        pool: &Pool,
        groups: &GroupTable,
        rooms: &mut Rooms,
    ) -> Result<PatchedGroups, Memory>
        requires groups { groups.now ≡ (pool_table self.now.before.now.map pool.now).groups }
        requires there { HasPool self.now pool.now }
        requires untouched { is_touched_by self.now pool.now ≡ false }
        ensures lead { IfOk result (λ r. LeadGroups (map_after self.now) pool.now groups.now r.patch) }
        ensures evals { IfOk result (λ r. r.evals ≡ pool_evals self.now pool.now) }
        ensures runs { OnOk result (RunMore (pool_evals self.now pool.now) rooms.old rooms.new) }
    {
        self.holds();
        let numbers = concerned_numbers(rt.alloc(), self.source, self.change, pool, &self.groups)?;
        if numbers.is_empty() {
            return Ok(PatchedGroups {
                patch: None,
                evals: 0,
            });
        }
        let changes = self.with_sets(rt, pool, &numbers, rooms)?;
        let evals = changes.len();
        let patch = groups.prepare(rt.alloc(), changes)?;
        Ok(PatchedGroups {
            patch: Some(patch),
            evals,
        })
    }

    /// Other sets for the groups of a pool whose exceptions the change concerns, where it does not touch the pool as a
    /// whole, by a run of the pool's rule for each of them; or `Memory` (30).
    #[inline(always)]
    pub fn patch_groups<R: AllocGlobal + Threads + Sync>(
        &self,
        rt: &R,
        pool: &Pool,
        groups: &GroupTable,
        rooms: &mut Rooms,
    ) -> Result<PatchedGroups, Memory>
        requires groups { groups.now ≡ (pool_table self.now.before.now.map pool.now).groups }
        requires there { HasPool self.now pool.now }
        requires untouched { is_touched_by self.now pool.now ≡ false }
        ensures lead { IfOk result (λ r. LeadGroups (map_after self.now) pool.now groups.now r.patch) }
        ensures evals { IfOk result (λ r. r.evals ≡ pool_evals self.now pool.now) }
        ensures runs { OnOk result (RunMore (pool_evals self.now pool.now) rooms.old rooms.new) }
    {
        self.holds();
        if !self.may_concern(pool) {
            return Ok(PatchedGroups {
                patch: None,
                evals: 0,
            });
        }
        self.patch_concerned(rt, pool, groups, rooms)
    }
}
