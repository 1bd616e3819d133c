//! The tables of all pools as a change makes them: with other sets for some groups, or anew.

ghost use Rattle.std.specs.Prelude.{◌≡◌, ◌≢◌, ◌++◌, ◌∷◌, [], List, Some, None};
ghost use Rattle.pgtable.specs.declared.pool_table.PoolTable.{PoolTable};

use crate::group_patches::GroupPatches;
use crate::patch::{KeptTable, NewTable, NewTables, PatchedTables, TablePatch};
use crate::pool_table::PoolTable;
use crate::rooms::Rooms;
use crate::table::PgTable;
use crate::update::Update;
use keylist::Keyed;
use maptypes::Pool;
use refusal::Memory;
use std::alloc::Global;
use std::thread::Threads;

/// Of a pool whose table is the last of some that were made anew, this table, which is then taken out.
fn take_last(tables: &mut Vec<PoolTable>, pool: &Pool) -> Option<NewTable>
    ensures own { (ts : List PoolTable) (t : PoolTable) → tables.old.items ≡ ts ++ t ∷ [] → t.pool.id ≡ pool.now.id
        → (result ≡ Some (record { table = t; kept = None; evals = pool.now.pg_num })) × (tables.new.items ≡ ts) }
    ensures other { ((ts : List PoolTable) (t : PoolTable) → tables.old.items ≡ ts ++ t ∷ []
        → t.pool.id ≢ pool.now.id) → (result ≡ None) × (tables.new.items ≡ tables.old.items) }
{
    if tables.last()?.pool.id() != pool.id() {
        return None;
    }
    let table = tables.pop()?;
    Some(NewTable {
        table,
        kept: None,
        evals: pool.pg_num() as usize,
    })
}

impl PgTable {
    ghost use Rattle.std.specs.Prelude.{◌≡◌, true, slice_get, false, is_some, IfOk, OnOk};
    ghost use Rattle.pgtable.specs.After.{map_after, HasPool, is_touched_by, pool_evals, change_evals};
    ghost use Rattle.maptypes.specs.Named.{is_empty};
    ghost use Rattle.pgtable.specs.Patches.{MakesPool, LeadTables};
    ghost use Rattle.pgtable.specs.Rooms.{RunMore};
    ghost use Rattle.pgtable.specs.Tables.{IsTableOf, pool_in};

    /// The position of the pool of an id; by halving.
    fn position(&self, id: u32) -> usize
        requires { is_some (pool_in self.now id) ≡ true }
        ensures { slice_get self.now.pools result ≡ pool_in self.now id }
    {
        let id = u64::from(id);
        match self.pools().binary_search_by_key(&id, |table| table.key()) {
            Ok(at) => at,
            Err(_) => unreachable!(),
        }
    }

    /// The table of a pool that a change does not touch as a whole: what is kept of it; or `Memory` (30).
    fn keep_table<R: AllocGlobal + Threads + Sync>(
        &self,
        rt: &R,
        update: &Update,
        pool: &Pool,
        rooms: &mut Rooms,
    ) -> Result<NewTable, Memory>
        requires table { IsTableOf self.now update.now.before.now.map }
        requires there { HasPool update.now pool.now }
        requires untouched { is_touched_by update.now pool.now ≡ false }
        ensures made { IfOk result (λ r. MakesPool self.now.pools (map_after update.now) pool.now r.table r.kept) }
        ensures evals { IfOk result (λ r. r.evals ≡ pool_evals update.now pool.now) }
        ensures runs { OnOk result (RunMore (pool_evals update.now pool.now) rooms.old rooms.new) }
    {
        update.holds();
        let at = self.position(pool.id());
        let groups = update.patch_groups(rt, pool, &self.pools()[at].groups, rooms)?;
        Ok(NewTable {
            table: PoolTable::empty(rt.alloc(), *pool),
            kept: Some(KeptTable {
                at,
                patch: groups.patch,
            }),
            evals: groups.evals,
        })
    }

    /// The tables of all pools that take the place of the old ones: those of the pools that the change touches as a
    /// whole are made together; or `Memory` (30).
    fn replace_tables<R: AllocGlobal + Threads + Sync>(
        &self,
        rt: &R,
        update: &Update,
        rooms: &mut Rooms,
    ) -> Result<PatchedTables, Memory>
        requires table { IsTableOf self.now update.now.before.now.map }
        requires after { update.now.is_after ≡ true }
        ensures lead { IfOk result (λ r. LeadTables (map_after update.now) self.now r.tables) }
        ensures evals { IfOk result (λ r. r.evals ≡ change_evals update.now) }
        ensures runs { OnOk result (RunMore (change_evals update.now) rooms.old rooms.new) }
    {
        update.holds();
        let source = update.source;
        let touched = update.touched_pools(rt.alloc())?;
        let mut made_anew = rooms.tables(rt, rt.alloc(), source, &touched)?;
        let mut pools = Vec::with_capacity(rt.alloc(), source.pools().len())?;
        let mut kept = Vec::with_capacity(rt.alloc(), source.pools().len())?;
        let mut evals = 0;
        for pool in source.pools() {
            let made = match take_last(&mut made_anew, pool) {
                Some(made) => made,
                None => self.keep_table(rt, update, pool, rooms)?,
            };
            pools.push(made.table)?;
            kept.push(made.kept)?;
            evals += made.evals;
        }
        Ok(PatchedTables {
            tables: TablePatch::Pools(NewTables { pools, kept }),
            evals,
        })
    }

    /// Other sets for groups of the pools, which all stay in place; or `Memory` (30). No pool is looked at but those of
    /// which the change may concern a group.
    #[inline(always)]
    fn patch_in_place<R: AllocGlobal + Threads + Sync>(
        &self,
        rt: &R,
        update: &Update,
        rooms: &mut Rooms,
    ) -> Result<PatchedTables, Memory>
        requires table { IsTableOf self.now update.now.before.now.map }
        requires before { update.now.is_after ≡ false }
        ensures lead { IfOk result (λ r. LeadTables (map_after update.now) self.now r.tables) }
        ensures evals { IfOk result (λ r. r.evals ≡ change_evals update.now) }
        ensures runs { OnOk result (RunMore (change_evals update.now) rooms.old rooms.new) }
    {
        update.holds();
        let tables = self.pools();
        let mut at = update.next_concerned(tables, 0);
        let mut patches = GroupPatches::none(rt.alloc(), at);
        let mut evals = 0;
        while at < tables.len() {
            let table = &tables[at];
            let groups = update.patch_concerned(rt, &table.pool, &table.groups, rooms)?;
            patches.push(groups.patch)?;
            evals += groups.evals;
            at = update.next_concerned(tables, at + 1);
            patches.skip_to(at);
        }
        Ok(PatchedTables {
            tables: TablePatch::Groups(patches),
            evals,
        })
    }

    /// What is made of the tables of the pools, which all stay in place, where the change concerns no group: nothing.
    #[inline(always)]
    fn leave_all(&self, alloc: Global, update: &Update) -> PatchedTables
        requires table { IsTableOf self.now update.now.before.now.map }
        requires before { update.now.is_after ≡ false }
        requires idle { is_empty update.now.groups.items ≡ true }
        ensures lead { LeadTables (map_after update.now) self.now result.tables }
        ensures evals { result.evals ≡ change_evals update.now }
        ensures none { result.evals ≡ 0 }
    {
        update.holds();
        let patches = GroupPatches::none(alloc, self.pools().len());
        PatchedTables {
            tables: TablePatch::Groups(patches),
            evals: 0,
        }
    }

    /// What a change makes of the tables of all pools; or `Memory` (30). Where the map before the change is the source
    /// of the sets after it, all pools stay in place, and so do their tables.
    #[inline(always)]
    pub(crate) fn patch_tables<R: AllocGlobal + Threads + Sync>(
        &self,
        rt: &R,
        update: &Update,
        rooms: &mut Rooms,
    ) -> Result<PatchedTables, Memory>
        requires { IsTableOf self.now update.now.before.now.map }
        ensures lead { IfOk result (λ r. LeadTables (map_after update.now) self.now r.tables) }
        ensures evals { IfOk result (λ r. r.evals ≡ change_evals update.now) }
        ensures runs { OnOk result (RunMore (change_evals update.now) rooms.old rooms.new) }
    {
        if update.is_after {
            self.replace_tables(rt, update, rooms)
        } else if update.is_idle() {
            Ok(self.leave_all(rt.alloc(), update))
        } else {
            self.patch_in_place(rt, update, rooms)
        }
    }
}
