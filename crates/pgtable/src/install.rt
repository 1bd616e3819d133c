//! The patches of a table, put in: what is kept of the old tables is moved. It takes no memory.

ghost use Rattle.std.specs.Prelude.{◌≡◌, ◌≢◌, ℕ, length, map, slice_get, Some, IfSome};
ghost use Rattle.std.specs.List.{zip};
ghost use Rattle.pgtable.specs.declared.patch.KeptTable.{KeptTable};
ghost use Rattle.grouptable.specs.Tables.{IsPatchFor};
ghost use Rattle.pgtable.specs.Patches.{with_kept, with_patch, FitsAt, FitAll, FitGroups, patches_of};
ghost use Rattle.pgtable.specs.PoolPatches.{patches_by, AreBelow};

use crate::group_patches::{GroupPatches, PoolPatch};
use crate::patch::{KeptTable, NewTables, Patch, TablePatch};
use crate::pool_table::PoolTable;
use crate::table::PgTable;
use grouptable::GroupPatch;
use std::mem;

/// Gives some groups of a pool other sets, where there are any.
fn install_groups(table: &mut PoolTable, patch: Option<GroupPatch>)
    requires { IfSome patch (IsPatchFor table.old.groups) }
    ensures { table.new ≡ with_patch table.old patch }
{
    if let Some(patch) = patch {
        table.groups.install(patch);
    }
}

/// Takes what stays of a pool's table out of the old ones, and gives some groups other sets.
fn keep_one(old: &mut [PoolTable], table: &mut PoolTable, kept: KeptTable)
    requires { FitsAt old.old kept }
    ensures table { table.new ≡ with_kept old.old table.old (Some kept) }
    ensures others { (j : ℕ) → j ≢ kept.at → slice_get old.new j ≡ slice_get old.old j }
    ensures long { length old.new ≡ length old.old }
{
    mem::swap(&mut table.groups, &mut old[kept.at].groups);
    install_groups(table, kept.patch);
}

/// Takes what stays of a pool's table out of the old ones, where something stays, and gives some groups other sets.
fn keep(old: &mut [PoolTable], table: &mut PoolTable, kept: Option<KeptTable>)
    requires { (k : KeptTable) → kept ≡ Some k → FitsAt old.old k }
    ensures table { table.new ≡ with_kept old.old table.old kept }
    ensures others { (j : ℕ) → ((k : KeptTable) → kept ≡ Some k → j ≢ k.at)
        → slice_get old.new j ≡ slice_get old.old j }
    ensures long { length old.new ≡ length old.old }
{
    if let Some(kept) = kept {
        keep_one(old, table, kept);
    }
}

/// Takes what stays out of the old tables, into the places of the new ones.
fn keep_all(old: &mut [PoolTable], pools: &mut [PoolTable], mut kept: Vec<Option<KeptTable>>)
    requires { FitAll old.old pools.old kept.items }
    ensures { pools.new ≡ map (λ e. with_kept old.old e.0 e.1) (zip pools.old kept.items) }
{
    let most = pools.len();
    for at in 0..most {
        let one = kept[at].take();
        keep(old, &mut pools[at], one);
    }
}

/// Puts other sets into the tables of their pools. It takes no memory.
fn install_some(pools: &mut [PoolTable], mut some: Vec<PoolPatch>)
    requires below { AreBelow some.items (length pools.old) }
    requires fit { FitGroups pools.old (patches_by some.items (length pools.old)) }
    ensures { pools.new ≡ map (λ e. with_patch e.0 e.1) (zip pools.old (patches_by some.items (length pools.old))) }
{
    while let Some(one) = some.pop() {
        let at = one.at;
        install_groups(&mut pools[at], Some(one.patch));
    }
}

/// Gives groups of the pools their other sets. It takes no memory.
fn install_all(pools: &mut [PoolTable], patches: GroupPatches)
    requires { FitGroups pools.old (patches_of patches) }
    ensures { pools.new ≡ map (λ e. with_patch e.0 e.1) (zip pools.old (patches_of patches)) }
{
    install_some(pools, patches.some);
}

impl PgTable {
    ghost use Rattle.std.specs.Prelude.{◌≡◌};
    ghost use Rattle.pgtable.specs.Patches.{FitsTables, Fits, LeadsTo, after_patch, pools_after_patch};
    ghost use Rattle.osdmap.specs.Maps.{ClusterMap};
    ghost use Rattle.keylist.specs.Order.{IsRising};
    ghost use Rattle.pgtable.specs.Tables.{table_id, IsTableOf};

    /// Makes of the table what a patch of it leads to. It takes no memory.
    pub fn install(&mut self, patch: Patch)
        requires { Fits self.old patch }
        ensures value { self.new ≡ after_patch self.old patch }
        ensures table { (m : ClusterMap) → LeadsTo m self.old patch → IsTableOf self.new m }
    {
        self.install_tables(patch.tables);
        self.up = patch.up;
    }

    /// Gives some groups of the pools other sets, or makes other tables those of the pools.
    fn install_tables(&mut self, tables: TablePatch)
        requires fits { FitsTables self.old tables }
        requires rise { IsRising table_id (pools_after_patch self.old.pools tables) }
        ensures pools { self.new.pools ≡ pools_after_patch self.old.pools tables }
        ensures up { self.new.up ≡ self.old.up }
    {
        match tables {
            TablePatch::Groups(patches) => install_all(&mut self.pools, patches),
            TablePatch::Pools(NewTables { mut pools, kept }) => {
                keep_all(&mut self.pools, &mut pools, kept);
                self.pools = pools;
            }
        }
    }
}
