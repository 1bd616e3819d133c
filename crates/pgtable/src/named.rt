//! The pools in which the groups stand that a change can concern, one after another.

ghost use Rattle.std.specs.Prelude.{◌≡◌, ◌<◌, ◌≤◌, ◌^◌, ℕ, false, Some, length, slice_get, slice_index_or};
ghost use Rattle.std.specs.List.{list_any};
ghost use Rattle.keylist.specs.Order.{IsRising};
ghost use Rattle.maptypes.specs.Exceptions.{pg_key};
ghost use Rattle.pgtable.specs.declared.pool_table.PoolTable.{PoolTable};
ghost use Rattle.pgtable.specs.Candidates.{is_of_pool};
ghost use Rattle.pgtable.specs.Tables.{table_id};

use crate::candidates::count_below;
use crate::pool_table::PoolTable;
use crate::update::Update;
use keylist::Keyed;
use maptypes::Pg;

/// How many of some tables, by the ids of their pools, come before the one of an id; by halving.
fn count_before(tables: &[PoolTable], id: u32) -> usize
    requires { IsRising table_id tables.now }
    ensures within { result ≤ length tables.now }
    ensures below { (k : ℕ) (d : PoolTable) → k < result → table_id (slice_index_or tables.now k d) < id }
{
    tables.partition_point(|table| table.pool.id() < id)
}

/// Where the first pool stands, from a place on, of which there may be one of some groups; behind all where there is
/// none.
fn next_named(tables: &[PoolTable], groups: &[Pg], at: usize) -> usize
    requires tables { IsRising table_id tables.now }
    requires groups { IsRising pg_key groups.now }
    requires inside { at ≤ length tables.now }
    ensures from { at ≤ result }
    ensures within { result ≤ length tables.now }
    ensures others { (k : ℕ) (q : PoolTable) → at ≤ k → k < result → slice_get tables.now k ≡ Some q
        → q.pool.pg_num ≤ 2 ^ 32 → list_any (is_of_pool q.pool) groups.now ≡ false }
{
    let Some(table) = tables.get(at) else {
        return at;
    };
    let first = Pg {
        pool: table.pool.id(),
        number: 0,
    };
    match groups.get(count_below(groups, first.key())) {
        Some(group) => count_before(tables, group.pool).max(at),
        None => tables.len(),
    }
}

impl Update<'_> {
    ghost use Rattle.std.specs.Prelude.{◌≡◌, ◌<◌, ◌≤◌, ◌^◌, ℕ, [], Some, length, slice_get};
    ghost use Rattle.keylist.specs.Order.{IsRising};
    ghost use Rattle.pgtable.specs.declared.pool_table.PoolTable.{PoolTable};
    ghost use Rattle.pgtable.specs.Patches.{concerned_numbers};
    ghost use Rattle.pgtable.specs.Tables.{table_id};

    /// Where the first pool stands, from a place on, of which the change may concern exceptions of groups; behind all
    /// where there is none.
    pub fn next_concerned(&self, tables: &[PoolTable], at: usize) -> usize
        requires tables { IsRising table_id tables.now }
        requires inside { at ≤ length tables.now }
        ensures from { at ≤ result }
        ensures within { result ≤ length tables.now }
        ensures others { (k : ℕ) (q : PoolTable) → at ≤ k → k < result → slice_get tables.now k ≡ Some q
            → q.pool.pg_num ≤ 2 ^ 32
            → [] ≡ concerned_numbers self.now.source.now.map self.now.change.now q.pool }
    {
        self.holds();
        next_named(tables, &self.groups, at)
    }
}
