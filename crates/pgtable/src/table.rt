//! The table of a map.

ghost use Rattle.std.specs.Prelude.{◌≡◌, IfOk};
ghost use Rattle.osdmap.specs.Maps.{osd_is_up};
ghost use Rattle.pgtable.specs.Tables.{ups_of};

use crate::pool_table::PoolTable;
use crate::rooms::Rooms;
use crate::shown::show_set;
use keylist::{Keyed, entry_of};
use maptypes::{Pg, UpSet};
use osdmap::OsdMap;
use refusal::Memory;
use std::alloc::Global;
use std::marker::Model;
use std::thread::Threads;

/// The mapped sets of all groups of a map, which OSDs of it are up, and for each OSD the groups in whose set it stands.
#[derive(Drop)]
pub struct PgTable {
    pub(crate) pools: Vec<PoolTable>,
    pub(crate) up: Vec<bool>,
}

impl Model for PgTable {
    ghost use Rattle.std.specs.Prelude.{◌≤◌, length};
    ghost use Rattle.buckets.specs.Limits.{max_devices};
    ghost use Rattle.mapparts.specs.Limits.{max_pools};
    ghost use Rattle.keylist.specs.Order.{IsRising};
    ghost use Rattle.pgtable.specs.Tables.{TableFacts, table_id};

    ghost Value = { TableFacts };

    ghost view = { λ t. record { pools = t.pools.items; up = t.up.items } };

    ghost invariant = { λ t. record {
      few_pools : length t.pools.items ≤ max_pools;
      pools_rise : IsRising table_id t.pools.items;
      few_osds : length t.up.items ≤ max_devices;
    } };
}

/// Whether an OSD is up.
fn is_up(map: &OsdMap, osd: u32) -> bool
    ensures { result ≡ osd_is_up map.now.map osd }
{
    map.osd(osd).is_some_and(|state| state.up)
}

/// Which OSDs are up, by number; or `Memory` (30).
pub(crate) fn ups_of(alloc: Global, map: &OsdMap) -> Result<Vec<bool>, Memory>
    ensures { IfOk result (λ up. up.items ≡ ups_of map.now.map) }
{
    let mut up = Vec::with_capacity(alloc, map.max_osd() as usize)?;
    for osd in 0..map.max_osd() {
        up.push(is_up(map, osd))?;
    }
    Ok(up)
}

impl PgTable {
    ghost use Rattle.std.specs.Prelude.{◌≡◌, ◌≤◌, ◌<◌, true, false, length, Option, slice_index_or, IfOk, OnOk, MatchOption};
    ghost use Rattle.std.specs.List.{find, sum_by};
    ghost use Rattle.std.specs.Option.{option_copied, option_map, option_map_or};
    ghost use Rattle.buckets.specs.Limits.{max_devices};
    ghost use Rattle.mapparts.specs.Limits.{max_pools};
    ghost use Rattle.grouptable.specs.Sets.{groups_of};
    ghost use Rattle.osdmap.specs.Maps.{ClusterMap, pool_at};
    ghost use Rattle.pgtable.specs.Index.{up_at, index_of, count_of, count_in};
    ghost use Rattle.pgtable.specs.Rooms.{RunMore};
    ghost use Rattle.keylist.specs.Order.{IsRising};
    ghost use Rattle.pgtable.specs.Tables.{IsTableOf, pool_in, pool_table, table_id, tables_of, shown_at, shown_groups, shown_in};

    /// The table of a map, by a run of a rule for each of its groups.
    ///
    /// # Errors
    ///
    /// `Memory` (30) where there is no memory for it.
    pub fn build<R: Threads + Sync>(
        rt: &R,
        alloc: Global,
        map: &OsdMap,
        rooms: &mut Rooms,
    ) -> Result<PgTable, Memory>
        ensures table { IfOk result (λ t. IsTableOf t map.now.map) }
        ensures runs { OnOk result (RunMore (sum_by (λ p. p.pg_num) map.now.map.pools) rooms.old rooms.new) }
    {
        map.holds_together();
        let pools = rooms.tables(rt, alloc, map, map.pools())?;
        let up = ups_of(alloc, map)?;
        Ok(PgTable { pools, up })
    }

    /// The tables of the pools.
    pub(crate) fn pools(&self) -> &[PoolTable]
        ensures pools { result.now ≡ self.now.pools }
        ensures few { length self.now.pools ≤ max_pools }
        ensures rise { IsRising table_id self.now.pools }
    {
        &self.pools
    }

    /// The pool of an id: it stands where it would without gaps between the ids, else it is found by halving.
    fn pool(&self, id: u32) -> Option<&PoolTable>
        ensures { option_copied result ≡ pool_in self.now id }
    {
        let key = u64::from(id);
        let first = self.pools.first()?;
        match self.pools.get(id.saturating_sub(first.pool.id()) as usize) {
            Some(table) if table.key() == key => Some(table),
            _ => entry_of(&self.pools, key),
        }
    }

    /// Whether an OSD is up.
    fn is_up(&self, osd: u32) -> bool
        ensures value { result ≡ slice_index_or self.now.up osd false }
        ensures small { result ≡ true → osd < max_devices }
    {
        self.up.get(osd as usize).copied().unwrap_or(false)
    }

    /// The set of a group without the OSDs that are down.
    fn shown_at(&self, pg: Pg) -> Option<UpSet>
        ensures { result ≡ shown_at self.now pg }
    {
        let table = self.pool(pg.pool)?;
        let set = table.groups.set(pg.number)?;
        Some(show_set(set, table.pool.kind(), &self.up))
    }

    /// In how many groups' sets an OSD stands that is up.
    fn shown_count(&self, osd: u32) -> usize
        ensures { result ≡ length (shown_groups self.now osd) }
    {
        if !self.is_up(osd) {
            return 0;
        }
        let mut count = 0;
        for table in &self.pools {
            count += table.count(osd);
        }
        count
    }

    /// In how many sets of groups of a pool an OSD stands that is up.
    fn shown_in(&self, pool: u32, osd: u32) -> usize
        ensures { result ≡ shown_in self.now pool osd }
    {
        match self.pool(pool) {
            Some(table) if self.is_up(osd) => table.count(osd),
            _ => 0,
        }
    }

    /// The groups in whose sets an OSD stands that is up.
    fn shown_groups(&self, alloc: Global, osd: u32) -> Result<Vec<Pg>, Memory>
        ensures { IfOk result (λ groups. groups.items ≡ shown_groups self.now osd) }
    {
        let mut groups = Vec::with_capacity(alloc, self.shown_count(osd))?;
        if !self.is_up(osd) {
            return Ok(groups);
        }
        for table in &self.pools {
            table.add_groups(osd, &mut groups)?;
        }
        Ok(groups)
    }

    /// The up set of a group, where it is there.
    pub fn up(&self, pg: Pg) -> Option<UpSet>
        ensures { (m : ClusterMap) → IsTableOf self.now m → result ≡ up_at m pg }
    {
        self.shown_at(pg)
    }

    /// The mapped sets of the groups of a pool, where it is there.
    pub fn sets(&self, pool: u32) -> Option<&PoolTable>
        ensures { (m : ClusterMap) → IsTableOf self.now m
            → option_copied result ≡ option_map (pool_table m) (pool_at m.pools pool) }
    {
        self.pool(pool)
    }

    /// In how many groups' up sets an OSD stands: of a group once, however often it stands there.
    pub fn count(&self, osd: u32) -> usize
        ensures { (m : ClusterMap) → IsTableOf self.now m → result ≡ count_of m osd }
    {
        self.shown_count(osd)
    }

    /// In how many up sets of groups of a pool an OSD stands.
    pub fn count_in(&self, pool: u32, osd: u32) -> usize
        ensures value { (m : ClusterMap) → IsTableOf self.now m → result ≡ count_in m pool osd }
        ensures few { (m : ClusterMap) → IsTableOf self.now m → result ≤ count_of m osd }
    {
        self.shown_in(pool, osd)
    }

    /// The groups in whose up set an OSD stands, by pool upwards, then by number.
    ///
    /// # Errors
    ///
    /// `Memory` (30) where there is no memory for it.
    pub fn groups(&self, alloc: Global, osd: u32) -> Result<Vec<Pg>, Memory>
        ensures { IfOk result (λ groups. (m : ClusterMap) → IsTableOf self.now m → groups.items ≡ index_of m osd) }
    {
        let groups = self.shown_groups(alloc, osd)?;
        Ok(groups)
    }
}
