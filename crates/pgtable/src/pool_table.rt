//! The sets of the groups of one pool.

ghost use Rattle.std.specs.Prelude.{◌≡◌};

use crate::shown::places_in;
use grouptable::GroupTable;
use keylist::Keyed;
use maptypes::{Pg, Pool, Short};
use refusal::Memory;
use std::alloc::Global;

/// The sets of the groups of one pool, and for each OSD the groups in whose set it stands.
#[derive(Drop)]
pub struct PoolTable {
    pub(crate) pool: Pool,
    pub(crate) groups: GroupTable,
}

impl PoolTable {
    ghost use Rattle.std.specs.Prelude.{◌≡◌, ◌++◌, ◌<◌, ◌≤◌, [], length, slice_get, Some, OnOk};
    ghost use Rattle.buckets.specs.Limits.{max_devices};
    ghost use Rattle.mapparts.specs.Limits.{max_groups};
    ghost use Rattle.maptypes.specs.Pools.{PoolFacts};
    ghost use Rattle.osdmap.specs.Maps.{ClusterMap};
    ghost use Rattle.osdmap.specs.Placement.{mapped_set};
    ghost use Rattle.pgtable.specs.Tables.{pool_table, groups_on};

    /// The table of a pool without its groups. It takes no memory.
    pub(crate) fn empty(alloc: Global, pool: Pool) -> PoolTable
        ensures { result ≡ record { pool = pool; groups = record { width = pool.size; sets = [] } } }
    {
        PoolTable {
            pool,
            groups: GroupTable::empty(alloc, usize::from(pool.size())),
        }
    }

    /// The set of a group, if there is one of this number.
    fn set(&self, number: u32) -> Option<Short<Option<u32>>>
        ensures { result ≡ slice_get self.now.groups.sets number }
    {
        let set = self.groups.set(number)?;
        Some(places_in(set))
    }

    /// The mapped set of a group of the pool, if there is one of this number.
    pub fn mapped(&self, number: u32) -> Option<Short<Option<u32>>>
        ensures { (m : ClusterMap) (p : PoolFacts) → self.now ≡ pool_table m p → number < p.pg_num
            → result ≡ Some (mapped_set m p number) }
    {
        self.set(number)
    }

    /// In how many groups' sets an OSD stands.
    pub(crate) fn count(&self, osd: u32) -> usize
        requires { osd < max_devices }
        ensures value { result ≡ length (groups_on osd self.now) }
        ensures few { result ≤ max_groups }
    {
        self.groups.groups(osd).len()
    }

    /// Adds the groups in whose set an OSD stands, by number upwards; or `Memory` (30).
    pub(crate) fn add_groups(&self, osd: u32, groups: &mut Vec<Pg>) -> Result<(), Memory>
        requires { osd < max_devices }
        ensures { OnOk result (groups.new.items ≡ groups.old.items ++ groups_on osd self.now) }
    {
        for number in self.groups.groups(osd) {
            groups.push(Pg {
                pool: self.pool.id(),
                number: u32::from(*number),
            })?;
        }
        Ok(())
    }
}

impl Keyed for PoolTable {
    ghost key_of = { λ table. table.pool.id };

    fn key(&self) -> u64 {
        u64::from(self.pool.id())
    }
}
