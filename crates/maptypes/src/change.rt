//! Changes, and the incrementals that they are with an epoch (Ceph, OSDMap.h: `OSDMap::Incremental`).

ghost use Rattle.std.specs.Prelude.{◌≡◌, [], IfOk, IfSome};
ghost use Rattle.std.specs.List.{All};
ghost use Rattle.maptypes.specs.CrushMaps.{IsCrushMap};
ghost use Rattle.maptypes.specs.Growth.{IsGrowth};
ghost use Rattle.maptypes.specs.Named.{no_exceptions};
ghost use Rattle.maptypes.specs.Ordered.{OrdersPools, OrdersOsds, OrdersExceptions};
ghost use Rattle.maptypes.specs.Pools.{IsWithinLimits};

use crate::crush_map::CrushMap;
use crate::exception::{Exception, Explicit, Items};
use crate::grow::Grow;
use crate::pg::Pg;
use crate::pool::Pool;
use crate::short::Blank;
use keylist::{Entries, Keyed, sort_entries};
use mapparts::{ExceptionChanges, OsdChanges, PoolChanges, Profile};
use refusal::Memory;
use std::alloc::Global;
use std::marker::Model;

/// The parts of a change by families, each list in any order. Those of a family act in the order in which they stand in
/// it.
#[derive(Debug, Drop)]
pub struct ChangeParts {
    /// By whose limit the pools after the change are counted: there may be 32, in a stock cluster 256.
    pub profile: Profile,
    /// The pools that are taken away with their exceptions, those that then come, and those that grow.
    pub pools: PoolChanges<u32, Pool, Grow>,
    /// The forest and the rules that come in place of those of the map.
    pub crush: Option<CrushMap>,
    /// The OSDs that go down, and those that then come up.
    pub osds: OsdChanges<u32>,
    /// The OSDs that get another reweight.
    pub weights: Entries<Reweight>,
    /// The explicit sets that are taken away, and those that then come.
    pub explicit: ExceptionChanges<Pg, Explicit>,
    /// The pairs of groups that are taken away, and those that then come.
    pub items: ExceptionChanges<Pg, Items>,
}

/// A part that has no entries.
fn nothing<T>(alloc: Global) -> Entries<T>
    ensures { result ≡ [] }
{
    Entries::new(Vec::new(alloc))
}

/// No exceptions go or come.
fn no_exceptions<G, E>(alloc: Global) -> ExceptionChanges<G, E>
    ensures { result ≡ no_exceptions }
{
    ExceptionChanges {
        gone: nothing(alloc),
        come: nothing(alloc),
    }
}

impl ChangeParts {
    ghost use Rattle.std.specs.Prelude.{◌≡◌};
    ghost use Rattle.maptypes.specs.Named.{no_parts};

    /// No part at all.
    pub fn none(alloc: Global, profile: Profile) -> ChangeParts
        ensures { result ≡ no_parts profile }
    {
        ChangeParts {
            profile,
            pools: PoolChanges {
                gone: nothing(alloc),
                come: nothing(alloc),
                grow: nothing(alloc),
            },
            crush: None,
            osds: OsdChanges {
                down: nothing(alloc),
                up: nothing(alloc),
            },
            weights: nothing(alloc),
            explicit: no_exceptions(alloc),
            items: no_exceptions(alloc),
        }
    }
}

/// An OSD and its new reweight, in parts of 65,536.
#[derive(Clone, Copy, Debug, PartialEq, Eq)]
pub struct Reweight {
    /// 0 to 4,095.
    pub osd: u32,
    /// 65,536 is the whole; more is refused with `BadWeight` (22).
    pub weight: u32,
}

impl Keyed for Reweight {
    ghost key_of = { λ reweight. reweight.osd };

    fn key(&self) -> u64 {
        u64::from(self.osd)
    }
}

/// A change, each part in ascending order of its keys.
#[derive(Debug, Drop)]
pub struct Change {
    parts: ChangeParts,
}

impl Model for Change {
    ghost use Rattle.maptypes.specs.declared.change.ChangeParts.{ChangeParts};
    ghost use Rattle.maptypes.specs.Ordered.{IsChange};

    ghost Value = { ChangeParts };

    ghost view = { λ c. c.parts };

    ghost invariant = { λ c. IsChange c.parts };
}

/// What a change does with pools, each list in ascending order of its keys.
fn ordered_pools(
    pools: PoolChanges<u32, Pool, Grow>,
) -> Result<PoolChanges<u32, Pool, Grow>, Memory>
    ensures { IfOk result (OrdersPools pools) }
{
    Ok(PoolChanges {
        gone: sort_entries(pools.gone)?,
        come: sort_entries(pools.come)?,
        grow: sort_entries(pools.grow)?,
    })
}

/// What it does with OSDs, in the same order.
fn ordered_osds(osds: OsdChanges<u32>) -> Result<OsdChanges<u32>, Memory>
    ensures { IfOk result (OrdersOsds osds) }
{
    Ok(OsdChanges {
        down: sort_entries(osds.down)?,
        up: sort_entries(osds.up)?,
    })
}

/// What it does with exceptions of one kind, in the same order.
fn ordered_exceptions<E: Blank>(
    exceptions: ExceptionChanges<Pg, Exception<E>>,
) -> Result<ExceptionChanges<Pg, Exception<E>>, Memory>
    ensures { IfOk result (OrdersExceptions exceptions) }
{
    Ok(ExceptionChanges {
        gone: sort_entries(exceptions.gone)?,
        come: sort_entries(exceptions.come)?,
    })
}

/// Each growth is within its limits: for a proof alone.
fn are_growths(growths: &[Grow])
    ensures { All IsGrowth growths.now }
{
    for growth in growths {
        let _ = growth.pgp_num();
    }
}

/// What holds in a CRUSH map, where there is one: for a proof alone.
fn is_crush_map(crush: &Option<CrushMap>)
    ensures { IfSome crush.now IsCrushMap }
{
    if let Some(crush) = crush {
        let _ = crush.rules();
    }
}

/// Each pool is within its limits: for a proof alone.
fn are_within_limits(pools: &[Pool])
    ensures { All IsWithinLimits pools.now }
{
    for pool in pools {
        pool.is_within_limits();
    }
}

impl Change {
    ghost use Rattle.std.specs.Prelude.{◌≡◌, IfOk, IfSome};
    ghost use Rattle.std.specs.List.{All};
    ghost use Rattle.maptypes.specs.CrushMaps.{IsCrushMap};
    ghost use Rattle.maptypes.specs.Growth.{IsGrowth};
    ghost use Rattle.keylist.specs.Order.{IsRising};
    ghost use Rattle.maptypes.specs.Exceptions.{key_of};
    ghost use Rattle.maptypes.specs.Named.{items_alone};
    ghost use Rattle.maptypes.specs.Pools.{IsWithinLimits};
    ghost use Rattle.maptypes.specs.Ordered.{IsOrdered, IsInOrder};

    /// The change of these parts, each put into ascending order of its keys, doubles in their order.
    ///
    /// # Errors
    ///
    /// `Memory` (30) where there is no memory for it.
    pub fn new(parts: ChangeParts) -> Result<Change, Memory>
        ensures { IfOk result (IsOrdered parts) }
    {
        let pools = ordered_pools(parts.pools)?;
        let osds = ordered_osds(parts.osds)?;
        let weights = sort_entries(parts.weights)?;
        let explicit = ordered_exceptions(parts.explicit)?;
        let items = ordered_exceptions(parts.items)?;
        are_within_limits(&pools.come);
        are_growths(&pools.grow);
        is_crush_map(&parts.crush);
        Ok(Change {
            parts: ChangeParts {
                profile: parts.profile,
                pools,
                crush: parts.crush,
                osds,
                weights,
                explicit,
                items,
            },
        })
    }

    /// The change that gives groups their pairs, by group upwards, and does nothing else.
    ///
    /// # Errors
    ///
    /// `Memory` (30) where there is no memory for it.
    pub fn of_items(alloc: Global, profile: Profile, items: Vec<Items>) -> Result<Change, Memory>
        requires { IsRising key_of items.items }
        ensures { IfOk result (λ change. change ≡ items_alone profile items.items) }
    {
        let mut parts = ChangeParts::none(alloc, profile);
        parts.items.come = Entries::new(items);
        let change = Change::new(parts)?;
        Ok(change)
    }

    /// The parts, each in ascending order of its keys.
    pub fn parts(&self) -> &ChangeParts
        ensures value { result.now ≡ self.now }
        ensures in_order { IsInOrder self.now }
        ensures pools_within { All IsWithinLimits self.now.pools.come }
        ensures growths_within { All IsGrowth self.now.pools.grow }
        ensures crush_map { IfSome self.now.crush IsCrushMap }
    {
        &self.parts
    }
}

/// A change with the epoch of the map after it.
#[derive(Debug, Drop)]
pub struct Incremental {
    epoch: u64,
    change: Change,
}

impl Model for Incremental {
    ghost use Rattle.maptypes.specs.Incrementals.{Step};

    ghost Value = { Step };

    ghost view = { λ i. record { epoch = i.epoch; change = i.change } };
}

impl Incremental {
    ghost use Rattle.std.specs.Prelude.{◌≡◌};

    /// The incremental of a change that leads to the map of this epoch.
    pub fn new(epoch: u64, change: Change) -> Incremental
        ensures epoch { result.epoch ≡ epoch }
        ensures change { result.change ≡ change }
    {
        Incremental { epoch, change }
    }

    /// The epoch of the map after it.
    pub fn epoch(&self) -> u64
        ensures { result ≡ self.now.epoch }
    {
        self.epoch
    }

    /// The change.
    pub fn change(&self) -> &Change
        ensures { result.now ≡ self.now.change }
    {
        &self.change
    }
}
