//! The pools that a change names, those that stay, and those that come: `UnknownPool` (23), `PoolExists` (24).

use crate::in_place::with_growths;
use crate::map::OsdMap;
use keylist::{has, last_of};
use maptypes::{Change, Grow, NamesGroup, Pool};

impl OsdMap {
    ghost use Rattle.std.specs.Prelude.{◌≡◌};
    ghost use Rattle.std.specs.List.{list_all};
    ghost use Rattle.keylist.specs.Keys.{entry_at};
    ghost use Rattle.maptypes.specs.Exceptions.{has_pool, has_pool_of};
    ghost use Rattle.osdmap.specs.Maps.{pool_at};
    ghost use Rattle.osdmap.specs.Changes.{pools_kept, pools_there, pools_after, names_pools, brings_new};

    /// The pool of an id, where it stays.
    fn kept_pool(&self, change: &Change, id: u32) -> Option<Pool>
        ensures { result ≡ entry_at (λ p. p.id) (pools_kept self.now.map change.now) id }
    {
        if has(&change.parts().pools.gone, u64::from(id)) {
            None
        } else {
            self.pool(id)
        }
    }

    /// The pool of an id once the old pools went and the new ones came.
    pub(crate) fn pool_there(&self, change: &Change, id: u32) -> Option<Pool>
        ensures { result ≡ pool_at (pools_there self.now.map change.now) id }
    {
        match last_of(&change.parts().pools.come, u64::from(id)) {
            Some(pool) => Some(*pool),
            None => self.kept_pool(change, id),
        }
    }

    /// The pool of an id after a change.
    pub(crate) fn pool_after(&self, change: &Change, id: u32) -> Option<Pool>
        ensures { result ≡ pool_at (pools_after self.now.map change.now) id }
    {
        match self.pool_there(change, id) {
            Some(pool) => Some(with_growths(&change.parts().pools.grow, pool)),
            None => None,
        }
    }

    /// Whether the map has a pool of an id.
    fn has_pool(&self, id: u32) -> bool
        ensures { result ≡ has_pool self.now.map.pools id }
    {
        self.pool(id).is_some()
    }

    /// Whether a pool of an id stays.
    fn keeps_pool(&self, change: &Change, id: u32) -> bool
        ensures { result ≡ has_pool (pools_kept self.now.map change.now) id }
    {
        self.kept_pool(change, id).is_some()
    }

    /// Whether a pool is there once the old ones went and the new ones came.
    fn has_pool_there(&self, change: &Change, id: u32) -> bool
        ensures { result ≡ has_pool (pools_there self.now.map change.now) id }
    {
        self.pool_there(change, id).is_some()
    }

    /// Whether each pool that grows is there then.
    fn grow_there(&self, change: &Change) -> bool
        ensures { result ≡ list_all (λ g. has_pool (pools_there self.now.map change.now) g.pool) change.now.pools.grow }
    {
        let growths: &[Grow] = &change.parts().pools.grow;
        growths
            .iter()
            .all(|growth| self.has_pool_there(change, growth.pool()))
    }

    /// Whether the map has each pool of some ids.
    fn all_pools(&self, ids: &[u32]) -> bool
        ensures { result ≡ list_all (has_pool self.now.map.pools) ids.now }
    {
        ids.iter().all(|id| self.has_pool(*id))
    }

    /// Whether the pool of each group that is named is there then.
    #[tactic(auto, unfolding(maptypes::specs::Exceptions::has_pool_of))]
    fn have_pools<G: NamesGroup>(&self, change: &Change, groups: &[G]) -> bool
        ensures { result ≡ list_all (λ g. has_pool_of (pools_there self.now.map change.now) (G.named g)) groups.now }
    {
        groups.iter().all(
            |names: &G| -> bool
                ensures { result ≡ has_pool_of (pools_there self.entry.now.map change.entry.now) (G.named names.now) }
            { self.has_pool_there(change, names.group().pool) },
        )
    }

    /// Whether each pool that a change takes away is there, and once the new ones came each that grows and the pool of
    /// each group that it names.
    #[tactic(auto, unfolding(crate::specs::Changes::names_pools, maptypes::specs::Named::all_named_groups))]
    pub(crate) fn names_pools(&self, change: &Change) -> bool
        ensures { result ≡ names_pools self.now.map change.now }
    {
        let parts = change.parts();
        self.all_pools(&parts.pools.gone)
            && self.grow_there(change)
            && self.have_pools(change, &parts.explicit.gone)
            && self.have_pools(change, &parts.items.gone)
            && self.have_pools(change, &parts.explicit.come)
            && self.have_pools(change, &parts.items.come)
    }

    /// Whether no pool comes whose id stays.
    #[tactic(auto, unfolding(crate::specs::Changes::brings_new))]
    pub(crate) fn brings_new(&self, change: &Change) -> bool
        ensures { result ≡ brings_new self.now.map change.now }
    {
        let new: &[Pool] = &change.parts().pools.come;
        new.iter().all(|pool| !self.keeps_pool(change, pool.id()))
    }
}
