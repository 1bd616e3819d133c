//! The groups that a change names, and what it says of them: `UnknownGroup` (25), `BadNewException` (26).

use crate::map::OsdMap;
use maptypes::{Change, Entry, Exception, NamesGroup, Pg};

impl OsdMap {
    ghost use Rattle.std.specs.Prelude.{◌≡◌, ◌&&◌};
    ghost use Rattle.std.specs.List.{list_all};
    ghost use Rattle.maptypes.specs.Exceptions.{has_group, is_sound, all_named, target, sides};
    ghost use Rattle.osdmap.specs.Maps.{osd_exists};
    ghost use Rattle.osdmap.specs.Changes.{pools_after, names_groups, excepts_soundly};

    /// Whether a group is there after a change.
    fn group_after(&self, change: &Change, pg: Pg) -> bool
        ensures { result ≡ has_group (pools_after self.now.map change.now) pg }
    {
        self.pool_after(change, pg.pool)
            .is_some_and(|pool| pg.number < pool.pg_num())
    }

    /// Whether each group that is named is there after a change.
    fn are_groups<G: NamesGroup>(&self, change: &Change, groups: &[G]) -> bool
        ensures { result ≡ list_all (λ g. has_group (pools_after self.now.map change.now) (G.named g)) groups.now }
    {
        groups.iter().all(
            |names: &G| -> bool
                ensures { result ≡ has_group (pools_after self.entry.now.map change.entry.now) (G.named names.now) }
            { self.group_after(change, names.group()) },
        )
    }

    /// Whether each group that a change names is there after it.
    #[tactic(auto, unfolding(crate::specs::Changes::names_groups, maptypes::specs::Named::all_named_groups))]
    pub(crate) fn names_groups(&self, change: &Change) -> bool
        ensures { result ≡ names_groups self.now.map change.now }
    {
        let parts = change.parts();
        self.are_groups(change, &parts.explicit.gone)
            && self.are_groups(change, &parts.items.gone)
            && self.are_groups(change, &parts.explicit.come)
            && self.are_groups(change, &parts.items.come)
    }

    /// Whether each OSD exists that an exception which comes names.
    pub(crate) fn knows_excepted(&self, change: &Change) -> bool
        ensures { result ≡ (list_all (all_named target (osd_exists self.now.map)) change.now.explicit.come
            && list_all (all_named sides (osd_exists self.now.map)) change.now.items.come) }
    {
        let parts = change.parts();
        self.all_named_exist(&parts.explicit.come) && self.all_named_exist(&parts.items.come)
    }

    /// Whether an exception that comes is sound for its pool after the change.
    fn is_sound_after<E: Entry>(&self, change: &Change, exception: &Exception<E>) -> bool
        ensures { result ≡ is_sound E.sound (pools_after self.now.map change.now) exception.now }
    {
        match self.pool_after(change, exception.pg.pool) {
            Some(pool) => exception.is_sound(&pool),
            None => false,
        }
    }

    /// Whether each of some exceptions is sound for its pool after the change.
    fn all_sound_after<E: Entry>(&self, change: &Change, exceptions: &[Exception<E>]) -> bool
        ensures { result ≡ list_all (is_sound E.sound (pools_after self.now.map change.now)) exceptions.now }
    {
        exceptions.iter().all(
            |exception: &Exception<E>| -> bool
                ensures { result ≡ is_sound E.sound (pools_after self.entry.now.map change.entry.now) exception.now }
            { self.is_sound_after(change, exception) },
        )
    }

    /// Whether each exception that comes is sound for its pool.
    #[tactic(auto, unfolding(crate::specs::Changes::excepts_soundly))]
    pub(crate) fn excepts_soundly(&self, change: &Change) -> bool
        ensures { result ≡ excepts_soundly self.now.map change.now }
    {
        let parts = change.parts();
        self.all_sound_after(change, &parts.explicit.come)
            && self.all_sound_after(change, &parts.items.come)
    }
}
