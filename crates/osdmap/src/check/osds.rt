//! The OSDs that a change names, and their reweights: `UnknownOsd` (21), `BadWeight` (22).

ghost use Rattle.std.specs.Prelude.{◌≡◌};
ghost use Rattle.osdmap.specs.Changes.{weighs_rightly};

use crate::map::OsdMap;
use mapparts::limits::FULL_WEIGHT;
use maptypes::{Change, Entry, Exception, Reweight};

/// Whether each reweight is at most the whole.
#[tactic(auto, unfolding(crate::specs::Changes::weighs_rightly))]
pub(crate) fn weighs_rightly(change: &Change) -> bool
    ensures { result ≡ weighs_rightly change.now }
{
    let weight: &[Reweight] = &change.parts().weights;
    weight.iter().all(|w| w.weight <= FULL_WEIGHT)
}

impl OsdMap {
    ghost use Rattle.std.specs.Prelude.{◌≡◌};
    ghost use Rattle.std.specs.List.{list_all};
    ghost use Rattle.maptypes.specs.Exceptions.{all_named};
    ghost use Rattle.osdmap.specs.Maps.{osd_exists};
    ghost use Rattle.osdmap.specs.Changes.{names_osds};

    /// Whether each OSD of a list exists.
    fn all_exist(&self, osds: &[u32]) -> bool
        ensures { result ≡ list_all (osd_exists self.now.map) osds.now }
    {
        osds.iter().all(|osd| self.exists(*osd))
    }

    /// Whether each OSD that gets another reweight exists.
    fn all_reweighted_exist(&self, weight: &[Reweight]) -> bool
        ensures { result ≡ list_all (λ w. osd_exists self.now.map w.osd) weight.now }
    {
        weight.iter().all(|w| self.exists(w.osd))
    }

    /// Whether each OSD that an entry of an exception names exists.
    fn knows<E: Entry>(&self, entry: &E) -> bool
        ensures { result ≡ list_all (osd_exists self.now.map) (E.names entry.now) }
    {
        match entry.named_osds() {
            (osd, None) => self.exists(osd),
            (osd, Some(other)) => self.exists(osd) && self.exists(other),
        }
    }

    /// Whether each OSD that an exception names exists.
    pub(crate) fn knows_named<E: Entry>(&self, exception: &Exception<E>) -> bool
        ensures { result ≡ all_named E.names (osd_exists self.now.map) exception.now }
    {
        exception.entries.iter().all(
            |entry: &E| -> bool
                ensures { result ≡ list_all (osd_exists self.entry.now.map) (E.names entry.now) }
            { self.knows(entry) },
        )
    }

    /// Whether each OSD that some exceptions name exists.
    pub(crate) fn all_named_exist<E: Entry>(&self, exceptions: &[Exception<E>]) -> bool
        ensures { result ≡ list_all (all_named E.names (osd_exists self.now.map)) exceptions.now }
    {
        exceptions.iter().all(
            |exception: &Exception<E>| -> bool
                ensures { result ≡ all_named E.names (osd_exists self.entry.now.map) exception.now }
            { self.knows_named(exception) },
        )
    }

    /// Whether each OSD that a change names exists.
    #[tactic(auto, unfolding(crate::specs::Changes::names_osds))]
    pub(crate) fn names_osds(&self, change: &Change) -> bool
        ensures { result ≡ names_osds self.now.map change.now }
    {
        let parts = change.parts();
        self.all_exist(&parts.osds.down)
            && self.all_exist(&parts.osds.up)
            && self.all_reweighted_exist(&parts.weights)
            && self.knows_excepted(change)
    }
}
