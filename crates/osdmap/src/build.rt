//! The map that parts state.

mod exceptions;
mod osds;
mod pools;

use crate::map::OsdMap;
use mapparts::fits::parts_fit_in;
use mapparts::numbers::word;
use mapparts::{MapParts, Profile};
use maptypes::CrushMap;
use osds::osds_of;
pub(crate) use pools::has_rule;
use pools::pools_of;
use refusal::Refusal;
use std::alloc::Global;

impl OsdMap {
    ghost use Rattle.std.specs.Prelude.{◌≡◌, true};
    ghost use Rattle.refusal.specs.Outcomes.{Makes};
    ghost use Rattle.mapparts.specs.Parts.{parts_fit};
    ghost use Rattle.osdmap.specs.Stated.{map_fault, plain_map_fault, IsStated};
    ghost use Rattle.osdmap.specs.Built.{without_exceptions};

    /// The map that parts within the limits state beside their exceptions.
    fn without_exceptions(alloc: Global, parts: &MapParts) -> Result<OsdMap, Refusal>
        requires { parts_fit parts.now ≡ true }
        ensures { Makes result (map_fault (without_exceptions parts.now))
            (λ m. IsStated (without_exceptions parts.now) m.map) }
    {
        let max_osd = word(parts.max_osd);
        let crush = CrushMap::of_parts(alloc, &parts.buckets, &parts.rules, max_osd)?;
        let pools = pools_of(alloc, &parts.pools, crush.rules())?;
        let osds = osds_of(alloc, &parts.osds, max_osd)?;
        Ok(OsdMap {
            epoch: u64::from(word(parts.epoch)),
            crush,
            pools,
            presences: osds.presences,
            weights: osds.weights,
            explicit: Vec::new(alloc),
            items: Vec::new(alloc),
            ready: None,
        })
    }

    /// The map of a plain cluster that parts state.
    ///
    /// # Errors
    ///
    /// `BadLimit` (12) where there is more of something than in plain clusters; else those of [`OsdMap::stock`].
    pub fn new(alloc: Global, parts: MapParts) -> Result<OsdMap, Refusal>
        ensures { Makes result (plain_map_fault parts) (λ m. IsStated parts m.map) }
    {
        if !parts_fit_in(&parts, Profile::Plain) {
            return Err(Refusal::BadLimit);
        }
        OsdMap::of_fitting(alloc, parts)
    }

    /// The map that parts state.
    ///
    /// # Errors
    ///
    /// `BadLimit` (12), `BadForest` (13), `BadRule` (14), `BadPool` (15), `BadOsd` (16) or `BadException` (17) where
    /// something is wrong: the first of these, each tested over the whole map ([`Refusal`] has the meaning of each); or
    /// `Memory` (30) where there is no memory for it.
    pub fn stock(alloc: Global, parts: MapParts) -> Result<OsdMap, Refusal>
        ensures { Makes result (map_fault parts) (λ m. IsStated parts m.map) }
    {
        if !parts_fit_in(&parts, Profile::Stock) {
            return Err(Refusal::BadLimit);
        }
        OsdMap::of_fitting(alloc, parts)
    }

    /// The map that parts within the limits state.
    fn of_fitting(alloc: Global, parts: MapParts) -> Result<OsdMap, Refusal>
        requires { parts_fit parts ≡ true }
        ensures { Makes result (map_fault parts) (λ m. IsStated parts m.map) }
    {
        let bare = OsdMap::without_exceptions(alloc, &parts)?;
        let explicit = bare.exceptions_in(alloc, &parts.pg_upmap)?;
        let items = bare.exceptions_in(alloc, &parts.pg_upmap_items)?;
        Ok(OsdMap {
            explicit,
            items,
            ..bare
        })
    }
}
