//! The text of the map that a cluster's own map is.

ghost use Rattle.std.specs.Prelude.{◌≡◌, MatchResult};
ghost use Rattle.refusal.specs.Outcomes.{Makes};
ghost use Rattle.mapjson.specs.MapTexts.{map_fault_in};
ghost use Rattle.osdmap.specs.Stated.{IsStated};
ghost use Rattle.cephimport.specs.Whole.{imported};
ghost use Rattle.readmap.specs.Texts.{untold_by, IsNoMap, TellsMap, TellsWhy};
ghost use Rattle.readmap.specs.declared.text.Untold.TheVariants as reasons;

use cephimport::{ImportError, StaysOut, imported, profile_of};
use cephmap::CephMap;
use mapjson::write_map;
use mapparts::{MapParts, Profile};
use osdmap::OsdMap;
use refusal::{Memory, Refusal};
use std::alloc::Global;

/// Why there is no text of a map.
#[derive(Debug, Drop)]
pub(crate) enum Untold {
    /// The map does not come in.
    StaysOut(StaysOut),
    /// It comes in, but its parts are those of no map.
    Refused(Refusal),
    /// Out of memory.
    Memory,
}

impl From<ImportError> for Untold {
    ghost use Rattle.readmap.specs.Texts.{untold_by_import};

    ghost from_gives = { λ error untold. untold ≡ untold_by_import error };

    fn from(error: ImportError) -> Untold {
        match error {
            ImportError::Memory => Untold::Memory,
            ImportError::StaysOut(why) => Untold::StaysOut(why),
        }
    }
}

impl From<Memory> for Untold {
    ghost from_gives = { λ _ untold. untold ≡ reasons.Memory };

    fn from(_memory: Memory) -> Untold {
        Untold::Memory
    }
}

/// What a refusal of parts that come in is told as.
fn untold_by(refusal: Refusal) -> Untold
    ensures { result ≡ untold_by refusal }
{
    match refusal {
        Refusal::Memory => Untold::Memory,
        other => Untold::Refused(other),
    }
}

/// The map that parts state by the limits of a profile.
fn map_of(alloc: Global, parts: MapParts, profile: Profile) -> Result<OsdMap, Refusal>
    ensures { Makes result (map_fault_in profile parts) (λ m. IsStated parts m.map) }
{
    if profile.is_stock() {
        OsdMap::stock(alloc, parts)
    } else {
        OsdMap::new(alloc, parts)
    }
}

/// The map that parts state, by the limits of their profile.
pub(crate) fn whole_map(alloc: Global, parts: MapParts) -> Result<OsdMap, Untold>
    ensures { MatchResult result (λ m. IsStated parts m.map) (IsNoMap parts) }
{
    let profile = profile_of(&parts.buckets, &parts.rules);
    match map_of(alloc, parts, profile) {
        Ok(map) => Ok(map),
        Err(refusal) => Err(untold_by(refusal)),
    }
}

/// The text of the map that a cluster's own map is, or why there is none.
pub(crate) fn map_text(alloc: Global, map: &CephMap) -> Result<Vec<u8>, Untold>
    ensures { MatchResult result (λ text. TellsMap (imported map.now) text.items) (TellsWhy (imported map.now)) }
{
    let parts = imported(alloc, map)?;
    let whole = whole_map(alloc, parts)?;
    Ok(write_map(alloc, &whole)?)
}
