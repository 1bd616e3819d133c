//! OSDs as a map states them.

ghost use Rattle.std.specs.Prelude.{◌≡◌, ℕ, IfOk};
ghost use Rattle.std.specs.List.{filter_map, enumerate_from};
ghost use Rattle.cephimport.specs.Osds.{is_there, is_up, kept_reweight, imported_osd, imported_osds, exists_osd, is_known_osd};

use cephmap::Osds;
use mapparts::OsdPart;
use std::alloc::{AllocError, Global};

/// Whether a state is that of an OSD that exists.
fn is_there(state: u32) -> bool
    ensures { result ≡ is_there state }
{
    state % 2 == 1
}

/// Whether it is that of one that is up.
fn is_up(state: u32) -> bool
    ensures { result ≡ is_up state }
{
    state / 2 % 2 == 1
}

/// The reweight of an OSD; one above the whole is one of the whole.
#[tactic(auto, unfolding(crate::specs::Osds::kept_reweight))]
fn kept_reweight(osds: &Osds, id: usize) -> u32
    ensures { result ≡ kept_reweight osds.now id }
{
    osds.reweights.get(id).copied().unwrap_or(0).min(65_536)
}

/// An OSD as a map states it: one that exists, or that has kept a reweight.
#[tactic(auto, unfolding(crate::specs::Osds::imported_osd))]
fn imported_osd(osds: &Osds, id: usize, state: u32) -> Option<OsdPart>
    ensures { result ≡ imported_osd osds.now id state }
{
    let weight = kept_reweight(osds, id);
    let exists = is_there(state);
    if !exists && (weight == 0 || osds.max_osd as usize <= id) {
        return None;
    }
    Some(OsdPart {
        id: id as i128,
        exists,
        up: exists && is_up(state),
        weight: i128::from(weight),
    })
}

/// The OSDs as a map states them.
#[tactic(auto, unfolding(crate::specs::Osds::imported_osds))]
pub(crate) fn imported_osds(alloc: Global, osds: &Osds) -> Result<Vec<OsdPart>, AllocError>
    ensures { IfOk result (λ parts. parts.items ≡ imported_osds osds.now) }
{
    osds.states
        .iter()
        .enumerate()
        .filter_map(|(id, state)| imported_osd(osds, id, *state))
        .collect(alloc)
}

/// Whether a number is that of an OSD that exists.
#[tactic(auto, unfolding(crate::specs::Osds::exists_osd))]
pub(crate) fn exists_osd(osds: &Osds, id: i32) -> bool
    ensures { result ≡ exists_osd osds.now id }
{
    if id < 0 {
        return false;
    }
    match osds.states.get(id as usize) {
        Some(state) => is_there(*state),
        None => false,
    }
}

/// Whether a number is that of an OSD that exists, or that has kept a reweight.
#[tactic(auto, unfolding(crate::specs::Osds::is_known_osd))]
pub(crate) fn is_known_osd(osds: &Osds, id: usize) -> bool
    ensures { result ≡ is_known_osd osds.now id }
{
    match osds.states.get(id) {
        Some(state) => imported_osd(osds, id, *state).is_some(),
        None => false,
    }
}
