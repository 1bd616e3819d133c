//! The OSDs of the map that parts state.

ghost use Rattle.std.specs.Prelude.{◌≡◌, true, map, length, nat_abs, nat_lt, None, IfOk, IsTrue, replicate};
ghost use Rattle.std.specs.List.{list_all};
ghost use Rattle.refusal.specs.declared.refused.Refusal.TheVariants.{BadOsd};
ghost use Rattle.keylist.specs.Keys.{is_distinct};
ghost use Rattle.mapparts.specs.Parts.{osd_fits};
ghost use Rattle.refusal.specs.Outcomes.{Makes};
ghost use Rattle.osdmap.specs.Stated.{osd_ok};
ghost use Rattle.refusal.specs.Outcomes.{refused_unless};
ghost use Rattle.osdmap.specs.Built.{osds_fit, state_of, rows_of, row_presence, row_weight};

use keylist::Entries;
use mapparts::OsdPart;
use mapparts::numbers::word;
use maptypes::{OsdState, Presence};
use refusal::Refusal;
use std::alloc::{AllocError, Global};

/// Whether an OSD is below `max_osd`, and exists where it is up.
#[tactic(auto, unfolding(crate::specs::Stated::osd_ok))]
fn is_osd(max_osd: u32, osd: &OsdPart) -> bool
    ensures { result ≡ osd_ok max_osd osd.now }
{
    osd.id.unsigned_abs() < u128::from(max_osd) && (!osd.up || osd.exists)
}

/// Whether each OSD is below `max_osd`, and exists where it is up.
fn are_osds(max_osd: u32, osds: &[OsdPart]) -> bool
    ensures { result ≡ list_all (osd_ok max_osd) osds.now }
{
    osds.iter().all(|osd| is_osd(max_osd, osd))
}

/// The state of an OSD that a part within the limits states.
fn state_of(osd: &OsdPart) -> OsdState
    requires { osd_fits osd.now ≡ true }
    ensures { result ≡ state_of osd.now }
{
    OsdState {
        exists: osd.exists,
        up: osd.up,
        weight: word(osd.weight),
    }
}

/// Enters each OSD in its row, up to one that is listed twice: whether there is none.
fn enter(rows: &mut Vec<Option<OsdState>>, osds: &[OsdPart]) -> bool
    requires fits { list_all osd_fits osds.now ≡ true }
    requires below { list_all (λ o. nat_lt (nat_abs o.id) (length rows.old.items)) osds.now ≡ true }
    requires blank { rows.old.items ≡ replicate (length rows.old.items) None }
    ensures distinct { result ≡ is_distinct (map (λ o. nat_abs o.id) osds.now) }
    ensures entered { IsTrue result → rows.new.items ≡ rows_of osds.now (length rows.old.items) }
{
    for osd in osds {
        let row = word(osd.id) as usize;
        if rows[row].is_some() {
            return false;
        }
        rows[row] = Some(state_of(osd));
    }
    true
}

/// What is listed of each OSD below `max_osd`: `BadOsd` (16) where an OSD is not below it, is up and does not exist, or
/// is listed twice.
fn rows_of(alloc: Global, osds: &[OsdPart], max_osd: u32) -> Result<Vec<Option<OsdState>>, Refusal>
    requires { list_all osd_fits osds.now ≡ true }
    ensures { Makes result (refused_unless (osds_fit max_osd osds.now) BadOsd)
        (λ rows. rows.items ≡ rows_of osds.now max_osd) }
{
    if !are_osds(max_osd, osds) {
        return Err(Refusal::BadOsd);
    }
    let mut rows = vec![in alloc; None; max_osd as usize]?;
    if !enter(&mut rows, osds) {
        return Err(Refusal::BadOsd);
    }
    Ok(rows)
}

/// Whether an OSD exists and is up.
fn presence_of(row: &Option<OsdState>) -> Presence
    ensures { result ≡ row_presence row.now }
{
    match row {
        Some(osd) => Presence {
            exists: osd.exists,
            up: osd.up,
        },
        None => Presence {
            exists: false,
            up: false,
        },
    }
}

/// The reweight of an OSD.
fn weight_of(row: &Option<OsdState>) -> u32
    ensures { result ≡ row_weight row.now }
{
    match row {
        Some(osd) => osd.weight,
        None => 0,
    }
}

/// Whether each OSD exists and is up.
fn presences_of(alloc: Global, rows: &[Option<OsdState>]) -> Result<Vec<Presence>, AllocError>
    ensures { IfOk result (λ presences. presences.items ≡ map row_presence rows.now) }
{
    rows.iter().map(|row| presence_of(row)).collect(alloc)
}

/// The reweight of each OSD.
fn weights_of(alloc: Global, rows: &[Option<OsdState>]) -> Result<Vec<u32>, AllocError>
    ensures { IfOk result (λ weights. weights.items ≡ map row_weight rows.now) }
{
    rows.iter().map(|row| weight_of(row)).collect(alloc)
}

/// What parts state of OSDs: whether each exists and is up, and its reweight.
#[derive(Drop)]
pub(crate) struct Osds {
    pub presences: Entries<Presence>,
    pub weights: Entries<u32>,
}

/// The OSDs below `max_osd` that parts state.
pub(crate) fn osds_of(alloc: Global, osds: &[OsdPart], max_osd: u32) -> Result<Osds, Refusal>
    requires { list_all osd_fits osds.now ≡ true }
    ensures { Makes result (refused_unless (osds_fit max_osd osds.now) BadOsd)
        (λ o. (o.presences ≡ map row_presence (rows_of osds.now max_osd))
        × (o.weights ≡ map row_weight (rows_of osds.now max_osd))) }
{
    let rows = rows_of(alloc, osds, max_osd)?;
    Ok(Osds {
        presences: Entries::new(presences_of(alloc, &rows)?),
        weights: Entries::new(weights_of(alloc, &rows)?),
    })
}
