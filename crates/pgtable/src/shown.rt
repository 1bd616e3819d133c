//! Stored sets as callers see them.

ghost use Rattle.std.specs.Prelude.{◌≡◌, ◌≤◌, ◌<◌, length, map, option_and_then, IfSome};
ghost use Rattle.buckets.specs.Limits.{max_devices};
ghost use Rattle.crush.specs.Limits.{max_size};
ghost use Rattle.grouptable.specs.Sets.{place_stored};
ghost use Rattle.maptypes.specs.Sets.{kept_places};
ghost use Rattle.pgtable.specs.Tables.{upward_in};

use crush::RuleKind;
use grouptable::osd_in;
use maptypes::{Short, UpSet};

/// The OSD of a place, where there is one that is up.
fn shown_place(place: Option<u16>, up: &[bool]) -> Option<u32>
    requires { IfSome place (λ osd. osd < max_devices) }
    ensures value { result ≡ option_and_then (upward_in up.now) place }
    ensures small { IfSome result (λ osd. osd < max_devices) }
{
    let osd = place?;
    if up.get(usize::from(osd)).copied().unwrap_or(false) {
        Some(u32::from(osd))
    } else {
        None
    }
}

/// The stored set without the OSDs that are down, in the way of a kind.
pub fn show_set(set: &[u16], kind: RuleKind, up: &[bool]) -> UpSet
    requires { length set.now ≤ max_size }
    ensures { result ≡ kept_places kind (map (option_and_then (upward_in up.now)) (map place_stored set.now)) }
{
    let mut shown = UpSet::new();
    for place in 0..set.len() {
        shown.add(kind, shown_place(osd_in(set, place), up));
    }
    shown
}

/// A place, in four bytes.
fn long_place(place: Option<u16>) -> Option<u32>
    ensures { result ≡ place }
{
    match place {
        Some(osd) => Some(u32::from(osd)),
        None => None,
    }
}

/// The stored set, an OSD in four bytes.
pub fn places_in(set: &[u16]) -> Short<Option<u32>>
    requires { length set.now ≤ max_size }
    ensures { result ≡ map place_stored set.now }
{
    let mut places = Short::new();
    for place in 0..set.len() {
        places.push(long_place(osd_in(set, place)));
    }
    places
}
