//! A set of at most 20 places, two bytes each.

ghost use Rattle.std.specs.Prelude.{◌≡◌, ◌<◌, ◌≤◌, ◌++◌, [], ◌∷◌, false, None, ◌+◌, length, slice_index_or, IfSome, ◌==◌, map};
ghost use Rattle.std.specs.List.{list_any, suffix_len};
ghost use Rattle.crush.specs.Limits.{max_size};
ghost use Rattle.buckets.specs.Limits.{max_devices};
ghost use Rattle.grouptable.specs.Sets.{is_end, place_stored, set_stored, stands_at};

use buckets::limits::MAX_DEVICES;
use crush::limits::MAX_SIZE;
use std::marker::Model;

/// The greatest size of a set.
const MAX_PLACES: usize = MAX_SIZE;

/// OSDs have the numbers below this one.
const MAX_OSDS: u16 = MAX_DEVICES as u16;

/// What is stored for a hole.
const HOLE: u16 = 0xffff;

/// What is stored behind the last place.
pub(crate) const END: u16 = 0xfffe;

/// At each of at most 20 places an OSD, or a hole.
#[derive(Drop)]
pub struct OsdSet {
    len: u8,
    places: [u16; MAX_PLACES],
}

impl Model for OsdSet {
    ghost use Rattle.std.specs.Prelude.{map, take};
    ghost use Rattle.grouptable.specs.Sets.{place_stored};
    ghost use Rattle.grouptable.specs.Stored.{IsPadded};
    ghost use Rattle.maptypes.specs.Sets.{Places};

    ghost Value = { Places };

    ghost view = { λ s. map place_stored (take s.len s.places) };

    ghost invariant = { λ s. IsPadded s.len s.places };
}

impl OsdSet {
    /// The set without a place.
    pub fn new() -> Self
        ensures { result ≡ [] }
    {
        OsdSet {
            len: 0,
            places: [END; MAX_PLACES],
        }
    }

    /// One more place.
    pub fn push(&mut self, place: Option<u16>)
        requires room { length self.old < max_size }
        requires small { IfSome place (λ osd. osd < max_devices) }
        ensures { self.new ≡ self.old ++ place ∷ [] }
    {
        self.places[usize::from(self.len)] = store_place(place);
        self.len += 1;
    }

    /// What is stored.
    pub(crate) fn as_stored(&self) -> &[u16]
        ensures value { map place_stored result.now ≡ self.now }
    {
        &self.places[..usize::from(self.len)]
    }

    /// What a list of sets of `width` places stores.
    pub(crate) fn row(&self, width: usize) -> &[u16]
        requires few { width ≤ max_size }
        requires fits { length self.now ≤ width }
        ensures value { set_stored result.now ≡ self.now }
        ensures len { length result.now ≡ width }
    {
        &self.places[..width]
    }
}

/// What is stored for a place.
fn store_place(place: Option<u16>) -> u16
    requires { IfSome place (λ osd. osd < max_devices) }
    ensures value { place_stored result ≡ place }
    ensures filled { is_end result ≡ false }
{
    match place {
        Some(osd) => osd,
        None => HOLE,
    }
}

/// The OSD of a stored place, if there is one.
fn osd_at(stored: u16) -> Option<u16>
    ensures value { result ≡ place_stored stored }
    ensures small { IfSome result (λ osd. osd < max_devices) }
{
    if stored < MAX_OSDS {
        Some(stored)
    } else {
        None
    }
}

/// The OSD of one of some stored places, if there is one.
pub fn osd_in(places: &[u16], place: usize) -> Option<u16>
    requires { place < length places.now }
    ensures value { result ≡ slice_index_or (map place_stored places.now) place None }
    ensures small { IfSome result (λ osd. osd < max_devices) }
{
    osd_at(places[place])
}

/// Whether a number is stored at one of some places.
fn has_number(places: &[u16], number: u16) -> bool
    ensures { result ≡ list_any (λ x. x == number) places.now }
{
    places.iter().any(|place| *place == number)
}

/// Whether an OSD stands at one of some stored places.
pub(crate) fn holds(places: &[u16], osd: u16) -> bool
    requires { osd < max_devices }
    ensures { result ≡ stands_at osd places.now }
{
    has_number(places, osd)
}

/// How many places of a row stand before the ends behind them.
fn filled_len(row: &[u16]) -> usize
    ensures { result + suffix_len is_end row.now ≡ length row.now }
{
    let mut len = row.len();
    while len > 0 && row[len - 1] == END {
        len -= 1;
    }
    len
}

/// The places of a row before the ends behind them.
pub(crate) fn filled_places(row: &[u16]) -> &[u16]
    ensures value { map place_stored result.now ≡ set_stored row.now }
    ensures few { length result.now ≤ length row.now }
{
    &row[..filled_len(row)]
}
