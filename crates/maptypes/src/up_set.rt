//! The set of a group: the OSDs that store it, by their places.

ghost use Rattle.std.specs.Prelude.{◌≡◌, ◌<◌, Some, position, IfSome};
ghost use Rattle.std.specs.Fmt.{DisplaysOnOk};
ghost use Rattle.std.specs.List.{list_any};
ghost use Rattle.buckets.specs.Limits.{max_devices};
ghost use Rattle.maptypes.specs.Sets.{is_of, primary_of};
ghost use Rattle.maptypes.specs.SetText.{place_text, list_text};

use crate::exception::Pair;
use crate::short::Short;
use crush::RuleKind;
use std::alloc::AllocError;
use std::fmt;
use std::marker::Model;

/// The set of a group: at most 20 places, in order, each with an OSD, in two bytes, or with none.
#[derive(Copy, Debug, PartialEq, Eq)]
pub struct UpSet {
    places: Short<Option<u16>>,
}

impl Model for UpSet {
    ghost use Rattle.std.specs.Prelude.{ℕ, List, Option};

    ghost Value = { List (Option ℕ) };

    ghost view = { λ s. s.places };

    ghost inverse = { λ xs. record { places = xs } };
}

impl Clone for UpSet {
    ghost use Rattle.std.specs.Prelude.{◌≡◌, ⊤};

    ghost is_clone = { λ s r. r ≡ s };

    ghost is_infallible = { λ _. ⊤ };

    fn clone(&self) -> Result<UpSet, AllocError> {
        Ok(*self)
    }
}

/// Whether a place has an OSD.
fn is_of(place: Option<u16>, osd: u32) -> bool
    ensures { result ≡ is_of osd place }
{
    match place {
        Some(own) => u32::from(own) == osd,
        None => false,
    }
}

/// Whether some places have an OSD.
fn has_osd(places: &[Option<u16>], osd: u32) -> bool
    ensures { result ≡ list_any (is_of osd) places.now }
{
    places.iter().any(|place| is_of(*place, osd))
}

/// The place where an OSD first stands.
fn place_of(places: &[Option<u16>], osd: u32) -> Option<usize>
    ensures { result ≡ position (is_of osd) places.now }
{
    places.iter().position(|place| is_of(*place, osd))
}

/// The first OSD of some places.
fn first_osd(places: &[Option<u16>]) -> Option<u32>
    ensures { result ≡ primary_of places.now }
{
    for place in places {
        if let Some(osd) = place {
            return Some(u32::from(*osd));
        }
    }
    None
}

/// A place, in two bytes.
fn short_place(place: Option<u32>) -> Option<u16>
    requires { IfSome place (λ osd. osd < max_devices) }
    ensures { result ≡ place }
{
    match place {
        Some(osd) => Some(osd as u16),
        None => None,
    }
}

impl UpSet {
    ghost use Rattle.maptypes.specs.Sets.{primary_of, replace, is_of, kept_in};
    ghost use Rattle.std.specs.Prelude.{◌≡◌, ◌≤◌, ◌<◌, [], ◌∷◌, ◌++◌, length, map, Some, IfSome, All};
    ghost use Rattle.std.specs.List.{list_any};
    ghost use Rattle.buckets.specs.Limits.{max_devices};

    /// The set without a place.
    pub fn new() -> Self
        ensures { result ≡ [] }
    {
        UpSet {
            places: Short::new(),
        }
    }

    /// The places, in order.
    pub fn places(&self) -> &[Option<u16>]
        ensures places { result.now ≡ self.now }
        ensures few { length self.now ≤ 20 }
    {
        self.places.as_slice()
    }

    /// The primary: the first OSD of the set.
    pub fn primary(&self) -> Option<u32>
        ensures { result ≡ primary_of self.now }
    {
        first_osd(self.places())
    }

    /// One more place.
    pub fn push(&mut self, place: Option<u32>)
        requires room { length self.old < 20 }
        requires small { IfSome place (λ osd. osd < max_devices) }
        ensures { self.new ≡ self.old ++ place ∷ [] }
    {
        self.places.push(short_place(place));
    }

    /// The set of some OSDs, in order.
    pub fn of(osds: &[u32]) -> UpSet
        requires few { length osds.now ≤ 20 }
        requires small { All (λ osd. osd < max_devices) osds.now }
        ensures { result ≡ map (λ osd. Some osd) osds.now }
    {
        let mut set = UpSet::new();
        for osd in osds {
            set.push(Some(*osd));
        }
        set
    }

    /// Whether an OSD stands in the set.
    pub fn has(&self, osd: u32) -> bool
        ensures { result ≡ list_any (is_of osd) self.now }
    {
        has_osd(self.places(), osd)
    }

    /// One OSD goes to another where it first stands.
    pub fn replace(&mut self, pair: Pair)
        requires { pair.to < max_devices }
        ensures { self.new ≡ replace pair self.old }
    {
        if let Some(place) = place_of(self.places(), u32::from(pair.from)) {
            self.places.set(place, Some(pair.to));
        }
    }

    /// One more place, in the way of a kind: copies leave out a place without an OSD, coded parts keep it.
    pub fn add(&mut self, kind: RuleKind, place: Option<u32>)
        requires room { length self.old < 20 }
        requires small { IfSome place (λ osd. osd < max_devices) }
        ensures { self.new ≡ self.old ++ kept_in kind place }
    {
        match kind {
            RuleKind::Replicated if place.is_none() => {}
            RuleKind::Replicated | RuleKind::Erasure => self.push(place),
        }
    }
}

/// Writes a place: its OSD, or `none`.
fn write_place<W: fmt::Write>(f: &mut fmt::Formatter<W>, place: Option<u16>) -> fmt::Result
    ensures { DisplaysOnOk W.write_str_gives f.old result (Some (place_text place)) f.new }
{
    match place {
        Some(osd) => write!(f, "{osd}"),
        None => f.write_str("none"),
    }
}

/// Writes places, with commas between them.
fn write_places<W: fmt::Write>(f: &mut fmt::Formatter<W>, places: &[Option<u16>]) -> fmt::Result
    ensures { DisplaysOnOk W.write_str_gives f.old result (Some (list_text place_text places.now)) f.new }
{
    let [first, others @ ..] = places else {
        return Ok(());
    };
    write_place(f, *first)?;
    for place in others {
        f.write_str(",")?;
        write_place(f, *place)?;
    }
    Ok(())
}

/// `[3,none,0]`: the places in order.
impl fmt::Display for UpSet {
    ghost use Rattle.std.specs.Prelude.{Some};
    ghost use Rattle.maptypes.specs.SetText.{set_text};

    ghost output = { λ set. Some (set_text set) };

    fn fmt<W: fmt::Write>(&self, f: &mut fmt::Formatter<W>) -> fmt::Result {
        f.write_str("[")?;
        write_places(f, self.places())?;
        f.write_str("]")
    }
}
