//! Lists of fields, and objects by them.

ghost use Rattle.std.specs.Prelude.{Option, ◌≡◌, ◌⊎◌, ℕ, Bool, ◌&&◌, List, [], ◌∷◌, true, false, Some, None, MatchResult};
ghost use Rattle.std.proofs.Common.{rules};
ghost use Rattle.std.specs.List.{list_any};
ghost use Rattle.std.specs.Str.{bytes_eq};
ghost use Rattle.json.specs.Json.{parse_map};
ghost use Rattle.serde_json.specs.Data.{Data, Members, no_members, put};
ghost use Rattle.jsonstream.specs.Stream.{next, rest_of_object, TakesValue};
ghost use Rattle.partjson.specs.Fields.{object_of, both, first_of, TakesField, Holds};
ghost use Rattle.partjson.specs.Laws.{both_stay, both_made};

use crate::fields::Field;
use json::Reader;
use jsonstream::tokens::{next_key, object_begins, skip};
use refusal::Refusal;
use std::alloc::Global;

/// A list of fields of which nothing has come, by their kinds and keys.
macro_rules! fields {
    () => { () };
    ($kind:ident $key:literal $(, $kinds:ident $keys:literal)*) => {
        And { first: $kind { name: $key, slot: None }, rest: fields!($($kinds $keys),*) }
    };
}

pub(crate) use fields;

/// What such a list makes, by names.
macro_rules! parts {
    () => { () };
    ($name:ident $(, $names:ident)*) => { ($name, parts!($($names),*)) };
}

pub(crate) use parts;

/// Reads a part by the list of its fields: each with its kind and its key.
macro_rules! object {
    ($alloc:expr, $reader:expr, $depth:expr, $part:ident { $($field:ident: $kind:ident $key:literal),* $(,)? }) => {{
        let mut table = fields!($($kind $key),*);
        let found = read_object($alloc, $reader, $depth, &mut table)?;
        match found {
            Some(parts!($($field),*)) => Ok(Some($part { $($field: $field),* })),
            None => Ok(None),
        }
    }};
}

pub(crate) use object;

/// A list of fields.
pub(crate) trait Fields {
    /// What they state.
    type Part: Drop;

    /// Their keys.
    ghost names: { Self → List (List ℕ) };

    /// They hold what the members have of them, and no key is there twice.
    ghost hold: { Self → Members → Type 0 };

    /// What members state of them.
    ghost states: { List (List ℕ) → Members → Option Self.Part };

    /// What they make.
    ghost made: { Self → Option Self.Part };

    /// Takes the member of a key if it is one of them.
    fn take(
        &mut self,
        alloc: Global,
        key: &str,
        reader: &mut Reader<'_>,
        depth: usize,
    ) -> Result<bool, Refusal>
        ensures { TakesField hold names key.now (next depth reader.old) reader.old self.old result self.new
            reader.new };

    /// What they state, which is taken out of them.
    fn part(&mut self, alloc: Global) -> Option<Self::Part>
        ensures { result ≡ made self.old };

    /// Another key leaves them.
    ghost stay: { (s : Self) (k : List ℕ) (d : Data) (ms : Members) → list_any (bytes_eq k) (names s) ≡ false
        → hold s ms → hold s (put k d ms) };

    /// They make what the members state.
    ghost stated_made: { (s : Self) (ms : Members) → hold s ms → states (names s) ms ≡ made s };
}

impl Fields for () {
    type Part = ();

    ghost names = { λ _. [] };

    ghost hold = { λ _ _. Unit {0} };

    ghost states = { λ _ _. Some tt };

    ghost made = { λ _. Some tt };

    ghost stay = { λ _ _ _ _ _ h. h };

    ghost stated_made = { Prim.search rules };

    #[inline(always)]
    fn take(
        &mut self,
        _alloc: Global,
        _key: &str,
        _reader: &mut Reader<'_>,
        _depth: usize,
    ) -> Result<bool, Refusal> {
        Ok(false)
    }

    #[inline(always)]
    fn part(&mut self, _alloc: Global) -> Option<()> {
        Some(())
    }
}

/// A field and those behind it.
#[derive(Drop)]
pub(crate) struct And<F, R> {
    pub(crate) first: F,
    pub(crate) rest: R,
}

impl<F: Field, R: Fields> Fields for And<F, R> {
    type Part = (F::Part, R::Part);

    ghost names = { λ s. F.name s.first ∷ R.names s.rest };

    ghost hold = { λ s ms. (F.holds s.first ms) × (R.hold s.rest ms)
        × (list_any (bytes_eq (F.name s.first)) (R.names s.rest) ≡ false) };

    ghost states = { first_of F.states R.states };

    ghost made = { λ s. both (F.made s.first) (R.made s.rest) };

    ghost stay = { λ s. both_stay F.name F.holds R.names R.hold F.stays R.stay s.first s.rest };

    ghost stated_made = { λ s ms h. both_made (F.stated_made s.first ms h.0) (R.stated_made s.rest ms h.1) };

    #[inline(always)]
    fn take(
        &mut self,
        alloc: Global,
        key: &str,
        reader: &mut Reader<'_>,
        depth: usize,
    ) -> Result<bool, Refusal> {
        if self.first.is(key) {
            self.first.take(alloc, reader, depth)?;
            return Ok(true);
        }
        self.rest.take(alloc, key, reader, depth)
    }

    #[inline(always)]
    fn part(&mut self, alloc: Global) -> Option<(F::Part, R::Part)> {
        let first = self.first.part(alloc)?;
        let rest = self.rest.part(alloc)?;
        Some((first, rest))
    }
}

/// Takes the member of a key if it is one of some fields, else passes it; tells whether it is one.
#[inline(always)]
fn take_or_skip<F: Fields>(
    alloc: Global,
    key: &str,
    reader: &mut Reader<'_>,
    depth: usize,
    fields: &mut F,
) -> Result<bool, Refusal>
    ensures { MatchResult result
        (λ taken. (d : Data) × (next depth reader.old ≡ Some (d, reader.new)) × ((known : Bool) (ms : Members)
        → Holds F.names F.hold (F.names fields.old) fields.old known ms
        → Holds F.names F.hold (F.names fields.old) fields.new (taken && known) (put key.now d ms)))
        (λ e. (e ≡ Refusal.Memory) ⊎ ((e ≡ Refusal.BadJson) × (next depth reader.old ≡ None))) }
{
    if fields.take(alloc, key, reader, depth)? {
        return Ok(true);
    }
    skip(reader, depth)?;
    Ok(false)
}

/// Reads the members that are left of an object, and tells whether all keys are known.
#[inline(always)]
fn members<F: Fields>(
    alloc: Global,
    reader: &mut Reader<'_>,
    depth: usize,
    fields: &mut F,
) -> Result<bool, Refusal>
    requires { F.hold fields.old no_members }
    ensures { MatchResult result
        (λ known. (ms : Members) × (rest_of_object depth reader.old ≡ Some (ms, reader.new))
        × Holds F.names F.hold (F.names fields.old) fields.new known ms)
        (λ e. (e ≡ Refusal.Memory) ⊎ ((e ≡ Refusal.BadJson) × (rest_of_object depth reader.old ≡ None))) }
{
    let mut known = true;
    'members: while let Some(key) = next_key(reader)? {
        let taken = take_or_skip(alloc, key, reader, depth, fields)?;
        known = taken & known;
    }
    Ok(known)
}

/// What the next value states, read into fields of which nothing has come: `None` where it is no object, or none of
/// the kind.
#[tactic(auto, using(crate::specs::Laws::object_made))]
#[inline(always)]
pub(crate) fn read_object<F: Fields>(
    alloc: Global,
    reader: &mut Reader<'_>,
    depth: usize,
    fields: &mut F,
) -> Result<Option<F::Part>, Refusal>
    requires { F.hold fields.old no_members }
    ensures { TakesValue
        (parse_map (object_of (F.names fields.old) (F.states (F.names fields.old))) (next depth reader.old)) result
        reader.new }
{
    if !object_begins(reader, depth)? {
        return Ok(None);
    }
    if members(alloc, reader, depth - 1, fields)? {
        return Ok(fields.part(alloc));
    }
    Ok(None)
}
