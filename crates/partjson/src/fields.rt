//! The fields of an object: the key of each, and what has come of it.

ghost use Rattle.std.specs.Prelude.{Option, ◌≡◌, ◌⊎◌, ℕ, List, false, Some, None, MatchResult};
ghost use Rattle.std.specs.Str.{bytes_eq};
ghost use Rattle.serde_json.specs.Data.{Data, Members, put};
ghost use Rattle.jsonstream.specs.Json.{stated_list};
ghost use Rattle.jsonstream.specs.Stream.{next, member_slot, flat, or_empty, if_there};
ghost use Rattle.partjson.specs.Fields.{at_key, if_at_key, list_at_key, zero_but_at_key, zero_if};
ghost use Rattle.partjson.specs.Laws.{slot_stays, slot_states, slot_there, slot_listed, slot_zero};

use crate::values::FromJson;
use json::Reader;
use jsonstream::tokens::skip;
use keylist::Entries;
use refusal::Refusal;
use std::alloc::Global;

/// A field of an object: its key, and what has come of it.
pub(crate) trait Field {
    /// What it states.
    type Part: Drop;

    /// Its key.
    ghost name: { Self → List ℕ };

    /// It holds what the members have of it.
    ghost holds: { Self → Members → Type 0 };

    /// What members state of it.
    ghost states: { List ℕ → Members → Option Self.Part };

    /// What it makes.
    ghost made: { Self → Option Self.Part };

    /// Whether its key is this one.
    fn is(&self, key: &str) -> bool
        ensures { result ≡ bytes_eq key.now (name self.now) };

    /// Takes its value.
    fn take(&mut self, alloc: Global, reader: &mut Reader<'_>, depth: usize) -> Result<(), Refusal>
        ensures { MatchResult result
            (λ _. (d : Data) × (next depth reader.old ≡ Some (d, reader.new)) × (name self.new ≡ name self.old)
            × ((ms : Members) → holds self.new (put (name self.old) d ms)))
            (λ e. (e ≡ Refusal.Memory) ⊎ ((e ≡ Refusal.BadJson) × (next depth reader.old ≡ None))) };

    /// What it states, which is taken out of it.
    fn part(&mut self, alloc: Global) -> Option<Self::Part>
        ensures { result ≡ made self.old };

    /// Another key leaves it.
    ghost stays: { (s : Self) (k : List ℕ) (d : Data) (ms : Members) → bytes_eq k (name s) ≡ false
        → holds s ms → holds s (put k d ms) };

    /// It makes what the members state.
    ghost stated_made: { (s : Self) (ms : Members) → holds s ms → states (name s) ms ≡ made s };
}

/// A field that has to be there.
#[derive(Drop)]
pub(crate) struct Must<T> {
    pub(crate) name: &'static str,
    pub(crate) slot: Option<Option<T>>,
}

impl<T: FromJson> Field for Must<T> {
    type Part = T;

    ghost name = { λ s. s.name.now };

    ghost holds = { λ s ms. s.slot ≡ member_slot T.stated s.name.now ms };

    ghost states = { at_key T.stated };

    ghost made = { λ s. flat s.slot };

    ghost stays = { λ s k d ms. slot_stays T.stated s.name.now k d ms s.slot };

    ghost stated_made = { λ s ms. slot_states T.stated s.name.now ms s.slot };

    #[inline(always)]
    fn is(&self, key: &str) -> bool {
        key == self.name
    }

    #[tactic(auto, using(crate::specs::Laws::slot_came))]
    #[inline(always)]
    fn take(
        &mut self,
        alloc: Global,
        reader: &mut Reader<'_>,
        depth: usize,
    ) -> Result<(), Refusal> {
        self.slot = Some(T::read(alloc, reader, depth)?);
        Ok(())
    }

    #[inline(always)]
    fn part(&mut self, _alloc: Global) -> Option<T> {
        self.slot.take()?
    }
}

/// A field that may be missing.
#[derive(Drop)]
pub(crate) struct May<T> {
    pub(crate) name: &'static str,
    pub(crate) slot: Option<Option<T>>,
}

impl<T: FromJson> Field for May<T> {
    type Part = Option<T>;

    ghost name = { λ s. s.name.now };

    ghost holds = { λ s ms. s.slot ≡ member_slot T.stated s.name.now ms };

    ghost states = { if_at_key T.stated };

    ghost made = { λ s. if_there s.slot };

    ghost stays = { λ s k d ms. slot_stays T.stated s.name.now k d ms s.slot };

    ghost stated_made = { λ s ms. slot_there T.stated s.name.now ms s.slot };

    #[inline(always)]
    fn is(&self, key: &str) -> bool {
        key == self.name
    }

    #[tactic(auto, using(crate::specs::Laws::slot_came))]
    #[inline(always)]
    fn take(
        &mut self,
        alloc: Global,
        reader: &mut Reader<'_>,
        depth: usize,
    ) -> Result<(), Refusal> {
        self.slot = Some(T::read(alloc, reader, depth)?);
        Ok(())
    }

    #[inline(always)]
    fn part(&mut self, _alloc: Global) -> Option<Option<T>> {
        match self.slot.take() {
            Some(part) => Some(Some(part?)),
            None => Some(None),
        }
    }
}

/// A list that is empty where it is missing.
#[derive(Drop)]
pub(crate) struct MayList<T> {
    pub(crate) name: &'static str,
    pub(crate) slot: Option<Option<Entries<T>>>,
}

impl<T: FromJson> Field for MayList<T> {
    type Part = Entries<T>;

    ghost name = { λ s. s.name.now };

    ghost holds = { λ s ms. s.slot ≡ member_slot (stated_list T.stated) s.name.now ms };

    ghost states = { list_at_key T.stated };

    ghost made = { λ s. or_empty s.slot };

    ghost stays = { λ s k d ms. slot_stays (stated_list T.stated) s.name.now k d ms s.slot };

    ghost stated_made = { λ s ms. slot_listed T.stated s.name.now ms s.slot };

    #[inline(always)]
    fn is(&self, key: &str) -> bool {
        key == self.name
    }

    #[tactic(auto, using(crate::specs::Laws::slot_came))]
    #[inline(always)]
    fn take(
        &mut self,
        alloc: Global,
        reader: &mut Reader<'_>,
        depth: usize,
    ) -> Result<(), Refusal> {
        let list: Option<Entries<T>> = FromJson::read(alloc, reader, depth)?;
        self.slot = Some(list);
        Ok(())
    }

    #[inline(always)]
    fn part(&mut self, alloc: Global) -> Option<Entries<T>> {
        match self.slot.take() {
            Some(list) => list,
            None => Some(Entries::new(Vec::new(alloc))),
        }
    }
}

/// A number that must not be there, and is 0.
#[derive(Drop)]
pub(crate) struct Unstated {
    pub(crate) name: &'static str,
    pub(crate) slot: Option<Option<()>>,
}

impl Field for Unstated {
    type Part = i128;

    ghost name = { λ s. s.name.now };

    ghost holds = { λ s ms. s.slot ≡ member_slot (λ _. None) s.name.now ms };

    ghost states = { zero_but_at_key };

    ghost made = { λ s. zero_if s.slot };

    ghost stays = { λ s k d ms. slot_stays (λ _. None) s.name.now k d ms s.slot };

    ghost stated_made = { λ s ms. slot_zero {X = Unit {0}} (λ _. None) s.name.now ms s.slot };

    #[inline(always)]
    fn is(&self, key: &str) -> bool {
        key == self.name
    }

    #[tactic(auto, using(crate::specs::Laws::slot_came))]
    #[inline(always)]
    fn take(
        &mut self,
        _alloc: Global,
        reader: &mut Reader<'_>,
        depth: usize,
    ) -> Result<(), Refusal> {
        skip(reader, depth)?;
        self.slot = Some(None);
        Ok(())
    }

    #[inline(always)]
    fn part(&mut self, _alloc: Global) -> Option<i128> {
        match self.slot {
            Some(_) => None,
            None => Some(0),
        }
    }
}
