//! The parts of maps and changes, and what OSDs carry, as JSON texts (RFC 8259) state them, read from the tokens of
//! a text with no tree of its values; their numbers are untested.
//!
//! - `map`, `change`, `loads`: maps, changes, and what OSDs carry
//! - `unbased`: changes without a base
//! - `forest`, `rules`, `pools`, `exceptions`: buckets, rules and their steps, pools and OSDs, groups and their
//!   exceptions
//! - `objects`, `fields`: objects, each read by the list of its fields
//! - `lists`: lists of any length, and of two or three values
//! - `values`, `words`: what a value can state, numbers and flags, and words
//! - `profile`: what texts state, where their profile has it
//! - `whole`: what a whole text states
#![tactic(auto)]

ghost use Rattle.jsonstream.specs.Json.{Answers, stated_by};
ghost use Rattle.partjson.specs.Profiles.{map_in, change_in, unbased_in};
ghost use Rattle.partjson.specs.StatedLoads.{stated_loads};

mod change;
mod exceptions;
mod fields;
mod forest;
mod lists;
mod loads;
mod map;
mod objects;
mod pools;
mod profile;
mod rules;
mod unbased;
mod values;
mod whole;
mod words;

pub use crate::loads::RawLoad;
use crate::profile::{brings_kinds, has_all_kinds};
use crate::unbased::Unbased;
use crate::whole::stated_by;
use json::Scratch;
use keylist::Entries;
use mapparts::{MapParts, Profile, RawChange};
use refusal::Refusal;
use std::alloc::Global;

/// The parts of the map that a text states.
///
/// # Errors
///
/// `BadJson` (10) where the text is not UTF-8, is no JSON or nests deeper than 127; else `BadField` (11) where it does
/// not state a map: all keys but those of the exceptions must be there and no other may be, in a map whose version is
/// not 2 no rule sets tries, and no bucket is of a kind that the profile has not; or `Memory` (30) where there is no
/// memory for it.
pub fn read_map_parts(alloc: Global, bytes: &[u8], profile: Profile) -> Result<MapParts, Refusal>
    ensures { Answers result (stated_by (map_in profile) bytes.now) }
{
    let parts: MapParts = stated_by(alloc, &mut Scratch::new(alloc), bytes)?;
    if !has_all_kinds(profile, &parts) {
        return Err(Refusal::BadField);
    }
    Ok(parts)
}

/// The parts of the change that a text states. Whoever reads many keeps the scratch from one to the next, which saves
/// each the room for its tokens.
///
/// # Errors
///
/// `BadJson` (10) where the text is not UTF-8, is no JSON or nests deeper than 127; else `BadField` (11) where it does
/// not state a change: the base must be there, and no key but the twelve of a change may be, nor a bucket of a kind
/// that the profile has not; or `Memory` (30) where there is no memory for it.
pub fn read_change_parts(
    alloc: Global,
    scratch: &mut Scratch,
    bytes: &[u8],
    profile: Profile,
) -> Result<RawChange, Refusal>
    ensures { Answers result (stated_by (change_in profile) bytes.now) }
{
    let parts: RawChange = stated_by(alloc, scratch, bytes)?;
    if !brings_kinds(profile, &parts.crush) {
        return Err(Refusal::BadField);
    }
    Ok(parts)
}

/// The parts of the change that a text states without a base: those that it would state with the base 0.
///
/// # Errors
///
/// Those of [`read_change_parts`], but that the base must not be there.
pub fn read_unbased_parts(
    alloc: Global,
    scratch: &mut Scratch,
    bytes: &[u8],
    profile: Profile,
) -> Result<RawChange, Refusal>
    ensures { Answers result (stated_by (unbased_in profile) bytes.now) }
{
    let Unbased { change } = stated_by(alloc, scratch, bytes)?;
    if !brings_kinds(profile, &change.crush) {
        return Err(Refusal::BadField);
    }
    Ok(change)
}

/// What OSDs carry as a text states it: a list of lists of an OSD and a number.
///
/// # Errors
///
/// `BadJson` (10) where the text is not UTF-8, is no JSON or nests deeper than 127; else `BadField` (11) where it is no
/// such list; or `Memory` (30) where there is no memory for it.
pub fn read_raw_loads(alloc: Global, bytes: &[u8]) -> Result<Entries<RawLoad>, Refusal>
    ensures { Answers result (stated_by stated_loads bytes.now) }
{
    stated_by(alloc, &mut Scratch::new(alloc), bytes)
}
