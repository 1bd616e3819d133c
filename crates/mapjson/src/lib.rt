//! Maps, changes, and what OSDs carry, as JSON text (RFC 8259).
//!
//! - `change`: the change that the stated parts of one stand for, and why there is none
//! - `change/within`: the change of parts within their limits
//! - `loads`: what OSDs carry, of the parts that a text states
//! - `written`, `written/value`: what is written of maps and changes, token by token into their text
//! - `written/forest`, `written/pools`, `written/exceptions`: of forests and rules, of pools and what they grow to, of
//!   groups and their exceptions
//! - `written/map`, `written/change`: of a map, and of a change with its base
#![tactic(auto)]

ghost use Rattle.std.specs.Prelude.{◌≡◌, Ok, IfOk};
ghost use Rattle.std.specs.Str.{IsUtf8};
ghost use Rattle.refusal.specs.Outcomes.{Makes};
ghost use Rattle.osdmap.specs.PartsOf.{parts_of};
ghost use Rattle.jsonstream.specs.Json.{stated_by};
ghost use Rattle.partjson.specs.StatedMaps.{stated_map};
ghost use Rattle.partjson.specs.StatedChanges.{stated_change};
ghost use Rattle.mapjson.specs.MapTexts.{map_fault_in, map_text_fault, StatesMap};
ghost use Rattle.osdmap.specs.Stated.{IsStated};
ghost use Rattle.mapjson.specs.ChangeTexts.{change_text_fault, StatesChange, unbased_text_fault, StatesUnbased};
ghost use Rattle.mapjson.specs.LoadTexts.{load_text_fault, StatesLoads};
ghost use Rattle.mapjson.specs.Written.{written};
ghost use Rattle.mapjson.specs.PartsOfChange.{change_parts};
ghost use Rattle.mapjson.specs.WrittenChanges.{written_change};

mod change;
mod loads;
mod written;

use crate::change::change_within;
use crate::loads::{list_loads, parse_loads};
use crate::written::{WriteJson, write_parts};
use json::{Scratch, Writer};
use mapparts::{MapParts, Profile};
use maptypes::Change;
use osdmap::OsdMap;
use partjson::{read_change_parts, read_map_parts, read_unbased_parts};
use refusal::{Memory, Refusal};
use std::alloc::Global;

/// The map that a text states.
///
/// # Errors
///
/// `BadJson` (10) where the text is not UTF-8, is no JSON or nests deeper than 127; else `BadField` (11) where it does
/// not state a map of the kinds of buckets that the profile has; else those of [`OsdMap::new`], or under `Stock` of
/// [`OsdMap::stock`], for the parts that it states; or `Memory` (30) where there is no memory for it.
pub fn read_map(alloc: Global, bytes: &[u8], profile: Profile) -> Result<OsdMap, Refusal>
    ensures { Makes result (map_text_fault profile bytes.now) (λ m. StatesMap profile bytes.now m.map) }
{
    map_of(alloc, read_map_parts(alloc, bytes, profile)?, profile)
}

/// The map that parts state by the limits of a profile.
fn map_of(alloc: Global, parts: MapParts, profile: Profile) -> Result<OsdMap, Refusal>
    ensures { Makes result (map_fault_in profile parts) (λ m. IsStated parts m.map) }
{
    if profile.is_stock() {
        OsdMap::stock(alloc, parts)
    } else {
        OsdMap::new(alloc, parts)
    }
}

/// The base and the change that a text states.
///
/// # Errors
///
/// The first of these, each tested over the whole text:
///
/// - `BadJson` (10): the text is not UTF-8, is no JSON or nests deeper than 127.
/// - `BadField` (11): it does not state a change that brings no kinds of buckets but those of the profile.
/// - `BadLimit` (12): a number or a length is outside its limits: a base of 0 to 2^64 - 1, ids of pools of 1 to 65,535,
///   OSDs of 0 to 4,095, reweights of 0 to 4,294,967,295, groups' numbers of at most 32 bits, at most 20 OSDs or pairs
///   of a group, lists of at most 1,048,576 entries, of a new pool what [`osdmap::Pool`] has, of a growth what
///   [`osdmap::Grow`] has, of a new CRUSH map what a map's buckets and rules have, and under `Plain` also the limits of
///   plain clusters ([`mapparts::limits`], lists of at most 131,072 entries among them).
/// - `BadForest` (13): the new buckets are no well-formed forest over 4,096 devices.
/// - `BadRule` (14): a new rule is outside the grammar, takes a bucket that is not among them, or has the id of
///   another.
/// - `BadPool` (15): the `pgp_num` of a new or growing pool is above its `pg_num`.
///
/// Or `Memory` (30) where there is no memory for it.
pub fn read_change(alloc: Global, bytes: &[u8], profile: Profile) -> Result<(u64, Change), Refusal>
    ensures { Makes result (change_text_fault profile bytes.now) (StatesChange profile bytes.now) }
{
    read_change_with(alloc, &mut Scratch::new(alloc), bytes, profile)
}

/// The base and the change that a text states, read with a scratch that is kept from one text to the next: so a change
/// of a few words takes no room for its tokens. It keeps room for the longest text that it was lent to.
///
/// # Errors
///
/// Those of [`read_change`].
pub fn read_change_with(
    alloc: Global,
    scratch: &mut Scratch,
    bytes: &[u8],
    profile: Profile,
) -> Result<(u64, Change), Refusal>
    ensures { Makes result (change_text_fault profile bytes.now) (StatesChange profile bytes.now) }
{
    let stated = read_change_parts(alloc, scratch, bytes, profile)?;
    let (base, parts) = change_within(alloc, &stated, profile)?;
    let change = Change::new(parts)?;
    Ok((base, change))
}

/// The change that a text states without a base, read with a scratch as by [`read_change_with`].
///
/// # Errors
///
/// Those of [`read_change`], but that the base must not be there: a text that has one is refused by `BadField` (11).
pub fn read_unbased_with(
    alloc: Global,
    scratch: &mut Scratch,
    bytes: &[u8],
    profile: Profile,
) -> Result<Change, Refusal>
    ensures { Makes result (unbased_text_fault profile bytes.now) (StatesUnbased profile bytes.now) }
{
    let stated = read_unbased_parts(alloc, scratch, bytes, profile)?;
    let (_, parts) = change_within(alloc, &stated, profile)?;
    Ok(Change::new(parts)?)
}

/// What so many OSDs carry, by number, in 256ths of a group, as a text states it: a list of lists of an OSD and its
/// number, `[[0,-120],[3,256]]`, in any order. An OSD that is not named carries 0.
///
/// # Errors
///
/// `BadField` (11) where the text is no such list, an OSD is not below so many or stands there twice, or a number is
/// outside -2,147,483,648 to 2,147,483,647; or `Memory` (30) where there is no memory for it.
pub fn read_loads(alloc: Global, bytes: &[u8], most: u32) -> Result<Vec<i32>, Refusal>
    ensures { Makes result (load_text_fault most bytes.now) (λ list. StatesLoads most bytes.now list.items) }
{
    let loads = parse_loads(alloc, bytes)?;
    list_loads(alloc, most, &loads)
}

/// The text of a map: compact JSON, each object with all its keys in byte order, buckets by id from -1 downwards,
/// rules, pools and OSDs by id upwards, exceptions by group upwards, items, steps, explicit sets and pairs in their
/// order. An OSD that does not exist and has reweight 0 is left out.
///
/// # Errors
///
/// `Memory` (30) where there is no memory for it.
pub fn write_map(alloc: Global, map: &OsdMap) -> Result<Vec<u8>, Memory>
    ensures text { IfOk result (λ bytes. bytes.items ≡ written map.now.map) }
    ensures utf8 { IfOk result (λ bytes. IsUtf8 bytes.items) }
    ensures reads_back { IfOk result (λ bytes. stated_by stated_map bytes.items ≡ Ok (parts_of map.now.map)) }
{
    let mut out = Writer::new(Vec::new(alloc));
    map.write_json(alloc, &mut out)?;
    Ok(out.into_inner())
}

/// The text of a change with the epoch to which it applies: compact JSON, all keys in byte order, also those of empty
/// lists, but without `new_crush` where the change has none. Pools, growths and OSDs stand by id upwards, groups and
/// exceptions by group upwards, a CRUSH map as in the text of a map.
///
/// # Errors
///
/// `Memory` (30) where there is no memory for it.
pub fn write_change(alloc: Global, base: u64, change: &Change) -> Result<Vec<u8>, Memory>
    ensures text { IfOk result (λ bytes. bytes.items ≡ written_change base change.now) }
    ensures utf8 { IfOk result (λ bytes. IsUtf8 bytes.items) }
    ensures reads_back { IfOk result (λ bytes.
        stated_by stated_change bytes.items ≡ Ok (change_parts base change.now)) }
{
    let mut out = Writer::new(Vec::new(alloc));
    write_parts(alloc, &mut out, base, change.parts())?;
    Ok(out.into_inner())
}
