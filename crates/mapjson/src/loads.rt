//! What OSDs carry, of the parts that a text states.

ghost use Rattle.std.specs.Prelude.{◌≡◌, ◌⊎◌, true, IsTrue, All, map, pos, negsuc, Ok, Err, IfOk, MatchResult};
ghost use Rattle.std.specs.List.{list_all};
ghost use Rattle.refusal.specs.declared.refused.Refusal.{Refusal};
ghost use Rattle.refusal.specs.Outcomes.{Makes};
ghost use Rattle.keylist.specs.Order.{IsRising};
ghost use Rattle.mapparts.specs.Parts.{is_between};
ghost use Rattle.jsonstream.specs.Json.{stated_by};
ghost use Rattle.partjson.specs.StatedLoads.{stated_loads};
ghost use Rattle.mapjson.specs.LoadTexts.{load_fits, load_within, carried_of, carried_list, loads_fault};

use keylist::{Entries, Keyed, entry_of, sort_distinct};
use mapparts::numbers::{is_between, word};
use partjson::{RawLoad, read_raw_loads};
use refusal::{Memory, Refusal};
use std::alloc::{AllocError, Global};

/// The greatest number of 32 bits.
const MAX_WORD: i128 = 4_294_967_295;

/// The least and the greatest number of 32 bits with a sign.
const LEAST_CARRIED: i128 = -2_147_483_648;

const MOST_CARRIED: i128 = 2_147_483_647;

/// An OSD and what it carries.
#[derive(Clone, Copy, Debug)]
struct Load {
    osd: u32,
    carried: i32,
}

impl Keyed for Load {
    ghost key_of = { λ l. l.osd };

    fn key(&self) -> u64 {
        u64::from(self.osd)
    }
}

/// Whether a load is of an OSD below so many, and its number has 32 bits.
#[tactic(auto, unfolding(crate::specs::LoadTexts::load_fits))]
fn fits(most: u32, load: &RawLoad) -> bool
    ensures { result ≡ load_fits most load.now }
{
    is_between(0, MAX_WORD, load.osd)
        && load.osd < i128::from(most)
        && is_between(LEAST_CARRIED, MOST_CARRIED, load.carried)
}

/// Whether each load fits.
fn all_fit(most: u32, loads: &[RawLoad]) -> bool
    ensures { result ≡ list_all (load_fits most) loads.now }
{
    loads.iter().all(|load| fits(most, load))
}

/// A number that has 32 bits.
#[tactic(auto, unfolding(mapparts::specs::Parts::is_between))]
fn narrow_number(number: i128) -> i32
    requires { IsTrue (is_between (negsuc 2147483647) (pos 2147483647) number) }
    ensures { result ≡ number }
{
    number as i32
}

/// A load that fits.
#[tactic(auto, unfolding(crate::specs::LoadTexts::load_fits))]
fn narrow_load(most: u32, load: &RawLoad) -> Load
    requires { IsTrue (load_fits most load.now) }
    ensures { result ≡ load_within load.now }
{
    Load {
        osd: word(load.osd),
        carried: narrow_number(load.carried),
    }
}

/// Loads that fit.
fn narrow_loads(alloc: Global, most: u32, loads: &[RawLoad]) -> Result<Vec<Load>, AllocError>
    requires { All (λ l. IsTrue (load_fits most l)) loads.now }
    ensures { IfOk result (λ found. found.items ≡ map load_within loads.now) }
{
    loads
        .iter()
        .map(|load| narrow_load(most, load))
        .collect(alloc)
}

/// What an OSD carries.
fn carried_of(loads: &[Load], osd: u32) -> i32
    requires { IsRising (λ l. l.osd) loads.now }
    ensures { result ≡ carried_of loads.now osd }
{
    match entry_of(loads, u64::from(osd)) {
        Some(load) => load.carried,
        None => 0,
    }
}

/// What so many OSDs carry, by number.
fn list_by_osd(alloc: Global, loads: &[Load], most: u32) -> Result<Vec<i32>, AllocError>
    requires { IsRising (λ l. l.osd) loads.now }
    ensures { IfOk result (λ list. list.items ≡ carried_list most loads.now) }
{
    let mut list = Vec::with_capacity(alloc, most as usize)?;
    for osd in 0..most {
        list.push(carried_of(loads, osd))?;
    }
    Ok(list)
}

/// What so many OSDs carry, by number: `BadField` (11) where a load does not fit, or an OSD stands there twice.
pub(crate) fn list_loads(alloc: Global, most: u32, loads: &[RawLoad]) -> Result<Vec<i32>, Refusal>
    ensures { Makes result (loads_fault most loads.now)
        (λ list. list.items ≡ carried_list most (map load_within loads.now)) }
{
    if !all_fit(most, loads) {
        return Err(Refusal::BadField);
    }
    let loads = narrow_loads(alloc, most, loads)?;
    let loads = sort_distinct(loads, Refusal::BadField)?;
    Ok(list_by_osd(alloc, &loads, most)?)
}

/// The loads that a text states: `BadField` (11) where it states none.
pub(crate) fn parse_loads(alloc: Global, bytes: &[u8]) -> Result<Entries<RawLoad>, Refusal>
    ensures { MatchResult result (λ loads. stated_by stated_loads bytes.now ≡ Ok loads)
        (λ e. (e ≡ Refusal.Memory) ⊎ ((e ≡ Refusal.BadField)
        × ((why : Refusal) × (stated_by stated_loads bytes.now ≡ Err why)))) }
{
    match read_raw_loads(alloc, bytes) {
        Err(Refusal::BadJson) => Err(Refusal::BadField),
        answer => answer,
    }
}
