//! Which groups of a pool a change concerns: their exceptions go or come with it, or name an OSD that gets another
//! reweight.

ghost use Rattle.std.specs.Prelude.{◌≡◌, ◌*◌, ◌^◌, true, IfOk};
ghost use Rattle.std.specs.Option.{option_copied};
ghost use Rattle.std.specs.List.{list_any};
ghost use Rattle.std.specs.List.Sorted.{IsNonDecreasingBy};
ghost use Rattle.keylist.specs.Keys.{has_key};
ghost use Rattle.maptypes.specs.Exceptions.{pg_key};
ghost use Rattle.osdmap.specs.Evals.{names_reweighted, concerns};
ghost use Rattle.pgtable.specs.Candidates.{IsCandidates, number_at, concerned_number, numbers_in};
ghost use Rattle.pgtable.specs.Patches.{concerned_numbers};

use crate::candidates::groups_for;
use keylist::{Keyed, has};
use maptypes::{Change, Entry, Pg, Pool, Reweight};
use osdmap::OsdMap;
use refusal::Memory;
use std::alloc::Global;

/// Whether an entry of an exception names an OSD that gets another reweight.
fn is_reweighted<E: Entry>(entry: &E, weight: &[Reweight]) -> bool
    requires { IsNonDecreasingBy (λ w. w.osd) weight.now }
    ensures { result ≡ list_any (has_key (λ w. w.osd) weight.now) (E.names entry.now) }
{
    match entry.named_osds() {
        (osd, None) => has(weight, u64::from(osd)),
        (osd, Some(other)) => has(weight, u64::from(osd)) || has(weight, u64::from(other)),
    }
}

/// Whether some entries name an OSD that gets another reweight.
fn name_reweighted<E: Entry>(entries: &[E], weight: &[Reweight]) -> bool
    requires { IsNonDecreasingBy (λ w. w.osd) weight.now }
    ensures { result ≡ list_any (λ entry. list_any (has_key (λ w. w.osd) weight.now) (E.names entry)) entries.now }
{
    entries.iter().any(
        |entry: &E| -> bool
            requires { IsNonDecreasingBy (λ w. w.osd) weight.now }
            ensures { result ≡ list_any (has_key (λ w. w.osd) weight.entry.now) (E.names entry.now) }
        { is_reweighted(entry, weight) },
    )
}

/// Whether an exception names an OSD that gets another reweight.
fn names_reweighted<E: Entry>(change: &Change, said: Option<&[E]>) -> bool
    ensures { result ≡ names_reweighted E.names change.now (option_copied said.entry) }
{
    let weight: &[Reweight] = &change.parts().weights;
    said.is_some_and(|entries| name_reweighted(entries, weight))
}

/// Whether a change concerns the exceptions that a map has of a group.
#[tactic(auto, unfolding(osdmap::specs::Evals::concerns))]
fn concerns(map: &OsdMap, change: &Change, pg: Pg) -> bool
    ensures { result ≡ concerns map.now.map change.now pg }
{
    change.names(pg)
        || names_reweighted(change, map.explicit(pg))
        || names_reweighted(change, map.items(pg))
}

/// The number in a pool of a group, where it stands in it.
fn number_of(pool: &Pool, group: Pg) -> Option<u32>
    ensures { result ≡ number_at (λ _. true) (pool.now.id * 2 ^ 32) pool.now.pg_num (pg_key group) }
{
    let first = Pg {
        pool: pool.id(),
        number: 0,
    };
    let number = group.key().checked_sub(first.key())?;
    if number < u64::from(pool.pg_num()) {
        Some(number as u32)
    } else {
        None
    }
}

/// The number in a pool of a group that stands in it and that a change concerns.
fn number_in(map: &OsdMap, change: &Change, pool: &Pool, group: Pg) -> Option<u32>
    ensures { result ≡ concerned_number map.now.map change.now pool.now group }
{
    let number = number_of(pool, group)?;
    let pg = Pg {
        pool: pool.id(),
        number,
    };
    if concerns(map, change, pg) {
        Some(number)
    } else {
        None
    }
}

/// The numbers in a pool of those of some groups that stand in it and that a change concerns; or `Memory` (30).
fn numbers_in(
    alloc: Global,
    map: &OsdMap,
    change: &Change,
    pool: &Pool,
    groups: &[Pg],
) -> Result<Vec<u32>, Memory>
    ensures { IfOk result (λ numbers. numbers.items ≡ numbers_in map.now.map change.now pool.now groups.now) }
{
    Ok(
        groups
            .iter()
            .filter_map(|group| number_in(map, change, pool, *group))
            .collect(alloc)?,
    )
}

/// The groups of a pool that a change concerns, found among candidates; or `Memory` (30).
pub(crate) fn concerned_numbers(
    alloc: Global,
    map: &OsdMap,
    change: &Change,
    pool: &Pool,
    candidates: &[Pg],
) -> Result<Vec<u32>, Memory>
    requires { IsCandidates map.now.map change.now candidates.now }
    ensures { IfOk result (λ numbers. numbers.items ≡ concerned_numbers map.now.map change.now pool.now) }
{
    let numbers = numbers_in(alloc, map, change, pool, groups_for(pool, candidates))?;
    Ok(numbers)
}
