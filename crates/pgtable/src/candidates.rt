//! The groups that a change can concern.

ghost use Rattle.std.specs.Prelude.{◌≡◌, ◌<◌, ◌≤◌, ℕ, [], false, None, length, nat_le, nat_lt, filter, slice_index_or, IfOk};
ghost use Rattle.std.specs.List.{list_any};
ghost use Rattle.keylist.specs.Order.{IsRising};
ghost use Rattle.maptypes.specs.Exceptions.{pg_key};
ghost use Rattle.maptypes.specs.Named.{NamedRise};
ghost use Rattle.maptypes.specs.declared.pg.Pg.{Pg};
ghost use Rattle.maptypes.specs.declared.change.ChangeParts.{ChangeParts};
ghost use Rattle.osdmap.specs.Changes.{change_fault};
ghost use Rattle.osdmap.specs.Maps.{ClusterMap};
ghost use Rattle.pgtable.specs.Candidates.{IsCandidates, candidates, is_of_pool, numbers_in};

use keylist::Keyed;
use maptypes::{Change, Pg, Pool, join_groups_of};
use osdmap::OsdMap;
use refusal::Memory;
use std::alloc::Global;

/// From so many groups on a pool's are sought by halving. Below it, that costs more than it spares.
const MANY: usize = 16;

/// What a change names that a map does not refuse is in ascending order, each once: for proofs alone.
pub(crate) fn names_rise(_map: &OsdMap, change: &Change)
    requires { change_fault _map.now.map change.now ≡ None }
    ensures { NamedRise change.now }
{
    let _ = change.parts();
}

/// The groups that a change names, and where some OSD gets another reweight all that have exceptions after it, in
/// ascending order; or `Memory` (30).
#[tactic(auto, unfolding(crate::specs::Candidates::candidates))]
fn with_excepted(alloc: Global, change: &Change, after: &OsdMap) -> Result<Vec<Pg>, Memory>
    requires { NamedRise change.now }
    ensures candidates { IfOk result (λ groups. groups.items ≡ candidates after.now.map change.now) }
    ensures rising { IfOk result (λ groups. IsRising pg_key groups.items) }
{
    after.holds_together();
    let mut groups = change.named_groups(alloc)?;
    if !change.parts().weights.is_empty() {
        join_groups_of(alloc, &mut groups, after.explicits())?;
        join_groups_of(alloc, &mut groups, after.all_items())?;
    }
    Ok(groups)
}

/// Groups in ascending order, among which are all whose exceptions a change concerns that a map does not refuse; or
/// `Memory` (30).
pub(crate) fn candidates(
    alloc: Global,
    before: &OsdMap,
    change: &Change,
    after: &OsdMap,
) -> Result<Vec<Pg>, Memory>
    requires { change_fault before.now.map change.now ≡ None }
    ensures { IfOk result (λ groups. IsCandidates after.now.map change.now groups.items) }
{
    names_rise(before, change);
    let groups = with_excepted(alloc, change, after)?;
    Ok(groups)
}

/// How many of some groups, in ascending order, come before a key; by halving.
pub(crate) fn count_below(groups: &[Pg], key: u64) -> usize
    requires { IsRising pg_key groups.now }
    ensures within { result ≤ length groups.now }
    ensures below { (k : ℕ) (d : Pg) → k < result → pg_key (slice_index_or groups.now k d) < key }
    ensures above { (k : ℕ) (d : Pg) → result ≤ k → k < length groups.now
        → key ≤ pg_key (slice_index_or groups.now k d) }
{
    groups.partition_point(|group| group.key() < key)
}

/// Those of some groups, in ascending order, that do not come before a key.
fn from_key(groups: &[Pg], key: u64) -> &[Pg]
    requires { IsRising pg_key groups.now }
    ensures { result.now ≡ filter (λ g. nat_le key (pg_key g)) groups.now }
{
    &groups[count_below(groups, key)..]
}

/// Those of some groups, in ascending order, that come before a key.
fn below_key(groups: &[Pg], key: u64) -> &[Pg]
    requires { IsRising pg_key groups.now }
    ensures { result.now ≡ filter (λ g. nat_lt (pg_key g) key) groups.now }
{
    &groups[..count_below(groups, key)]
}

/// Those of some groups, in ascending order, that stand in a pool; by halving.
fn slice_in<'a>(pool: &Pool, groups: &'a [Pg]) -> &'a [Pg]
    requires { IsRising pg_key groups.now }
    ensures { result.now ≡ filter (is_of_pool pool.now) groups.now }
{
    let first = Pg {
        pool: pool.id(),
        number: 0,
    };
    let end = first.key() + u64::from(pool.pg_num());
    below_key(from_key(groups, first.key()), end)
}

/// Among which of some groups, in ascending order, those of a pool are sought: where there are many, only these.
pub(crate) fn groups_for<'a>(pool: &Pool, groups: &'a [Pg]) -> &'a [Pg]
    requires { IsRising pg_key groups.now }
    ensures { (m : ClusterMap) (c : ChangeParts)
        → numbers_in m c pool.now result.now ≡ numbers_in m c pool.now groups.now }
{
    if groups.len() < MANY {
        groups
    } else {
        slice_in(pool, groups)
    }
}

/// Whether a group stands in a pool.
fn is_in(pool: &Pool, group: Pg) -> bool
    ensures { result ≡ is_of_pool pool.now group }
{
    let first = Pg {
        pool: pool.id(),
        number: 0,
    };
    let key = group.key();
    first.key() <= key && key < first.key() + u64::from(pool.pg_num())
}

/// Whether one of some groups stands in a pool.
fn any_in(pool: &Pool, groups: &[Pg]) -> bool
    ensures { result ≡ list_any (is_of_pool pool.now) groups.now }
{
    groups.iter().any(|group| is_in(pool, *group))
}

/// Whether some groups may stand in a pool: where there are many, they may.
pub(crate) fn may_be_in(pool: &Pool, groups: &[Pg]) -> bool
    ensures { result ≡ false → (m : ClusterMap) (c : ChangeParts) → [] ≡ numbers_in m c pool.now groups.now }
{
    MANY <= groups.len() || any_in(pool, groups)
}
