//! Whether the numbers and lengths of a change are within the limits of a profile.

ghost use Rattle.std.specs.Prelude.{◌≡◌, true};
ghost use Rattle.std.specs.List.{list_all};
ghost use Rattle.std.specs.Option.{option_map_or};
ghost use Rattle.mapparts.specs.Parts.{crush_fits_in};
ghost use Rattle.mapparts.specs.Profiles.{limits_of};
ghost use Rattle.mapparts.specs.Changes.{is_pool_id, pool_ids_fit_in, pool_changes_fit_in, osd_changes_fit_in, exception_changes_fit_in, change_fits_in};

use crate::change::{ExceptionChanges, OsdChanges, PoolChanges, RawChange, ReweightPart};
use crate::fits::crush_fits_in;
use crate::limited::{Limited, entries_fit};
use crate::limits::{Limits, MAX_BASE, MAX_POOL_ID};
use crate::numbers::{has_between, is_between};
use crate::parts::{CrushParts, ExceptionPart, GrowPart, PoolPart};
use crate::pg_parts::PgParts;
use crate::profile::Profile;

/// Whether a number can be a pool's id.
#[tactic(auto, unfolding(crate::specs::Changes::is_pool_id))]
fn is_pool_id(number: i128) -> bool
    ensures { result ≡ is_pool_id number }
{
    is_between(1, MAX_POOL_ID, number)
}

/// Whether each number can be a pool's id.
fn all_are_pool_ids(ids: &[i128]) -> bool
    ensures { result ≡ list_all is_pool_id ids.now }
{
    ids.iter().all(|id| is_pool_id(*id))
}

/// Whether a list of pools' ids is within the limits.
fn pool_ids_fit_in(ids: &[i128], limits: &Limits) -> bool
    ensures { result ≡ pool_ids_fit_in limits.now ids.now }
{
    has_between(0, limits.entries, ids) && all_are_pool_ids(ids)
}

/// Whether a CRUSH map is within the limits, where there is one.
fn new_crush_fits_in(crush: &Option<CrushParts>, limits: &Limits) -> bool
    ensures { result ≡ option_map_or (crush_fits_in limits.now) crush.now true }
{
    match crush {
        Some(parts) => crush_fits_in(parts, limits),
        None => true,
    }
}

/// Whether what a change does with pools is within the limits.
fn pool_changes_fit_in(pools: &PoolChanges<i128, PoolPart, GrowPart>, limits: &Limits) -> bool
    ensures { result ≡ pool_changes_fit_in limits.now pools.now }
{
    pool_ids_fit_in(&pools.gone, limits)
        && entries_fit::<PoolPart>(&pools.come, limits)
        && entries_fit::<GrowPart>(&pools.grow, limits)
}

/// Whether what it does with OSDs is.
fn osd_changes_fit_in(osds: &OsdChanges<i128>, limits: &Limits) -> bool
    ensures { result ≡ osd_changes_fit_in limits.now osds.now }
{
    entries_fit::<i128>(&osds.down, limits) && entries_fit::<i128>(&osds.up, limits)
}

/// Whether what it does with exceptions of one kind is.
fn exception_changes_fit_in<P: Limited>(
    exceptions: &ExceptionChanges<PgParts, ExceptionPart<P>>,
    limits: &Limits,
) -> bool
    ensures { result ≡ exception_changes_fit_in (P.within limits.now) limits.now exceptions.now }
{
    entries_fit::<PgParts>(&exceptions.gone, limits)
        && entries_fit::<ExceptionPart<P>>(&exceptions.come, limits)
}

/// Whether every number and every length of a change is within the limits of a profile.
#[tactic(auto, unfolding(crate::specs::Changes::change_fits_in))]
pub fn change_fits_in(change: &RawChange, profile: Profile) -> bool
    ensures { result ≡ change_fits_in (limits_of profile) change.now }
{
    let limits = profile.limits();
    is_between(0, MAX_BASE, change.base)
        && pool_changes_fit_in(&change.pools, &limits)
        && new_crush_fits_in(&change.crush, &limits)
        && osd_changes_fit_in(&change.osds, &limits)
        && entries_fit::<ReweightPart>(&change.weights, &limits)
        && exception_changes_fit_in(&change.explicit, &limits)
        && exception_changes_fit_in(&change.items, &limits)
}
