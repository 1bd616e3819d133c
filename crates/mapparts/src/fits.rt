//! Whether the numbers and lengths of a map are within the limits of a profile.

ghost use Rattle.std.specs.Prelude.{◌≡◌, ◌≤ℤ◌, true, pos};
ghost use Rattle.mapparts.specs.Parts.{crush_fits_in, head_fits_in, lists_fit_in, parts_fit_in};
ghost use Rattle.mapparts.specs.Limits.{max_first_epoch};
ghost use Rattle.mapparts.specs.Profiles.{limits_of};

use crate::limited::{all_fit, entries_fit};
use crate::limits::{Limits, MAX_FIRST_EPOCH, MAX_VERSION};
use crate::numbers::{has_between, is_between};
use crate::parts::{
    BucketPart, CrushParts, ExceptionPart, MapParts, OsdPart, PairPart, PoolPart, RulePart,
};
use crate::pools::have_few_groups;
use crate::profile::Profile;

/// Whether the version, the epoch and `max_osd` are within their limits.
#[tactic(auto, unfolding(crate::specs::Parts::head_fits_in))]
fn head_fits_in(parts: &MapParts, limits: &Limits) -> bool
    ensures value { result ≡ head_fits_in limits.now parts.now }
    ensures epoch { result ≡ true → (pos 1 ≤ℤ parts.now.epoch) × (parts.now.epoch ≤ℤ pos max_first_epoch) }
{
    is_between(1, MAX_VERSION, parts.version)
        && is_between(1, MAX_FIRST_EPOCH, parts.epoch)
        && is_between(1, limits.max_osd, parts.max_osd)
}

/// Whether the lists of buckets, rules and pools are as long as they may be.
#[tactic(auto, unfolding(crate::specs::Parts::lists_fit_in))]
fn lists_fit_in(parts: &MapParts, limits: &Limits) -> bool
    ensures { result ≡ lists_fit_in limits.now parts.now }
{
    has_between(1, limits.buckets, &parts.buckets)
        && has_between(1, limits.rules, &parts.rules)
        && has_between(0, limits.pools, &parts.pools)
}

/// Whether every number and every length of a CRUSH map is within the limits.
#[tactic(auto, unfolding(crate::specs::Parts::crush_fits_in))]
pub fn crush_fits_in(parts: &CrushParts, limits: &Limits) -> bool
    ensures { result ≡ crush_fits_in limits.now parts.now }
{
    has_between(1, limits.buckets, &parts.buckets)
        && has_between(1, limits.rules, &parts.rules)
        && all_fit::<BucketPart>(&parts.buckets, limits)
        && all_fit::<RulePart>(&parts.rules, limits)
}

/// Whether every number and every length of a map is within the limits of a profile.
#[tactic(auto, unfolding(crate::specs::Parts::parts_fit_in))]
pub fn parts_fit_in(parts: &MapParts, profile: Profile) -> bool
    ensures value { result ≡ parts_fit_in (limits_of profile) parts.now }
    ensures epoch { result ≡ true → (pos 1 ≤ℤ parts.now.epoch) × (parts.now.epoch ≤ℤ pos max_first_epoch) }
{
    let limits = profile.limits();
    head_fits_in(parts, &limits)
        && lists_fit_in(parts, &limits)
        && all_fit::<BucketPart>(&parts.buckets, &limits)
        && all_fit::<RulePart>(&parts.rules, &limits)
        && all_fit::<PoolPart>(&parts.pools, &limits)
        && have_few_groups(&parts.pools)
        && all_fit::<OsdPart>(&parts.osds, &limits)
        && entries_fit::<ExceptionPart<i128>>(&parts.pg_upmap, &limits)
        && entries_fit::<ExceptionPart<PairPart>>(&parts.pg_upmap_items, &limits)
}
