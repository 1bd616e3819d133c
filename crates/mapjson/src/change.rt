//! The change that the stated parts of one stand for, and why there is none.

ghost use Rattle.refusal.specs.Outcomes.{Makes};
ghost use Rattle.mapjson.specs.ChangeTexts.{change_fault_in, IsChangeOf};

mod within;

use mapparts::change_fits::change_fits_in;
use mapparts::{Profile, RawChange};
use maptypes::ChangeParts;
use refusal::Refusal;
use std::alloc::Global;
use within::{base_within, crush_within, parts_within};

/// The base and the parts of a change that a text states: `BadLimit` (12) where a number or a length is outside the
/// limits of the profile; else `BadForest` (13) or `BadRule` (14) where its forest is not well formed over 4,096
/// devices, or a rule is none over it; else `BadPool` (15) where a pool would have more groups for placement than
/// groups; `Memory` (30).
#[inline(always)]
pub(crate) fn change_within(
    alloc: Global,
    change: &RawChange,
    profile: Profile,
) -> Result<(u64, ChangeParts), Refusal>
    ensures { Makes result (change_fault_in profile change.now) (λ r. IsChangeOf profile change.now r.0 r.1) }
{
    if !change_fits_in(change, profile) {
        return Err(Refusal::BadLimit);
    }
    let crush = crush_within(alloc, &change.crush)?;
    let parts = parts_within(alloc, change, crush, profile)?;
    Ok((base_within(change), parts))
}
