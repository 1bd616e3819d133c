//! The text of a change states that change and no other.

ghost use Rattle.std.specs.Prelude.{◌≡◌, true, IfOk};
ghost use Rattle.mapjson.specs.WrittenChanges.{fits_text};
ghost use Rattle.map_laws.specs.ChangeLaws.{of_profile, IsChangeReadBack, ReadChangesFit, AcceptedFits, JournalsAreReadBack};

use mapjson::{read_change, write_change};
use mapparts::Profile;
use maptypes::Change;
use osdmap::OsdMap;
use refusal::{Memory, Refusal};
use std::alloc::Global;

/// The text of a change is read back as that change by each profile within whose limits its numbers and lengths are
/// (`fits_text`), with whatever base it was written: it has no fault, and states that base and that change of that
/// profile, and nothing else.
pub fn written_change_is_read_back(change: &Change)
    ensures { IsChangeReadBack change.now }
{
    let _ = change.parts();
    change.groups_are_read_back();
}

/// Each change that was read from a text is of the profile by which it was read, and within its limits.
pub fn read_changes_fit()
    ensures { ReadChangesFit }
{}

/// Each change that a map does not refuse, also that of a plan, is within the limits of the profile `Stock`.
pub fn accepted_changes_fit(map: &OsdMap, change: &Change)
    ensures { AcceptedFits map.now.map change.now }
{
    map.holds_together();
    let _ = change.parts();
}

/// A journal whose changes were written outlives the process: what is read back by the profile `Stock` are the same
/// changes of that profile, which are lawful and lead to the same map.
pub fn journals_are_read_back()
    ensures { JournalsAreReadBack }
{}

/// A change within the limits of a profile, written with a base and read back by that profile: the same base and the
/// same change, of that profile; or `Memory` (30).
pub fn change_there_and_back(
    alloc: Global,
    base: u64,
    change: &Change,
    profile: Profile,
) -> Result<(u64, Change), Memory>
    requires { fits_text profile change.now ≡ true }
    ensures { IfOk result (λ back. back ≡ (base, of_profile profile change.now)) }
{
    written_change_is_read_back(change);
    let text = write_change(alloc, base, change)?;
    match read_change(alloc, &text, profile) {
        Ok(back) => Ok(back),
        Err(Refusal::Memory) => Err(Memory),
        Err(_) => unreachable!(),
    }
}
