//! A row of a kept journal, and the map after its change.

ghost use Rattle.std.specs.Prelude.{◌≡◌, ◌==◌, ◌&&◌, ◌+◌, IfErr, OnErr, OnOk};
ghost use Rattle.std.specs.Result.{result_err};
ghost use Rattle.maptypes.specs.Incrementals.{Step};
ghost use Rattle.osdmap.specs.Changes.{apply};
ghost use Rattle.replay.specs.Replays.{MakesStep, IsRefused, step_fault};

use mapjson::read_change;
use mapparts::Profile;
use maptypes::{Change, Incremental};
use osdmap::OsdMap;
use refusal::Refusal;
use std::alloc::Global;

/// A row of a kept journal.
#[derive(Debug, Drop)]
pub struct Row {
    /// The epoch of the map after the change.
    pub epoch: u64,
    /// The change, as JSON; its base is the epoch before.
    pub text: Vec<u8>,
}

/// Whether a row of this epoch, which states a change to the map of the epoch `base`, is the next of a map.
fn is_next(current: u64, epoch: u64, base: u64) -> bool
    ensures { result ≡ (base == current && epoch == current + 1) }
{
    base == current && current.checked_add(1) == Some(epoch)
}

/// Whether anything is wrong with a row of this epoch, which states a change to the map of the epoch `base`, behind a
/// map.
#[tactic(auto, unfolding(crate::specs::Replays::step_fault))]
fn check_step(map: &OsdMap, epoch: u64, base: u64, change: &Change) -> Result<(), Refusal>
    ensures { result_err result ≡ step_fault map.now.map epoch base change.now }
{
    let current = map.epoch();
    if !is_next(current, epoch, base) {
        return Err(Refusal::StaleEpoch(current));
    }
    map.check(change)
}

/// Makes the change of a row, which is the next of a map.
///
/// # Errors
///
/// What [`read_change`] refuses by its text (10 to 15); else `StaleEpoch` (20) with the map's epoch where the row's is
/// not the next, or its base is another; else what [`OsdMap::check`] refuses (21, 22, 23, 24, 13, 15, 25, 26, 27).
/// `Memory` (30) may come in place of any answer. The map is then as it was.
pub fn make_row(map: &mut OsdMap, alloc: Global, row: &Row, profile: Profile) -> Result<(), Refusal>
    ensures made { OnOk result ((step : Step) × MakesStep profile map.old.map row.now step
        × (map.new.map ≡ apply map.old.map step)) }
    ensures refused { IfErr result (IsRefused profile map.old.map row.now) }
    ensures same { OnErr result (map.new.map ≡ map.old.map) }
{
    let (base, change) = read_change(alloc, &row.text, profile)?;
    check_step(map, row.epoch, base, &change)?;
    map.reserve_for(alloc, &change)?;
    map.apply(&Incremental::new(row.epoch, change));
    Ok(())
}
