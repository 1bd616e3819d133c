//! The up sets of all groups of a pool, as text.
ghost use Rattle.std.specs.Prelude.{◌≡◌, ◌++◌, OnOk};
ghost use Rattle.std.specs.String.{string_bytes};
ghost use Rattle.osdmap.specs.Maps.{pool_at};
ghost use Rattle.session.specs.Texts.{shown_text};
ghost use Rattle.session.specs.PoolSets.{FindsSets, RunsForSets};

use crate::text::push_places;
use epochlog::Keeps;
use maptypes::{Pg, UpSet};
use monitor::Follower;
use refusal::Refusal;
use state::State;
use std::alloc::{AllocError, Global};

/// The up sets of all groups of a pool at one epoch, as text: by number from 0 on, each as `up` tells it, behind a
/// space.
#[derive(Debug, Drop)]
pub(crate) struct PoolSets {
    pub epoch: u64,
    pub pool: u32,
    pub text: String,
}

/// Adds a set as `up` tells it, behind a space.
fn push_shown(text: &mut String, set: &UpSet) -> Result<(), AllocError>
    ensures { OnOk result (string_bytes text.new ≡ string_bytes text.old ++ shown_text set.now) }
{
    text.push_str(" [")?;
    push_places(text, set.places())?;
    text.push_str("]")
}

/// Finds the up sets of all groups of a pool in a state: `UnknownPool` (23) where it has no such pool, and `Memory`
/// (30) where there is no memory for their text.
pub(crate) fn sets_in<K: Keeps + Drop>(
    alloc: Global,
    state: &State<K>,
    pool: u32,
) -> Result<PoolSets, Refusal>
    ensures { FindsSets state.now.map pool result }
{
    let epoch = state.map().epoch();
    let mut text = String::new(alloc);
    for number in 0..u32::MAX {
        match state.answer_up(Pg { pool, number }) {
            Ok((_, set)) => push_shown(&mut text, &set)?,
            Err(Refusal::UnknownGroup) => return Ok(PoolSets { epoch, pool, text }),
            Err(refusal) => return Err(refusal),
        }
    }
    Err(Refusal::Memory)
}

/// Finds the up sets of all groups of a pool in a follower's map, by a run of a rule for each: `UnknownPool` (23) where
/// it has no such pool, and `Memory` (30) where there is no memory for them.
pub(crate) fn sets_of(
    alloc: Global,
    follower: &mut Follower,
    pool: u32,
) -> Result<PoolSets, Refusal>
    ensures same { follower.new ≡ record follower.old { runs = follower.new.runs } }
    ensures runs { RunsForSets (pool_at follower.old.map.pools pool) follower.old.runs follower.new.runs result }
    ensures finds { FindsSets follower.old.map pool result }
{
    let epoch = follower.epoch();
    let mut text = String::new(alloc);
    for number in 0..u32::MAX {
        match follower.up(Pg { pool, number }) {
            Ok((_, set)) => push_shown(&mut text, &set)?,
            Err(Refusal::UnknownGroup) => return Ok(PoolSets { epoch, pool, text }),
            Err(refusal) => return Err(refusal),
        }
    }
    Err(Refusal::Memory)
}
