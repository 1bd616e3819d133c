//! The run of sessions over a map.
ghost use Rattle.std.specs.Prelude.{◌≡◌, ◌≤◌, ◌++◌, ℕ, List, [], length, map, false, is_err};
ghost use Rattle.std.specs.Prelude.{OnOk, OnErr};
ghost use Rattle.std.specs.List.{concat, list_any};
ghost use Rattle.epochlog.specs.Epochs.{max_capacity};
ghost use Rattle.refusal.specs.declared.refused.Refusal.TheVariants.{BadLimit};
ghost use Rattle.refusal.specs.Outcomes.{refused_unless, Gives};
ghost use Rattle.monitor.specs.Opening.{can_open, max_draws, IsOpening};
ghost use Rattle.session.specs.Sinks.{HasPut};
ghost use Rattle.server.specs.Serving.{max_scripts, journal_of, KeepsAll, Serves, ServesFrom, has_output_failed, text_left};

use crate::fault::Fault;
use crate::left::Left;
use crate::part::Part;
use crate::players::play_all;
use crate::system::System;
use epochlog::{Keeps, Nothing};
use mapjson::read_map;
use mapparts::Profile;
use monitor::{Limits, MAX_DRAWS, Member, Monitor};
use osdmap::OsdMap;
use refusal::{Memory, Refusal};
use session::{Sink, WriteFailed, write_whole};
use std::alloc::Global;
use std::sync::Wait;
use std::thread::Threads;

/// How many sessions a run may have.
pub const MAX_SCRIPTS: usize = 64;

/// By what sessions run.
#[derive(Clone, Copy)]
pub struct Terms {
    /// How many changes may be committed: 1 to 65,536.
    pub journal: u32,
    /// Which maps and changes texts may state.
    pub profile: Profile,
    pub ghost least: { 1 ≤ journal },
    pub ghost most: { journal ≤ max_capacity },
}

/// The first map of a run, and what keeps its journal.
#[derive(Drop)]
pub struct First<K: Keeps + Drop> {
    /// The map.
    pub map: OsdMap,
    /// The store.
    pub store: K,
}

/// Puts the texts that are left to a sink, one after the other. At an `Err` the sink has failed, and has a beginning of
/// them.
fn put<W: Sink>(out: &mut W, lefts: &[Left]) -> Result<(), WriteFailed>
    requires { W.has_failed out.old ≡ false }
    ensures whole { OnOk result (W.written out.new ≡ W.written out.old ++ concat (map text_left lefts.now)) }
    ensures part { OnErr result ((rest : List ℕ)
        × HasPut (W.written out.old) (concat (map text_left lefts.now)) rest (W.written out.new)) }
    ensures failed { W.has_failed out.new ≡ is_err result }
{
    for left in lefts {
        write_whole(out, left.text.bytes())?;
    }
    Ok(())
}

/// Whether one of the sessions has told that a file of it has failed.
fn have_told(lefts: &[Left]) -> bool
    ensures { result ≡ list_any (λ left. left.has_told) lefts.now }
{
    lefts.iter().any(|left| left.has_told)
}

/// A monitor of a map, whose store holds it and no change, and its members.
///
/// # Errors
///
/// `BadLimit` (12) exactly where the map's epoch is not 1 to 2,147,483,648; else `Memory` (30).
fn open_monitor<R: Threads + Sync, K: Keeps + Drop>(
    rt: &R,
    alloc: Global,
    first: First<K>,
    terms: Terms,
    seats: usize,
) -> Result<(Monitor<K>, Vec<Member>), Refusal>
    requires few { seats ≤ max_scripts }
    requires held { K.holds first.store (record { first = first.map.map; steps = [] }) }
    ensures { Gives result (refused_unless (can_open first.map.map.epoch terms.journal seats max_draws) BadLimit)
        (λ r. IsOpening first.map.map terms.journal seats max_draws terms.profile r.0 r.1.items) }
{
    let limits = Limits {
        journal: terms.journal,
        seats: seats as u32,
        draws: MAX_DRAWS,
    };
    let (monitor, members) = Monitor::open_stored(rt, alloc, first.map, limits, first.store)?;
    Ok((monitor.with_profile(terms.profile), members))
}

/// Runs sessions over a map, whose store holds it and no change, each in a thread of its own, with a seat at one
/// monitor; after all have ended it puts to a sink for each script in order the heading of its session and its answers,
/// and nothing for a live session, whose answers are out. All threads are started before one is joined. There are 1 to
/// 64 parts. What a crash then leaves of the store is all that the sessions have changed, and at most one change more.
///
/// # Errors
///
/// `Map` with `BadLimit` (12) where the map's epoch is not 1 to 2,147,483,648, and then nothing is put, nor at
/// `Memory`: memory ran out (30) before the sessions or for one of their texts, or a thread could not be made. Nothing
/// is put at `Lost` either: a change that a session has seen is not of one session, or the lock has lost the state,
/// which tests alone say does not come. `Told` comes after all is put, where a file of a live session has
/// failed, which its thread tells on standard error.
/// `Output` comes only where the sink has failed, which then has a beginning of the texts; at every other end it has
/// not failed.
pub fn serve_map<
    R: AllocGlobal + Threads + Wait + Eprint + Sync,
    W: Sink,
    K: Keeps + Drop + Send + Sync,
>(
    system: &System<'_, R>,
    terms: Terms,
    first: First<K>,
    parts: &[Part],
    out: &mut W,
) -> Result<(), Fault>
    requires some { 1 ≤ length parts.now }
    requires few { length parts.now ≤ max_scripts }
    requires unfailed { W.has_failed out.old ≡ false }
    requires held { K.holds first.store (record { first = first.map.map; steps = [] }) }
    ensures served { ServesFrom (λ all. KeepsAll K.may_leave (journal_of first.map.map all)) first.map.map
        terms.journal terms.profile parts.now (W.written out.old) (W.written out.new) result }
    ensures failed { W.has_failed out.new ≡ has_output_failed result }
{
    let alloc = system.rt.alloc();
    let (monitor, members) = match open_monitor(system.rt, alloc, first, terms, parts.len()) {
        Ok(made) => made,
        Err(refusal) => return Err(Fault::of_refusal(refusal)),
    };
    let lefts = play_all(system, monitor, members, parts)?;
    put(out, &lefts)?;
    if have_told(&lefts) {
        return Err(Fault::Told);
    }
    Ok(())
}

/// Runs sessions as [`serve_map`] does over the map that a text states, whose journal is in memory alone.
///
/// # Errors
///
/// `Map` exactly where the map is refused (10 to 17), unless memory runs out, and then nothing is put; the others of
/// [`serve_map`].
pub fn serve<R: AllocGlobal + Threads + Wait + Eprint + Sync, W: Sink>(
    system: &System<'_, R>,
    terms: Terms,
    map: &[u8],
    parts: &[Part],
    out: &mut W,
) -> Result<(), Fault>
    requires some { 1 ≤ length parts.now }
    requires few { length parts.now ≤ max_scripts }
    requires unfailed { W.has_failed out.old ≡ false }
    ensures served { Serves terms.journal terms.profile map.now parts.now
        (W.written out.old) (W.written out.new) result }
    ensures failed { W.has_failed out.new ≡ has_output_failed result }
{
    match read_map(system.rt.alloc(), map, terms.profile) {
        Ok(map) => {
            let store = Nothing;
            serve_map(system, terms, First { map, store }, parts, out)
        }
        Err(refusal) => Err(Fault::of_refusal(refusal)),
    }
}
