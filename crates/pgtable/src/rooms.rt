//! Rooms in which groups are placed side by side: each room has a `Work` and, while it places some, a thread of its
//! own.

ghost use Rattle.std.specs.Prelude.{◌≡◌, ◌<◌, ◌-◌, ◌^◌, min, map, length, IfOk};
ghost use Rattle.maptypes.specs.Pools.{total_groups};
ghost use Rattle.pgtable.specs.Rooms.{runs_of};

use crate::pool_table::PoolTable;
use crush::{Forest, Work};
use grouptable::{OsdSet, SetList};
use maptypes::Pool;
use osdmap::OsdMap;
use refusal::Memory;
use std::alloc::Global;
use std::marker::Model;
use std::thread;
use std::thread::Threads;

/// A map of fewer groups in all has one room: its runs take some 20 ms. Pools of fewer groups in all have no stretches.
pub(crate) const MANY_GROUPS: u64 = 4_096;

/// The groups of a smaller pool are placed in one room: their runs take some 4 ms, and starting threads 0.1.
pub(crate) const LEAST_SHARED: u32 = 1_024;

/// So many rooms at most, however many processors there are.
const MAX_ROOMS: usize = 16;

/// A work, and what was last made with it until it is taken, if there was memory for it: the mapped sets of a part of a
/// pool, other sets for a share of its groups, or the tables of a stretch of pools.
#[derive(Drop)]
pub(crate) struct Room {
    pub work: Work,
    pub made: Option<SetList>,
    pub changes: Option<Vec<(u32, OsdSet)>>,
    pub tables: Option<Vec<PoolTable>>,
}

/// One room or more. Contracts see what their works have counted.
#[derive(Drop)]
pub struct Rooms {
    pub(crate) rooms: Vec<Room>,
}

impl Model for Rooms {
    ghost use Rattle.std.specs.Prelude.{List, map, length, ◌<◌};
    ghost use Rattle.crush.specs.Run.{Ran};

    ghost Value = { List Ran };

    ghost view = { λ r. map (λ room. room.work) r.rooms.items };

    ghost invariant = { λ r. 0 < length r.rooms.items };
}

/// What a room made of its share, which it then has no more.
pub(crate) fn take_share(room: &mut Room) -> Option<Vec<(u32, OsdSet)>>
    ensures share { result ≡ room.old.changes }
    ensures work { room.new.work ≡ room.old.work }
{
    room.changes.take()
}

/// The tables that a room made, which it then has no more.
pub(crate) fn take_tables(room: &mut Room) -> Option<Vec<PoolTable>>
    ensures tables { result ≡ room.old.tables }
    ensures work { room.new.work ≡ room.old.work }
{
    room.tables.take()
}

/// What a room made is let go.
fn clear(room: &mut Room)
    ensures { room.new.work ≡ room.old.work }
{
    room.made = None;
    room.changes = None;
    room.tables = None;
}

/// What is left of what the rooms made is let go.
pub(crate) fn forget(rooms: &mut [Room])
    ensures { map (λ room. room.work) rooms.new ≡ map (λ room. room.work) rooms.old }
{
    for i in 0..rooms.len() {
        clear(&mut rooms[i]);
    }
}

/// So many rooms, whose works have counted no run; or `Memory` (30).
fn new_rooms(alloc: Global, forest: &Forest, count: usize) -> Result<Vec<Room>, Memory>
    ensures len { IfOk result (λ rooms. length rooms.items ≡ count) }
    ensures runs { IfOk result (λ rooms. runs_of (map (λ room. room.work) rooms.items) ≡ 0) }
{
    let mut rooms = Vec::with_capacity(alloc, count)?;
    for _room in 0..count {
        rooms.push(Room {
            work: Work::new(alloc, forest)?,
            made: None,
            changes: None,
            tables: None,
        })?;
    }
    Ok(rooms)
}

/// How many groups the pools have in all. The count stays at the greatest number.
pub(crate) fn count_groups(pools: &[Pool]) -> u64
    ensures { result ≡ min (total_groups pools.now) (2 ^ 64 - 1) }
{
    let mut count: u64 = 0;
    for pool in pools {
        count = count.saturating_add(u64::from(pool.pg_num()));
    }
    count
}

/// How many rooms the groups of a map are placed in: one for each processor where they are many, else one.
fn count_rooms<R: Threads>(rt: &R, map: &OsdMap) -> usize
    ensures { 0 < result }
{
    if count_groups(map.pools()) < MANY_GROUPS {
        return 1;
    }
    match thread::available_parallelism(rt) {
        Ok(count) => count.get().min(MAX_ROOMS),
        Err(_) => 1,
    }
}

impl Rooms {
    ghost use Rattle.std.specs.Prelude.{◌≡◌, IfOk};
    ghost use Rattle.pgtable.specs.Rooms.{runs_of};

    /// Rooms for the groups of a map, whose works have counted no run: one for each processor where the groups are
    /// many, else one.
    ///
    /// # Errors
    ///
    /// `Memory` (30) where there is no memory for them.
    pub fn new<R: Threads>(rt: &R, alloc: Global, map: &OsdMap) -> Result<Rooms, Memory>
        ensures { IfOk result (λ rooms. runs_of rooms ≡ 0) }
    {
        let rooms = new_rooms(alloc, map.forest(), count_rooms(rt, map))?;
        Ok(Rooms { rooms })
    }
}
