//! Groups of a pool that a change names, placed side by side: each room has a share of them.

ghost use Rattle.std.specs.Prelude.{◌≡◌, ◌<◌, All};
ghost use Rattle.pgtable.specs.After.{HasPool};

use crate::rooms::{Room, forget, take_share};
use crate::update::Update;
use grouptable::OsdSet;
use maptypes::Pool;
use refusal::Memory;
use std::alloc::Global;
use std::thread;
use std::thread::Threads;

/// Some groups of a pool that are placed after a change, so many in each room.
#[derive(Drop)]
pub(crate) struct Shares<'a> {
    pub update: &'a Update<'a>,
    pub pool: &'a Pool,
    pub numbers: &'a [u32],
    pub size: usize,
    ghost there: { HasPool update.now pool.now },
    ghost inside: { All (λ number. number < pool.now.pg_num) numbers.now },
}

impl Shares<'_> {
    ghost use Rattle.std.specs.Prelude.{◌≡◌, ◌<◌, ◌≤◌, ◌*◌, ℕ, map, length, take, slice_index_or, IfOk, OnOk, IfSome, IsSome};
    ghost use Rattle.pgtable.specs.declared.rooms.Room.{Room};
    ghost use Rattle.pgtable.specs.After.{map_after};
    ghost use Rattle.pgtable.specs.Patches.{with_sets};
    ghost use Rattle.pgtable.specs.Rooms.{RunMore, start_of};
    ghost use Rattle.pgtable.specs.Shares.{share_of, IsShare};

    /// Where the share of a room begins.
    fn start(&self, room: usize) -> usize
        ensures { result ≡ start_of room self.now.size (length self.now.numbers.now) }
    {
        room.saturating_mul(self.size).min(self.numbers.len())
    }

    /// The groups of the share of a room.
    fn share(&self, room: usize) -> &[u32]
        ensures { result.now ≡ share_of room self.now.size self.now.numbers.now }
    {
        let from = self.start(room);
        let to = self.start(room.saturating_add(1));
        &self.numbers[from..to]
    }

    /// The share of a room is placed.
    fn place(&self, alloc: Global, number: usize, room: &mut Room)
        ensures { IfSome room.new.changes (λ changes. IsShare (map_after self.now.update.now) self.now.pool.now
            (share_of number self.now.size self.now.numbers.now) room.old.work room.new.work changes.items) }
    {
        let numbers = self.share(number);
        room.changes = self
            .update
            .with_sets_in_one(alloc, self.pool, numbers, &mut room.work)
            .ok();
    }

    /// The shares of all rooms are placed, each in a thread of its own, or one after another where no thread can be
    /// made.
    fn place_all<R: Threads + Sync>(&self, rt: &R, alloc: Global, rooms: &mut [Room])
        requires { 0 < length rooms.old }
        ensures { (k : ℕ) (d : Room) → k < length rooms.old → IfSome (slice_index_or rooms.new k d).changes (λ changes.
            IsShare (map_after self.now.update.now) self.now.pool.now (share_of k self.now.size self.now.numbers.now)
            (slice_index_or rooms.old k d).work (slice_index_or rooms.new k d).work changes.items) }
    {
        let threads = rooms.len();
        thread::for_each_mut(
            rt,
            rooms,
            threads,
            &|number, room| self.place(alloc, number, room),
        );
    }

    /// What the rooms made of their shares, in their order; or `Memory` (30), which may have been short in a room.
    fn join(&self, alloc: Global, rooms: &mut [Room]) -> Result<Vec<(u32, OsdSet)>, Memory>
        requires { (k : ℕ) (d : Room) → k < length rooms.old → IfSome (slice_index_or rooms.old k d).changes (λ changes.
            changes.items ≡ with_sets (map_after self.now.update.now) self.now.pool.now
            (share_of k self.now.size self.now.numbers.now)) }
        ensures changes { IfOk result (λ changes. changes.items ≡ with_sets (map_after self.now.update.now)
            self.now.pool.now
            (take (start_of (length rooms.old) self.now.size (length self.now.numbers.now)) self.now.numbers.now)) }
        ensures all { OnOk result ((k : ℕ) (d : Room) → k < length rooms.old
            → IsSome (slice_index_or rooms.old k d).changes) }
        ensures works { map (λ room. room.work) rooms.new ≡ map (λ room. room.work) rooms.old }
    {
        let mut changes = Vec::with_capacity(alloc, self.numbers.len())?;
        for i in 0..rooms.len() {
            let Some(mut share) = take_share(&mut rooms[i]) else {
                return Err(Memory);
            };
            changes.append(&mut share)?;
        }
        Ok(changes)
    }

    /// All groups with their mapped sets after the change, a share of them in each room; or `Memory` (30).
    pub(crate) fn changes<R: Threads + Sync>(
        &self,
        rt: &R,
        alloc: Global,
        rooms: &mut [Room],
    ) -> Result<Vec<(u32, OsdSet)>, Memory>
        requires some { 0 < length rooms.old }
        requires size { length self.now.numbers.now ≤ self.now.size * length rooms.old }
        ensures changes { IfOk result (λ changes. changes.items ≡ with_sets (map_after self.now.update.now)
            self.now.pool.now self.now.numbers.now) }
        ensures runs { OnOk result (RunMore (length self.now.numbers.now) (map (λ room. room.work) rooms.old)
            (map (λ room. room.work) rooms.new)) }
    {
        self.place_all(rt, alloc, rooms);
        let changes = self.join(alloc, rooms);
        forget(rooms);
        changes
    }
}
