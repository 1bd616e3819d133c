//! Who follows the row of a monitor without its lock.

ghost use Rattle.std.specs.Prelude.{◌≡◌, ◌+◌, ◌-◌, ◌≤◌, length, slice_get, Some, IfSome, IfNone, IfOk, OnErr};
ghost use Rattle.epochlog.specs.Epochs.{Begins};
ghost use Rattle.monitor.specs.Followers.{Steps};

use crate::member::Member;
use crate::monitor::Monitor;
use crush::Work;
use epochlog::{Keeps, Pass, Row};
use mapjson::write_map;
use maptypes::{Incremental, Pg, UpSet};
use osdmap::OsdMap;
use refusal::{Memory, Refusal};
use state::SharedMap;
use std::alloc::Global;
use std::marker::Model;
use upmap_cleanup::{Remnant, remnant_of};

/// One who follows the row of sealed epochs without the lock: it waits for no one, and has a map of its own, up to
/// whose epoch it has applied the incrementals one by one. It may move to another thread, and be dropped.
#[derive(Drop)]
pub struct Follower {
    pub(crate) first: SharedMap,
    pub(crate) pass: Pass,
    pub(crate) map: OsdMap,
    pub(crate) work: Work,
}

impl Model for Follower {
    ghost use Rattle.monitor.specs.Followers.{Followed, IsFollowed, followed};

    ghost Value = { Followed };

    ghost view = { λ f. followed f.first.map f.pass f.map.map f.work.runs };

    ghost invariant = { λ f. IsFollowed (followed f.first.map f.pass f.map.map f.work.runs) };
}

/// The incremental of the next epoch after this one, if a pass has seen it, or sees it now.
fn next_after<'r>(row: &'r Row, pass: &mut Pass, epoch: u64) -> Option<&'r Incremental>
    requires row { pass.old.row ≡ row.now }
    requires from { row.now.first ≤ epoch }
    ensures row { pass.new.row ≡ row.now }
    ensures begins { Begins pass.old.history pass.new.history }
    ensures epoch { IfSome result (λ step. step.now.epoch ≡ epoch + 1) }
    ensures place { IfSome result (λ step. slice_get pass.new.history (epoch - row.now.first) ≡ Some step.now) }
    ensures seen { IfNone result (row.now.first + length pass.new.history ≤ epoch) }
    ensures within { length pass.new.history ≤ length row.now.cells }
{
    if pass.epoch() <= epoch {
        let _ = row.read_next(pass);
    }
    if epoch < pass.epoch() {
        Some(row.at(pass, epoch + 1))
    } else {
        None
    }
}

/// Applies an incremental of the next epoch, unless the map refuses its change, and only then not; or `Memory` (30).
fn step_on(map: &mut OsdMap, alloc: Global, step: &Incremental) -> Result<bool, Memory>
    requires { step.now.epoch ≡ map.old.map.epoch + 1 }
    ensures made { IfOk result (λ made. Steps map.old.map map.new.map step.now made) }
    ensures same { OnErr result (map.new.map ≡ map.old.map) }
{
    if map.check(step.change()).is_err() {
        return Ok(false);
    }
    map.reserve_for(alloc, step.change())?;
    map.apply(step);
    Ok(true)
}

impl Follower {
    ghost use Rattle.std.specs.Prelude.{◌≡◌, ◌≤◌, [], length, IfOk, OnOk, Some};
    ghost use Rattle.std.specs.Str.{IsUtf8};
    ghost use Rattle.refusal.specs.Outcomes.{Gives};
    ghost use Rattle.osdmap.specs.Placement.{group_fault};
    ghost use Rattle.osdmap.specs.Changes.{epoch_after, after, IsLawful};
    ghost use Rattle.epochlog.specs.Epochs.{Begins, OneBegins, longer};
    ghost use Rattle.pgtable.specs.Index.{up_at};
    ghost use Rattle.mapjson.specs.Written.{written};
    ghost use Rattle.upmap_cleanup.specs.Kept.{remnant_at};
    ghost use Rattle.monitor.specs.Followers.{Follows, GoesOnFrom, Advances, IsCaughtUp, RunsForOne};

    /// A follower of this monitor, at the first map.
    ///
    /// # Errors
    ///
    /// `Memory` (30) where there is no memory for it.
    pub fn new<K: Keeps + Drop>(alloc: Global, monitor: &Monitor<K>) -> Result<Follower, Memory>
        ensures { IfOk result (λ follower.
            Follows monitor.now follower × (follower.history ≡ []) × (follower.map ≡ monitor.now.first)
            × (follower.runs ≡ 0)) }
    {
        let first = monitor.first.share()?;
        let map = monitor.first.map().copy(alloc)?;
        let pass = monitor.row.pass(alloc)?;
        let work = Work::new(alloc, map.forest())?;
        Ok(Follower {
            first,
            pass,
            map,
            work,
        })
    }

    /// The map's epoch, which its history reaches.
    pub fn epoch(&self) -> u64
        ensures value { result ≡ self.now.map.epoch }
        ensures reached { result ≡ epoch_after self.now.first self.now.history }
        ensures map { self.now.map ≡ after self.now.first self.now.history }
        ensures lawful { IsLawful self.now.first self.now.history }
        ensures seen { Begins self.now.history self.now.seen }
    {
        self.map.epoch()
    }

    /// What its pass has seen of its row, of which its history is a beginning.
    pub fn pass(&self) -> &Pass
        ensures row { result.now.row ≡ self.now.row }
        ensures seen { result.now.history ≡ self.now.seen }
        ensures front { Begins self.now.history self.now.seen }
    {
        &self.pass
    }

    /// Applies the incremental of the next epoch, unless the row shows none or the map refuses it.
    fn advance(&mut self, alloc: Global, row: &Row) -> Result<bool, Memory>
        requires { self.old.row ≡ row.now }
        ensures goes_on { GoesOnFrom self.old self.new }
        ensures advances { IfOk result (Advances self.old self.new) }
        ensures front { Begins self.new.history self.new.seen }
        ensures within { length self.new.seen ≤ length row.now.cells }
    {
        match next_after(row, &mut self.pass, self.map.epoch()) {
            Some(step) => step_on(&mut self.map, alloc, step),
            None => Ok(false),
        }
    }

    /// Applies the incrementals of the next epochs, until it has caught up.
    fn go_on(&mut self, alloc: Global, row: &Row) -> Result<(), Memory>
        requires { self.old.row ≡ row.now }
        ensures goes_on { GoesOnFrom self.old self.new }
        ensures ends { OnOk result (IsCaughtUp self.new) }
    {
        for _ in 0..row.capacity() {
            if !self.advance(alloc, row)? {
                return Ok(());
            }
        }
        Ok(())
    }

    /// Applies what the row shows after the follower's epoch, one incremental after another, and answers the epoch that
    /// it has reached: the last one that its pass has seen, or the one before that of a change that its map refuses. It
    /// waits for no one.
    ///
    /// # Errors
    ///
    /// `Memory` (30) where there is no memory for it. The follower then stands at an epoch that it has fully applied.
    pub fn catch_up<K: Keeps + Drop>(
        &mut self,
        alloc: Global,
        monitor: &Monitor<K>,
    ) -> Result<u64, Memory>
        requires { Follows monitor.now self.old }
        ensures goes_on { GoesOnFrom self.old self.new }
        ensures epoch { IfOk result (λ epoch. epoch ≡ epoch_after self.new.first self.new.history) }
        ensures ends { OnOk result (IsCaughtUp self.new) }
    {
        self.go_on(alloc, &monitor.row)?;
        Ok(self.epoch())
    }

    /// The epoch and the up set of a group by the follower's map. It takes one run of the group's rule.
    ///
    /// # Errors
    ///
    /// `UnknownPool` (23) where the map has no such pool; else `UnknownGroup` (25) where the pool has no such group;
    /// else `Memory` (30) where there is no memory for it.
    pub fn up(&mut self, pg: Pg) -> Result<(u64, UpSet), Refusal>
        ensures answer { Gives result (group_fault self.old.map pg)
            (λ answer. (answer.0 ≡ self.old.map.epoch) × (Some answer.1 ≡ up_at self.old.map pg)) }
        ensures run { RunsForOne self.old self.new result }
    {
        let set = self.map.up_of(pg, &mut self.work)?;
        Ok((self.map.epoch(), set))
    }

    /// The epoch, and what a Ceph monitor would leave of the exceptions of a group of the follower's map. It takes one
    /// run of the group's rule.
    ///
    /// # Errors
    ///
    /// `UnknownPool` (23) where the map has no such pool; else `UnknownGroup` (25) where the pool has no such group;
    /// else `Memory` (30) where there is no memory for it.
    pub fn kept(&mut self, pg: Pg) -> Result<(u64, Remnant), Refusal>
        ensures answer { Gives result (group_fault self.old.map pg)
            (λ answer. (answer.0 ≡ self.old.map.epoch) × (Some answer.1 ≡ remnant_at self.old.map pg)) }
        ensures run { RunsForOne self.old self.new result }
    {
        let left = remnant_of(&self.map, pg, &mut self.work)?;
        Ok((self.map.epoch(), left))
    }

    /// The text of the follower's map, as `mapjson::write_map` writes it.
    ///
    /// # Errors
    ///
    /// `Memory` (30) where there is no memory for it.
    pub fn dump(&self, alloc: Global) -> Result<Vec<u8>, Memory>
        ensures text { IfOk result (λ text. text.items ≡ written self.now.map) }
        ensures utf8 { IfOk result (λ text. IsUtf8 text.items) }
    {
        write_map(alloc, &self.map)
    }

    /// After it the history of one is known to begin that of the other. Both are of one monitor. It takes no memory and
    /// waits for no one.
    pub fn meet(&mut self, member: &mut Member)
        requires { self.old.row ≡ member.old.pass.row }
        ensures mine { self.new ≡ self.old }
        ensures theirs { member.new ≡ member.old }
        ensures begins { OneBegins self.old.history member.old.pass.history }
    {
        self.pass.meet(&mut member.pass);
    }

    /// The follower's pass has seen then what the member's has, so that [`Follower::catch_up`] goes on at least to
    /// there. Both are of one monitor. It takes no memory and waits for no one.
    pub fn join(&mut self, member: &Member)
        requires { self.old.row ≡ member.now.pass.row }
        ensures goes_on { GoesOnFrom self.old self.new }
        ensures seen { self.new.seen ≡ longer self.old.seen member.now.pass.history }
        ensures history { self.new.history ≡ self.old.history }
        ensures map { self.new.map ≡ self.old.map }
    {
        self.pass.join(&member.pass);
    }
}
