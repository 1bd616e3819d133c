//! The state of a monitor: the first map, what its pass has seen of the row of epochs, the present map and its table,
//! and what keeps its journal.

ghost use Rattle.std.specs.Prelude.{◌≡◌, ◌+◌, ◌^◌, ◌<◌, ◌++◌, ◌∷◌, [], length, false, IfOk, OnErr, None};
ghost use Rattle.epochlog.specs.Epochs.{epoch_of};
ghost use Rattle.epochlog.specs.Journals.{with_step};
ghost use Rattle.epochlog.specs.Stores.{IsKeptBy};
ghost use Rattle.osdmap.specs.Changes.{change_fault, apply};
ghost use Rattle.pgtable.specs.Rooms.{RunMore};
ghost use Rattle.pgtable.specs.Tables.{IsTableOf};
ghost use Rattle.pgtable.specs.Patches.{LeadsTo};
ghost use Rattle.osdmap.specs.Stored.{HasRoomFor};
ghost use Rattle.state.specs.States.{IsReady, journal};

use crate::shared_map::SharedMap;
use epochlog::{Keeper, Keeps, Kept, NotSealed, Nothing, Pass, Row};
use maptypes::{Change, Incremental};
use osdmap::OsdMap;
use pgtable::{Patch, PgTable, Rooms};
use refusal::{Memory, Refusal};
use std::alloc::Global;
use std::marker::Model;
use std::thread::Threads;

/// A change, and the epoch of the map that it is for.
#[derive(Drop)]
pub struct Proposal {
    /// The epoch.
    pub base: u64,
    /// The change.
    pub change: Change,
}

/// What a commit made.
#[derive(Clone, Copy, Debug, PartialEq, Eq)]
pub struct Commit {
    /// The new epoch.
    pub epoch: u64,
    /// For how many groups a rule was run.
    pub evals: usize,
}

/// The state of a monitor, where it takes memory, the rooms that it lends to all that runs rules, and the keeper of its
/// journal.
#[derive(Drop)]
pub struct State<K: Keeps + Drop = Nothing> {
    pub(crate) alloc: Global,
    pub(crate) first: SharedMap,
    pub(crate) pass: Pass,
    pub(crate) map: OsdMap,
    pub(crate) table: PgTable,
    pub(crate) rooms: Rooms,
    pub(crate) keeper: Keeper<K>,
}

impl<K: Keeps + Drop> Model for State<K> {
    ghost use Rattle.epochlog.specs.Stores.{IsKeptBy};
    ghost use Rattle.pgtable.specs.Rooms.{runs_of};
    ghost use Rattle.state.specs.States.{StateFacts, IsKept, facts, journal};

    ghost Value = { StateFacts };

    ghost view = { λ s. facts s.first.map s.pass s.map.map (runs_of s.rooms) s.keeper.has_failed };

    ghost invariant = { λ s.
        IsKept (facts s.first.map s.pass s.map.map (runs_of s.rooms) s.keeper.has_failed) s.table
        × IsKeptBy K.holds K.may_leave K.may_fail s.keeper (journal s.first.map s.pass.history) };
}

/// All that a commit needs memory for: room in the map, the patch of its table, for which `rooms` count a rule run for
/// each evaluation, and the incremental of the next epoch in a box.
fn prepare<R: AllocGlobal + Threads + Sync>(
    rt: &R,
    map: &mut OsdMap,
    table: &PgTable,
    rooms: &mut Rooms,
    change: Change,
) -> Result<(Patch, Box<Incremental>), Memory>
    requires table { IsTableOf table.now map.old.map }
    requires lawful { change_fault map.old.map change ≡ None }
    requires early { map.old.map.epoch + 1 < 2 ^ 64 }
    ensures same { map.new.map ≡ map.old.map }
    ensures ready { IfOk result (λ r. IsReady map.new table.now change r.0 r.1.value) }
    ensures runs { IfOk result (λ r. RunMore r.0.evals rooms.old rooms.new) }
{
    map.reserve_for(rt.alloc(), &change)?;
    let patch = table.prepare(rt, map, &change, rooms)?;
    let step = Box::new(rt.alloc(), Incremental::new(map.epoch() + 1, change))?;
    Ok((patch, step))
}

/// Seals an incremental in the row, so that everybody can see it, which the keeper holds behind the journal that the
/// pass has seen since a first map.
///
/// # Errors
///
/// As [`Row::seal`].
fn seal<K: Keeps + Drop>(
    keeper: &Keeper<K>,
    first: &SharedMap,
    row: &Row,
    pass: &mut Pass,
    kept: Kept,
) -> Result<u64, (Box<Incremental>, NotSealed)>
    requires kept { IsKeptBy K.holds K.may_leave K.may_fail keeper.now
        (with_step (journal first.now.map pass.old.history) kept) }
    requires sound { keeper.now.has_failed ≡ false }
    requires row { pass.old.row ≡ row.now }
    requires room { length pass.old.history < length row.now.cells }
    requires next { kept.epoch ≡ epoch_of pass.old + 1 }
    ensures row { pass.new.row ≡ pass.old.row }
    ensures epoch { IfOk result (λ epoch. epoch ≡ kept.epoch) }
    ensures sealed { IfOk result (λ _. pass.new.history ≡ pass.old.history ++ kept ∷ []) }
    ensures unchanged { OnErr result (pass.new ≡ pass.old) }
{
    let _ = keeper;
    let _ = first;
    row.seal(pass, kept)
}

/// Makes the map and its table those after an incremental, for which all is ready. It takes no memory and cannot fail.
fn apply_step(map: &mut OsdMap, table: &mut PgTable, step: &Incremental, patch: Patch)
    requires next { step.now.epoch ≡ map.old.map.epoch + 1 }
    requires lawful { change_fault map.old.map step.now.change ≡ None }
    requires room { HasRoomFor step.now.change map.old }
    requires leads { LeadsTo (apply map.old.map step.now) table.old patch }
    ensures map { map.new.map ≡ apply map.old.map step.now }
    ensures table { IsTableOf table.new (apply map.old.map step.now) }
{
    map.apply(step);
    table.install(patch);
}

impl<K: Keeps + Drop> State<K> {
    ghost use Rattle.std.specs.Prelude.{◌≡◌, ◌≢◌, ◌≤◌, [], not, nat_lt, length, false, IfOk, IfErr, OnOk};
    ghost use Rattle.std.specs.Result.{result_err};
    ghost use Rattle.osdmap.specs.Changes.{epoch_after, after, IsLawful};
    ghost use Rattle.pgtable.specs.Tables.{IsTableOf};
    ghost use Rattle.refusal.specs.declared.refused.Refusal.TheVariants.{NotStored};
    ghost use Rattle.epochlog.specs.Journals.{Journal, HasAll};
    ghost use Rattle.state.specs.States.{journal, opened, max_epoch, Commits, fault_in};

    /// The state at its beginning: no change yet. It is for a row whose first epoch is the map's. It makes rooms for
    /// its groups, in threads where these are many, which count all runs of rules of the state: one for each group now,
    /// then one for each evaluation of a change. The store holds the map and no change yet.
    ///
    /// # Errors
    ///
    /// `Memory` (30) where there is no memory for it.
    pub fn new<R: Threads + Sync>(
        rt: &R,
        alloc: Global,
        map: OsdMap,
        row: &Row,
        store: K,
    ) -> Result<State<K>, Memory>
        requires row { row.now.first ≡ map.map.epoch }
        requires held { K.holds store (journal map.map []) }
        ensures { IfOk result (λ s. s ≡ opened map.map row.now) }
    {
        let first = SharedMap::copy_of(alloc, &map)?;
        let pass = row.pass(alloc)?;
        let mut rooms = Rooms::new(rt, alloc, &map)?;
        let table = PgTable::build(rt, alloc, &map, &mut rooms)?;
        Ok(State {
            alloc,
            first,
            pass,
            map,
            table,
            rooms,
            keeper: Keeper::new(store),
        })
    }

    /// The present map: the first map with the changes of the journal applied in the order of their epochs, which
    /// follow on that of the first map without gaps.
    pub fn map(&self) -> &OsdMap
        ensures map { result.now.map ≡ self.now.map }
        ensures after { self.now.map ≡ after self.now.first self.now.pass.history }
        ensures lawful { IsLawful self.now.first self.now.pass.history }
        ensures epoch { self.now.map.epoch ≡ epoch_after self.now.first self.now.pass.history }
    {
        &self.map
    }

    /// The first map, for one more owner.
    ///
    /// # Errors
    ///
    /// `Memory` (30) where it has as many owners as can be counted.
    pub fn share_first(&self) -> Result<SharedMap, Memory>
        ensures { IfOk result (λ map. map.map ≡ self.now.first) }
    {
        self.first.share()
    }

    /// The table of the present map.
    pub fn table(&self) -> &PgTable
        ensures { IsTableOf result.now self.now.map }
    {
        &self.table
    }

    /// What the state has seen of its row: all changes since the first map.
    pub fn pass(&self) -> &Pass
        ensures pass { result.now ≡ self.now.pass }
        ensures begins { self.now.pass.row.first ≡ self.now.first.epoch }
    {
        &self.pass
    }

    /// What keeps the journal. After a crash all accepted changes are left, and at most one more, which the map does
    /// not refuse; and exactly these, unless the store has failed.
    pub fn store(&self) -> &K
        ensures held { self.now.has_failed ≡ false → K.holds result.now (journal self.now.first self.now.pass.history) }
        ensures left { (left : Journal) → K.may_leave result.now left
            → HasAll (journal self.now.first self.now.pass.history) left }
    {
        self.keeper.store()
    }

    /// What has kept the journal, of which the same holds.
    pub fn into_store(self) -> K
        ensures held { self.has_failed ≡ false → K.holds result (journal self.first self.pass.history) }
        ensures left { (left : Journal) → K.may_leave result left → HasAll (journal self.first self.pass.history) left }
    {
        self.keeper.into_store()
    }

    /// Applies a change to the present map, whose epoch its `base` must be, keeps it in the store and seals it in the
    /// row: the new epoch, and the number of groups whose rules it ran, which are those whose placement it can alter.
    /// Where they are many, it runs them in threads. `pass` is one of the caller that has seen what the state has; it
    /// sees the change too. All memory is taken before the change is kept, and it is kept before anybody can see it;
    /// after the seal nothing can fail.
    ///
    /// # Errors
    ///
    /// `StaleEpoch` (20) with the present epoch where `base` is another; else what [`OsdMap::check`] refuses (21, 22,
    /// 23, 24, 13, 15, 25, 26, 27); else `JournalFull` (28) where the journal has its capacity; else `Memory` (30)
    /// where there is no memory for it, `NotStored` (35) where the store does not take it or has failed before, or
    /// `NotSealed` (32) where another sealed the epoch. After an error all is as before, but that rules may have run
    /// and be counted, and that after 35 or 32 the store may count as failed: then nothing more is accepted.
    pub fn commit<R: Threads + Sync>(
        &mut self,
        rt: &R,
        row: &Row,
        pass: &mut Pass,
        proposal: Proposal,
    ) -> Result<Commit, Refusal>
        requires row { self.old.pass.row ≡ row.now }
        requires pass { pass.old ≡ self.old.pass }
        ensures commits { Commits self.old self.new proposal.base proposal.change result }
        ensures stored { IfErr result (λ e. e ≡ NotStored → K.may_fail) }
        ensures pass { pass.new ≡ self.new.pass }
    {
        let Proposal { base, change } = proposal;
        self.accepts(row, base, &change)?;
        let (patch, step) = prepare(
            &(rt, self.alloc),
            &mut self.map,
            &self.table,
            &mut self.rooms,
            change,
        )?;
        let kept = self.keeper.keep(step)?;
        let Ok(epoch) = seal(&self.keeper, &self.first, row, pass, kept) else {
            self.keeper.forget();
            return Err(Refusal::NotSealed);
        };
        self.pass.join(pass);
        let evals = patch.evals();
        apply_step(
            &mut self.map,
            &mut self.table,
            row.at(&self.pass, epoch),
            patch,
        );
        Ok(Commit { epoch, evals })
    }

    /// Whether a commit of a change to the map of the epoch `base` is refused, memory and the seal aside.
    #[tactic(auto, unfolding(crate::specs::States::commit_fault), using(crate::proofs::Refusing::change_not_stored))]
    fn accepts(&self, row: &Row, base: u64, change: &Change) -> Result<(), Refusal>
        requires { self.now.pass.row ≡ row.now }
        ensures fault { result_err result ≡ fault_in self.now base change.now }
        ensures other { IfErr result (λ e. e ≢ NotStored) }
        ensures early { OnOk result (self.now.map.epoch ≤ max_epoch) }
    {
        let current = self.map.epoch();
        if base != current {
            return Err(Refusal::StaleEpoch(current));
        }
        self.map.check(change)?;
        if self.is_full(row) {
            return Err(Refusal::JournalFull);
        }
        Ok(())
    }

    /// Whether each epoch of the row is sealed.
    fn is_full(&self, row: &Row) -> bool
        requires { self.now.pass.row ≡ row.now }
        ensures full { result ≡ not (nat_lt (length self.now.pass.history) (length self.now.pass.row.cells)) }
        ensures early { self.now.map.epoch ≤ max_epoch }
    {
        self.pass.epoch() - self.first.map().epoch() >= u64::from(row.capacity())
    }
}
