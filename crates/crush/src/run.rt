//! The run of a rule (CRUSH paper, algorithm 1; Ceph, mapper.c, `crush_do_rule`).

ghost use Rattle.std.specs.Prelude.{◌≡◌};
ghost use Rattle.crush.specs.Run.{numrep_of};

use crate::choose::{Choice, Position};
use crate::chooser::Chooser;
use crate::limits::MAX_SIZE;
use crate::placement::Placement;
use crate::remembered::Picks;
use crate::rule::Rule;
use crate::step::{Choose, Mode, Step};
use crate::work::{FIRST_TRIES, Lists, Work};
use buckets::Bucket;
use refusal::Memory;
use std::alloc::AllocError;
use std::mem;
use tip::Tip;

/// How many items a choose step seeks in a pool of this size.
fn numrep(choose: Choose, size: u8) -> u8
    ensures { result ≡ numrep_of choose size }
{
    if choose.count == 0 {
        size
    } else {
        choose.count
    }
}

impl Chooser<'_> {
    ghost use Rattle.std.specs.Prelude.{◌≡◌, ◌+◌, ◌-◌, ◌^◌, ◌<◌, ◌≤◌, length, min, OnOk, ◌++◌, if◌then◌else◌};
    ghost use Rattle.buckets.specs.Buckets.{IsPickable};
    ghost use Rattle.crush.specs.Limits.{max_size};
    ghost use Rattle.crush.specs.Placed.{world, choosing};
    ghost use Rattle.crush.specs.Remembered.{Remembers};
    ghost use Rattle.crush.specs.Run.{segment_of, after_entry, chosen_from, is_start};
    ghost use Rattle.std.specs.List.{count_by};

    /// Adds what a step that packs gives below one bucket.
    fn add_packed(
        &self,
        picks: &mut Picks,
        start: &Bucket,
        chosen: &mut Vec<Choice>,
        found: &mut Vec<Option<i32>>,
        searches: &mut Tip,
    ) -> Result<(), AllocError>
        requires within { IsPickable start.now }
        requires packed { self.now.choose.mode ≡ Mode.Firstn }
        requires picks { Remembers (world self.now.placement) picks.old }
        ensures value { OnOk result (found.new.items ≡ found.old.items
            ++ segment_of (choosing self.now) start.now (self.now.size - length found.old.items)) }
        ensures name { searches.new.name ≡ searches.old.name }
        ensures searched { searches.new.count ≡ searches.old.count + 1 }
        ensures picks { Remembers (world self.now.placement) picks.new }
    {
        let room = usize::from(self.size).saturating_sub(found.len());
        self.firstn(picks, start, room, chosen, searches)?;
        for choice in chosen.iter() {
            found.push(Some(choice.leaf))?;
        }
        Ok(())
    }

    /// Adds what a step that keeps positions gives below one bucket.
    fn add_positions(
        &self,
        picks: &mut Picks,
        start: &Bucket,
        found: &mut Vec<Option<i32>>,
        searches: &mut Tip,
    ) -> Result<(), AllocError>
        requires within { IsPickable start.now }
        requires kept { self.now.choose.mode ≡ Mode.Indep }
        requires some { 0 < self.now.numrep }
        requires few { self.now.size ≤ max_size }
        requires picks { Remembers (world self.now.placement) picks.old }
        ensures value { OnOk result (found.new.items ≡ found.old.items
            ++ segment_of (choosing self.now) start.now (self.now.size - length found.old.items)) }
        ensures name { searches.new.name ≡ searches.old.name }
        ensures searched { searches.new.count ≡ searches.old.count + 1 }
        ensures picks { Remembers (world self.now.placement) picks.new }
    {
        let room = usize::from(self.size).saturating_sub(found.len());
        let mut all = [Position::Open; MAX_SIZE];
        let positions = &mut all[..room.min(usize::from(self.numrep))];
        self.indep(picks, start, positions, searches);
        for position in positions.iter() {
            found.push(position.leaf())?;
        }
        Ok(())
    }

    /// Adds what a choose step gives below an entry of the working list: nothing below a device or a hole.
    fn add_entry(
        &self,
        picks: &mut Picks,
        entry: Option<i32>,
        chosen: &mut Vec<Choice>,
        found: &mut Vec<Option<i32>>,
        searches: &mut Tip,
    ) -> Result<(), AllocError>
        requires some { 0 < self.now.numrep }
        requires few { self.now.size ≤ max_size }
        requires picks { Remembers (world self.now.placement) picks.old }
        ensures value { OnOk result (found.new.items
            ≡ after_entry (choosing self.now) self.now.size found.old.items entry) }
        ensures name { searches.new.name ≡ searches.old.name }
        ensures searched { searches.new.count
            ≡ searches.old.count + (if is_start (world self.now.placement) entry then 1 else 0) }
        ensures picks { Remembers (world self.now.placement) picks.new }
    {
        let Some(item) = entry else {
            return Ok(());
        };
        let Some(bucket) = self.placement.forest.bucket(item) else {
            return Ok(());
        };
        match self.choose.mode {
            Mode::Firstn => self.add_packed(picks, bucket, chosen, found, searches),
            Mode::Indep => self.add_positions(picks, bucket, found, searches),
        }
    }

    /// Makes the working list of a choose step, a segment for each bucket of the one before. The step is counted here,
    /// and nowhere else.
    fn segments(&self, lists: &mut Lists) -> Result<(), AllocError>
        requires some { 0 < self.now.numrep }
        requires few { self.now.size ≤ max_size }
        requires picks { Remembers (world self.now.placement) lists.old.picks }
        ensures value { OnOk result (lists.new.found.items
            ≡ chosen_from (choosing self.now) self.now.size lists.old.working.items) }
        ensures counted { lists.new.choose_steps ≡ min (lists.old.choose_steps + 1) (2 ^ 64 - 1) }
        ensures name { lists.new.searches.name ≡ lists.old.searches.name }
        ensures searched { OnOk result (lists.new.searches.count
            ≡ lists.old.searches.count + count_by (is_start (world self.now.placement)) lists.old.working.items) }
        ensures most { lists.new.searches.count
            ≤ lists.old.searches.count + count_by (is_start (world self.now.placement)) lists.old.working.items }
        ensures emitted { lists.new.emitted ≡ lists.old.emitted }
        ensures tries { lists.new.tries ≡ lists.old.tries }
        ensures picks { Remembers (world self.now.placement) lists.new.picks }
    {
        let Lists {
            tries: _,
            working,
            found,
            emitted: _,
            chosen,
            picks,
            choose_steps,
            searches,
        } = lists;
        *choose_steps = choose_steps.saturating_add(1);
        found.clear();
        for entry in working.iter() {
            self.add_entry(picks, *entry, chosen, found, searches)?;
        }
        Ok(())
    }
}

impl Placement<'_> {
    ghost use Rattle.std.specs.Prelude.{◌≡◌, ◌+◌, ◌-◌, ◌^◌, ◌≤◌, min, OnOk, OnErr};
    ghost use Rattle.crush.specs.Limits.{max_size};
    ghost use Rattle.crush.specs.Placed.{world, progress};
    ghost use Rattle.crush.specs.Remembered.{Remembers};
    ghost use Rattle.crush.specs.Run.{choosing_of, chosen_from, after_step, counted_with, count_choose, run_of, is_start, searches_by, searches_of};
    ghost use Rattle.std.specs.List.{count_by};

    /// Chooses below the buckets of the working list.
    fn choose(&self, choose: Choose, size: u8, lists: &mut Lists) -> Result<(), AllocError>
        requires some { 1 ≤ size }
        requires few { size ≤ max_size }
        requires picks { Remembers (world self.now) lists.old.picks }
        ensures working { OnOk result (lists.new.working.items
            ≡ chosen_from (choosing_of (world self.now) size lists.old.tries choose) size lists.old.working.items) }
        ensures emitted { lists.new.emitted ≡ lists.old.emitted }
        ensures counted { lists.new.choose_steps ≡ min (lists.old.choose_steps + 1) (2 ^ 64 - 1) }
        ensures name { lists.new.searches.name ≡ lists.old.searches.name }
        ensures searched { OnOk result (lists.new.searches.count
            ≡ lists.old.searches.count + count_by (is_start (world self.now)) lists.old.working.items) }
        ensures most { lists.new.searches.count
            ≤ lists.old.searches.count + count_by (is_start (world self.now)) lists.old.working.items }
        ensures tries { lists.new.tries ≡ lists.old.tries }
        ensures picks { Remembers (world self.now) lists.new.picks }
    {
        let chooser = Chooser {
            placement: *self,
            size,
            choose,
            tries: lists.tries,
            numrep: numrep(choose, size),
        };
        chooser.segments(lists)?;
        mem::swap(&mut lists.working, &mut lists.found);
        Ok(())
    }

    /// Takes one step of a rule.
    #[tactic(auto, unfolding(crate::specs::Run::after_step, crate::specs::Run::searches_by))]
    fn step(&self, step: Step, size: u8, lists: &mut Lists) -> Result<(), AllocError>
        requires some { 1 ≤ size }
        requires few { size ≤ max_size }
        requires picks { Remembers (world self.now) lists.old.picks }
        ensures value { OnOk result (progress lists.new ≡ after_step (world self.now) size (progress lists.old) step) }
        ensures counted { lists.new.choose_steps ≡ counted_with step lists.old.choose_steps }
        ensures name { lists.new.searches.name ≡ lists.old.searches.name }
        ensures searched { OnOk result (lists.new.searches.count
            ≡ lists.old.searches.count + searches_by (world self.now) (progress lists.old) step) }
        ensures most { lists.new.searches.count
            ≤ lists.old.searches.count + searches_by (world self.now) (progress lists.old) step }
        ensures picks { Remembers (world self.now) lists.new.picks }
    {
        match step {
            Step::SetChooseTries(tries) => lists.tries.total = tries,
            Step::SetChooseleafTries(tries) => lists.tries.leaf = tries,
            Step::SetChooseleafVaryR(vary) => lists.tries.vary = vary,
            Step::SetChooseleafStable(stable) => lists.tries.stable = stable,
            Step::Take(id) => {
                lists.working.clear();
                lists.working.push(Some(id))?;
            }
            Step::Choose(choose) => self.choose(choose, size, lists)?,
            Step::Emit => {
                lists.emitted.extend_from_slice(&lists.working)?;
                lists.emitted.truncate(usize::from(size));
                lists.working.clear();
            }
        }
        Ok(())
    }

    /// Takes the steps of a rule in order, which is a run: it is counted here, and nowhere else.
    #[tactic(auto, unfolding(crate::specs::Run::run_of))]
    fn steps(&self, steps: &[Step], size: u8, work: &mut Work) -> Result<(), AllocError>
        requires some { 1 ≤ size }
        requires few { size ≤ max_size }
        ensures placed { OnOk result (work.new.result ≡ run_of (world self.now) steps.now size) }
        ensures counted { OnOk result (work.new.runs ≡ min (work.old.runs + 1) (2 ^ 64 - 1)) }
        ensures chosen { OnOk result (work.new.choose_steps
            ≡ min (work.old.choose_steps + count_choose steps.now) (2 ^ 64 - 1)) }
        ensures uncounted { OnErr result (work.new.runs ≡ work.old.runs) }
        ensures name { work.new.name ≡ work.old.name }
        ensures searched { OnOk result (work.new.searches
            ≡ work.old.searches + searches_of (world self.now) steps.now size) }
        ensures most { work.new.searches
            ≤ work.old.searches + searches_of (world self.now) steps.now size }
    {
        let _count = work.lists.choose_steps;
        work.lists.picks.forget();
        work.lists.tries = FIRST_TRIES;
        work.lists.working.clear();
        work.lists.emitted.clear();
        for step in steps {
            self.step(*step, size, &mut work.lists)?;
        }
        work.runs = work.runs.saturating_add(1);
        Ok(())
    }
}

impl Rule {
    ghost use Rattle.std.specs.Prelude.{◌≡◌, ◌+◌, ◌-◌, ◌^◌, ◌≤◌, min, OnOk, OnErr};
    ghost use Rattle.crush.specs.Limits.{max_size};
    ghost use Rattle.crush.specs.Placed.{world};
    ghost use Rattle.crush.specs.Run.{count_choose, run_of, searches_of};

    /// Places an input by the rule in a pool of `size` places, 1 to 20, as many as a pool may have.
    ///
    /// # Errors
    ///
    /// `Memory` (30): after it the result is open, and the run is not counted.
    pub fn run(&self, placement: &Placement<'_>, size: u8, work: &mut Work) -> Result<(), Memory>
        requires some { 1 ≤ size }
        requires few { size ≤ max_size }
        ensures placed { OnOk result (work.new.result ≡ run_of (world placement.now) self.now.steps size) }
        ensures counted { OnOk result (work.new.runs ≡ min (work.old.runs + 1) (2 ^ 64 - 1)) }
        ensures chosen { OnOk result (work.new.choose_steps
            ≡ min (work.old.choose_steps + count_choose self.now.steps) (2 ^ 64 - 1)) }
        ensures uncounted { OnErr result (work.new.runs ≡ work.old.runs) }
        ensures name { work.new.name ≡ work.old.name }
        ensures searched { OnOk result (work.new.searches
            ≡ work.old.searches + searches_of (world placement.now) self.now.steps size) }
        ensures most { work.new.searches
            ≤ work.old.searches + searches_of (world placement.now) self.now.steps size }
    {
        Ok(placement.steps(self.steps(), size, work)?)
    }
}
