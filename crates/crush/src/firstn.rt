//! Choosing items that are packed (CRUSH paper, section 3.2; Ceph, mapper.c, `crush_choose_firstn`).

ghost use Rattle.std.specs.Prelude.{◌≡◌, ◌≤◌};
ghost use Rattle.std.specs.List.{list_any};
ghost use Rattle.std.specs.Ordering.{int_eq};
ghost use Rattle.crush.specs.Firstn.{varied_by};

use crate::choose::{Attempt, Choice, Tries};
use crate::chooser::Chooser;
use crate::placement::Start;
use crate::remembered::Picks;
use buckets::Bucket;
use std::alloc::AllocError;
use tip::Tip;

/// The replica that is sought, and how many of its first tries are known to fail beside what is chosen.
#[derive(Clone, Copy)]
struct Sought {
    rep: u8,
    known: u8,
}

/// Whether an item is among the choices.
fn has_item(chosen: &[Choice], item: i32) -> bool
    ensures { result ≡ list_any (λ e. int_eq e.item item) chosen.now }
{
    chosen.iter().any(|choice| choice.item == item)
}

/// Whether a device is among the leaves.
fn has_leaf(chosen: &[Choice], device: i32) -> bool
    ensures { result ≡ list_any (λ e. int_eq e.leaf device) chosen.now }
{
    chosen.iter().any(|choice| choice.leaf == device)
}

/// What the replica number of a bucket adds to that of its leaf.
fn varied_by(vary: u8, r: u32) -> u32
    ensures value { result ≡ varied_by vary r }
    ensures small { result ≤ r }
{
    if vary == 0 {
        return 0;
    }
    let times = vary - 1;
    if times < 32 { r >> times } else { 0 }
}

impl Tries {
    ghost use Rattle.std.specs.Prelude.{◌≡◌, ◌+◌, ◌^◌, ◌<◌, ◌≤◌};
    ghost use Rattle.crush.specs.Firstn.{settled_by, leaf_number};

    /// What the number of items that are chosen already adds to the replica number of a leaf.
    fn settled_by(self, count: u32) -> u32
        ensures value { result ≡ settled_by self.stable count }
        ensures small { result ≤ count }
    {
        if self.stable == 0 { count } else { 0 }
    }

    /// The replica number from which on a leaf is sought, also where that is not its bucket's.
    #[cold]
    #[inline(never)]
    #[tactic(auto, unfolding(crate::specs::Firstn::leaf_number))]
    fn older_number(self, count: u32, r: u32) -> u32
        requires room { count + r < 2 ^ 30 }
        ensures value { result ≡ leaf_number self count r }
        ensures small { result ≤ count + r }
    {
        self.settled_by(count) + varied_by(self.vary, r)
    }

    /// The replica number from which on the leaf of a bucket is sought that was picked with `r`.
    #[inline(always)]
    fn leaf_number(self, count: u32, r: u32) -> u32
        requires room { count + r < 2 ^ 30 }
        ensures value { result ≡ leaf_number self count r }
        ensures small { result ≤ count + r }
    {
        if self.vary == 1 && self.stable == 1 {
            return r;
        }
        self.older_number(count, r)
    }

    /// How many of the first tries are known to fail still where one item more is chosen: none where leaves are sought
    /// by how many are.
    fn still_known(self, known: u8) -> u8
        ensures few { result ≤ known }
        ensures none { self.stable ≡ 0 → result ≡ 0 }
    {
        if self.stable == 0 { 0 } else { known }
    }
}

impl Chooser<'_> {
    ghost use Rattle.std.specs.Prelude.{◌≡◌, ◌+◌, ◌^◌, ◌<◌, ◌≤◌, length, OnOk};
    ghost use Rattle.buckets.specs.Buckets.{IsPickable};
    ghost use Rattle.crush.specs.Placed.{world, choosing};
    ghost use Rattle.crush.specs.Descent.{leaf_below};
    ghost use Rattle.crush.specs.Remembered.{Remembers};
    ghost use Rattle.crush.specs.Tried.{HaveFailed};
    ghost use Rattle.crush.specs.Firstn.{numbers_from, is_free, attempt_with, attempt_of, replica_of, with_attempt, firstn};

    /// Whether a device is in, and no leaf yet.
    fn is_free(&self, chosen: &[Choice], device: i32) -> bool
        ensures { result ≡ is_free (world self.now.placement) chosen.now device }
    {
        !(self.placement.is_out(device) || has_leaf(chosen, device))
    }

    /// The leaf below a chosen item.
    fn leaf(&self, picks: &mut Picks, chosen: &[Choice], item: i32, r: u32) -> Option<i32>
        requires room { r < 2 ^ 30 }
        requires picks { Remembers (world self.now.placement) picks.old }
        ensures value { let w = world self.now.placement in
            result ≡ leaf_below w (is_free w chosen.now) (numbers_from r self.now.tries.leaf) item }
        ensures picks { Remembers (world self.now.placement) picks.new }
    {
        let bucket = self.placement.forest.bucket(item)?;
        let below = Start::new(bucket, self.placement.x, 1);
        for failures in 0..self.tries.leaf {
            let device = self
                .placement
                .device_at(picks, item, &below, r + u32::from(failures), failures);
            if let Some(picked) = device {
                if self.is_free(chosen, picked.item) {
                    return Some(picked.item);
                }
            }
        }
        None
    }

    /// What an item comes to beside those chosen so far.
    #[tactic(auto, unfolding(crate::specs::Firstn::attempt_with))]
    fn attempt_with(&self, picks: &mut Picks, chosen: &[Choice], r: u32, item: i32) -> Attempt
        requires room { length chosen.now + r < 2 ^ 30 }
        requires picks { Remembers (world self.now.placement) picks.old }
        ensures value { result ≡ attempt_with (choosing self.now) chosen.now r item }
        ensures picks { Remembers (world self.now.placement) picks.new }
    {
        if has_item(chosen, item) {
            Attempt::Failed
        } else if self.choose.to_leaf {
            let number = self.tries.leaf_number(chosen.len() as u32, r);
            match self.leaf(picks, chosen, item, number) {
                Some(leaf) => Attempt::Chosen(Choice { item, leaf }),
                None => Attempt::Failed,
            }
        } else if self.choose.level == 0 && self.placement.is_out(item) {
            Attempt::Failed
        } else {
            Attempt::Chosen(Choice { item, leaf: item })
        }
    }

    /// What a try with replica number `r` comes to.
    #[tactic(auto, unfolding(crate::specs::Firstn::attempt_of))]
    fn attempt(&self, picks: &mut Picks, chosen: &[Choice], start: &Start, r: u32) -> Attempt
        requires input { start.now.x ≡ self.now.placement.x }
        requires room { length chosen.now + r < 2 ^ 30 }
        requires picks { Remembers (world self.now.placement) picks.old }
        ensures value { result ≡ attempt_of (choosing self.now) chosen.now start.now.bucket.now r }
        ensures picks { Remembers (world self.now.placement) picks.new }
    {
        match self.placement.descend_at(start, self.choose.level, r) {
            Some(picked) => self.attempt_with(picks, chosen, r, picked.item),
            None => Attempt::Abandoned,
        }
    }

    /// What the first try for the replica that does not fail comes to. The next replica is sought from there on.
    fn replica(
        &self,
        picks: &mut Picks,
        chosen: &[Choice],
        start: &Start,
        sought: &mut Sought,
    ) -> Attempt
        requires input { start.now.x ≡ self.now.placement.x }
        requires some { sought.old.rep < self.now.numrep }
        requires few { length chosen.now ≤ sought.old.rep }
        requires picks { Remembers (world self.now.placement) picks.old }
        requires known { HaveFailed (choosing self.now) chosen.now start.now.bucket.now
            sought.old.rep (sought.old.rep + sought.old.known) }
        ensures value { result ≡ replica_of (choosing self.now) chosen.now start.now.bucket.now
            self.now.tries.total sought.old.rep }
        ensures picks { Remembers (world self.now.placement) picks.new }
        ensures next { sought.new.rep ≡ sought.old.rep + 1 }
        ensures known { HaveFailed (choosing self.now) (with_attempt chosen.now result) start.now.bucket.now
            sought.new.rep (sought.new.rep + sought.new.known) }
    {
        let Sought { rep, known } = *sought;
        let next = rep + 1;
        for failures in known..self.tries.total {
            match self.attempt(picks, chosen, start, u32::from(rep) + u32::from(failures)) {
                Attempt::Failed => {}
                decided => {
                    *sought = Sought {
                        rep: next,
                        known: self.tries.still_known(failures.saturating_sub(1)),
                    };
                    return decided;
                }
            }
        }
        *sought = Sought {
            rep: next,
            known: self.tries.total.saturating_sub(1),
        };
        Attempt::Failed
    }

    /// Chooses for each replica, while fewer than `limit` are chosen. After an `Err` some of them are.
    #[tactic(auto, unfolding(crate::specs::Firstn::firstn))]
    pub(crate) fn firstn(
        &self,
        picks: &mut Picks,
        start: &Bucket,
        limit: usize,
        chosen: &mut Vec<Choice>,
        searches: &mut Tip,
    ) -> Result<(), AllocError>
        requires within { IsPickable start.now }
        requires picks { Remembers (world self.now.placement) picks.old }
        ensures value { OnOk result (chosen.new.items ≡ firstn (choosing self.now) start.now limit) }
        ensures name { searches.new.name ≡ searches.old.name }
        ensures searched { searches.new.count ≡ searches.old.count + 1 }
        ensures picks { Remembers (world self.now.placement) picks.new }
    {
        searches.rise(1);
        let below = Start::new(start, self.placement.x, self.numrep);
        chosen.clear();
        let mut sought = Sought { rep: 0, known: 0 };
        for _ in 0..self.numrep {
            if chosen.len() >= limit {
                break;
            }
            if let Attempt::Chosen(choice) = self.replica(picks, chosen, &below, &mut sought) {
                chosen.push(choice)?;
            }
        }
        Ok(())
    }
}
