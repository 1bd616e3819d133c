//! The room that runs of rules work in.

use crate::choose::{Choice, Tries};
use crate::forest::Forest;
use crate::limits::MAX_SIZE;
use crate::remembered::{FREE_TRIES, PLACES, Picks};
use refusal::Memory;
use std::alloc::Global;
use std::marker::Model;
use tip::Tip;

/// What a run has come to, and the lists that it works in.
#[derive(Drop)]
pub(crate) struct Lists {
    /// How the next choose steps try.
    pub tries: Tries,
    /// What the next step works on.
    pub working: Vec<Option<i32>>,
    /// What the present step makes of it.
    pub found: Vec<Option<i32>>,
    /// The result so far.
    pub emitted: Vec<Option<i32>>,
    /// What a step that packs has chosen below one bucket.
    pub chosen: Vec<Choice>,
    /// What the present run remembers.
    pub picks: Picks,
    /// How many choose steps there were, of all runs.
    pub choose_steps: u64,
    /// Where the count of the buckets chosen below is.
    pub searches: Tip,
}

/// How the choose steps of a rule try that sets none of it, as the tunables called jewel have it: 50 tries after the
/// first one (Ceph's `choose_total_tries`), and one for a leaf (`chooseleaf_descend_once`), from the replica number of
/// its bucket on (`chooseleaf_vary_r`, `chooseleaf_stable`).
pub(crate) const FIRST_TRIES: Tries = Tries {
    total: 51,
    leaf: 1,
    vary: 1,
    stable: 1,
};

/// What the last run left, the numbers of runs and of choose steps, and the room that runs work in. It serves any
/// forest.
#[derive(Drop)]
pub struct Work {
    pub(crate) lists: Lists,
    pub(crate) runs: u64,
}

impl Model for Work {
    ghost use Rattle.crush.specs.Run.{Ran};

    ghost Value = { Ran };

    ghost view = { λ w. record {
      result = w.lists.emitted.items;
      runs = w.runs;
      choose_steps = w.lists.choose_steps;
      name = w.lists.searches.name;
      searches = w.lists.searches.count;
    } };
}

impl Work {
    ghost use Rattle.std.specs.Prelude.{◌≡◌, [], IfOk};

    /// A work with room for the runs of the greatest pool, and no run yet.
    ///
    /// # Errors
    ///
    /// `Memory` (30) where there is no memory for it.
    pub fn new(alloc: Global, _forest: &Forest) -> Result<Work, Memory>
        ensures result { IfOk result (λ work. work.result ≡ []) }
        ensures runs { IfOk result (λ work. work.runs ≡ 0) }
        ensures choose_steps { IfOk result (λ work. work.choose_steps ≡ 0) }
        ensures searches { IfOk result (λ work. work.searches ≡ 0) }
    {
        let lists = Lists {
            tries: FIRST_TRIES,
            working: Vec::with_capacity(alloc, MAX_SIZE)?,
            found: Vec::with_capacity(alloc, MAX_SIZE)?,
            emitted: Vec::with_capacity(alloc, 2 * MAX_SIZE)?,
            chosen: Vec::with_capacity(alloc, MAX_SIZE)?,
            picks: Picks {
                free_tries: FREE_TRIES,
                is_on: false,
                by_place: Vec::with_capacity(alloc, PLACES)?,
            },
            choose_steps: 0,
            searches: Tip::new(),
        };
        Ok(Work { lists, runs: 0 })
    }

    /// The places that the last run left: devices, or `None` where a place has none.
    pub fn result(&self) -> &[Option<i32>]
        ensures { result.now ≡ self.now.result }
    {
        &self.lists.emitted
    }

    /// How many runs there were. The count stays at the greatest number.
    pub fn runs(&self) -> u64
        ensures { result ≡ self.now.runs }
    {
        self.runs
    }

    /// How many choose steps the runs have taken. The count stays at the greatest number.
    pub fn choose_steps(&self) -> u64
        ensures { result ≡ self.now.choose_steps }
    {
        self.lists.choose_steps
    }
}
