//! How a Ceph monitor reads a rule where it looks whether a set may stand (Ceph 16.2, CrushWrapper.cc: `verify_upmap`).

ghost use Rattle.std.specs.Prelude.{◌≡◌, ◌≤◌, length, pos};
ghost use Rattle.std.specs.List.{list_any};
ghost use Rattle.crush.specs.Limits.{max_size};
ghost use Rattle.maptypes.specs.Sets.{is_of};
ghost use Rattle.crush.specs.Run.{numrep_of};
ghost use Rattle.upmap_cleanup.specs.Reading.{takes_at, within_takes, holder, is_same, clash, clash_with, crowded, is_new, spread, misfit, is_below, outside, fault_from, rule_fault};

use crate::cause::Cause;
use crush::{Choose, Forest, Step};

/// A rule over a forest, for a pool of a size.
#[derive(Clone, Copy)]
pub(crate) struct Reading<'a> {
    /// The forest.
    pub(crate) forest: &'a Forest,
    /// The steps of the rule.
    pub(crate) steps: &'a [Step],
    /// The size of the pool.
    pub(crate) size: u8,
}

/// How many a choice seeks in a pool of a size.
fn numrep(choose: Choose, size: u8) -> u8
    ensures { result ≡ numrep_of choose size }
{
    if choose.count == 0 {
        size
    } else {
        choose.count
    }
}

/// Whether a step takes a bucket, or one above it.
fn takes_at(forest: &Forest, id: i32, step: &Step) -> bool
    ensures { result ≡ takes_at forest.now id step.now }
{
    match step {
        Step::Take(top) => *top == id || forest.is_above(*top, id),
        _ => false,
    }
}

/// Whether two are the same bucket.
fn is_same(one: Option<i32>, other: Option<i32>) -> bool
    ensures { result ≡ is_same one other }
{
    match (one, other) {
        (Some(a), Some(b)) => a == b,
        _ => false,
    }
}

/// Whether an OSD stands at a place.
fn is_of(osd: u16, place: Option<u16>) -> bool
    ensures { result ≡ is_of osd place }
{
    match place {
        Some(own) => own == osd,
        None => false,
    }
}

impl Reading<'_> {
    /// Whether the rule takes a bucket, or one above it.
    fn takes(&self, id: i32) -> bool
        ensures { result ≡ list_any (takes_at self.now.forest.now id) self.now.steps.now }
    {
        let forest = self.forest;
        self.steps.iter().any(|step| takes_at(forest, id, step))
    }

    /// A bucket, where the rule takes it or one above it.
    fn within(&self, id: i32) -> Option<i32>
        ensures { result ≡ within_takes self.now.forest.now self.now.steps.now id }
    {
        if self.takes(id) { Some(id) } else { None }
    }

    /// The bucket of a type below which the OSD of a place stands.
    #[tactic(auto, unfolding(crate::specs::Reading::holder))]
    fn holder(&self, level: u8, place: Option<u16>) -> Option<i32>
        ensures { result ≡ holder self.now.forest.now self.now.steps.now level place }
    {
        match place {
            None => None,
            Some(osd) => match self.forest.ancestor_of_device(u32::from(osd), level) {
                None => None,
                Some(id) => self.within(id),
            },
        }
    }

    /// Whether two places have different OSDs below one bucket of a type.
    #[tactic(auto, unfolding(crate::specs::Reading::clash))]
    fn clash(&self, level: u8, place: Option<u16>, other: Option<u16>) -> bool
        ensures { result ≡ clash self.now.forest.now self.now.steps.now level place other }
    {
        match place {
            None => false,
            Some(osd) => !is_of(osd, other)
                && is_same(self.holder(level, place), self.holder(level, other)),
        }
    }

    /// The first of some places whose OSD clashes with that of a place before them.
    #[tactic(auto, unfolding(crate::specs::Reading::clash_with))]
    fn clash_with(&self, level: u8, place: Option<u16>, others: &[Option<u16>]) -> Option<u16>
        ensures { result ≡ clash_with self.now.forest.now self.now.steps.now level place others.now }
    {
        match others {
            [] => None,
            [other, rest @ ..] => {
                if self.clash(level, place, *other) {
                    *other
                } else {
                    self.clash_with(level, place, rest)
                }
            }
        }
    }

    /// The first two places that have different OSDs below one bucket of a type.
    #[tactic(auto, unfolding(crate::specs::Reading::crowded))]
    fn crowded(&self, level: u8, step: usize, places: &[Option<u16>]) -> Option<Cause>
        ensures { result ≡ crowded self.now.forest.now self.now.steps.now level step places.now }
    {
        match places {
            [] => None,
            [place, rest @ ..] => match (*place, self.clash_with(level, *place, rest)) {
                (Some(one), Some(other)) => Some(Cause::Crowded { step, one, other }),
                _ => self.crowded(level, step, rest),
            },
        }
    }

    /// Whether one of some places stands below a bucket.
    fn meets(&self, level: u8, own: Option<i32>, others: &[Option<u16>]) -> bool
        ensures { result
            ≡ list_any (λ other. is_same own (holder self.now.forest.now self.now.steps.now level other)) others.now }
    {
        others
            .iter()
            .any(|other| is_same(own, self.holder(level, *other)))
    }

    /// Whether a place stands below a bucket of a type below which none of the others does.
    fn is_new(&self, level: u8, place: Option<u16>, others: &[Option<u16>]) -> bool
        ensures { result ≡ is_new self.now.forest.now self.now.steps.now level place others.now }
    {
        let own = self.holder(level, place);
        is_same(own, own) && !self.meets(level, own, others)
    }

    /// Below how many buckets of a type some places stand.
    #[tactic(auto, unfolding(crate::specs::Reading::spread))]
    fn spread(&self, level: u8, places: &[Option<u16>]) -> usize
        ensures value { result ≡ spread self.now.forest.now self.now.steps.now level places.now }
        ensures few { result ≤ length places.now }
    {
        match places {
            [] => 0,
            [place, rest @ ..] => {
                let found = self.spread(level, rest);
                if self.is_new(level, *place, rest) {
                    found + 1
                } else {
                    found
                }
            }
        }
    }

    /// Why a set may not stand by a choice, the step of this number.
    #[tactic(auto, unfolding(crate::specs::Reading::misfit))]
    fn misfit(&self, places: &[Option<u16>], step: usize, choose: Choose) -> Option<Cause>
        ensures { result ≡ misfit self.now.forest.now self.now.steps.now self.now.size places.now step choose }
    {
        if choose.level == 0 {
            return None;
        }
        if choose.to_leaf {
            return self.crowded(choose.level, step, places);
        }
        let buckets = self.spread(choose.level, places);
        if buckets <= usize::from(numrep(choose, self.size)) {
            None
        } else {
            Some(Cause::Spread { step, buckets })
        }
    }

    /// Whether an OSD stands at a place, below a bucket.
    fn is_below(&self, top: i32, place: Option<u16>) -> bool
        ensures { result ≡ is_below self.now.forest.now top place }
    {
        match place {
            Some(osd) => self.forest.is_above(top, i32::from(osd)),
            None => false,
        }
    }

    /// The first of some places that has no OSD below a bucket, by the step of this number.
    fn outside(&self, top: i32, step: usize, places: &[Option<u16>]) -> Option<Cause>
        ensures { result ≡ outside self.now.forest.now top step places.now }
    {
        match places {
            [] => None,
            [place, rest @ ..] => {
                if self.is_below(top, *place) {
                    self.outside(top, step, rest)
                } else {
                    Some(Cause::Outside {
                        step,
                        place: *place,
                    })
                }
            }
        }
    }

    /// What is wrong with a set as the rule is read from a step on.
    #[tactic(auto, unfolding(crate::specs::Reading::fault_from))]
    fn fault_from(
        &self,
        places: &[Option<u16>],
        top: i32,
        room: usize,
        rest: &[Option<u16>],
        steps: &[Step],
    ) -> Option<Cause>
        requires room { room ≤ max_size }
        requires few { length steps.now ≤ length self.now.steps.now }
        ensures { result
            ≡ fault_from self.now.forest.now self.now.steps.now self.now.size places.now top room rest.now steps.now }
    {
        let number = self.steps.len() - steps.len();
        match steps {
            [] => None,
            [Step::SetChooseTries(_), others @ ..] => self.fault_from(
                places, top, room, rest, others,
            ),
            [Step::SetChooseleafTries(_), others @ ..] => self.fault_from(
                places, top, room, rest, others,
            ),
            [Step::SetChooseleafVaryR(_), others @ ..] => self.fault_from(
                places, top, room, rest, others,
            ),
            [Step::SetChooseleafStable(_), others @ ..] => self.fault_from(
                places, top, room, rest, others,
            ),
            [Step::Take(id), others @ ..] => self.fault_from(places, *id, room, rest, others),
            [Step::Choose(choose), others @ ..] => {
                let more = (room * usize::from(numrep(*choose, self.size))).min(20);
                match self.misfit(places, number, *choose) {
                    Some(cause) => Some(cause),
                    None => self.fault_from(places, top, more, rest, others),
                }
            }
            [Step::Emit, others @ ..] => {
                let (block, left) = rest.split_at(room.min(rest.len()));
                match self.outside(top, number, block) {
                    Some(cause) => Some(cause),
                    None => self.fault_from(places, top, 1, left, others),
                }
            }
        }
    }

    /// What the rule finds wrong with a set.
    pub(crate) fn fault(&self, places: &[Option<u16>]) -> Option<Cause>
        ensures { result ≡ rule_fault self.now.forest.now self.now.steps.now self.now.size places.now }
    {
        self.fault_from(places, 0, 1, places, self.steps)
    }
}
