//! The search for the best move.

ghost use Rattle.std.specs.Prelude.{◌≡◌};
ghost use Rattle.balancer.specs.Standing.{is_lower};

use crate::board::Board;
use crate::marks::Marks;
use crate::moves::Move;
use crate::widths::Widths;
use refusal::Memory;

/// Whether a number is lower than the lowest so far.
fn is_lower(number: u32, lowest: Option<u32>) -> bool
    ensures { result ≡ is_lower number lowest }
{
    match lowest {
        Some(lowest) => number < lowest,
        None => true,
    }
}

impl Board<'_> {
    ghost use Rattle.std.specs.Prelude.{◌≡◌, ◌<◌, [], length, slice_index_or, position, true, IfSome, IfOk, MatchOption, OnOk};
    ghost use Rattle.balancer.specs.declared.group.Group.{Group};
    ghost use Rattle.balancer.specs.Boards.{may_go};
    ghost use Rattle.balancer.specs.Reached.{cluster, takes_part, IsMarkedOn, AreAll, IsOrderOf, is_wanted_on, good_moves_on, IsGoodOn, IsBestOn, IsBetterOn, CoversPairOn, CoversFromOn, IsBoundOn, AreBoundsOn};
    ghost use Rattle.balancer.specs.Standing.{lowest_with};

    /// The lowest group so far, or a lower one that may go from one candidate to another beside it.
    fn lowest_with(&self, from: u32, to: u32, number: u32, lowest: Option<u32>) -> Option<u32>
        requires { number < length self.now.groups.items }
        ensures { (g : Group) → slice_index_or self.now.groups.items number g ≡ g
            → result ≡ lowest_with (may_go (cluster self.now) self.now.frame.pool from to g) number lowest }
    {
        if is_lower(number, lowest) && self.frame.may_go(from, to, &self.groups[number as usize]) {
            Some(number)
        } else {
            lowest
        }
    }

    /// The first group that may go from one candidate to another beside it.
    fn first_group(&self, from: u32, to: u32) -> Option<u32>
        requires { takes_part self.now from ≡ true }
        ensures { result ≡ position (may_go (cluster self.now) self.now.frame.pool from to) self.now.groups.items }
    {
        let mut lowest = None;
        for number in self.standing.at(from) {
            lowest = self.lowest_with(from, to, *number, lowest);
        }
        lowest
    }

    /// The best move so far, or a better one between two candidates, where one would be taken rather than it; where no
    /// group may go, that is marked.
    fn find_better(&self, from: u32, to: u32, best: Option<Move>, marks: &mut Marks) -> Option<Move>
        requires from { takes_part self.now from ≡ true }
        requires to { takes_part self.now to ≡ true }
        requires best { IfSome best (IsGoodOn self.now) }
        requires wanted { is_wanted_on self.now from to best ≡ true }
        requires marks { IsMarkedOn self.now marks.old }
        ensures better { IsBetterOn self.now best result }
        ensures covers { CoversPairOn self.now result from to }
        ensures marks { IsMarkedOn self.now marks.new }
    {
        if !self.frame.are_beside(from, to) {
            return best;
        }
        match self.first_group(from, to) {
            Some(group) => Some(Move { group, from, to }),
            None => {
                self.mark_shut(from, to, marks);
                best
            }
        }
    }

    /// The best move so far, or a better one from a candidate to some: as long as the emptiest that is left is wanted,
    /// but for those to which no group may go.
    fn find_better_from(
        &self,
        from: u32,
        order: &[(i128, u32)],
        best: Option<Move>,
        marks: &mut Marks,
    ) -> Option<Move>
        requires from { takes_part self.now from ≡ true }
        requires order { IsOrderOf self.now order.now }
        requires best { IfSome best (IsGoodOn self.now) }
        requires marks { IsMarkedOn self.now marks.old }
        ensures better { IsBetterOn self.now best result }
        ensures covers { CoversFromOn self.now result from }
        ensures marks { IsMarkedOn self.now marks.new }
    {
        let mut best = best;
        for (_, to) in order {
            if marks.is_shut(from, *to) {
                continue;
            }
            if !self.is_wanted(from, *to, best) {
                return best;
            }
            best = self.find_better(from, *to, best, marks);
        }
        best
    }

    /// How far moves from a candidate go at most: as far as to the emptiest one of which it is not known that no group
    /// may go there.
    fn reach(&self, from: u32, order: &[(i128, u32)], marks: &Marks) -> i128
        requires from { takes_part self.now from ≡ true }
        requires order { IsOrderOf self.now order.now }
        requires marks { IsMarkedOn self.now marks.now }
        ensures { IsBoundOn self.now from result }
    {
        for (_, to) in order {
            if !marks.is_shut(from, *to) {
                return self.gap(from, *to);
            }
        }
        self.frame.least_gap()
    }

    /// How far moves from a candidate go at most, as far as a search has shown that came to the best move so far.
    fn bound(&self, from: u32, order: &[(i128, u32)], marks: &Marks, best: Option<Move>) -> i128
        requires from { takes_part self.now from ≡ true }
        requires order { IsOrderOf self.now order.now }
        requires marks { IsMarkedOn self.now marks.now }
        requires best { IfSome best (IsGoodOn self.now) }
        requires covers { CoversFromOn self.now best from }
        ensures { IsBoundOn self.now from result }
    {
        let far = self.reach(from, order, marks);
        let found = self.best_gap(best);
        if far < found { far } else { found }
    }

    /// The best move between candidates, or none where no move is good; or `Memory` (30).
    pub(crate) fn find_best(
        &self,
        marks: &mut Marks,
        widths: &mut Widths,
        order: &mut Vec<(i128, u32)>,
    ) -> Result<Option<Move>, Memory>
        requires marks { IsMarkedOn self.now marks.old }
        requires widths { AreBoundsOn self.now widths.old }
        requires order { AreAll self.now order.old.items }
        ensures order { OnOk result (AreAll self.now order.new.items) }
        ensures best { IfOk result (λ best. MatchOption best (good_moves_on self.now ≡ []) (IsBestOn self.now)) }
        ensures marks { OnOk result (IsMarkedOn self.now marks.new) }
        ensures widths { OnOk result (AreBoundsOn self.now widths.new) }
    {
        self.sort_candidates(order)?;
        let mut best = None;
        for from in &self.frame.osds {
            if self.can_skip(*from, best, widths.at(*from)) {
                continue;
            }
            best = self.find_better_from(*from, order, best, marks);
            widths.set(*from, Some(self.bound(*from, order, marks, best)));
        }
        Ok(best)
    }
}
