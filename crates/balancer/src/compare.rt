//! Which moves are taken rather than others: those between OSDs whose deviations differ most.

ghost use Rattle.std.specs.Prelude.{◌≡◌};
ghost use Rattle.balancer.specs.Greedy.{precedes};

use crate::board::Board;
use crate::moves::Move;

/// Whether a move comes first of two: by the OSD that the group leaves, then by the one that comes, then by the group.
fn precedes(u: Move, v: Move) -> bool
    ensures { result ≡ precedes u v }
{
    u.from < v.from || (u.from == v.from && (u.to < v.to || (u.to == v.to && u.group < v.group)))
}

impl Board<'_> {
    ghost use Rattle.std.specs.Prelude.{◌≡◌, pos, neg_ℤ, int_lt, ◌<ℤ◌, ◌^◌, true, IfSome};
    ghost use Rattle.balancer.specs.Reached.{takes_part, deviation_on, gap_on, least_gap_on, beats_on, is_wanted_on, best_gap_on, IsGoodOn, IsBoundOn, CoversFromOn};

    /// The deviation of an OSD.
    pub(crate) fn deviation(&self, osd: u32) -> i128
        requires { takes_part self.now osd ≡ true }
        ensures value { result ≡ deviation_on self.now osd }
        ensures high { result <ℤ pos (2 ^ 108) }
        ensures low { neg_ℤ (pos (2 ^ 108)) <ℤ result }
    {
        self.deviations[osd as usize]
    }

    /// The difference of the deviations of two OSDs.
    pub(crate) fn gap(&self, from: u32, to: u32) -> i128
        requires from { takes_part self.now from ≡ true }
        requires to { takes_part self.now to ≡ true }
        ensures { result ≡ gap_on self.now from to }
    {
        self.deviation(from) - self.deviation(to)
    }

    /// Whether a move between candidates is taken rather than another.
    #[tactic(auto, unfolding(crate::specs::Greedy::beats))]
    pub(crate) fn beats(&self, u: Move, v: Move) -> bool
        requires u_from { takes_part self.now u.from ≡ true }
        requires u_to { takes_part self.now u.to ≡ true }
        requires v_from { takes_part self.now v.from ≡ true }
        requires v_to { takes_part self.now v.to ≡ true }
        ensures { result ≡ beats_on self.now u v }
    {
        let gap = self.gap(u.from, u.to);
        let other = self.gap(v.from, v.to);
        gap > other || (gap == other && precedes(u, v))
    }

    /// Whether the difference of the deviations of two candidates is above that from which on a move is good.
    pub(crate) fn is_wide(&self, from: u32, to: u32) -> bool
        requires from { takes_part self.now from ≡ true }
        requires to { takes_part self.now to ≡ true }
        ensures { result ≡ int_lt (pos (least_gap_on self.now)) (gap_on self.now from to) }
    {
        self.gap(from, to) > self.frame.least_gap()
    }

    /// Whether some move between two candidates could be taken rather than the best one so far.
    pub(crate) fn is_wanted(&self, from: u32, to: u32, best: Option<Move>) -> bool
        requires from { takes_part self.now from ≡ true }
        requires to { takes_part self.now to ≡ true }
        requires best { IfSome best (IsGoodOn self.now) }
        ensures { result ≡ is_wanted_on self.now from to best }
    {
        match best {
            Some(best) => self.is_wide(from, to) && self.beats(Move { group: 0, from, to }, best),
            None => self.is_wide(from, to),
        }
    }

    /// How far the best move so far goes: by how much the deviations of its OSDs differ.
    pub(crate) fn best_gap(&self, best: Option<Move>) -> i128
        requires { IfSome best (IsGoodOn self.now) }
        ensures { result ≡ best_gap_on self.now best }
    {
        match best {
            Some(best) => self.gap(best.from, best.to),
            None => self.frame.least_gap(),
        }
    }

    /// Whether it is known that no move from a candidate is taken rather than the best one so far: it goes no further,
    /// and from no OSD before that one's.
    pub(crate) fn can_skip(&self, from: u32, best: Option<Move>, bound: Option<i128>) -> bool
        requires best { IfSome best (IsGoodOn self.now) }
        requires bound { IfSome bound (IsBoundOn self.now from) }
        ensures { result ≡ true → CoversFromOn self.now best from }
    {
        let Some(bound) = bound else {
            return false;
        };
        match best {
            Some(best) => best.from < from && bound <= self.gap(best.from, best.to),
            None => bound <= self.frame.least_gap(),
        }
    }
}
