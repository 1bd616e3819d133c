//! Choosing items that keep their positions (CRUSH paper, section 3.2.2; Ceph, mapper.c, `crush_choose_indep`).

ghost use Rattle.std.specs.Prelude.{◌≡◌};
ghost use Rattle.std.specs.List.{list_any};
ghost use Rattle.crush.specs.Indep.{holds_item, is_open};

use crate::choose::{Choice, Draw, Picked, Position};
use crate::chooser::Chooser;
use crate::placement::Start;
use crate::remembered::Picks;
use buckets::Bucket;
use tip::Tip;

/// Whether an item stands at some position.
fn is_held(positions: &[Position], item: i32) -> bool
    ensures { result ≡ list_any (holds_item item) positions.now }
{
    positions.iter().any(|position| match position {
        Position::Filled(choice) => choice.item == item,
        Position::Open | Position::Hole => false,
    })
}

/// Whether a position is still to be filled.
fn has_open(positions: &[Position]) -> bool
    ensures { result ≡ list_any is_open positions.now }
{
    positions.iter().any(|position| position.is_open())
}

impl Chooser<'_> {
    ghost use Rattle.std.specs.Prelude.{◌≡◌, ◌+◌, ◌^◌, ◌<◌, ◌≤◌, length};
    ghost use Rattle.buckets.specs.Buckets.{IsPickable};
    ghost use Rattle.crush.specs.Limits.{max_size};
    ghost use Rattle.crush.specs.Placed.{world, choosing};
    ghost use Rattle.crush.specs.Remembered.{Remembers};
    ghost use Rattle.crush.specs.Descent.{leaf_below};
    ghost use Rattle.crush.specs.Indep.{is_in, replica_numbers, position_with, position_of, after_position, after_round, indep};

    /// The leaf below an item chosen for a position.
    fn position_leaf(&self, picks: &mut Picks, item: i32, base: u32) -> Option<i32>
        requires some { 0 < self.now.numrep }
        requires fits { base < 2 ^ 31 }
        requires picks { Remembers (world self.now.placement) picks.old }
        ensures value { let k = choosing self.now in
            result ≡ leaf_below k.world (is_in k.world) (replica_numbers k.numrep base k.tries.leaf) item }
        ensures picks { Remembers (world self.now.placement) picks.new }
    {
        let bucket = self.placement.forest.bucket(item)?;
        let below = Start::new(bucket, self.placement.x, 1);
        for round in 0..self.tries.leaf {
            let draw = Draw {
                numrep: self.numrep,
                base,
                round,
            };
            if let Some(picked) = self.placement.device(picks, item, &below, draw, round) {
                if !self.placement.is_out(picked.item) {
                    return Some(picked.item);
                }
            }
        }
        None
    }

    /// What an item makes of a position.
    #[tactic(auto, unfolding(crate::specs::Indep::position_with))]
    fn position_with(
        &self,
        picks: &mut Picks,
        positions: &[Position],
        rep: u32,
        picked: Picked,
    ) -> Position
        requires some { 0 < self.now.numrep }
        requires fits { rep + picked.r < 2 ^ 31 }
        requires picks { Remembers (world self.now.placement) picks.old }
        ensures value { result ≡ position_with (choosing self.now) positions.now rep picked }
        ensures picks { Remembers (world self.now.placement) picks.new }
    {
        let item = picked.item;
        if is_held(positions, item) {
            Position::Open
        } else if self.choose.to_leaf {
            match self.position_leaf(picks, item, rep + picked.r) {
                Some(leaf) => Position::Filled(Choice { item, leaf }),
                None => Position::Open,
            }
        } else if self.choose.level == 0 && self.placement.is_out(item) {
            Position::Open
        } else {
            Position::Filled(Choice { item, leaf: item })
        }
    }

    /// What a position becomes in a round, by the replica numbers that `draw` gives it: on top of its place.
    #[tactic(auto, unfolding(crate::specs::Indep::position_of))]
    fn position(
        &self,
        picks: &mut Picks,
        start: &Start,
        positions: &[Position],
        draw: Draw,
    ) -> Position
        requires input { start.now.x ≡ self.now.placement.x }
        requires own { draw.numrep ≡ self.now.numrep }
        requires some { 0 < draw.numrep }
        requires fits { draw.base < 256 }
        requires picks { Remembers (world self.now.placement) picks.old }
        ensures value { result
            ≡ position_of (choosing self.now) start.now.bucket.now draw.round positions.now draw.base }
        ensures picks { Remembers (world self.now.placement) picks.new }
    {
        match self.placement.descend(start, self.choose.level, draw) {
            Some(picked) => self.position_with(picks, positions, draw.base, picked),
            None => Position::Hole,
        }
    }

    /// Tries a position, if it is open.
    fn take_position(
        &self,
        picks: &mut Picks,
        start: &Start,
        positions: &mut [Position],
        draw: Draw,
    )
        requires input { start.now.x ≡ self.now.placement.x }
        requires own { draw.numrep ≡ self.now.numrep }
        requires some { 0 < draw.numrep }
        requires few { length positions.old ≤ max_size }
        requires place { draw.base < length positions.old }
        requires picks { Remembers (world self.now.placement) picks.old }
        ensures value { positions.new
            ≡ after_position (choosing self.now) start.now.bucket.now draw.round positions.old draw.base }
        ensures picks { Remembers (world self.now.placement) picks.new }
    {
        let place = draw.base as usize;
        if positions[place].is_open() {
            let position = self.position(picks, start, positions, draw);
            positions[place] = position;
        }
    }

    /// A round takes the positions in order.
    #[tactic(auto, unfolding(crate::specs::Indep::after_round))]
    fn take_round(&self, picks: &mut Picks, start: &Start, positions: &mut [Position], round: u8)
        requires input { start.now.x ≡ self.now.placement.x }
        requires some { 0 < self.now.numrep }
        requires few { length positions.old ≤ max_size }
        requires picks { Remembers (world self.now.placement) picks.old }
        ensures value { positions.new ≡ after_round (choosing self.now) start.now.bucket.now positions.old round }
        ensures picks { Remembers (world self.now.placement) picks.new }
    {
        for rep in 0..positions.len() {
            let draw = Draw {
                numrep: self.numrep,
                base: rep as u32,
                round,
            };
            self.take_position(picks, start, positions, draw);
        }
    }

    /// Fills the positions, in all rounds.
    #[tactic(auto, unfolding(crate::specs::Indep::indep))]
    pub(crate) fn indep(
        &self,
        picks: &mut Picks,
        start: &Bucket,
        positions: &mut [Position],
        searches: &mut Tip,
    )
        requires within { IsPickable start.now }
        requires some { 0 < self.now.numrep }
        requires few { length positions.old ≤ max_size }
        requires picks { Remembers (world self.now.placement) picks.old }
        ensures value { positions.new ≡ indep (choosing self.now) start.now (length positions.old) }
        ensures name { searches.new.name ≡ searches.old.name }
        ensures searched { searches.new.count ≡ searches.old.count + 1 }
        ensures picks { Remembers (world self.now.placement) picks.new }
    {
        searches.rise(1);
        let below = Start::new(start, self.placement.x, self.numrep);
        positions.fill(Position::Open);
        for round in 0..self.tries.total {
            if !has_open(positions) {
                break;
            }
            picks.note_rounds(round);
            self.take_round(picks, &below, positions, round);
        }
    }
}
