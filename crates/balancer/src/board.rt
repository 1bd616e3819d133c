//! The state of a plan: the groups of a pool and the deviations of OSDs after the moves so far.

ghost use Rattle.std.specs.Prelude.{◌≡◌, ◌*◌, ◌+◌, ◌<◌, ◌≤◌, ◌^◌, pos, neg_ℤ, ◌+ℤ◌, ◌-ℤ◌, ◌*ℤ◌, ◌<ℤ◌, length, true, slice_set, Some, IfOk};
ghost use Rattle.buckets.specs.Limits.{max_devices};
ghost use Rattle.mapparts.specs.Limits.{max_groups};
ghost use Rattle.osdmap.specs.Maps.{pool_at};
ghost use Rattle.pgtable.specs.Tables.{IsTableOf};
ghost use Rattle.balancer.specs.Shares.{above_share, deviation, places, aim_of};
ghost use Rattle.balancer.specs.Shares.{places as places_in};
ghost use Rattle.balancer.specs.Boards.{deviations_of, IsBoardOf, IsReached};
ghost use Rattle.balancer.specs.Greedy.{after_moves};
ghost use Rattle.balancer.specs.Plans.{AreMoved};
ghost use Rattle.balancer.specs.Standing.{AreRowsOf};

use crate::frame::Frame;
use crate::group::{Group, groups, move_group};
use crate::load::{Load, carried_by};
use crate::moves::Move;
use crate::shares::{count, places, weight_of};
use crate::standing::Standing;
use maptypes::{Exception, Items, Pg, Pool};
use osdmap::OsdMap;
use pgtable::PgTable;
use refusal::Memory;
use std::alloc::Global;

/// How far an OSD with so many groups is above its share of the places, times the weight of all candidates.
fn above_share(count: u64, total: u64, places: u64, weight: u64) -> i128
    requires count { count ≤ max_groups }
    requires total { total ≤ 2 ^ 60 }
    requires places { places ≤ max_devices * max_groups }
    requires weight { weight < 2 ^ 48 }
    ensures value { result ≡ pos (count * total) -ℤ pos (places * weight) }
    ensures high { result <ℤ pos (2 ^ 99) }
    ensures low { neg_ℤ (pos (2 ^ 99)) <ℤ result }
{
    i128::from(count) * i128::from(total) - i128::from(places) * i128::from(weight)
}

/// How many places of groups of the pool the candidates have together.
#[tactic(auto, unfolding(crate::specs::Shares::places))]
fn places_of(frame: &Frame, table: &PgTable) -> u64
    requires { IsTableOf table.now frame.now.map.now.map }
    ensures value { result ≡ places frame.now.map.now.map frame.now.pool }
    ensures small { result ≤ max_devices * max_groups }
{
    places(frame.map, table, &frame.pool, &frame.osds)
}

/// How far an OSD is above its share, where the candidates have so many places.
#[tactic(auto, unfolding(crate::specs::Shares::above_share))]
fn above_share_of(frame: &Frame, table: &PgTable, places: u64, osd: u32) -> i128
    requires table { IsTableOf table.now frame.now.map.now.map }
    requires value { places ≡ places_in frame.now.map.now.map frame.now.pool }
    requires few { places ≤ max_devices * max_groups }
    ensures value { result ≡ above_share frame.now.map.now.map frame.now.pool osd }
    ensures high { result <ℤ pos (2 ^ 99) }
    ensures low { neg_ℤ (pos (2 ^ 99)) <ℤ result }
{
    let count = count(frame.map, table, &frame.pool, osd);
    above_share(
        count,
        frame.weight,
        places,
        weight_of(frame.map, &frame.weights, osd),
    )
}

/// What is above a share, in 256ths.
fn in_parts(above: i128) -> i128
    requires high { above <ℤ pos (2 ^ 99) }
    requires low { neg_ℤ (pos (2 ^ 99)) <ℤ above }
    ensures value { result ≡ pos 256 *ℤ above }
    ensures high { result <ℤ pos (2 ^ 107) }
    ensures low { neg_ℤ (pos (2 ^ 107)) <ℤ result }
{
    256 * above
}

/// How far an OSD is above its share with what it carries beside, in 256ths, times the weight of all candidates.
fn with_carried(above: i128, load: Load, total: u64) -> i128
    requires high { above <ℤ pos (2 ^ 107) }
    requires low { neg_ℤ (pos (2 ^ 107)) <ℤ above }
    requires total { total ≤ 2 ^ 60 }
    ensures { result ≡ above +ℤ load.parts *ℤ pos total }
{
    above + i128::from(load.parts) * i128::from(total)
}

/// The deviation of an OSD, where the candidates have so many places.
#[tactic(auto, unfolding(crate::specs::Shares::deviation))]
fn deviation_of(frame: &Frame, table: &PgTable, places: u64, osd: u32) -> i128
    requires table { IsTableOf table.now frame.now.map.now.map }
    requires value { places ≡ places_in frame.now.map.now.map frame.now.pool }
    requires few { places ≤ max_devices * max_groups }
    ensures { result ≡ deviation frame.now.map.now.map frame.now.pool
        (aim_of frame.now.carried.now frame.now.apart) osd }
{
    let above = above_share_of(frame, table, places, osd);
    with_carried(
        in_parts(above),
        carried_by(frame.carried, osd),
        frame.weight,
    )
}

/// The deviations of all OSDs, by number; or `Memory` (30).
fn deviations(alloc: Global, frame: &Frame, table: &PgTable) -> Result<Vec<i128>, Memory>
    requires { IsTableOf table.now frame.now.map.now.map }
    ensures { IfOk result (λ ds. ds.items ≡ deviations_of frame.now.map.now.map frame.now.pool
        (aim_of frame.now.carried.now frame.now.apart)) }
{
    let places = places_of(frame, table);
    let mut deviations = Vec::with_capacity(alloc, frame.map.max_osd() as usize)?;
    for osd in 0..frame.map.max_osd() {
        deviations.push(deviation_of(frame, table, places, osd))?;
    }
    Ok(deviations)
}

/// Whether some move moves each of so many groups, by number; or `Memory` (30).
fn moved_of(alloc: Global, moves: &[Move], count: u32) -> Result<Vec<bool>, Memory>
    ensures { IfOk result (λ moved. AreMoved moves.now count moved.items) }
{
    let mut moved = Vec::new(alloc);
    moved.resize(count as usize, false)?;
    for step in moves {
        mark_moved(&mut moved, step.group);
    }
    Ok(moved)
}

/// A group is moved, where there is one of this number.
fn mark_moved(moved: &mut Vec<bool>, number: u32)
    ensures { moved.new.items ≡ slice_set moved.old.items number true }
{
    let at = number as usize;
    if at < moved.len() {
        moved[at] = true;
    }
}

/// The state of a plan for a pool.
#[derive(Drop)]
pub(crate) struct Board<'a> {
    pub frame: Frame<'a>,
    /// What is kept of the pool's groups, by number.
    pub groups: Vec<Group>,
    /// Which of these stand on each OSD.
    pub standing: Standing,
    /// The deviations of all OSDs, by number.
    pub deviations: Vec<i128>,
    /// The moves so far.
    pub moves: Vec<Move>,
    ghost reached: { IsReached frame.map.now.map frame.pool (aim_of frame.carried.now frame.apart) moves.items },
    ghost board: { IsBoardOf (after_moves frame.map.now.map frame.pool moves.items) frame.pool
        (aim_of frame.carried.now frame.apart) groups.items deviations.items },
    ghost stand: { AreRowsOf groups.items standing },
    ghost wide: { length standing ≡ length frame.map.now.map.presences },
}

impl<'a> Board<'a> {
    ghost use Rattle.std.specs.Prelude.{◌≡◌, ◌<◌, [], ◌∷◌, ◌++◌, IfOk, OnOk};
    ghost use Rattle.balancer.specs.Plans.{items_at, moved_items};
    ghost use Rattle.balancer.specs.Boards.{AreAfterMove};
    ghost use Rattle.balancer.specs.Reached.{cluster, reached, IsBoardFor, AreOfOnePlan, IsGoodOn};
    ghost use Rattle.pgtable.specs.Tables.{IsTableOf};

    /// The state at the beginning; or `Memory` (30).
    pub fn new(alloc: Global, frame: Frame<'a>, table: &PgTable) -> Result<Board<'a>, Memory>
        requires { IsTableOf table.now frame.map.now.map }
        ensures frame { IfOk result (IsBoardFor frame.entry) }
        ensures moves { IfOk result (λ board. board.moves.items ≡ []) }
    {
        frame.map.holds_together();
        let groups = groups(alloc, frame.map, table, &frame.pool)?;
        frame.pool.is_within_limits();
        let standing = Standing::new(alloc, &groups, frame.map.max_osd())?;
        let deviations = deviations(alloc, &frame, table)?;
        let moves = Vec::new(alloc);
        Ok(Board {
            frame,
            groups,
            standing,
            deviations,
            moves,
        })
    }

    /// Makes a good move; or `Memory` (30).
    pub fn make(&mut self, step: Move) -> Result<(), Memory>
        requires { IsGoodOn self.old step }
        ensures moves { OnOk result (self.new.moves.items ≡ self.old.moves.items ++ step ∷ []) }
        ensures groups { OnOk result (AreAfterMove self.old.groups.items step self.new.groups.items) }
        ensures same { AreOfOnePlan self.new self.old }
    {
        let weight = self.frame.group_weight();
        let at = step.group as usize;
        let group = move_group(self.groups[at], step);
        self.standing.add(step.group, group.places.as_slice())?;
        self.moves.push(step)?;
        self.groups[at] = group;
        self.deviations[step.from as usize] -= weight;
        self.deviations[step.to as usize] += weight;
        Ok(())
    }

    /// The pairs of a group, as an exception.
    #[tactic(auto, unfolding(crate::specs::Boards::group_at))]
    fn items_at(&self, number: u32) -> Items
        requires { number < self.now.frame.pool.pg_num }
        ensures { result ≡ items_at (reached self.now) self.now.frame.pool number }
    {
        let pg = Pg {
            pool: self.frame.pool.id(),
            number,
        };
        Exception {
            pg,
            entries: self.groups[number as usize].pairs,
        }
    }

    /// For each group moved, by number upwards, all its pairs after the moves; or `Memory` (30).
    #[tactic(auto, unfolding(crate::specs::Plans::moved_items))]
    pub fn items(&self, alloc: Global) -> Result<Vec<Items>, Memory>
        ensures { IfOk result (λ items. items.items
            ≡ moved_items (cluster self.now) self.now.frame.pool self.now.moves.items) }
    {
        let mut items = Vec::with_capacity(alloc, self.moves.len())?;
        let moved = moved_of(alloc, &self.moves, self.frame.pool.pg_num())?;
        for number in 0..self.frame.pool.pg_num() {
            if moved[number as usize] {
                items.push(self.items_at(number))?;
            }
        }
        Ok(items)
    }
}
