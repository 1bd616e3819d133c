//! Plans.

ghost use Rattle.std.specs.Prelude.{◌≡◌, ◌≤◌, ◌<◌, ◌==◌, [], length, None, Some, IfOk};
ghost use Rattle.std.specs.List.{count_by};
ghost use Rattle.crush.specs.Grammar.{is_emit};
ghost use Rattle.refusal.specs.Outcomes.{Judges, Gives};
ghost use Rattle.osdmap.specs.Maps.{pool_at};
ghost use Rattle.osdmap.specs.Changes.{change_fault};
ghost use Rattle.osdmap.specs.Placement.{steps_of};
ghost use Rattle.pgtable.specs.Tables.{IsTableOf};
ghost use Rattle.balancer.specs.Shares.{has_one_block, aim_of};
ghost use Rattle.balancer.specs.Reached.{IsBoardFor};
ghost use Rattle.balancer.specs.Requests.{asked_aim};
ghost use Rattle.balancer.specs.Greedy.{good_moves, greedy, after_moves};
ghost use Rattle.balancer.specs.Plans.{plan_fault, IsPlan, Evens, LeavesNone};

use crate::board::Board;
use crate::frame::Frame;
use crate::planned::PlannedChange;
use crate::request::Request;
use crush::Step;
use mapparts::Profile;
use maptypes::{Change, Pool};
use osdmap::OsdMap;
use pgtable::PgTable;
use refusal::{Memory, Refusal};
use std::alloc::Global;

/// How many steps emit.
fn emits(steps: &[Step]) -> usize
    ensures { result ≡ count_by is_emit steps.now }
{
    steps
        .iter()
        .filter(|step| matches!(step, Step::Emit))
        .count()
}

/// Whether the rule of a pool has one block.
fn has_one_block(map: &OsdMap, pool: &Pool) -> bool
    ensures { result ≡ has_one_block (steps_of map.now.map pool.now) }
{
    match map.rule(pool.rule()) {
        Some(rule) => emits(rule.steps()) == 1,
        None => false,
    }
}

/// The pool of an id, which can be balanced: else `UnknownPool` (23), `BalanceRule` (29).
fn find_pool(map: &OsdMap, id: u32) -> Result<Pool, Refusal>
    ensures { Judges result (plan_fault map.now.map id) (λ p. pool_at map.now.map.pools id ≡ Some p) }
{
    let pool = map.pool(id).ok_or(Refusal::UnknownPool)?;
    if has_one_block(map, &pool) {
        Ok(pool)
    } else {
        Err(Refusal::BalanceRule)
    }
}

/// The state of a plan once its moves are made, at most so many; or `Memory` (30).
fn make_moves<'a>(
    alloc: Global,
    frame: Frame<'a>,
    table: &PgTable,
    limit: u32,
) -> Result<Board<'a>, Memory>
    requires { IsTableOf table.now frame.map.now.map }
    ensures frame { IfOk result (IsBoardFor frame.entry) }
    ensures moves { IfOk result (λ board. board.moves.items ≡ greedy frame.entry.map.now.map frame.entry.pool
        (aim_of frame.entry.carried.now frame.entry.apart) limit) }
    ensures done { IfOk result (λ board. length board.moves.items < limit →
        good_moves (after_moves frame.entry.map.now.map frame.entry.pool board.moves.items) frame.entry.pool
        (aim_of frame.entry.carried.now frame.entry.apart) ≡ []) }
{
    let mut board = Board::new(alloc, frame, table)?;
    board.run(alloc, limit)?;
    Ok(board)
}

/// The greedy plan that is asked for, for a map and its table, as a change that nothing refuses at this map. The table
/// has the mapped sets: no rule is run.
///
/// # Errors
///
/// `UnknownPool` (23) where there is no such pool; else `BalanceRule` (29) where its rule has more than one block; else
/// `Memory` (30) where there is no memory for it.
pub fn plan(
    alloc: Global,
    map: &OsdMap,
    table: &PgTable,
    request: Request<'_>,
) -> Result<PlannedChange, Refusal>
    requires table { IsTableOf table.now map.now.map }
    ensures plan { Gives result (plan_fault map.now.map request.entry.pool)
        (λ plan. IsPlan map.now.map request.entry.pool (asked_aim request.entry) request.entry.limit
        plan.change plan.moves) }
    ensures lawful { IfOk result (λ plan. change_fault map.now.map plan.change ≡ None) }
    ensures evens { IfOk result (λ plan. Evens map.now.map request.entry.pool (asked_aim request.entry)
        plan.change plan.moves) }
    ensures leaves_none { IfOk result (λ plan. plan.moves < request.entry.limit →
        LeavesNone map.now.map request.entry.pool (asked_aim request.entry) plan.change) }
{
    map.holds_together();
    let pool = find_pool(map, request.pool)?;
    let frame = Frame::new(alloc, map, pool, request)?;
    let board = make_moves(alloc, frame, table, request.limit)?;
    let items = board.items(alloc)?;
    let change = Change::of_items(alloc, Profile::Stock, items)?;
    Ok(PlannedChange {
        change,
        moves: board.moves.len(),
    })
}
