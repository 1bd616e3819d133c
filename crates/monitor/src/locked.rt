//! What lies under the lock of a monitor.

ghost use Rattle.std.specs.Prelude.{◌≡◌, ◌≢◌, ◌≤◌, ◌+◌, IfErr, length};
ghost use Rattle.refusal.specs.declared.refused.Refusal.TheVariants.{SeatSpent, NotStored};
ghost use Rattle.osdmap.specs.Changes.{IsLawful, after};
ghost use Rattle.epochlog.specs.Epochs.{Begins};
ghost use Rattle.balancer.specs.Requests.{asked_aim};
ghost use Rattle.monitor.specs.Histories.{AnswersCommit, AnswersApply, AddsChange};
ghost use Rattle.monitor.specs.Balances.{AnswersBalance, AddsPlan};
ghost use Rattle.monitor.specs.Making.{commits_made, plans_made};
ghost use Rattle.monitor.specs.Tallies.{names_of, IsTallyOf};
ghost use Rattle.monitor.specs.Members.{Counts};

use crate::tally::{Tally, agree, raise};
use balancer::Request;
use epochlog::{Keeps, Pass, Row};
use maptypes::Change;
use refusal::Refusal;
use state::{Balance, Commit, Proposal, State};
use std::thread::Threads;
use ticketlock::Fact;
use tip::{Kept, Seen, Tip};

/// A state under the lock. Each that is lent or put back has the first map of the one that the lock was made with, and
/// a pass of the same row, and its changes are counted; what else holds of it holds of every state.
#[derive(Drop)]
pub(crate) struct Locked<K: Keeps + Drop> {
    pub(crate) state: Box<State<K>>,
    /// How many changes it has made: there is one such count, so a state that is behind cannot lie here.
    pub(crate) tip: Tip,
    /// How many each member has made, which that member knows too: so nobody makes one in a call that does not say so.
    pub(crate) kept: Vec<Kept>,
}

impl<K: Keeps + Drop> Fact for Locked<K> {
    ghost use Rattle.std.specs.Prelude.{◌≡◌};
    ghost use Rattle.monitor.specs.Tallies.{names_of};
    ghost use Rattle.monitor.specs.Members.{Counts};

    ghost fact = { λ made now.
        (now.state.value.first ≡ made.state.value.first)
        × (now.state.value.pass.row ≡ made.state.value.pass.row)
        × (now.tip.name ≡ made.tip.name) × (names_of now.kept.items ≡ names_of made.kept.items) × Counts now };
}

/// A pass that has seen no more than a state sees all that it has.
pub(crate) fn see<K: Keeps + Drop>(pass: &mut Pass, state: &State<K>)
    requires row { pass.old.row ≡ state.now.pass.row }
    requires seen { length pass.old.history ≤ length state.now.pass.history }
    ensures pass { pass.new ≡ state.now.pass }
    ensures begins { Begins pass.old.history pass.new.history }
    ensures lawful { IsLawful state.now.first state.now.pass.history }
    ensures same { length pass.old.history ≡ length state.now.pass.history → pass.new ≡ pass.old }
{
    pass.join(state.pass());
    let _ = state.map();
}

/// That a member has seen no more than a state under the lock, and has made all its changes where it is the only one:
/// whoever has the state has the count of its changes, and there is one such count.
pub(crate) fn compare<K: Keeps + Drop>(locked: &Locked<K>, seen: &Seen, tally: &Tally)
    requires counts { Counts locked.now }
    requires name { seen.now.name ≡ locked.now.tip.name }
    requires own { IsTallyOf (names_of locked.now.kept.items) tally.now }
    ensures seen { seen.now.count ≤ length locked.now.state.value.pass.history }
    ensures all { length (names_of locked.now.kept.items) ≡ 1 →
        tally.now.mine.count ≡ length locked.now.state.value.pass.history }
{
    locked.tip.bounds(seen);
    agree(&locked.kept, tally);
}

impl<K: Keeps + Drop> Locked<K> {
    ghost use Rattle.std.specs.Prelude.{◌≡◌, ◌+◌};
    ghost use Rattle.monitor.specs.Tallies.{names_of, total_of, IsTallyOf};

    /// Counts so many changes more, for the member that has made them.
    pub(crate) fn count(&mut self, seen: &mut Seen, tally: &mut Tally, more: u64)
        requires own { IsTallyOf (names_of self.old.kept.items) tally.old }
        ensures state { self.new.state ≡ self.old.state }
        ensures tip { (self.new.tip.name ≡ self.old.tip.name) × (self.new.tip.count ≡ self.old.tip.count + more) }
        ensures names { names_of self.new.kept.items ≡ names_of self.old.kept.items }
        ensures total { total_of self.new.kept.items ≡ total_of self.old.kept.items + more }
        ensures own { IsTallyOf (names_of self.new.kept.items) tally.new }
        ensures made { tally.new.mine.count ≡ tally.old.mine.count + more }
        ensures seen { (seen.new.name ≡ self.old.tip.name) × (seen.new.count ≡ self.old.tip.count + more) }
    {
        self.tip.rise(more);
        *seen = self.tip.seen();
        raise(&mut self.kept, tally, more);
    }
}

/// Commits a change to a state, by one who has seen all that it has.
pub(crate) fn commit<R: Threads + Sync, K: Keeps + Drop>(
    rt: &R,
    state: &mut State<K>,
    row: &Row,
    pass: &mut Pass,
    proposal: Proposal,
) -> Result<Commit, Refusal>
    requires row { state.old.pass.row ≡ row.now }
    requires pass { pass.old ≡ state.old.pass }
    ensures commits { AnswersCommit state.old.first (length row.now.cells)
        pass.old.history pass.new.history proposal.base proposal.change result }
    ensures own { AddsChange pass.old.history pass.new.history proposal.change result }
    ensures longer { length pass.new.history ≡ length pass.old.history + commits_made result }
    ensures unspent { IfErr result (λ e. e ≢ SeatSpent) }
    ensures stored { IfErr result (λ e. e ≡ NotStored → K.may_fail) }
    ensures pass { pass.new ≡ state.new.pass }
    ensures first { state.new.first ≡ state.old.first }
    ensures row { state.new.pass.row ≡ row.now }
{
    let _ = state.map();
    let answer = state.commit(rt, row, pass, proposal);
    let _ = state.map();
    answer
}

/// Commits a change to the map of a state, by one who has seen all that it has.
pub(crate) fn apply<R: Threads + Sync, K: Keeps + Drop>(
    rt: &R,
    state: &mut State<K>,
    row: &Row,
    pass: &mut Pass,
    change: Change,
) -> Result<Commit, Refusal>
    requires row { state.old.pass.row ≡ row.now }
    requires pass { pass.old ≡ state.old.pass }
    ensures applies { AnswersApply state.old.first (length row.now.cells)
        pass.old.history pass.new.history change result }
    ensures own { AddsChange pass.old.history pass.new.history change result }
    ensures longer { length pass.new.history ≡ length pass.old.history + commits_made result }
    ensures unspent { IfErr result (λ e. e ≢ SeatSpent) }
    ensures stored { IfErr result (λ e. e ≡ NotStored → K.may_fail) }
    ensures pass { pass.new ≡ state.new.pass }
    ensures first { state.new.first ≡ state.old.first }
    ensures row { state.new.pass.row ≡ row.now }
{
    let base = state.map().epoch();
    commit(rt, state, row, pass, Proposal { base, change })
}

/// Plans and commits the moves that are asked for, which balance a pool of a state, by one who has seen all that it
/// has.
pub(crate) fn balance<R: Threads + Sync, K: Keeps + Drop>(
    rt: &R,
    state: &mut State<K>,
    row: &Row,
    pass: &mut Pass,
    request: Request<'_>,
) -> Result<Balance, Refusal>
    requires row { state.old.pass.row ≡ row.now }
    requires pass { pass.old ≡ state.old.pass }
    ensures balances { AnswersBalance state.old.first (length row.now.cells) pass.old.history pass.new.history
        request.entry.pool (asked_aim request.entry) request.entry.limit result }
    ensures own { AddsPlan state.old.first pass.old.history pass.new.history
        request.entry.pool (asked_aim request.entry) request.entry.limit result }
    ensures longer { length pass.new.history ≡ length pass.old.history + plans_made result }
    ensures unspent { IfErr result (λ e. e ≢ SeatSpent) }
    ensures stored { IfErr result (λ e. e ≡ NotStored → K.may_fail) }
    ensures pass { pass.new ≡ state.new.pass }
    ensures first { state.new.first ≡ state.old.first }
    ensures row { state.new.pass.row ≡ row.now }
{
    let _ = state.map();
    let answer = state.balance(rt, row, pass, request);
    let _ = state.map();
    answer
}
