//! What a member commits to its monitor.

use crate::locked::{apply, balance, commit};
use crate::member::{Member, commits_made, mark_commit, mark_plan, plans_made};
use crate::monitor::Monitor;
use balancer::Request;
use epochlog::Keeps;
use maptypes::Change;
use refusal::Refusal;
use state::{Balance, Commit, Proposal, State};
use std::sync::Wait;
use std::thread::Threads;

impl<K: Keeps + Drop> Monitor<K> {
    ghost use Rattle.std.specs.Prelude.{◌≡◌, ◌+◌, true, length, Some, IfErr};
    ghost use Rattle.refusal.specs.declared.refused.Refusal.TheVariants.{NotStored};
    ghost use Rattle.balancer.specs.Requests.{asked_aim};
    ghost use Rattle.monitor.specs.Histories.{AnswersCommit, AnswersApply, AddsChange};
    ghost use Rattle.monitor.specs.Balances.{AnswersBalance, AddsPlan};
    ghost use Rattle.monitor.specs.Members.{IsMemberOf, TakesTurn, changes_made};
    ghost use Rattle.monitor.specs.Making.{HasMade, planned_epoch, commits_made, plans_made};

    /// Commits a change to the map of the epoch `base`: the new epoch, and for how many groups a rule was run, which
    /// are those whose placement it can alter. The member has the lock alone.
    ///
    /// # Errors
    ///
    /// `SeatSpent` (31) exactly where the member's seat has made its draws; else `StaleEpoch` (20) with the
    /// present epoch where `base` is another; else what [`osdmap::OsdMap::check`] refuses (21, 22, 23, 24, 13, 15, 25,
    /// 26, 27); else `JournalFull` (28) where the journal has its capacity; else `Memory` (30) where there is no memory
    /// for it, `NotStored` (35) where the store does not take it or has failed before, or `NotSealed` (32) where
    /// another sealed the epoch.
    pub fn commit<R: Wait + Threads + Sync>(
        &self,
        rt: &R,
        member: &mut Member,
        base: u64,
        change: Change,
    ) -> Result<Commit, Refusal>
        requires { IsMemberOf self.now member.old }
        ensures turn { TakesTurn self.now member.old member.new result }
        ensures commits { AnswersCommit self.now.first (length self.now.row.cells)
            member.old.pass.history member.new.pass.history base change result }
        ensures own { HasMade self.now.first.epoch member.old.own.items member.new.own.items
            (λ ok. Some ok.epoch) result }
        ensures counted { changes_made member.new ≡ changes_made member.old + commits_made result }
        ensures stored { IfErr result (λ e. e ≡ NotStored → K.may_fail) }
        ensures alone { self.now.alone ≡ true →
            AddsChange member.old.pass.history member.new.pass.history change result }
    {
        let mut guard = self.hold(rt, member)?;
        let state: &mut State<K> = &mut guard.value_mut().state;
        let answer = commit(
            rt,
            state,
            &self.row,
            &mut member.pass,
            Proposal { base, change },
        );
        guard
            .value_mut()
            .count(&mut member.seen, &mut member.tally, commits_made(&answer));
        self.put_back(guard, member);
        mark_commit(&mut member.own, self.first.map().epoch(), &answer);
        answer
    }

    /// Commits a change to the map that it finds: the new epoch, and for how many groups a rule was run. The member has
    /// the lock alone, so no other's change comes between.
    ///
    /// # Errors
    ///
    /// As for [`Monitor::commit`], but that it is never refused by `StaleEpoch` (20).
    pub fn apply<R: Wait + Threads + Sync>(
        &self,
        rt: &R,
        member: &mut Member,
        change: Change,
    ) -> Result<Commit, Refusal>
        requires { IsMemberOf self.now member.old }
        ensures turn { TakesTurn self.now member.old member.new result }
        ensures applies { AnswersApply self.now.first (length self.now.row.cells)
            member.old.pass.history member.new.pass.history change result }
        ensures own { HasMade self.now.first.epoch member.old.own.items member.new.own.items
            (λ ok. Some ok.epoch) result }
        ensures counted { changes_made member.new ≡ changes_made member.old + commits_made result }
        ensures stored { IfErr result (λ e. e ≡ NotStored → K.may_fail) }
        ensures alone { self.now.alone ≡ true →
            AddsChange member.old.pass.history member.new.pass.history change result }
    {
        let mut guard = self.hold(rt, member)?;
        let state: &mut State<K> = &mut guard.value_mut().state;
        let answer = apply(rt, state, &self.row, &mut member.pass, change);
        guard
            .value_mut()
            .count(&mut member.seen, &mut member.tally, commits_made(&answer));
        self.put_back(guard, member);
        mark_commit(&mut member.own, self.first.map().epoch(), &answer);
        answer
    }

    /// Plans the moves that are asked for, which balance the groups of a pool, and commits their change, both in one
    /// hold of the lock: the epoch then, and how many moves. Where no move is good, nothing is committed, also where
    /// the journal is full.
    ///
    /// # Errors
    ///
    /// `SeatSpent` (31) exactly where the member's seat has made its draws; else `UnknownPool` (23) where there
    /// is no such pool; else `BalanceRule` (29) where the pool's rule has more than one block; else `Memory` (30) where
    /// there is no memory for it, or where a move is good `JournalFull` (28), `NotStored` (35) or `NotSealed` (32) as
    /// for [`Monitor::commit`].
    pub fn balance<R: Wait + Threads + Sync>(
        &self,
        rt: &R,
        member: &mut Member,
        request: Request<'_>,
    ) -> Result<Balance, Refusal>
        requires { IsMemberOf self.now member.old }
        ensures turn { TakesTurn self.now member.old member.new result }
        ensures balances { AnswersBalance self.now.first
            (length self.now.row.cells) member.old.pass.history member.new.pass.history
            request.entry.pool (asked_aim request.entry) request.entry.limit result }
        ensures own { HasMade self.now.first.epoch member.old.own.items member.new.own.items planned_epoch result }
        ensures counted { changes_made member.new ≡ changes_made member.old + plans_made result }
        ensures stored { IfErr result (λ e. e ≡ NotStored → K.may_fail) }
        ensures alone { self.now.alone ≡ true →
            AddsPlan self.now.first member.old.pass.history member.new.pass.history
            request.entry.pool (asked_aim request.entry) request.entry.limit result }
    {
        let mut held = self.hold(rt, member)?;
        let state: &mut State<K> = &mut held.value_mut().state;
        let answer = balance(rt, state, &self.row, &mut member.pass, request);
        held.value_mut()
            .count(&mut member.seen, &mut member.tally, plans_made(&answer));
        self.put_back(held, member);
        mark_plan(&mut member.own, self.first.map().epoch(), &answer);
        answer
    }
}
