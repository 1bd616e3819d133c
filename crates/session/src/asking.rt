//! What a session asks of its monitor: the command of a line is done.

use crate::command::{Beside, Command, Plan, Task};
use crate::desk::Desk;
use crate::following::{follow, follow_sets};
use crate::pool_sets::{PoolSets, sets_in};
use crate::reading::KEPT;
use crate::reply::{Reply, Speaker};
use crate::watch::watch;
use balancer::Request;
use balancer::limits::LEAST_APART;
use epochlog::Keeps;
use json::Scratch;
use mapjson::{read_change_with, read_loads, read_unbased_with};
use monitor::{Answer, Balance, Commit, Follower, Member};
use refusal::Refusal;
use std::alloc::Global;
use std::sync::Wait;
use std::thread::Threads;

/// Gives back the room that a long text took.
fn forget_long(alloc: Global, scratch: &mut Scratch, text: &[u8]) {
    if text.len() > KEPT {
        *scratch = Scratch::new(alloc);
    }
}

impl<'a, R: Wait + Threads + Sync, G, K: Keeps + Drop> Desk<'a, R, G, K> {
    ghost use Rattle.std.specs.Prelude.{◌≤◌, Some, codes, length};
    ghost use Rattle.std.specs.Option.{option_map};
    ghost use Rattle.refusal.specs.Outcomes.{Makes};
    ghost use Rattle.mapjson.specs.LoadTexts.{StatesLoads};
    ghost use Rattle.balancer.specs.Shares.{aim_of};
    ghost use Rattle.monitor.specs.Members.{IsMemberOf};
    ghost use Rattle.session.specs.declared.reply.Speaker.TheVariants.{Monitor};
    ghost use Rattle.session.specs.Texts.{line_of, epoch_text};
    ghost use Rattle.session.specs.Commands.{command_of, beside_of};
    ghost use Rattle.session.specs.Replies.{sets_text, changed_text, planned_text, reply_text};
    ghost use Rattle.session.specs.Answers.{AsksSets, Changes, Applies, beside_fault, Plans, PlansBeside, PlansFor, Awaits};
    ghost use Rattle.session.specs.Sessions.{IsFollowerOf, basis_of, AnswersMember, IsDone};

    /// The up sets of all groups of a pool, in a turn at the lock, which members share.
    fn ups(&self, member: &mut Member, pool: u32) -> Result<PoolSets, Refusal>
        requires { IsMemberOf self.now.monitor.now member.old }
        ensures { AnswersMember self.now.monitor.now member.old member.new
            (AsksSets (basis_of self.now.monitor.now) pool) (sets_text Monitor) result }
    {
        let shared = self.monitor.share(self.rt, member)?;
        let found = sets_in(self.alloc, self.monitor.shown(&shared, member), pool);
        self.monitor.give_back(shared, member);
        found
    }

    /// Commits the change that a text states: the new epoch, and how many groups' placement was worked out anew.
    fn change(
        &self,
        member: &mut Member,
        scratch: &mut Scratch,
        text: &[u8],
    ) -> Result<Commit, Refusal>
        requires { IsMemberOf self.now.monitor.now member.old }
        ensures { AnswersMember self.now.monitor.now member.old member.new
            (Changes (basis_of self.now.monitor.now) text.now) changed_text result }
    {
        let read = read_change_with(self.alloc, scratch, text, self.monitor.profile());
        forget_long(self.alloc, scratch, text);
        let (base, change) = read?;
        self.monitor.commit(self.rt, member, base, change)
    }

    /// Commits the change that a text states without a base to the present map: the new epoch, and how many groups'
    /// placement was worked out anew.
    fn apply(
        &self,
        member: &mut Member,
        scratch: &mut Scratch,
        text: &[u8],
    ) -> Result<Commit, Refusal>
        requires { IsMemberOf self.now.monitor.now member.old }
        ensures { AnswersMember self.now.monitor.now member.old member.new
            (Applies (basis_of self.now.monitor.now) text.now) changed_text result }
    {
        let read = read_unbased_with(self.alloc, scratch, text, self.monitor.profile());
        forget_long(self.alloc, scratch, text);
        let change = read?;
        self.monitor.apply(self.rt, member, change)
    }

    /// The epoch, once it is at least the one wanted: `AwaitSpent` (34) after 1,000,000 looks without it. It takes the
    /// lock once, after the looks.
    fn await_epoch(&self, member: &mut Member, wanted: u64) -> Result<u64, Refusal>
        requires { IsMemberOf self.now.monitor.now member.old }
        ensures { AnswersMember self.now.monitor.now member.old member.new
            (Awaits (basis_of self.now.monitor.now) wanted) (epoch_text (codes "epoch")) result }
    {
        let _ = watch(self.rt, self.monitor, wanted);
        let epoch = self.monitor.epoch(self.rt, member)?;
        if epoch >= wanted {
            Ok(epoch)
        } else {
            Err(Refusal::AwaitSpent)
        }
    }

    /// What OSDs carry, by number, as a text states it: `BadCommand` (33) in a script of plain maps.
    fn loads(&self, text: &[u8]) -> Result<Vec<i32>, Refusal>
        ensures { Makes result
            (beside_fault self.now.monitor.now.profile (length self.now.monitor.now.first.presences) text.now)
            (λ list. StatesLoads (length self.now.monitor.now.first.presences) text.now list.items) }
    {
        if !self.monitor.profile().is_stock() {
            return Err(Refusal::BadCommand);
        }
        read_loads(self.alloc, text, self.monitor.max_osd())
    }

    /// Balances the groups of a pool, where OSDs carry so much and must be so far apart: the epoch then, and how many
    /// moves.
    fn balance_by(
        &self,
        member: &mut Member,
        plan: Plan<'_>,
        carried: &[i32],
        apart: u32,
    ) -> Result<Balance, Refusal>
        requires member { IsMemberOf self.now.monitor.now member.old }
        requires least { 256 ≤ apart }
        ensures { AnswersMember self.now.monitor.now member.old member.new
            (PlansFor (basis_of self.now.monitor.now) plan.entry.pool (aim_of carried.now apart) plan.entry.limit)
            planned_text result }
    {
        let request = Request {
            pool: plan.pool,
            limit: plan.limit,
            carried,
            apart,
        };
        self.monitor.balance(self.rt, member, request)
    }

    /// Balances the groups of a pool, where a text states what OSDs carry beside it: the epoch then, and how many
    /// moves.
    fn balance_beside(
        &self,
        member: &mut Member,
        plan: Plan<'_>,
        beside: Beside<'_>,
    ) -> Result<Balance, Refusal>
        requires { IsMemberOf self.now.monitor.now member.old }
        ensures { AnswersMember self.now.monitor.now member.old member.new
            (PlansBeside (basis_of self.now.monitor.now) plan.entry.pool plan.entry.limit (beside_of beside.entry))
            planned_text result }
    {
        let carried = self.loads(beside.loads)?;
        self.balance_by(member, plan, &carried, beside.apart)
    }

    /// Balances the groups of a pool: the epoch then, and how many moves.
    fn balance(&self, member: &mut Member, plan: Plan<'_>) -> Result<Balance, Refusal>
        requires { IsMemberOf self.now.monitor.now member.old }
        ensures { AnswersMember self.now.monitor.now member.old member.new (Plans (basis_of self.now.monitor.now)
            plan.entry.pool plan.entry.limit (option_map beside_of plan.entry.beside)) planned_text result }
    {
        match plan.beside {
            None => self.balance_by(member, plan, &[], LEAST_APART),
            Some(beside) => self.balance_beside(member, plan, beside),
        }
    }

    /// What the session's follower answers to a task.
    fn follow(
        &self,
        member: &mut Member,
        follower: &mut Option<Follower>,
        task: Task,
    ) -> Result<Reply, Refusal>
        requires member { IsMemberOf self.now.monitor.now member.old }
        requires follower { IsFollowerOf self.now.monitor.now follower.old }
        ensures { IsDone self.now.monitor.now member.old member.new follower.old follower.new
            (Some (command_of (Command.Follower task))) (line_of reply_text result) }
    {
        let answer = follow(self.alloc, self.monitor, member, follower, task)?;
        let by = Speaker::Follower;
        Ok(Reply::Found { by, answer })
    }

    /// The up sets of all groups of a pool in the map of the session's follower.
    fn follower_ups(
        &self,
        member: &mut Member,
        follower: &mut Option<Follower>,
        pool: u32,
    ) -> Result<Reply, Refusal>
        requires member { IsMemberOf self.now.monitor.now member.old }
        requires follower { IsFollowerOf self.now.monitor.now follower.old }
        ensures { IsDone self.now.monitor.now member.old member.new follower.old follower.new
            (Some (command_of (Command.FollowerUps pool))) (line_of reply_text result) }
    {
        let sets = follow_sets(self.alloc, self.monitor, member, follower, pool)?;
        let by = Speaker::Follower;
        Ok(Reply::Sets { by, sets })
    }

    /// Does a command, whose text is read with a scratch; `None` is a line that is no command.
    pub(crate) fn do_command(
        &self,
        member: &mut Member,
        follower: &mut Option<Follower>,
        scratch: &mut Scratch,
        command: Option<Command<'_>>,
    ) -> Result<Reply, Refusal>
        requires member { IsMemberOf self.now.monitor.now member.old }
        requires follower { IsFollowerOf self.now.monitor.now follower.old }
        ensures { IsDone self.now.monitor.now member.old member.new follower.old follower.new
            (option_map command_of command.entry) (line_of reply_text result) }
    {
        match command {
            None => Err(Refusal::BadCommand),
            Some(Command::Ask(question)) => {
                let answer = self.monitor.ask(self.rt, member, question)?;
                Ok(Reply::of_monitor(answer))
            }
            Some(Command::Ups(pool)) => {
                let sets = self.ups(member, pool)?;
                let by = Speaker::Monitor;
                Ok(Reply::Sets { by, sets })
            }
            Some(Command::Change(text)) => {
                let Commit { epoch, evals } = self.change(member, scratch, text)?;
                Ok(Reply::Changed { epoch, evals })
            }
            Some(Command::Apply(text)) => {
                let Commit { epoch, evals } = self.apply(member, scratch, text)?;
                Ok(Reply::Changed { epoch, evals })
            }
            Some(Command::Await(wanted)) => {
                let epoch = self.await_epoch(member, wanted)?;
                Ok(Reply::of_monitor(Answer::Epoch(epoch)))
            }
            Some(Command::Balance(plan)) => {
                let Balance { epoch, moves } = self.balance(member, plan)?;
                Ok(Reply::Moved { moves, epoch })
            }
            Some(Command::Follower(task)) => self.follow(member, follower, task),
            Some(Command::FollowerUps(pool)) => self.follower_ups(member, follower, pool),
        }
    }
}
