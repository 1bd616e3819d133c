//! What a member asks of its monitor.

use crate::member::Member;
use crate::monitor::Monitor;
use crate::question::{Answer, Question, find};
use crate::shared::Shared;
use epochlog::Keeps;
use maptypes::{Pg, UpSet};
use refusal::Refusal;
use std::sync::Wait;

impl<K: Keeps + Drop> Monitor<K> {
    ghost use Rattle.std.specs.Prelude.{◌≢◌, IfOk, IfErr, IsUtf8};
    ghost use Rattle.refusal.specs.declared.refused.Refusal.TheVariants.{SeatSpent};
    ghost use Rattle.osdmap.specs.Changes.{after};
    ghost use Rattle.state.specs.Answers.{FindsUp, FindsCount, FindsGroups};
    ghost use Rattle.monitor.specs.Members.{IsMemberOf};
    ghost use Rattle.monitor.specs.Questions.{AnswersBy, Finds, FindsEpoch, FindsText};
    ghost use Rattle.monitor.specs.Sharing.{IsSharing};

    /// What a question finds in the state that a member shares.
    ///
    /// # Errors
    ///
    /// Those of [`Monitor::ask`] but `SeatSpent`.
    pub fn answer(
        &self,
        shared: &Shared<'_, K>,
        member: &Member,
        question: Question,
    ) -> Result<Answer, Refusal>
        requires { IsSharing self.now shared.now member.now }
        ensures finds { Finds (after self.now.first member.now.pass.history) question result }
        ensures unspent { IfErr result (λ e. e ≢ SeatSpent) }
    {
        find(self.shown(shared, member), question)
    }

    /// What a question finds in the state, in a turn at the lock, which members share.
    ///
    /// # Errors
    ///
    /// `SeatSpent` (31) exactly where the member's seat has made its draws. Else, of a group `UnknownPool` (23)
    /// where the map has no such pool, or `UnknownGroup` (25) where the pool has no such group; of an OSD `UnknownOsd`
    /// (21) where it does not exist. Else, of groups and of the map's text, `Memory` (30) where there is no memory.
    pub fn ask<R: Wait>(
        &self,
        rt: &R,
        member: &mut Member,
        question: Question,
    ) -> Result<Answer, Refusal>
        requires { IsMemberOf self.now member.old }
        ensures { AnswersBy self.now member.old member.new (λ m. Finds m question) result }
    {
        let shared = self.share(rt, member)?;
        let answer = find(self.shown(&shared, member), question);
        self.give_back(shared, member);
        answer
    }

    /// The epoch and the up set of a group, as [`Monitor::ask`] finds it. It takes no memory.
    ///
    /// # Errors
    ///
    /// `SeatSpent` (31), `UnknownPool` (23), `UnknownGroup` (25).
    pub fn up<R: Wait>(&self, rt: &R, member: &mut Member, pg: Pg) -> Result<(u64, UpSet), Refusal>
        requires { IsMemberOf self.now member.old }
        ensures { AnswersBy self.now member.old member.new (λ m. FindsUp m pg) result }
    {
        let Answer::Up { epoch, set, .. } = self.ask(rt, member, Question::Up(pg))? else {
            unreachable!()
        };
        Ok((epoch, set))
    }

    /// The epoch, and in how many groups' up sets an OSD stands, as [`Monitor::ask`] finds it. It takes no memory.
    ///
    /// # Errors
    ///
    /// `SeatSpent` (31), `UnknownOsd` (21).
    pub fn count<R: Wait>(
        &self,
        rt: &R,
        member: &mut Member,
        osd: u32,
    ) -> Result<(u64, usize), Refusal>
        requires { IsMemberOf self.now member.old }
        ensures { AnswersBy self.now member.old member.new (λ m. FindsCount m osd) result }
    {
        let Answer::Count { epoch, count, .. } = self.ask(rt, member, Question::Count(osd))? else {
            unreachable!()
        };
        Ok((epoch, count))
    }

    /// The epoch, and the groups in whose up set an OSD stands, by pool upwards, then by number, as [`Monitor::ask`]
    /// finds them.
    ///
    /// # Errors
    ///
    /// `SeatSpent` (31), `UnknownOsd` (21), `Memory` (30).
    pub fn groups<R: Wait>(
        &self,
        rt: &R,
        member: &mut Member,
        osd: u32,
    ) -> Result<(u64, Vec<Pg>), Refusal>
        requires { IsMemberOf self.now member.old }
        ensures { AnswersBy self.now member.old member.new
            (λ m. FindsGroups (λ groups. groups.items) m osd) result }
    {
        let Answer::Groups { epoch, groups, .. } = self.ask(rt, member, Question::Groups(osd))?
        else {
            unreachable!()
        };
        Ok((epoch, groups))
    }

    /// The epoch, as [`Monitor::ask`] finds it. It takes no memory.
    ///
    /// # Errors
    ///
    /// `SeatSpent` (31).
    pub fn epoch<R: Wait>(&self, rt: &R, member: &mut Member) -> Result<u64, Refusal>
        requires { IsMemberOf self.now member.old }
        ensures { AnswersBy self.now member.old member.new FindsEpoch result }
    {
        let Answer::Epoch(epoch) = self.ask(rt, member, Question::Epoch)? else {
            unreachable!()
        };
        Ok(epoch)
    }

    /// The text of the map, as `mapjson::write_map` writes it, as [`Monitor::ask`] finds it.
    ///
    /// # Errors
    ///
    /// `SeatSpent` (31), `Memory` (30).
    pub fn dump<R: Wait>(&self, rt: &R, member: &mut Member) -> Result<Vec<u8>, Refusal>
        requires { IsMemberOf self.now member.old }
        ensures answers { AnswersBy self.now member.old member.new (FindsText (λ text. text.items)) result }
        ensures utf8 { IfOk result (λ text. IsUtf8 text.items) }
    {
        let Answer::Dump(text) = self.ask(rt, member, Question::Dump)? else {
            unreachable!()
        };
        Ok(text.into_bytes())
    }
}
