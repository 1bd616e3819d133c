//! Who asks a monitor.

ghost use Rattle.std.specs.Prelude.{◌≡◌, ◌≢◌, Some, IfOk, length};
ghost use Rattle.epochlog.specs.Epochs.{OneBegins};
ghost use Rattle.monitor.specs.Making.{IsOfRow, with_made, planned_epoch, HasMade, commits_made, plans_made};

use crate::tally::Tally;
use epochlog::Pass;
use refusal::Refusal;
use state::{Balance, Commit};
use ticketlock::Seat;
use tip::Seen;

/// One who asks a monitor and commits to it: a seat at its lock, what it has seen of its row, and which of the row's
/// epochs it has made. It may move to another thread, and be dropped. Its seat is there between any two calls.
#[derive(Drop)]
pub struct Member {
    pub(crate) seat: Option<Seat>,
    pub(crate) pass: Pass,
    /// For each epoch of the row, whether the member has made it.
    pub(crate) own: Vec<bool>,
    /// That the monitor's changes were so many as the member has seen.
    pub(crate) seen: Seen,
    /// How many of them it has made.
    pub(crate) tally: Tally,
}

/// Marks an epoch as made by the member whose marks these are; the row begins after the epoch `first`.
fn mark(own: &mut Vec<bool>, first: u64, epoch: u64)
    requires { IsOfRow first (length own.old.items) epoch }
    ensures { own.new.items ≡ with_made first own.old.items (Some epoch) }
{
    own[(epoch - first - 1) as usize] = true;
}

/// How many epochs a commit has made.
pub(crate) fn commits_made(answer: &Result<Commit, Refusal>) -> u64
    ensures { result ≡ commits_made answer.now }
{
    match answer {
        Ok(_) => 1,
        Err(_) => 0,
    }
}

/// How many epochs a plan has made.
pub(crate) fn plans_made(answer: &Result<Balance, Refusal>) -> u64
    ensures { result ≡ plans_made answer.now }
{
    match answer {
        Ok(made) => { if made.moves == 0 { 0 } else { 1 } }
        Err(_) => 0,
    }
}

/// Marks the epoch that a commit has made, if it has.
pub(crate) fn mark_commit(own: &mut Vec<bool>, first: u64, answer: &Result<Commit, Refusal>)
    requires { IfOk answer.now (λ ok. IsOfRow first (length own.old.items) ok.epoch) }
    ensures { HasMade first own.old.items own.new.items (λ ok. Some ok.epoch) answer.now }
{
    if let Ok(made) = answer {
        mark(own, first, made.epoch);
    }
}

/// Marks the epoch that a plan has made, if it has.
pub(crate) fn mark_plan(own: &mut Vec<bool>, first: u64, answer: &Result<Balance, Refusal>)
    requires { IfOk answer.now (λ ok. ok.moves ≢ 0 → IsOfRow first (length own.old.items) ok.epoch) }
    ensures { HasMade first own.old.items own.new.items planned_epoch answer.now }
{
    if let Ok(made) = answer {
        if made.moves != 0 {
            mark(own, first, made.epoch);
        }
    }
}

impl Member {
    /// After it the history of one member is known to begin that of the other. Both are members of one monitor. It
    /// takes no memory and waits for no one.
    pub fn meet(&mut self, other: &mut Member)
        requires { self.old.pass.row ≡ other.old.pass.row }
        ensures mine { self.new ≡ self.old }
        ensures theirs { other.new ≡ other.old }
        ensures begins { OneBegins self.old.pass.history other.old.pass.history }
    {
        self.pass.meet(&mut other.pass);
    }

    /// What it has seen of its row.
    pub fn pass(&self) -> &Pass
        ensures { result.now ≡ self.now.pass }
    {
        &self.pass
    }

    /// For each epoch of its row, whether the member has made it: by a commit, or by a plan with moves.
    pub fn own(&self) -> &[bool]
        ensures { result.now ≡ self.now.own.items }
    {
        &self.own
    }
}
