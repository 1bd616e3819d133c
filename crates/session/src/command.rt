//! What a line of a script may ask for.
ghost use Rattle.std.specs.Prelude.{◌≤◌};
ghost use Rattle.balancer.specs.Limits.{max_moves};

use maptypes::Pg;
use monitor::Question;

/// A plan that is asked for.
#[derive(Clone, Copy, Debug)]
pub(crate) struct Plan<'a> {
    /// The pool whose groups are to be moved.
    pub pool: u32,
    /// How many moves there may be, 1 to 1,024.
    pub limit: u32,
    /// What the plan is to count beside the pool.
    pub beside: Option<Beside<'a>>,
    pub ghost some: { 1 ≤ limit },
    pub ghost few: { limit ≤ max_moves },
}

/// What a plan is to count beside its pool.
#[derive(Clone, Copy, Debug)]
pub(crate) struct Beside<'a> {
    /// How far two OSDs must be apart for a move between them to be good, in 256ths of a group: 256 or more.
    pub apart: u32,
    /// What OSDs carry, as JSON.
    pub loads: &'a [u8],
    pub ghost least: { 256 ≤ apart },
}

/// What the session's follower is to do.
#[derive(Clone, Copy, Debug)]
pub(crate) enum Task {
    /// To go on to the last sealed epoch.
    CatchUp,
    /// To tell the up set of a group.
    Up(Pg),
    /// To tell the written form of its map.
    Dump,
    /// To tell what a Ceph monitor would leave of a group's exceptions. Only a script of stock maps asks it.
    Kept(Pg),
}

/// A command of a script.
#[derive(Clone, Copy, Debug)]
pub(crate) enum Command<'a> {
    /// Asks a question, and changes nothing.
    Ask(Question),
    /// Asks for the up sets of all groups of a pool. Only a script of stock maps has it.
    Ups(u32),
    /// Commits the change that a JSON text states.
    Change(&'a [u8]),
    /// Commits the change that a JSON text states without a base to the present map. Only a script of stock maps has
    /// it.
    Apply(&'a [u8]),
    /// Waits until the epoch is at least this.
    Await(u64),
    /// Balances the groups of a pool.
    Balance(Plan<'a>),
    /// Has the session's follower do something.
    Follower(Task),
    /// Has the session's follower tell the up sets of all groups of a pool. Only a script of stock maps has it.
    FollowerUps(u32),
}
