//! What a plan is asked for.

ghost use Rattle.std.specs.Prelude.{◌≤◌};
ghost use Rattle.balancer.specs.Limits.{max_moves};

/// What a plan is asked for.
#[derive(Clone, Copy, Debug)]
pub struct Request<'a> {
    /// The pool whose groups are to be moved.
    pub pool: u32,
    /// How many moves there may be, 1 to 1,024.
    pub limit: u32,
    /// How much more of the pool OSDs count as having than its groups, by number, in 256ths of a group; less where a
    /// number is below 0, and nothing where the list ends. With an empty list the pool is planned by itself.
    pub carried: &'a [i32],
    /// How far two OSDs must be apart for a move between them to be good, in 256ths of a group: 256 or more.
    pub apart: u32,
    pub ghost some: { 1 ≤ limit },
    pub ghost few: { limit ≤ max_moves },
    pub ghost least: { 256 ≤ apart },
}
