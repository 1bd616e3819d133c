//! What a session has of its own.

use json::Scratch;
use monitor::Follower;
use std::alloc::Global;

/// How far a session is: its follower, once one is needed, where the lines of its answers are made, where its changes
/// are read, and the number of its next line.
#[derive(Drop)]
pub(crate) struct Progress {
    pub(crate) follower: Option<Follower>,
    pub(crate) text: String,
    pub(crate) scratch: Scratch,
    pub(crate) number: u64,
}

impl Progress {
    ghost use Rattle.std.specs.Prelude.{◌≡◌, None};

    /// A session before its first line.
    pub(crate) fn new(alloc: Global) -> Progress
        ensures follower { result.follower ≡ None }
        ensures number { result.number ≡ 1 }
    {
        Progress {
            follower: None,
            text: String::new(alloc),
            scratch: Scratch::new(alloc),
            number: 1,
        }
    }
}
