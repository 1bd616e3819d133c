//! What is left of a session that has ended, and what its thread promises of it.
use crate::part::Part;
use epochlog::Keeps;
use monitor::{Follower, Member, Monitor};
use refusal::Memory;
use session::Buffer;
use std::thread::Promise;

/// What is left of a session that has ended.
#[derive(Drop)]
pub struct Left {
    /// What is to be put out of it.
    pub text: Buffer,
    /// Its member, with what it has seen.
    pub member: Member,
    /// Its follower, where it has had one.
    pub follower: Option<Follower>,
    /// Whether one of its files has failed, which its thread has told.
    pub has_told: bool,
}

impl Left {
    ghost use Rattle.std.specs.Prelude.{◌≡◌, false, slice_index_or};

    /// Whether its member has made the epoch at a place of the row.
    pub fn has_made(&self, at: usize) -> bool
        ensures { result ≡ slice_index_or self.now.member.own.items at false }
    {
        self.member.own().get(at).is_some_and(|made| *made)
    }
}

/// Who plays a session: its member, and its follower once a line has needed one.
#[derive(Drop)]
pub struct Asker {
    /// The member.
    pub member: Member,
    /// The follower.
    pub follower: Option<Follower>,
}

/// A session, and what its thread promises: what is left to put out of it, and its member, unless memory was short.
#[derive(Clone, Copy)]
pub struct LeftOf<'a, K: Keeps + Drop> {
    /// The monitor that it is played at.
    pub monitor: &'a Monitor<K>,
    /// Its number, from 1.
    pub number: usize,
    /// What it is played from.
    pub part: &'a Part,
}

impl<'a, K: Keeps + Drop> Promise<Result<Left, Memory>> for LeftOf<'a, K> {
    ghost use Rattle.std.specs.Prelude.{IfOk};
    ghost use Rattle.server.specs.Serving.{IsLeftBy};

    ghost kept_by = { λ p left. IfOk left (IsLeftBy p.monitor.now p.number p.part.now) };
}
