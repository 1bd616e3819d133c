//! Why a text, a map, a change, a question or a line is refused.

ghost use Rattle.std.specs.Prelude.{◌≡◌};

use crate::memory::Memory;
use std::alloc::{AllocError, AllocFailed};
use std::fmt;
use thiserror::Error;

/// Why a text, a map, a change, a question or a line is refused. Each has a number and a name.
#[derive(Clone, Copy, Debug, PartialEq, Eq, Error)]
pub enum Refusal {
    /// 10: not UTF-8, not JSON, or nested deeper than 127.
    BadJson,
    /// 11: a key missing or unknown, a value of the wrong kind, a word or group text that is none, a number with a
    /// fraction, an exponent or more than 64 bits.
    BadField,
    /// 12: a number or a length outside its limits.
    BadLimit,
    /// 13: the buckets are no well-formed forest.
    BadForest,
    /// 14: a rule's id twice, steps outside the grammar, or a take of an unknown bucket.
    BadRule,
    /// 15: a pool's id twice, no such rule, a rule of the other kind, or more groups for placement than groups; in a
    /// change also more pools or groups after it than a map may have, or a pool that would grow to fewer groups, or to
    /// fewer for placement, than it has.
    BadPool,
    /// 16: an OSD's id twice, an id not below `max_osd`, or an OSD that is up but does not exist.
    BadOsd,
    /// 17: in a map a group twice among the explicit sets or among the pairs, no such group, an OSD that does not
    /// exist, or what 26 names.
    BadException,
    /// 20: the change is for another epoch than the current one, which it carries.
    StaleEpoch(u64),
    /// 21: an OSD that does not exist.
    UnknownOsd,
    /// 22: a reweight above 65,536.
    BadWeight,
    /// 23: no such pool.
    UnknownPool,
    /// 24: a pool comes whose id is there once the old pools are taken away.
    PoolExists,
    /// 25: a group's number is not below its pool's number of groups.
    UnknownGroup,
    /// 26, of the same name as 17: in a change an explicit set that is empty, longer than its pool's size or has an OSD
    /// twice; or pairs of which there are none, more than the pool's size, or one whose two sides are equal.
    BadNewException,
    /// 27: one key twice in one part of a change, or in both parts of a couple.
    DuplicatePart,
    /// 28: the journal has its capacity.
    JournalFull,
    /// 29: the pool's rule has more than one block.
    BalanceRule,
    /// 30: out of memory.
    Memory,
    /// 31: the seat has made all its draws.
    SeatSpent,
    /// 32: the epoch's cell did not take the change.
    NotSealed,
    /// 33: a line that is no command.
    BadCommand,
    /// 34: the epoch was not there in a million looks.
    AwaitSpent,
    /// 35: the store did not take the change, or has failed before.
    NotStored,
}

impl Refusal {
    ghost use Rattle.refusal.specs.Refusals.{number_of, name_of};

    /// The number: 10 to 17 in a text or a map, 20 to 35 in a change, a question or a line.
    pub fn number(&self) -> u8
        ensures { result ≡ number_of self.now }
    {
        match self {
            Refusal::BadJson => 10,
            Refusal::BadField => 11,
            Refusal::BadLimit => 12,
            Refusal::BadForest => 13,
            Refusal::BadRule => 14,
            Refusal::BadPool => 15,
            Refusal::BadOsd => 16,
            Refusal::BadException => 17,
            Refusal::StaleEpoch(_) => 20,
            Refusal::UnknownOsd => 21,
            Refusal::BadWeight => 22,
            Refusal::UnknownPool => 23,
            Refusal::PoolExists => 24,
            Refusal::UnknownGroup => 25,
            Refusal::BadNewException => 26,
            Refusal::DuplicatePart => 27,
            Refusal::JournalFull => 28,
            Refusal::BalanceRule => 29,
            Refusal::Memory => 30,
            Refusal::SeatSpent => 31,
            Refusal::NotSealed => 32,
            Refusal::BadCommand => 33,
            Refusal::AwaitSpent => 34,
            Refusal::NotStored => 35,
        }
    }

    /// The name, as answers and standard error tell it. 17 and 26 have one name.
    pub fn name(&self) -> &'static str
        ensures { result.now ≡ name_of self.now }
    {
        match self {
            Refusal::BadJson => "BadJson",
            Refusal::BadField => "BadField",
            Refusal::BadLimit => "BadLimit",
            Refusal::BadForest => "BadForest",
            Refusal::BadRule => "BadRule",
            Refusal::BadPool => "BadPool",
            Refusal::BadOsd => "BadOsd",
            Refusal::BadException | Refusal::BadNewException => "BadException",
            Refusal::StaleEpoch(_) => "StaleEpoch",
            Refusal::UnknownOsd => "UnknownOsd",
            Refusal::BadWeight => "BadWeight",
            Refusal::UnknownPool => "UnknownPool",
            Refusal::PoolExists => "PoolExists",
            Refusal::UnknownGroup => "UnknownGroup",
            Refusal::DuplicatePart => "DuplicatePart",
            Refusal::JournalFull => "JournalFull",
            Refusal::BalanceRule => "BalanceRule",
            Refusal::Memory => "Memory",
            Refusal::SeatSpent => "SeatSpent",
            Refusal::NotSealed => "NotSealed",
            Refusal::BadCommand => "BadCommand",
            Refusal::AwaitSpent => "AwaitSpent",
            Refusal::NotStored => "NotStored",
        }
    }
}

impl fmt::Display for Refusal {
    ghost use Rattle.std.specs.Prelude.{Some};
    ghost use Rattle.refusal.specs.Refusals.{name_of};

    ghost output = { λ refusal. Some (name_of refusal) };

    fn fmt<W: fmt::Write>(&self, f: &mut fmt::Formatter<W>) -> fmt::Result {
        f.write_str(self.name())
    }
}

impl From<Memory> for Refusal {
    ghost use Rattle.refusal.specs.declared.refused.Refusal.TheVariants.{Memory as OutOfMemory};

    ghost from_gives = { λ _ r. r ≡ OutOfMemory };

    fn from(_memory: Memory) -> Refusal {
        Refusal::Memory
    }
}

impl From<AllocError> for Refusal {
    ghost use Rattle.refusal.specs.declared.refused.Refusal.TheVariants.{Memory as OutOfMemory};

    ghost from_gives = { λ _ r. r ≡ OutOfMemory };

    fn from(_error: AllocError) -> Refusal {
        Refusal::Memory
    }
}

impl<T: Drop> From<AllocFailed<T>> for Refusal {
    ghost use Rattle.refusal.specs.declared.refused.Refusal.TheVariants.{Memory as OutOfMemory};

    ghost from_gives = { λ _ r. r ≡ OutOfMemory };

    fn from(_failed: AllocFailed<T>) -> Refusal {
        Refusal::Memory
    }
}
