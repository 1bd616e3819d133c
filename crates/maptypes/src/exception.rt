//! Exceptions: what is said of a group beside its pool's rule (Ceph, OSDMap.h: `pg_upmap`, `pg_upmap_items`).

ghost use Rattle.std.specs.Prelude.{◌≡◌};
ghost use Rattle.maptypes.specs.Exceptions.{says_soundly};
ghost use Rattle.keylist.specs.Keys.{is_distinct};

use crate::pg::Pg;
use crate::pool::Pool;
use crate::short::{Blank, Short};
use keylist::Keyed;

/// What is said of a group beside its pool's rule.
#[derive(Clone, Copy, Debug, PartialEq, Eq)]
pub struct Exception<E: Blank> {
    /// The group.
    pub pg: Pg,
    /// What is said of it, in order: at most 20 OSDs or pairs.
    pub entries: Short<E>,
}

/// The OSDs that stand in place of what the rule gives for a group: its explicit set.
pub type Explicit = Exception<u32>;

/// The pairs that act on a group's set in order.
pub type Items = Exception<Pair>;

/// A pair: one OSD goes to another. Each takes two bytes, since a map may have a pair for each of its groups.
#[derive(Clone, Copy, Debug, PartialEq, Eq)]
pub struct Pair {
    /// The OSD that goes: 0 to 4,095.
    pub from: u16,
    /// The OSD that comes in its place: 0 to 4,095.
    pub to: u16,
}

impl Blank for u32 {
    ghost use Rattle.std.specs.Prelude.{zero};

    ghost blank = { zero };

    fn blank() -> u32 {
        0
    }
}

impl Blank for Pair {
    ghost use Rattle.maptypes.specs.Exceptions.{blank_pair};

    ghost blank = { blank_pair };

    fn blank() -> Pair {
        Pair { from: 0, to: 0 }
    }
}

impl<E: Blank> Keyed for Exception<E> {
    ghost use Rattle.maptypes.specs.Exceptions.{pg_key};

    ghost key_of = { λ e. pg_key e.pg };

    fn key(&self) -> u64 {
        self.pg.key()
    }
}

/// What names a group.
pub trait NamesGroup {
    ghost use Rattle.std.specs.Prelude.{◌≡◌};
    ghost use Rattle.maptypes.specs.declared.pg.Pg.{Pg};

    ghost named: { Self → Pg };

    /// The group.
    fn group(&self) -> Pg
        ensures { result ≡ named self.now };
}

impl NamesGroup for Pg {
    ghost named = { λ pg. pg };

    fn group(&self) -> Pg {
        *self
    }
}

impl<E: Blank> NamesGroup for Exception<E> {
    ghost named = { λ e. e.pg };

    fn group(&self) -> Pg {
        self.pg
    }
}

/// What an exception says of its group, entry by entry.
pub trait Entry: Blank {
    ghost use Rattle.std.specs.Prelude.{◌≡◌, ℕ, List, Bool};
    ghost use Rattle.maptypes.specs.Exceptions.{one_or_two};

    ghost names: { Self → List ℕ };

    ghost sound: { List Self → Bool };

    /// The OSDs that the entry names: one, or two.
    fn named_osds(&self) -> (u32, Option<u32>)
        ensures { names self.now ≡ one_or_two result.0 result.1 };

    /// Whether entries are sound together.
    fn are_sound(entries: &[Self]) -> bool
        ensures { result ≡ sound entries.now };
}

/// Whether no OSD stands twice among a few.
#[tactic(auto, unfolding(keylist::specs::Keys::is_distinct))]
fn are_distinct(osds: &[u32]) -> bool
    ensures { result ≡ is_distinct osds.now }
{
    match osds {
        [] => true,
        [osd, rest @ ..] => !rest.contains(osd) && are_distinct(rest),
    }
}

impl Entry for u32 {
    ghost use Rattle.maptypes.specs.Exceptions.{target, is_set};

    ghost names = { target };

    ghost sound = { is_set };

    fn named_osds(&self) -> (u32, Option<u32>) {
        (*self, None)
    }

    fn are_sound(entries: &[u32]) -> bool {
        are_distinct(entries)
    }
}

impl Entry for Pair {
    ghost use Rattle.maptypes.specs.Exceptions.{sides, are_pairs};

    ghost names = { sides };

    ghost sound = { are_pairs };

    fn named_osds(&self) -> (u32, Option<u32>) {
        (u32::from(self.from), Some(u32::from(self.to)))
    }

    fn are_sound(entries: &[Pair]) -> bool {
        entries.iter().all(|pair| pair.from != pair.to)
    }
}

impl<E: Entry> Exception<E> {
    /// Whether the exception says something, no more than the size of its pool, and that soundly: an explicit set names
    /// no OSD twice, and the sides of a pair differ.
    pub fn is_sound(&self, pool: &Pool) -> bool
        ensures { result ≡ says_soundly E.sound pool.now self.now }
    {
        let entries = self.entries.as_slice();
        0 < entries.len() && entries.len() <= usize::from(pool.size()) && E::are_sound(entries)
    }
}
