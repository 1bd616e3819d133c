//! What a command does with the exceptions of a group (Ceph, MonCommands.h: `osd pg-upmap`, `osd rm-pg-upmap`,
//! `osd pg-upmap-items`, `osd rm-pg-upmap-items`).

ghost use Rattle.std.specs.Prelude.{◌≡◌, ◌∷◌, [], IfOk};
ghost use Rattle.verdict.specs.Orders.{group_of_order, change_of_order};

use keylist::Entries;
use mapparts::Profile;
use maptypes::{Change, ChangeParts, Explicit, Items, Pg};
use refusal::Memory;
use std::alloc::{AllocError, Global};

/// What a command does with the exceptions of a group.
#[derive(Clone, Copy, Debug)]
pub enum Order {
    /// An explicit set comes, in place of the one that the group has: `ceph osd pg-upmap PG OSD ..`.
    SetPlaces(Explicit),
    /// The explicit set goes: `ceph osd rm-pg-upmap PG`.
    DropPlaces(Pg),
    /// Pairs come, in place of those that the group has: `ceph osd pg-upmap-items PG FROM TO ..`.
    SetPairs(Items),
    /// The pairs go: `ceph osd rm-pg-upmap-items PG`.
    DropPairs(Pg),
}

/// A list of one entry.
fn one<T: Drop>(alloc: Global, entry: T) -> Result<Entries<T>, AllocError>
    ensures { IfOk result (λ entries. entries ≡ entry ∷ []) }
{
    let mut list = Vec::with_capacity(alloc, 1)?;
    list.push(entry)?;
    Ok(Entries::new(list))
}

impl Order {
    /// The group.
    pub fn group(&self) -> Pg
        ensures { result ≡ group_of_order self.now }
    {
        match self {
            Order::SetPlaces(explicit) => explicit.pg,
            Order::DropPlaces(pg) => *pg,
            Order::SetPairs(items) => items.pg,
            Order::DropPairs(pg) => *pg,
        }
    }

    /// The parts of the change that it is.
    fn parts(&self, alloc: Global, profile: Profile) -> Result<ChangeParts, AllocError>
        ensures { IfOk result (λ parts. parts ≡ change_of_order profile self.now) }
    {
        let mut parts = ChangeParts::none(alloc, profile);
        match self {
            Order::SetPlaces(explicit) => parts.explicit.come = one(alloc, *explicit)?,
            Order::DropPlaces(pg) => parts.explicit.gone = one(alloc, *pg)?,
            Order::SetPairs(items) => parts.items.come = one(alloc, *items)?,
            Order::DropPairs(pg) => parts.items.gone = one(alloc, *pg)?,
        }
        Ok(parts)
    }

    /// The change that it is, by the limits of a profile.
    pub(crate) fn change(&self, alloc: Global, profile: Profile) -> Result<Change, Memory>
        ensures { IfOk result (λ change. change ≡ change_of_order profile self.now) }
    {
        let parts = self.parts(alloc, profile)?;
        let change = Change::new(parts)?;
        Ok(change)
    }
}
