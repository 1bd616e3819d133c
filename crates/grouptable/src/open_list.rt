//! The groups of one OSD while some come and go, by number upwards.

ghost use Rattle.std.specs.Prelude.{◌≡◌, [], IfOk, OnOk};
ghost use Rattle.grouptable.specs.Keys.{with_key, without_key};

use crate::group_list::GroupList;
use std::alloc::{AllocError, Global};
use std::marker::Model;

/// The old list and what changes in it, as one list: it is gone through once, as long as the groups that come and go
/// rise.
#[derive(Drop)]
pub struct OpenList<'a> {
    /// The groups up to the last change.
    merged: GroupList,
    /// What the old list has behind them.
    rest: &'a [u16],
}

impl<'a> Model for OpenList<'a> {
    ghost use Rattle.std.specs.Prelude.{ℕ, List, ◌++◌};
    ghost use Rattle.grouptable.specs.Keys.{AreRisingKeys};

    ghost Value = { List ℕ };

    ghost view = { λ l. l.merged ++ l.rest.now };

    ghost invariant = { λ l. AreRisingKeys (l.merged ++ l.rest.now) };
}

impl<'a> OpenList<'a> {
    /// The list without a group.
    pub fn new(alloc: Global) -> Self
        ensures { result ≡ [] }
    {
        OpenList {
            merged: GroupList::new(alloc),
            rest: &[],
        }
    }

    /// An old list, with room for one more group.
    pub fn over(alloc: Global, old: &'a GroupList) -> Result<Self, AllocError>
        ensures { IfOk result (λ l. l ≡ old.now) }
    {
        let rest = old.as_slice();
        Ok(OpenList {
            merged: GroupList::with_room(alloc, rest.len().saturating_add(1))?,
            rest,
        })
    }

    /// The list with the group in its place.
    pub fn add(&mut self, group: u16) -> Result<(), AllocError>
        ensures { OnOk result (self.new ≡ with_key group self.old) }
    {
        if let Err(at) = self.rest.binary_search(&group) {
            self.merged.append(&self.rest[..at])?;
            self.rest = &self.rest[at..];
            self.merged.add_mostly_last(group)?;
        }
        Ok(())
    }

    /// The list without the group.
    pub fn remove(&mut self, group: u16) -> Result<(), AllocError>
        ensures { OnOk result (self.new ≡ without_key group self.old) }
    {
        match self.rest.binary_search(&group) {
            Ok(at) => {
                self.merged.append(&self.rest[..at])?;
                self.rest = &self.rest[at + 1..];
            }
            Err(_) => self.merged.remove(group),
        }
        Ok(())
    }

    /// The list with all its groups in one piece.
    pub fn into_list(self) -> Result<GroupList, AllocError>
        ensures { IfOk result (λ l. l ≡ self.entry) }
    {
        let mut list = self.merged;
        list.append(self.rest)?;
        Ok(list)
    }
}
