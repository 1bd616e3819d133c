//! An index that is being changed in many groups, by number upwards: fresh lists, each of which is gone through once.

ghost use Rattle.std.specs.Prelude.{◌≡◌, IfOk};
ghost use Rattle.grouptable.specs.Lists.{osd_list};

use crate::draft::Exchange;
use crate::group_list::GroupList;
use crate::open_list::OpenList;
use crate::osd_set::{holds, osd_in};
use indexmap::IndexMap;
use std::alloc::{AllocError, Global};
use std::marker::Model;

/// Fresh lists by their OSD.
#[derive(Drop)]
pub struct Merge<'a> {
    fresh: IndexMap<u32, OpenList<'a>>,
}

impl<'a> Model for Merge<'a> {
    ghost use Rattle.std.specs.Prelude.{ℕ, List};
    ghost use Rattle.buckets.specs.Limits.{max_devices};
    ghost use Rattle.grouptable.specs.Sets.{KeysBelow};

    ghost Value = { List (ℕ × List ℕ) };

    ghost view = { λ d. d.fresh.entries };

    ghost invariant = { λ d. KeysBelow max_devices d.fresh.entries };
}

impl<'a> Merge<'a> {
    ghost use Rattle.std.specs.Prelude.{◌≡◌, ◌<◌, ◌==◌, ℕ, [], length, cond, nat_eq, IfSome, IfOk, OnOk};
    ghost use Rattle.std.specs.Map.{lookup};
    ghost use Rattle.buckets.specs.Limits.{max_devices};
    ghost use Rattle.grouptable.specs.Keys.{with_key, without_key};
    ghost use Rattle.grouptable.specs.Sets.{after_leaving, after_joining, stands_at, KeysBelow};
    ghost use Rattle.grouptable.specs.Indexes.{IsRedrawn};
    ghost use Rattle.maptypes.specs.Sets.{is_of};

    /// The index with no fresh list.
    pub fn new(alloc: Global) -> Self
        ensures { result ≡ [] }
    {
        Merge {
            fresh: IndexMap::new(alloc),
        }
    }

    /// Adds the group to the list of the OSD.
    fn add(
        &mut self,
        alloc: Global,
        index: &'a [GroupList],
        osd: u32,
        group: u16,
    ) -> Result<(), AllocError>
        requires within { osd < max_devices }
        ensures lists { OnOk result (IsRedrawn (λ k groups. cond (osd == k) (with_key group groups) groups)
            index.now self.old self.new) }
    {
        if let Some(list) = self.fresh.get_mut(&osd) {
            return list.add(group);
        }
        let mut list = open(alloc, index, osd)?;
        list.add(group)?;
        self.fresh.insert(osd, list)?;
        Ok(())
    }

    /// Removes the group from the list of the OSD.
    fn remove(
        &mut self,
        alloc: Global,
        index: &'a [GroupList],
        osd: u32,
        group: u16,
    ) -> Result<(), AllocError>
        requires within { osd < max_devices }
        ensures lists { OnOk result (IsRedrawn (λ k groups. cond (osd == k) (without_key group groups) groups)
            index.now self.old self.new) }
    {
        if let Some(list) = self.fresh.get_mut(&osd) {
            return list.remove(group);
        }
        let mut list = open(alloc, index, osd)?;
        list.remove(group)?;
        self.fresh.insert(osd, list)?;
        Ok(())
    }

    /// The OSD of one place leaves the group, unless it stands in the new set.
    fn leave_one(
        &mut self,
        alloc: Global,
        exchange: &Exchange<'a>,
        place: Option<u16>,
    ) -> Result<(), AllocError>
        requires small { IfSome place (λ osd. osd < max_devices) }
        ensures lists { OnOk result (IsRedrawn (λ k. after_leaving (is_of k place) (stands_at k exchange.now.after.now)
            exchange.now.group) exchange.now.index.now self.old self.new) }
    {
        if let Some(osd) = place {
            if !holds(exchange.after, osd) {
                return self.remove(alloc, exchange.index, u32::from(osd), exchange.group);
            }
        }
        Ok(())
    }

    /// The OSD of one place joins the group, unless it stood in the old set.
    fn join_one(
        &mut self,
        alloc: Global,
        exchange: &Exchange<'a>,
        place: Option<u16>,
    ) -> Result<(), AllocError>
        requires small { IfSome place (λ osd. osd < max_devices) }
        ensures lists { OnOk result (IsRedrawn (λ k. after_joining (stands_at k exchange.now.before.now) (is_of k place)
            exchange.now.group) exchange.now.index.now self.old self.new) }
    {
        if let Some(osd) = place {
            if !holds(exchange.before, osd) {
                return self.add(alloc, exchange.index, u32::from(osd), exchange.group);
            }
        }
        Ok(())
    }

    /// Each OSD of the old set leaves the group, unless it stands in the new one.
    pub fn leave(&mut self, alloc: Global, exchange: &Exchange<'a>) -> Result<(), AllocError>
        ensures lists { OnOk result (IsRedrawn (λ k. after_leaving (stands_at k exchange.now.before.now)
            (stands_at k exchange.now.after.now) exchange.now.group) exchange.now.index.now self.old self.new) }
    {
        for i in 0..exchange.before.len() {
            self.leave_one(alloc, exchange, osd_in(exchange.before, i))?;
        }
        Ok(())
    }

    /// Each OSD of the new set joins the group, unless it stood in the old one.
    pub fn join(&mut self, alloc: Global, exchange: &Exchange<'a>) -> Result<(), AllocError>
        ensures lists { OnOk result (IsRedrawn (λ k. after_joining (stands_at k exchange.now.before.now)
            (stands_at k exchange.now.after.now) exchange.now.group) exchange.now.index.now self.old self.new) }
    {
        for i in 0..exchange.after.len() {
            self.join_one(alloc, exchange, osd_in(exchange.after, i))?;
        }
        Ok(())
    }

    /// The fresh lists.
    pub fn into_lists(self, alloc: Global) -> Result<IndexMap<u32, GroupList>, AllocError>
        ensures lists { IfOk result (λ lists. (osd : ℕ) →
            lookup (nat_eq osd) lists.entries ≡ lookup (nat_eq osd) self.entry) }
        ensures within { KeysBelow max_devices self.entry }
    {
        let mut fresh = self.fresh;
        let mut lists = IndexMap::with_capacity(alloc, fresh.len())?;
        while let Some((osd, list)) = fresh.pop() {
            lists.insert(osd, list.into_list()?)?;
        }
        Ok(lists)
    }
}

/// The list of an OSD, to be changed.
fn open<'a>(alloc: Global, index: &'a [GroupList], osd: u32) -> Result<OpenList<'a>, AllocError>
    ensures { IfOk result (λ list. list ≡ osd_list index.now osd) }
{
    match index.get(osd as usize) {
        Some(list) => OpenList::over(alloc, list),
        None => Ok(OpenList::new(alloc)),
    }
}
