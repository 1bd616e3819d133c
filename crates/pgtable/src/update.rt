//! A change of a map, and which pools it touches as a whole. The source of the sets after it is the map after it; where
//! it leaves all raw sets, the map before it serves as well, and the map after it need not be made.

ghost use Rattle.std.specs.Prelude.{◌≡◌, Some, None};
ghost use Rattle.osdmap.specs.Evals.{reaches_reweighted, is_touched};
ghost use Rattle.osdmap.specs.Changes.{change_fault};
ghost use Rattle.pgtable.specs.Candidates.{IsCandidates};
ghost use Rattle.pgtable.specs.Patches.{LeadsFrom, IsSource, changed_map};

use crate::candidates::candidates;
use maptypes::{Change, Pg, Pool};
use osdmap::OsdMap;
use refusal::Memory;
use std::alloc::Global;

/// A map, a change that it does not refuse, and the source of the sets after the change.
#[derive(Drop)]
pub(crate) struct Update<'a> {
    pub before: &'a OsdMap,
    pub change: &'a Change,
    pub source: &'a OsdMap,
    /// Whether the source is the map after the change; else it is the one before it.
    pub is_after: bool,
    /// Among these groups are all whose exceptions the change concerns.
    pub groups: Vec<Pg>,
    ghost leads: { LeadsFrom before.now.map change.now (changed_map before.now.map change.now) },
    ghost is_source: { IsSource before.now.map change.now source.now.map is_after },
    ghost candidates: { IsCandidates source.now.map change.now groups.items },
}

/// Whether the rule of a pool of a map reaches an OSD that gets another reweight.
#[tactic(auto, unfolding(osdmap::specs::Evals::reaches_reweighted))]
fn reaches(map: &OsdMap, change: &Change, pool: &Pool) -> bool
    ensures { result ≡ reaches_reweighted map.now.map change.now pool.now }
{
    match map.rule(pool.rule()) {
        Some(rule) => change
            .parts()
            .weights
            .iter()
            .any(|reweight| rule.reaches(map.forest(), reweight.osd)),
        None => false,
    }
}

/// Whether all groups of a pool of the map after a change may be placed otherwise: the change makes the pool anew, or
/// its rule reaches an OSD that got another reweight.
#[tactic(auto, unfolding(osdmap::specs::Evals::is_touched))]
fn touches(after: &OsdMap, change: &Change, pool: &Pool) -> bool
    ensures { result ≡ is_touched after.now.map change.now pool.now }
{
    change.renews(pool.id()) || reaches(after, change, pool)
}

impl<'a> Update<'a> {
    ghost use Rattle.std.specs.Prelude.{◌≡◌, None, IfOk};
    ghost use Rattle.osdmap.specs.Changes.{change_fault};
    ghost use Rattle.pgtable.specs.Patches.{IsSource};

    /// A change that a map does not refuse, by a source of the sets after it; or `Memory` (30).
    #[inline(always)]
    pub fn new(
        alloc: Global,
        before: &'a OsdMap,
        change: &'a Change,
        source: &'a OsdMap,
        is_after: bool,
    ) -> Result<Update<'a>, Memory>
        requires lawful { change_fault before.now.map change.now ≡ None }
        requires is_source { IsSource before.now.map change.now source.now.map is_after }
        ensures before { IfOk result (λ u. u.before.now.map ≡ before.now.map) }
        ensures change { IfOk result (λ u. u.change.now ≡ change.now) }
    {
        before.holds_together();
        let _ = change.parts();
        let groups = candidates(alloc, before, change, source)?;
        Ok(Update {
            before,
            change,
            source,
            is_after,
            groups,
        })
    }
}

impl Update<'_> {
    ghost use Rattle.std.specs.Prelude.{◌≡◌, true, IfOk};
    ghost use Rattle.pgtable.specs.After.{map_after, is_touched_by, touched_pools};
    ghost use Rattle.pgtable.specs.Candidates.{IsCandidates};
    ghost use Rattle.maptypes.specs.Named.{is_empty};
    ghost use Rattle.pgtable.specs.Patches.{LeadsFrom, IsSource};

    /// What holds of the change and of the source: for proofs alone.
    pub fn holds(&self)
        ensures leads { LeadsFrom self.now.before.now.map self.now.change.now (map_after self.now) }
        ensures is_source { IsSource self.now.before.now.map self.now.change.now self.now.source.now.map
            self.now.is_after }
        ensures candidates { IsCandidates self.now.source.now.map self.now.change.now self.now.groups.items }
    {
        let _ = &self.groups;
    }

    /// Whether there is no group whose exceptions the change can concern.
    pub fn is_idle(&self) -> bool
        ensures { result ≡ is_empty self.now.groups.items }
    {
        matches!(self.groups.as_slice(), [])
    }

    /// Whether all groups of a pool of the map after the change may be placed otherwise. Then that map is the source.
    pub fn is_touched(&self, pool: &Pool) -> bool
        ensures value { result ≡ is_touched_by self.now pool.now }
        ensures source { result ≡ true → self.now.source.now.map ≡ map_after self.now }
    {
        self.holds();
        self.is_after && touches(self.source, self.change, pool)
    }

    /// The pools of the map after the change that it touches as a whole, the last one first; or `Memory` (30).
    pub fn touched_pools(&self, alloc: Global) -> Result<Vec<Pool>, Memory>
        requires { self.now.is_after ≡ true }
        ensures { IfOk result (λ pools. pools.items ≡ touched_pools self.now) }
    {
        self.holds();
        let pools = self.source.pools();
        let mut touched = Vec::new(alloc);
        for at in (0..pools.len()).rev() {
            if self.is_touched(&pools[at]) {
                touched.push(pools[at])?;
            }
        }
        Ok(touched)
    }
}
