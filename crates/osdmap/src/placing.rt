//! What places the groups of one pool of a map: its rule, and the mask that folds their numbers.

ghost use Rattle.std.specs.Prelude.{◌≡◌, ◌<◌, ◌≤◌, Some};
ghost use Rattle.maptypes.specs.CrushMaps.{rule_at};
ghost use Rattle.mapparts.specs.Limits.{max_groups};
ghost use Rattle.osdmap.specs.Placement.{mask_of, stable_mod};

use crate::map::OsdMap;
use crush::{Placement, Rule, Work};
use maptypes::{Pg, Pool, UpSet};
use refusal::Memory;
use rjenkins::hash2;

/// The mask of a count: the least number that is one less than a power of two and at least `count - 1`.
fn mask(count: u32) -> u32
    requires some { 0 < count }
    requires few { count ≤ max_groups }
    ensures { result ≡ mask_of count }
{
    count.next_power_of_two() - 1
}

/// A number folded into the numbers below `count`, by the mask of `count` (Ceph, `ceph_stable_mod`).
#[tactic(auto, unfolding(crate::specs::Placement::stable_mod))]
pub fn stable_mod(number: u32, count: u32, mask: u32) -> u32
    ensures value { result ≡ stable_mod number count mask }
    ensures below { 0 < count → mask ≡ mask_of count → result < count }
{
    if number & mask < count {
        number & mask
    } else {
        number & (mask >> 1)
    }
}

/// A pool of a map, and what places each of its groups: its rule, and the mask that folds their numbers.
#[derive(Clone, Copy)]
pub struct Placing<'a> {
    /// The map.
    pub map: &'a OsdMap,
    /// The pool.
    pub pool: Pool,
    rule: &'a Rule,
    mask: u32,
    ghost ruled: { rule_at map.now.map.rules pool.rule ≡ Some rule.now },
    ghost folds: { mask ≡ mask_of pool.pgp_num },
}

/// The raw set of a group, and its mapped set.
#[derive(Clone, Copy, Debug)]
pub struct GroupSets {
    /// What the rule gives: the OSDs that exist.
    pub raw: UpSet,
    /// The raw set under the exceptions of the group.
    pub mapped: UpSet,
}

impl Placing<'_> {
    ghost use Rattle.std.specs.Prelude.{◌≡◌, IfOk};
    ghost use Rattle.osdmap.specs.Placement.{placement_input, raw_set, mapped_set, RunsOnce};

    /// The input with which the rule places the group of a number (Ceph, `raw_pg_to_pps` with `hashpspool`).
    #[tactic(auto, unfolding(crate::specs::Placement::placement_input))]
    fn input(&self, number: u32) -> u32
        ensures { result ≡ placement_input self.now.pool number }
    {
        hash2(
            stable_mod(number, self.pool.pgp_num(), self.mask),
            self.pool.id(),
        )
    }

    /// The raw set of the group of a number.
    #[tactic(auto, unfolding(crate::specs::Placement::raw_set, crate::specs::Placement::placed_devices))]
    pub(crate) fn raw_set(&self, number: u32, work: &mut Work) -> Result<UpSet, Memory>
        ensures set { IfOk result (λ set. set ≡ raw_set self.now.map.now.map self.now.pool number) }
        ensures run { RunsOnce work.old work.new result }
    {
        let map = self.map;
        let placement = Placement {
            forest: map.forest(),
            weights: &map.weights,
            x: self.input(number),
        };
        self.rule.run(&placement, self.pool.size(), work)?;
        Ok(map.set_of_existing(&self.pool, work.result()))
    }

    /// The mapped set of the group of a number, by one run of the rule, which `work` counts, also where its set is not
    /// wanted.
    ///
    /// # Errors
    ///
    /// `Memory` (30) where there is no memory for the run, which is not counted then.
    #[tactic(auto, unfolding(crate::specs::Placement::mapped_set, crate::specs::Mapped::with_exceptions))]
    pub fn mapped_set(&self, number: u32, work: &mut Work) -> Result<UpSet, Memory>
        ensures set { IfOk result (λ set. set ≡ mapped_set self.now.map.now.map self.now.pool number) }
        ensures run { RunsOnce work.old work.new result }
    {
        let map = self.map;
        let pg = Pg {
            pool: self.pool.id(),
            number,
        };
        match (map.explicit(pg), map.items(pg)) {
            (None, None) => self.raw_set(number, work),
            (explicit, items) => {
                let raw = self.raw_set(number, work)?;
                Ok(map.with_exceptions(raw, explicit, items))
            }
        }
    }

    /// The raw set and the mapped set of the group of a number, by one run of the rule.
    #[tactic(auto, unfolding(crate::specs::Placement::mapped_set))]
    pub(crate) fn sets(&self, number: u32, work: &mut Work) -> Result<GroupSets, Memory>
        ensures raw { IfOk result (λ sets. sets.raw ≡ raw_set self.now.map.now.map self.now.pool number) }
        ensures mapped { IfOk result (λ sets. sets.mapped ≡ mapped_set self.now.map.now.map self.now.pool number) }
        ensures run { RunsOnce work.old work.new result }
    {
        let map = self.map;
        let pg = Pg {
            pool: self.pool.id(),
            number,
        };
        let raw = self.raw_set(number, work)?;
        let mapped = map.with_exceptions(raw, map.explicit(pg), map.items(pg));
        Ok(GroupSets { raw, mapped })
    }
}

impl OsdMap {
    ghost use Rattle.std.specs.Prelude.{◌≡◌, true, Some};
    ghost use Rattle.osdmap.specs.Maps.{pool_at, has_rule};

    /// What places the groups of a pool that has a rule.
    pub(crate) fn placing_in(&self, pool: &Pool) -> Placing<'_>
        requires { has_rule self.now.map.rules pool.now ≡ true }
        ensures map { result.map.now ≡ self.now }
        ensures pool { result.pool ≡ pool.now }
    {
        let rule = self.rule(pool.rule()).unwrap();
        pool.is_within_limits();
        let mask = mask(pool.pgp_num());
        Placing {
            map: self,
            pool: *pool,
            rule,
            mask,
        }
    }

    /// What places the groups of a pool of the map.
    pub fn placing(&self, pool: &Pool) -> Placing<'_>
        requires { pool_at self.now.map.pools pool.now.id ≡ Some pool.now }
        ensures map { result.map.now ≡ self.now }
        ensures pool { result.pool ≡ pool.now }
    {
        self.holds_together();
        self.placing_in(pool)
    }
}
