//! Where a map places the groups of its pools (Ceph, OSDMap.cc).

use crate::map::OsdMap;
use crate::placing::GroupSets;
use crush::Work;
use maptypes::{Pair, Pg, Pool, UpSet};
use refusal::Refusal;

impl OsdMap {
    ghost use Rattle.std.specs.Prelude.{◌≡◌, ◌≤◌, true, length, Some, None, IfSome, MatchResult};
    ghost use Rattle.std.specs.Option.{option_copied};
    ghost use Rattle.refusal.specs.Outcomes.{Gives};
    ghost use Rattle.osdmap.specs.Maps.{pool_at, has_rule};
    ghost use Rattle.osdmap.specs.Placement.{group_fault, raw_set, mapped_with, mapped_set, up_set, IsPlacedBy, RunsOnce};

    /// The pool of a group that is there: else `UnknownPool` (23), `UnknownGroup` (25).
    fn pool_of(&self, pg: Pg) -> Result<Pool, Refusal>
        ensures { MatchResult result (λ pool. (group_fault self.now.map pg ≡ None)
            × (pool_at self.now.map.pools pg.pool ≡ Some pool) × (has_rule self.now.map.rules pool ≡ true))
            (λ e. group_fault self.now.map pg ≡ Some e) }
    {
        let _ = &self.pools;
        let pool = self.pool(pg.pool).ok_or(Refusal::UnknownPool)?;
        if pg.number < pool.pg_num() {
            Ok(pool)
        } else {
            Err(Refusal::UnknownGroup)
        }
    }

    /// The raw set of a group: the OSDs that its pool's rule places and that exist (Ceph, `_pg_to_raw_osds`). It takes
    /// one run of the rule, which `work` counts.
    ///
    /// # Errors
    ///
    /// `UnknownPool` (23) where the map has no such pool; else `UnknownGroup` (25) where the pool has no such group;
    /// else `Memory` (30) where there is no memory for the run. No run is counted then.
    pub fn raw_of(&self, pg: Pg, work: &mut Work) -> Result<UpSet, Refusal>
        ensures set { Gives result (group_fault self.now.map pg) (λ set. IsPlacedBy raw_set self.now.map pg set) }
        ensures run { RunsOnce work.old work.new result }
    {
        let pool = self.pool_of(pg)?;
        Ok(self.placing_in(&pool).raw_set(pg.number, work)?)
    }

    /// The mapped set of a group: its raw set under its exceptions (Ceph, `_apply_upmap`). Where one of the OSDs of its
    /// explicit set has reweight 0, neither that set nor its pairs act. It takes one run of the rule, which `work`
    /// counts.
    ///
    /// # Errors
    ///
    /// Those of [`OsdMap::raw_of`].
    pub fn mapped_of(&self, pg: Pg, work: &mut Work) -> Result<UpSet, Refusal>
        ensures set { Gives result (group_fault self.now.map pg) (λ set. IsPlacedBy mapped_set self.now.map pg set) }
        ensures run { RunsOnce work.old work.new result }
    {
        let pool = self.pool_of(pg)?;
        Ok(self.placing_in(&pool).mapped_set(pg.number, work)?)
    }

    /// The raw set and the mapped set of a group, by one run of the rule, which `work` counts.
    ///
    /// # Errors
    ///
    /// Those of [`OsdMap::raw_of`].
    pub fn sets_of(&self, pg: Pg, work: &mut Work) -> Result<GroupSets, Refusal>
        ensures raw { Gives result (group_fault self.now.map pg)
            (λ sets. IsPlacedBy raw_set self.now.map pg sets.raw) }
        ensures mapped { Gives result (group_fault self.now.map pg)
            (λ sets. IsPlacedBy mapped_set self.now.map pg sets.mapped) }
        ensures run { RunsOnce work.old work.new result }
    {
        let pool = self.pool_of(pg)?;
        Ok(self.placing_in(&pool).sets(pg.number, work)?)
    }

    /// The mapped set that a group would have if an explicit set and pairs were its exceptions, in place of those that
    /// the map has. Like its own it takes one run of the rule, which `work` counts.
    ///
    /// # Errors
    ///
    /// Those of [`OsdMap::raw_of`].
    pub fn mapped_with(
        &self,
        pg: Pg,
        explicit: Option<&[u32]>,
        items: Option<&[Pair]>,
        work: &mut Work,
    ) -> Result<UpSet, Refusal>
        requires { IfSome explicit (λ osds. length osds.now ≤ 20) }
        ensures set { Gives result (group_fault self.now.map pg)
            (λ set. IsPlacedBy (mapped_with (option_copied explicit.entry)
            (option_copied items.entry)) self.now.map pg set) }
        ensures run { RunsOnce work.old work.new result }
    {
        let pool = self.pool_of(pg)?;
        let raw = self.placing_in(&pool).raw_set(pg.number, work)?;
        Ok(self.with_exceptions(raw, explicit, items))
    }

    /// The up set of a group: its mapped set without OSDs that are down (Ceph, `_raw_to_up_osds`). It takes one run of
    /// the rule, which `work` counts.
    ///
    /// # Errors
    ///
    /// `UnknownPool` (23) where the map has no such pool; else `UnknownGroup` (25) where the pool has no such group;
    /// else `Memory` (30) where there is no memory for the run. No run is counted then.
    #[tactic(auto, unfolding(crate::specs::Placement::up_set))]
    pub fn up_of(&self, pg: Pg, work: &mut Work) -> Result<UpSet, Refusal>
        ensures set { Gives result (group_fault self.now.map pg) (λ set. IsPlacedBy up_set self.now.map pg set) }
        ensures run { RunsOnce work.old work.new result }
    {
        let pool = self.pool_of(pg)?;
        let mapped = self.placing_in(&pool).mapped_set(pg.number, work)?;
        Ok(self.set_of_up(&pool, &mapped))
    }
}
