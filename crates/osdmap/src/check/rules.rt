//! The rules of the pools that stay and come, how many these are, and what they grow to: `BadPool` (15).

ghost use Rattle.std.specs.Prelude.{◌≡◌};
ghost use Rattle.std.specs.List.{list_all};
ghost use Rattle.std.specs.List.Sorted.{IsNonDecreasingBy};
ghost use Rattle.std.specs.Prelude.{◌<◌, ◌^◌, map};
ghost use Rattle.maptypes.specs.Growth.{with_growths};
ghost use Rattle.maptypes.specs.Pools.{total_groups};
ghost use Rattle.osdmap.specs.Maps.{has_rule};

use crate::build::has_rule;
use crate::in_place::with_growths;
use crate::map::OsdMap;
use keylist::{are_distinct, has, put_count};
use mapparts::limits::MAX_TOTAL_GROUPS;
use maptypes::{Change, Grow, NumberedRule, Pool};

/// Whether each of some pools has a rule of its kind among some.
fn have_rules(pools: &[Pool], rules: &[NumberedRule]) -> bool
    ensures { result ≡ list_all (has_rule rules.now) pools.now }
{
    pools.iter().all(|pool| has_rule(rules, *pool))
}

/// How many groups some pools have together once they have grown.
fn total_groups(pools: &[Pool], growths: &[Grow]) -> u128
    requires { IsNonDecreasingBy (λ g. g.pool) growths.now }
    ensures total { result ≡ total_groups (map (with_growths growths.now) pools.now) }
    ensures small { result < 2 ^ 100 }
{
    let mut total: u128 = 0;
    for pool in pools {
        total += u128::from(with_growths(growths, *pool).pg_num());
    }
    total
}

impl OsdMap {
    ghost use Rattle.std.specs.Prelude.{◌≡◌, ◌<◌, ◌^◌, true, length, nat_le, map};
    ghost use Rattle.maptypes.specs.Growth.{with_growths};
    ghost use Rattle.maptypes.specs.Pools.{total_groups};
    ghost use Rattle.std.specs.List.{list_all};
    ghost use Rattle.mapparts.specs.Profiles.{most_pools};
    ghost use Rattle.osdmap.specs.Maps.{has_rule};
    ghost use Rattle.osdmap.specs.Changes.{pools_kept, pools_there, rules_after, brings_new, grows_from, leaves_few_groups, brings_rightly};

    /// The rules after a change.
    fn rules_after<'a>(&'a self, change: &'a Change) -> &'a [NumberedRule]
        ensures { result.now ≡ rules_after self.now.map change.now }
    {
        match &change.parts().crush {
            Some(crush) => crush.rules(),
            None => self.crush.rules(),
        }
    }

    /// Whether each pool that stays has a rule of its kind among some.
    fn keep_rules(&self, change: &Change, rules: &[NumberedRule]) -> bool
        ensures { result ≡ list_all (has_rule rules.now) (pools_kept self.now.map change.now) }
    {
        let old: &[u32] = &change.parts().pools.gone;
        self.pools
            .iter()
            .filter(|pool| !has(old, u64::from(pool.id())))
            .all(|pool| has_rule(rules, *pool))
    }

    /// Whether each pool that stays has a rule of its kind after a change: as before, where the rules stay.
    fn rules_kept(&self, change: &Change) -> bool
        ensures { result
            ≡ list_all (has_rule (rules_after self.now.map change.now)) (pools_kept self.now.map change.now) }
    {
        match &change.parts().crush {
            Some(crush) => self.keep_rules(change, crush.rules()),
            None => {
                self.holds_together();
                true
            }
        }
    }

    /// Whether a pool gets no fewer groups than it has once the old pools went and the new ones came.
    #[tactic(auto, unfolding(crate::specs::Changes::grows_from))]
    fn grows(&self, change: &Change, growth: &Grow) -> bool
        ensures { result ≡ grows_from (pools_there self.now.map change.now) growth.now }
    {
        match self.pool_there(change, growth.pool()) {
            Some(pool) => pool.pg_num() <= growth.pg_num() && pool.pgp_num() <= growth.pgp_num(),
            None => false,
        }
    }

    /// Whether no pool gets fewer groups.
    fn all_grow(&self, change: &Change) -> bool
        ensures { result ≡ list_all (grows_from (pools_there self.now.map change.now)) change.now.pools.grow }
    {
        let growths: &[Grow] = &change.parts().pools.grow;
        growths.iter().all(|growth| self.grows(change, growth))
    }

    /// How many pools stay, where some go.
    fn count_left(&self, change: &Change) -> usize
        ensures { result ≡ length (pools_kept self.now.map change.now) }
    {
        let old: &[u32] = &change.parts().pools.gone;
        self.pools
            .iter()
            .filter(|pool| !has(old, u64::from(pool.id())))
            .count()
    }

    /// How many pools stay: all, where none goes.
    fn count_kept(&self, change: &Change) -> usize
        ensures { result ≡ length (pools_kept self.now.map change.now) }
    {
        if change.parts().pools.gone.is_empty() {
            self.pools().len()
        } else {
            self.count_left(change)
        }
    }

    /// Whether there are no more pools than the profile allows once the old ones went and the new ones came.
    fn are_few(&self, change: &Change) -> bool
        requires { brings_new self.now.map change.now ≡ true }
        ensures { result ≡ nat_le (length (pools_there self.now.map change.now)) (most_pools change.now.profile) }
    {
        let _ = &self.pools;
        let new: &[Pool] = &change.parts().pools.come;
        let most = change.parts().profile.most_pools();
        let kept = self.count_kept(change);
        kept <= most && put_count(&[], new) <= most - kept
    }

    /// How many groups the pools that stay have after a change.
    #[tactic(auto, unfolding(crate::specs::Changes::pools_kept))]
    fn groups_kept(&self, change: &Change) -> u128
        ensures total { result ≡ total_groups (map (with_growths change.now.pools.grow)
            (pools_kept self.now.map change.now)) }
        ensures small { result < 2 ^ 100 }
    {
        let parts = change.parts();
        let old: &[u32] = &parts.pools.gone;
        let pools: &[Pool] = &self.pools;
        let mut total: u128 = 0;
        for pool in pools {
            if !has(old, u64::from(pool.id())) {
                total += u128::from(with_growths(&parts.pools.grow, *pool).pg_num());
            }
        }
        total
    }

    /// Whether all pools have at most 1,048,576 groups after a change, where no pool comes twice.
    #[tactic(auto, using(crate::proofs::GroupTotals::total_after), unfolding(crate::specs::Changes::leaves_few_groups))]
    fn leaves_few_groups(&self, change: &Change) -> bool
        requires { brings_new self.now.map change.now ≡ true }
        ensures { result ≡ leaves_few_groups self.now.map change.now }
    {
        let _ = &self.pools;
        let new: &[Pool] = &change.parts().pools.come;
        let growths: &[Grow] = &change.parts().pools.grow;
        if new.is_empty() && growths.is_empty() {
            return true;
        }
        if !are_distinct(new) {
            return true;
        }
        let total = self.groups_kept(change) + total_groups(new, growths);
        total <= MAX_TOTAL_GROUPS
    }

    /// Whether each pool that stays or comes has a rule of its kind, there are no more pools then than the profile
    /// allows, none gets fewer groups, and all have at most 1,048,576.
    #[tactic(auto, unfolding(crate::specs::Changes::brings_rightly))]
    pub(crate) fn brings_rightly(&self, change: &Change) -> bool
        requires { brings_new self.now.map change.now ≡ true }
        ensures { result ≡ brings_rightly self.now.map change.now }
    {
        let rules = self.rules_after(change);
        self.rules_kept(change)
            && have_rules(&change.parts().pools.come, rules)
            && self.are_few(change)
            && self.all_grow(change)
            && self.leaves_few_groups(change)
    }
}
