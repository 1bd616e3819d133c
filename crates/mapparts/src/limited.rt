//! Whether the parts of maps and changes are within limits, each by itself.

ghost use Rattle.std.specs.Prelude.{◌≡◌, ◌≤◌, true, length};
ghost use Rattle.std.specs.List.{list_all};
ghost use Rattle.mapparts.specs.Parts.{pg_fits, entries_fit_in, groups_fit_in};

use crate::change::ReweightPart;
use crate::limits::{
    FULL_WEIGHT, LOWEST_BUCKET, Limits, MAX_ITEM_WEIGHT, MAX_LEVEL, MAX_POOL_ID, MAX_RULE_ID,
    MAX_STABLE, MAX_STATED_REWEIGHT, MAX_TRIES, MAX_VARY,
};
use crate::numbers::{has_between, is_between, is_bucket_id};
use crate::parts::{
    BucketPart, ExceptionPart, GrowPart, ItemPart, OsdPart, PairPart, PoolPart, RulePart, StepPart,
};
use crate::pg_parts::PgParts;
use crush::limits::MAX_STEPS;

/// A part of a map or of a change whose numbers and lengths have limits.
pub trait Limited {
    ghost use Rattle.std.specs.Prelude.{◌≡◌, Bool};
    ghost use Rattle.mapparts.specs.declared.limits.Limits.{Limits};

    ghost within: { Limits → Self → Bool };

    /// Whether they are within the limits.
    fn fits(&self, limits: &Limits) -> bool
        ensures { result ≡ within limits.now self.now };
}

/// Whether each of some parts is within the limits.
pub fn all_fit<P: Limited>(parts: &[P], limits: &Limits) -> bool
    ensures { result ≡ list_all (P.within limits.now) parts.now }
{
    parts.iter().all(|part| part.fits(limits))
}

/// Whether a list has no more entries than it may have, each of them within the limits.
#[tactic(auto, unfolding(crate::specs::Parts::entries_fit_in))]
pub fn entries_fit<P: Limited>(parts: &[P], limits: &Limits) -> bool
    ensures { result ≡ entries_fit_in (P.within limits.now) limits.now parts.now }
{
    has_between(0, limits.entries, parts) && all_fit(parts, limits)
}

/// Whether a group has a pool's id and a number of at most 32 bits.
#[tactic(auto, unfolding(crate::specs::Parts::pg_fits))]
pub fn pg_fits(pg: &PgParts) -> bool
    ensures { result ≡ pg_fits pg.now }
{
    pg.pool
        .is_some_and(|pool| 1 <= pool && i128::from(pool) <= MAX_POOL_ID)
        && pg.number.is_some()
}

/// A number is an OSD's id.
impl Limited for i128 {
    ghost use Rattle.mapparts.specs.Parts.{is_osd_id_in};

    ghost within = { is_osd_id_in };

    #[tactic(auto, unfolding(crate::specs::Parts::is_osd_id_in))]
    fn fits(&self, limits: &Limits) -> bool {
        is_between(0, limits.osd, *self)
    }
}

impl Limited for PairPart {
    ghost use Rattle.mapparts.specs.Parts.{pair_fits_in};

    ghost within = { pair_fits_in };

    #[tactic(auto, unfolding(crate::specs::Parts::pair_fits_in, crate::specs::Parts::is_osd_id_in))]
    fn fits(&self, limits: &Limits) -> bool {
        is_between(0, limits.osd, self.from) && is_between(0, limits.osd, self.to)
    }
}

impl Limited for PgParts {
    ghost use Rattle.mapparts.specs.Parts.{pg_fits_in};

    ghost within = { pg_fits_in };

    fn fits(&self, _limits: &Limits) -> bool {
        pg_fits(self)
    }
}

impl<P: Limited> Limited for ExceptionPart<P> {
    ghost use Rattle.mapparts.specs.Parts.{exception_fits_in};

    ghost within = { λ limits e. exception_fits_in (P.within limits) limits e };

    #[tactic(auto, unfolding(crate::specs::Parts::exception_fits_in))]
    fn fits(&self, limits: &Limits) -> bool {
        let entries: &[P] = &self.entries;
        pg_fits(&self.pg) && has_between(0, limits.places, entries) && all_fit(entries, limits)
    }
}

/// Whether the numbers of groups of a pool, and of those for placement, are within the limits.
fn groups_fit(pg_num: i128, pgp_num: i128, limits: &Limits) -> bool
    ensures { result ≡ groups_fit_in limits.now pg_num pgp_num }
{
    is_between(1, limits.groups, pg_num) && is_between(1, limits.groups, pgp_num)
}

impl Limited for PoolPart {
    ghost use Rattle.mapparts.specs.Parts.{pool_fits_in};

    ghost within = { pool_fits_in };

    #[tactic(auto, unfolding(crate::specs::Parts::pool_fits_in))]
    fn fits(&self, limits: &Limits) -> bool {
        is_between(1, MAX_POOL_ID, self.id)
            && groups_fit(self.pg_num, self.pgp_num, limits)
            && is_between(0, MAX_RULE_ID, self.rule)
            && is_between(1, limits.size, self.size)
    }
}

impl Limited for GrowPart {
    ghost use Rattle.mapparts.specs.Parts.{growth_fits_in};

    ghost within = { growth_fits_in };

    #[tactic(auto, unfolding(crate::specs::Parts::growth_fits_in))]
    fn fits(&self, limits: &Limits) -> bool {
        is_between(1, MAX_POOL_ID, self.pool) && groups_fit(self.pg_num, self.pgp_num, limits)
    }
}

impl Limited for ReweightPart {
    ghost use Rattle.mapparts.specs.Changes.{reweight_fits_in};

    ghost within = { reweight_fits_in };

    #[tactic(auto, unfolding(crate::specs::Changes::reweight_fits_in, crate::specs::Parts::is_osd_id_in))]
    fn fits(&self, limits: &Limits) -> bool {
        is_between(0, limits.osd, self.osd) && is_between(0, MAX_STATED_REWEIGHT, self.weight)
    }
}

impl Limited for OsdPart {
    ghost use Rattle.mapparts.specs.Parts.{osd_fits_in};

    ghost within = { osd_fits_in };

    #[tactic(auto, unfolding(crate::specs::Parts::osd_fits_in))]
    fn fits(&self, limits: &Limits) -> bool {
        is_between(0, limits.osd, self.id) && is_between(0, i128::from(FULL_WEIGHT), self.weight)
    }
}

impl Limited for ItemPart {
    ghost use Rattle.mapparts.specs.Parts.{item_fits_in};

    ghost within = { item_fits_in };

    #[tactic(auto, unfolding(crate::specs::Parts::item_fits_in))]
    fn fits(&self, limits: &Limits) -> bool {
        is_between(LOWEST_BUCKET, limits.osd, self.id)
            && is_between(1, MAX_ITEM_WEIGHT, self.weight)
    }
}

impl Limited for BucketPart {
    ghost use Rattle.mapparts.specs.Parts.{bucket_fits_in};

    ghost within = { bucket_fits_in };

    #[tactic(auto, unfolding(crate::specs::Parts::bucket_fits_in))]
    fn fits(&self, limits: &Limits) -> bool {
        let items: &[ItemPart] = &self.items;
        is_bucket_id(self.id)
            && is_between(1, MAX_LEVEL, self.level)
            && has_between(1, self.kind.most_items(), items)
            && has_between(0, limits.items, items)
            && all_fit(items, limits)
    }
}

impl Limited for StepPart {
    ghost use Rattle.mapparts.specs.Parts.{step_fits_in};

    ghost within = { step_fits_in };

    #[tactic(auto, unfolding(crate::specs::Parts::step_fits_in))]
    fn fits(&self, limits: &Limits) -> bool {
        match self {
            StepPart::SetChooseTries(tries) => is_between(1, MAX_TRIES, *tries),
            StepPart::SetChooseleafTries(tries) => is_between(1, MAX_TRIES, *tries),
            StepPart::SetChooseleafVaryR(vary) => is_between(0, MAX_VARY, *vary),
            StepPart::SetChooseleafStable(stable) => is_between(0, MAX_STABLE, *stable),
            StepPart::Take(id) => is_bucket_id(*id),
            StepPart::Choose(choose) => is_between(0, limits.count, choose.count)
                && is_between(0, MAX_LEVEL, choose.level),
            StepPart::Emit => true,
        }
    }
}

impl Limited for RulePart {
    ghost use Rattle.mapparts.specs.Parts.{rule_fits_in};

    ghost within = { rule_fits_in };

    #[tactic(auto, unfolding(crate::specs::Parts::rule_fits_in))]
    fn fits(&self, limits: &Limits) -> bool {
        let steps: &[StepPart] = &self.steps;
        is_between(0, MAX_RULE_ID, self.id)
            && has_between(1, MAX_STEPS, steps)
            && all_fit(steps, limits)
    }
}
