//! The pools of the map that parts state.

ghost use Rattle.std.specs.Prelude.{◌≡◌, ◌==◌, true, map};
ghost use Rattle.std.specs.List.{find, list_all};
ghost use Rattle.std.specs.Option.{option_copied};
ghost use Rattle.refusal.specs.declared.refused.Refusal.TheVariants.{BadPool};
ghost use Rattle.osdmap.specs.Maps.{has_rule};
ghost use Rattle.mapparts.specs.Parts.{pool_fits};
ghost use Rattle.maptypes.specs.Values.{pool_of};
ghost use Rattle.refusal.specs.Outcomes.{Makes};
ghost use Rattle.osdmap.specs.Stated.{pool_ok};
ghost use Rattle.refusal.specs.Outcomes.{refused_unless};
ghost use Rattle.keylist.specs.Order.{Rises};
ghost use Rattle.osdmap.specs.Built.{pools_fit};

use keylist::sort_distinct;
use mapparts::PoolPart;
use maptypes::{NumberedRule, Pool};
use refusal::Refusal;
use std::alloc::Global;

/// The rule of an id.
fn rule_at(rules: &[NumberedRule], id: u32) -> Option<&NumberedRule>
    ensures { option_copied result ≡ find (λ r. r.id == id) rules.now }
{
    rules.iter().find(|rule| rule.id == id)
}

/// Whether the rules have the pool's rule, and it is of the pool's kind.
pub(crate) fn has_rule(rules: &[NumberedRule], pool: Pool) -> bool
    ensures { result ≡ has_rule rules.now pool }
{
    match rule_at(rules, pool.rule()) {
        Some(rule) => rule.rule.kind() == pool.kind(),
        None => false,
    }
}

/// The pool that a part within the limits states: `BadPool` (15) where it has more groups for placement than groups, or
/// no rule of its kind.
#[tactic(auto, unfolding(crate::specs::Stated::pool_ok, mapparts::specs::Parts::has_enough_groups))]
fn pool_of(rules: &[NumberedRule], part: &PoolPart) -> Result<Pool, Refusal>
    requires { pool_fits part.now ≡ true }
    ensures { Makes result (refused_unless (pool_ok rules.now part.now) BadPool) (λ pool. pool ≡ pool_of part.now) }
{
    let pool = Pool::of_fitting(*part)?;
    if !has_rule(rules, pool) {
        return Err(Refusal::BadPool);
    }
    Ok(pool)
}

/// The pools that parts within the limits state, in their order: `BadPool` (15) where one of them is none.
fn make_pools(
    alloc: Global,
    parts: &[PoolPart],
    rules: &[NumberedRule],
) -> Result<Vec<Pool>, Refusal>
    requires { list_all pool_fits parts.now ≡ true }
    ensures { Makes result (refused_unless (list_all (pool_ok rules.now) parts.now) BadPool)
        (λ pools. pools.items ≡ map pool_of parts.now) }
{
    let mut pools = Vec::with_capacity(alloc, parts.len())?;
    for part in parts {
        let pool = pool_of(rules, part)?;
        pools.push(pool)?;
    }
    Ok(pools)
}

/// The pools that parts within the limits state, by id upwards: `BadPool` (15) where one of them is none, or has the id
/// of another.
pub(crate) fn pools_of(
    alloc: Global,
    parts: &[PoolPart],
    rules: &[NumberedRule],
) -> Result<Vec<Pool>, Refusal>
    requires { list_all pool_fits parts.now ≡ true }
    ensures { Makes result (refused_unless (pools_fit rules.now parts.now) BadPool)
        (λ pools. Rises (λ p. p.id) (map pool_of parts.now) pools.items) }
{
    let pools = make_pools(alloc, parts, rules)?;
    sort_distinct(pools, Refusal::BadPool)
}
