//! Which rules pools use, and what these take.

ghost use Rattle.std.specs.Prelude.{◌≡◌};
ghost use Rattle.cephimport.specs.Uses.{any_has_rule, has_pools, is_used, takes, rule_takes, slot_takes, any_takes, is_taken};

use cephmap::{CephMap, Pool, Rule, Slot, Step, StepWord};

/// Whether some pool has a rule.
pub(crate) fn any_has_rule(pools: &[Pool], rule: usize) -> bool
    ensures { result ≡ any_has_rule pools.now rule }
{
    pools.iter().any(|pool| pool.rule as usize == rule)
}

/// Whether there is a pool.
pub(crate) fn has_pools(pools: &[Pool]) -> bool
    ensures { result ≡ has_pools pools.now }
{
    !pools.is_empty()
}

/// Whether a rule is used: some pool has it, or there is no pool.
#[tactic(auto, unfolding(crate::specs::Uses::is_used))]
pub(crate) fn is_used(pools: &[Pool], rule: usize) -> bool
    ensures { result ≡ is_used pools.now rule }
{
    !has_pools(pools) || any_has_rule(pools, rule)
}

/// Whether a step takes an item.
fn takes(step: &Step, id: i128) -> bool
    ensures { result ≡ takes step.now id }
{
    step.word == StepWord::Take && i128::from(step.first) == id
}

/// Whether some step does.
fn rule_takes(steps: &[Step], id: i128) -> bool
    ensures { result ≡ rule_takes steps.now id }
{
    steps.iter().any(|step| takes(step, id))
}

/// Whether the rule of a place does, if there is one.
fn slot_takes(slot: &Slot<Rule>, id: i128) -> bool
    ensures { result ≡ slot_takes slot.now id }
{
    match &slot.holds {
        Some(rule) => rule_takes(&rule.steps, id),
        None => false,
    }
}

/// Whether some rule that is used takes an item.
fn any_takes(pools: &[Pool], rules: &[Slot<Rule>], id: i128) -> bool
    ensures { result ≡ any_takes pools.now rules.now id }
{
    rules.iter().enumerate().any(|(rule, slot)| is_used(pools, rule) && slot_takes(slot, id))
}

/// Whether some rule of a map that is used takes an item.
#[tactic(auto, unfolding(crate::specs::Uses::is_taken))]
pub(crate) fn is_taken(map: &CephMap, id: i128) -> bool
    ensures { result ≡ is_taken map.now id }
{
    any_takes(&map.pools, &map.crush.rules, id)
}
