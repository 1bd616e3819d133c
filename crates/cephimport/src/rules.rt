//! Rules as a map states them.

ghost use Rattle.std.specs.Prelude.{◌≡◌, ◌==◌, ◌++◌, [], IfOk, OnOk};
ghost use Rattle.std.specs.List.{find, cons_option};
ghost use Rattle.std.specs.Option.{option_copied};
ghost use Rattle.cephimport.specs.Rules.{rule_use, size_of, rule_steps, imported_rule, slot_rule, rules_in, rule_parts};

use crate::steps::kept_of;
use crate::tuned::front;
use crate::uses::is_used;
use cephmap::{CephMap, Pool, Rule, Slot, Step, Tunables};
use crush::RuleKind;
use keylist::Entries;
use mapparts::{RulePart, StepPart};
use std::alloc::{AllocError, Global};

/// What a rule is for.
fn rule_use(kind: u8) -> RuleKind
    ensures { result ≡ rule_use kind }
{
    if kind == 3 {
        RuleKind::Erasure
    } else {
        RuleKind::Replicated
    }
}

/// The first pool that has a rule.
fn first_with(pools: &[Pool], rule: usize) -> Option<&Pool>
    ensures { option_copied result ≡ find (λ p. p.rule == rule) pools.now }
{
    pools.iter().find(|pool| pool.rule as usize == rule)
}

/// The size of the first pool that has a rule; 0 where none has it.
#[tactic(auto, unfolding(crate::specs::Rules::size_of))]
pub(crate) fn size_of(pools: &[Pool], rule: usize) -> u8
    ensures { result ≡ size_of pools.now rule }
{
    match first_with(pools, rule) {
        Some(pool) => pool.size,
        None => 0,
    }
}

/// The steps of a rule as a map states them: those that stand for tunables, and those that stay.
#[tactic(auto, unfolding(crate::specs::Rules::rule_steps))]
fn rule_steps(
    alloc: Global,
    tunables: &Tunables,
    size: u8,
    steps: &[Step],
) -> Result<Vec<StepPart>, AllocError>
    ensures { IfOk result (λ parts. parts.items ≡ rule_steps tunables.now size steps.now) }
{
    let kept = kept_of(alloc, size, steps)?;
    if kept.is_empty() {
        return Ok(kept);
    }
    let mut parts = front(alloc, tunables, steps)?;
    parts.extend_from_slice(&kept)?;
    Ok(parts)
}

/// A rule as a map states it.
#[tactic(auto, unfolding(crate::specs::Rules::imported_rule))]
fn imported_rule(
    alloc: Global,
    map: &CephMap,
    id: usize,
    rule: &Rule,
) -> Result<RulePart, AllocError>
    ensures { IfOk result (λ part. part ≡ imported_rule map.now id rule.now) }
{
    let size = size_of(&map.pools, id);
    let steps = rule_steps(alloc, &map.crush.tunables, size, &rule.steps)?;
    Ok(RulePart {
        id: id as i128,
        kind: rule_use(rule.kind),
        steps: Entries::new(steps),
    })
}

/// The rule of a place as a map states it, if there is one that is used.
#[tactic(auto, unfolding(crate::specs::Rules::slot_rule))]
fn slot_rule(
    alloc: Global,
    map: &CephMap,
    id: usize,
    slot: &Slot<Rule>,
) -> Result<Option<RulePart>, AllocError>
    ensures { IfOk result (λ part. part ≡ slot_rule map.now id slot.now) }
{
    match &slot.holds {
        Some(rule) if is_used(&map.pools, id) => Ok(Some(imported_rule(alloc, map, id, rule)?)),
        _ => Ok(None),
    }
}

/// Puts the rule of a place behind others, as a map states it, if there is one that is used.
fn put_rule(
    alloc: Global,
    map: &CephMap,
    id: usize,
    slot: &Slot<Rule>,
    parts: &mut Vec<RulePart>,
) -> Result<(), AllocError>
    ensures { OnOk result (parts.new.items ≡ parts.old.items ++ cons_option (slot_rule map.now id slot.now) []) }
{
    if let Some(part) = slot_rule(alloc, map, id, slot)? {
        parts.push(part)?;
    }
    Ok(())
}

/// The rules that are used, of those in their places, as a map states them.
fn rules_in(alloc: Global, map: &CephMap, slots: &[Slot<Rule>]) -> Result<Vec<RulePart>, AllocError>
    ensures { IfOk result (λ parts. parts.items ≡ rules_in map.now slots.now) }
{
    let mut parts = Vec::new(alloc);
    for (id, slot) in slots.iter().enumerate() {
        put_rule(alloc, map, id, slot, &mut parts)?;
    }
    Ok(parts)
}

/// The rules that are used, as a map states them.
#[tactic(auto, unfolding(crate::specs::Rules::rule_parts))]
pub(crate) fn rule_parts(alloc: Global, map: &CephMap) -> Result<Vec<RulePart>, AllocError>
    ensures { IfOk result (λ parts. parts.items ≡ rule_parts map.now) }
{
    rules_in(alloc, map, &map.crush.rules)
}
