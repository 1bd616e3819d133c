//! CRUSH maps: a forest, and the rules over it by id.

ghost use Rattle.std.specs.Prelude.{◌≡◌, ◌≤◌, true, map, nat_le, IfOk};
ghost use Rattle.std.specs.List.{All, list_all};
ghost use Rattle.crush.specs.Grammar.{rule_ok, IsLawfulRule};
ghost use Rattle.mapparts.specs.Limits.{max_rule_id};
ghost use Rattle.crush.specs.Limits.{max_buckets};
ghost use Rattle.buckets.specs.Limits.{max_devices};
ghost use Rattle.crush.specs.WellFormed.{forest_ok};
ghost use Rattle.refusal.specs.declared.refused.Refusal.TheVariants.{BadForest, BadRule};
ghost use Rattle.refusal.specs.Outcomes.{refused_unless, Makes};
ghost use Rattle.keylist.specs.Order.{Rises};
ghost use Rattle.mapparts.specs.Parts.{has_between, bucket_fits, rule_fits};
ghost use Rattle.maptypes.specs.Values.{bucket_of, rule_of};
ghost use Rattle.maptypes.specs.CrushMaps.{IsForestOf, is_lawful, rules_fit, rule_ids_fit, rules_over};

use crate::forest_parts::buckets_of;
use crate::rule_parts::steps_of;
use crate::rules::NumberedRule;
use crush::{Forest, Rule};
use keylist::sort_distinct;
use mapparts::limits::{MAX_RULE_ID, MAX_RULES};
use mapparts::numbers::{has_between, word};
use mapparts::{BucketPart, RulePart};
use refusal::{Memory, Refusal};
use std::alloc::Global;
use std::marker::Model;

/// A CRUSH map: a forest, and 1 to 256 rules over it by id upwards (Ceph, CrushWrapper.h). The forest, whose table of
/// parents has 16 KB, stands apart, so that a change without one is moved and kept at little cost.
#[derive(Debug, Drop)]
pub struct CrushMap {
    forest: Box<Forest>,
    rules: Vec<NumberedRule>,
}

impl Model for CrushMap {
    ghost use Rattle.maptypes.specs.CrushMaps.{CrushFacts, IsCrushMap};

    ghost Value = { CrushFacts };

    ghost view = { λ c. record { buckets = c.forest.value; rules = c.rules.items } };

    ghost invariant = { λ c. IsCrushMap (record { buckets = c.forest.value; rules = c.rules.items }) };
}

/// The forest that parts within the limits state: `BadForest` (13) where they are not well formed.
fn forest_of(alloc: Global, parts: &[BucketPart], max_osd: u32) -> Result<Forest, Refusal>
    requires fits { list_all bucket_fits parts.now ≡ true }
    requires count { has_between 1 max_buckets parts.now ≡ true }
    requires some { 1 ≤ max_osd }
    requires few { max_osd ≤ max_devices }
    ensures { Makes result (refused_unless (forest_ok (map bucket_of parts.now) max_osd) BadForest)
        (IsForestOf (map bucket_of parts.now)) }
{
    let buckets = buckets_of(alloc, parts)?;
    Forest::of_fitting(buckets, max_osd)
}

/// The rule over a forest that a part within the limits states: `BadRule` (14) where its steps are outside the grammar,
/// or take a bucket that the forest has not.
fn rule_of(alloc: Global, part: &RulePart, forest: &Forest) -> Result<NumberedRule, Refusal>
    requires { rule_fits part.now ≡ true }
    ensures { Makes result (refused_unless (is_lawful forest.now part.now) BadRule) (λ rule. rule ≡ rule_of part.now) }
{
    let steps = steps_of(alloc, &part.steps)?;
    let rule = Rule::of_fitting(part.kind, steps, forest)?;
    Ok(NumberedRule {
        id: word(part.id),
        rule,
    })
}

/// The rules over a forest that parts within the limits state, in their order: `BadRule` (14) where one of them is
/// none.
fn make_rules(
    alloc: Global,
    parts: &[RulePart],
    forest: &Forest,
) -> Result<Vec<NumberedRule>, Refusal>
    requires { list_all rule_fits parts.now ≡ true }
    ensures { Makes result (refused_unless (list_all (is_lawful forest.now) parts.now) BadRule)
        (λ rules. rules.items ≡ map rule_of parts.now) }
{
    let mut rules = Vec::with_capacity(alloc, parts.len())?;
    for part in parts {
        rules.push(rule_of(alloc, part, forest)?)?;
    }
    Ok(rules)
}

/// The rules over a forest that parts within the limits state, by id upwards: `BadRule` (14) where one of them is
/// none, or has the id of another.
fn rules_of(
    alloc: Global,
    parts: &[RulePart],
    forest: &Forest,
) -> Result<Vec<NumberedRule>, Refusal>
    requires { list_all rule_fits parts.now ≡ true }
    ensures { Makes result (refused_unless (rules_fit forest.now parts.now) BadRule)
        (λ rules. Rises (λ r. r.id) (map rule_of parts.now) rules.items) }
{
    let rules = make_rules(alloc, parts, forest)?;
    sort_distinct(rules, Refusal::BadRule)
}

/// Whether there are 1 to 256 rules, each of an id of at most 255.
#[tactic(auto, unfolding(crate::specs::CrushMaps::rule_ids_fit))]
fn rule_ids_fit(rules: &[NumberedRule]) -> bool
    ensures { result ≡ rule_ids_fit rules.now }
{
    has_between(1, MAX_RULES, rules) && are_rule_ids(rules)
}

/// Whether each id is at most 255.
fn are_rule_ids(rules: &[NumberedRule]) -> bool
    ensures { result ≡ list_all (λ r. nat_le r.id max_rule_id) rules.now }
{
    rules.iter().all(|rule| rule.id <= MAX_RULE_ID as u32)
}

/// Whether each rule takes buckets of the forest.
fn are_over(rules: &[NumberedRule], forest: &Forest) -> bool
    ensures { result ≡ list_all (λ r. rule_ok r.rule.kind r.rule.steps forest.now) rules.now }
{
    rules.iter().all(|rule| rule.rule.is_over(forest))
}

/// Rules over a forest by id upwards: `BadRule` (14) where one of them takes a bucket that the forest has not, or has
/// the id of another; `Memory` (30).
#[tactic(auto, unfolding(crate::specs::CrushMaps::rules_over))]
fn rules_over(rules: Vec<NumberedRule>, forest: &Forest) -> Result<Vec<NumberedRule>, Refusal>
    ensures { Makes result (refused_unless (rules_over forest.now rules.items) BadRule)
        (λ sorted. Rises (λ r. r.id) rules.items sorted.items) }
{
    if !are_over(&rules, forest) {
        return Err(Refusal::BadRule);
    }
    sort_distinct(rules, Refusal::BadRule)
}

/// Each rule is within its limits: for a proof alone.
fn are_lawful(rules: &[NumberedRule])
    ensures { All (λ r. IsLawfulRule r.rule.kind r.rule.steps) rules.now }
{
    for rule in rules {
        let _ = rule.rule.steps();
    }
}

/// Copies of some rules.
fn copies_of(alloc: Global, rules: &[NumberedRule]) -> Result<Vec<NumberedRule>, Memory>
    ensures { IfOk result (λ copies. copies.items ≡ rules.now) }
{
    let mut copies = Vec::with_capacity(alloc, rules.len())?;
    for numbered in rules {
        let copy = NumberedRule {
            id: numbered.id,
            rule: numbered.rule.copy(alloc)?,
        };
        copies.push(copy)?;
    }
    Ok(copies)
}

impl CrushMap {
    ghost use Rattle.std.specs.Prelude.{◌≡◌, ◌≤◌, true, IfOk};
    ghost use Rattle.std.specs.List.{list_all};
    ghost use Rattle.std.specs.Option.{option_copied};
    ghost use Rattle.crush.specs.Limits.{max_buckets};
    ghost use Rattle.buckets.specs.Limits.{max_devices};
    ghost use Rattle.refusal.specs.Outcomes.{Makes};
    ghost use Rattle.mapparts.specs.Limits.{max_rules};
    ghost use Rattle.mapparts.specs.Parts.{has_between, bucket_fits, rule_fits};
    ghost use Rattle.maptypes.specs.CrushMaps.{rule_at, rules_fault, crush_fault, IsCrushMap, IsCrushWith, IsCrushOf};

    /// The CRUSH map over the devices below `max_osd` that parts within the limits state.
    ///
    /// # Errors
    ///
    /// `BadForest` (13) where the buckets are no well-formed forest; else `BadRule` (14) where a rule is outside the
    /// grammar, takes a bucket that the forest has not, or has the id of another; or `Memory` (30) where there is no
    /// memory for it.
    pub fn of_parts(
        alloc: Global,
        buckets: &[BucketPart],
        rules: &[RulePart],
        max_osd: u32,
    ) -> Result<CrushMap, Refusal>
        requires buckets_fit { list_all bucket_fits buckets.now ≡ true }
        requires bucket_count { has_between 1 max_buckets buckets.now ≡ true }
        requires rules_fit { list_all rule_fits rules.now ≡ true }
        requires rule_count { has_between 1 max_rules rules.now ≡ true }
        requires some { 1 ≤ max_osd }
        requires few { max_osd ≤ max_devices }
        ensures { Makes result (crush_fault buckets.now rules.now max_osd) (IsCrushOf buckets.now rules.now) }
    {
        let forest = forest_of(alloc, buckets, max_osd)?;
        let rules = rules_of(alloc, rules, &forest)?;
        let kept = Box::new(alloc, forest)?;
        Ok(CrushMap {
            forest: kept,
            rules,
        })
    }

    /// The CRUSH map of a forest and of rules over it.
    ///
    /// # Errors
    ///
    /// `BadLimit` (12) where there are no rules or more than 256, or an id is above 255; else `BadRule` (14) where an
    /// id stands twice, or a rule takes a bucket that the forest has not; or `Memory` (30) where there is no memory for
    /// it.
    pub fn new(alloc: Global, forest: Forest, rules: Vec<NumberedRule>) -> Result<CrushMap, Refusal>
        ensures { Makes result (rules_fault forest rules.items) (IsCrushWith forest rules.items) }
    {
        if !rule_ids_fit(&rules) {
            return Err(Refusal::BadLimit);
        }
        are_lawful(&rules);
        let rules = rules_over(rules, &forest)?;
        let kept = Box::new(alloc, forest)?;
        Ok(CrushMap {
            forest: kept,
            rules,
        })
    }

    /// The forest.
    pub fn forest(&self) -> &Forest
        ensures { result.now ≡ self.now.buckets }
    {
        &self.forest
    }

    /// The rules, by id upwards.
    pub fn rules(&self) -> &[NumberedRule]
        ensures value { result.now ≡ self.now.rules }
        ensures lawful { IsCrushMap self.now }
    {
        &self.rules
    }

    /// The rule of an id.
    pub fn rule(&self, id: u32) -> Option<&Rule>
        ensures { option_copied result ≡ rule_at self.now.rules id }
    {
        self.rules
            .iter()
            .find(|rule| rule.id == id)
            .map(|rule| &rule.rule)
    }

    /// A copy of the CRUSH map.
    ///
    /// # Errors
    ///
    /// `Memory` (30) where there is no memory for it.
    pub fn copy(&self, alloc: Global) -> Result<CrushMap, Memory>
        ensures { IfOk result (λ copy. copy ≡ self.now) }
    {
        let forest = Box::new(alloc, self.forest.copy(alloc)?)?;
        let rules = copies_of(alloc, &self.rules)?;
        Ok(CrushMap { forest, rules })
    }
}
