//! Rules: what they serve, and their steps.

ghost use Rattle.std.specs.Prelude.{◌≡◌, pos};
ghost use Rattle.crush.specs.Paths.{takes_above};

use crate::forest::Forest;
use crate::grammar::{is_rule, is_within_limits, takes_known};
use crate::step::{RuleKind, Step};
use refusal::{Memory, Refusal};
use std::alloc::Global;
use std::marker::Model;

/// A rule: what it serves, and steps that are one or more blocks. Each block takes a bucket, chooses below it one to
/// three times, of types that fall, and emits what it chose. Steps that set tries may stand before a take.
#[derive(Debug, Drop)]
pub struct Rule {
    kind: RuleKind,
    steps: Vec<Step>,
}

impl Model for Rule {
    ghost use Rattle.std.specs.Prelude.{◌≡◌, true};
    ghost use Rattle.crush.specs.Rules.{Recipe};
    ghost use Rattle.crush.specs.Grammar.{IsLawfulRule};

    ghost Value = { Recipe };

    ghost view = { λ r. record { kind = r.kind; steps = r.steps.items } };

    ghost invariant = { λ r. IsLawfulRule r.kind r.steps.items };
}

impl Rule {
    ghost use Rattle.std.specs.Prelude.{◌≡◌, IfOk, IsTrue, pos, All, false};
    ghost use Rattle.refusal.specs.Outcomes.{Judges, refused_unless};
    ghost use Rattle.crush.specs.Grammar.{rule_limits_ok, rule_ok, rule_fault, IsLawfulRule};
    ghost use Rattle.crush.specs.Paths.{reaches, takes_above};

    /// The rule of these steps over a forest.
    ///
    /// # Errors
    ///
    /// `BadLimit` (12) where it has no step or more than 16, takes a bucket outside -1 to -65,536, chooses a type above
    /// 15 or more than 20 items, or sets no tries or more than 200; else `BadRule` (14) where the steps are not in the
    /// grammar, or take a bucket that the forest has not.
    pub fn new(kind: RuleKind, steps: Vec<Step>, forest: &Forest) -> Result<Self, Refusal>
        ensures { Judges result (rule_fault kind steps.items forest.now)
            (λ r. r ≡ record { kind = kind; steps = steps.items }) }
    {
        if !is_within_limits(&steps) {
            return Err(Refusal::BadLimit);
        }
        Rule::of_fitting(kind, steps, forest)
    }

    /// The rule of these steps over a forest, where the steps are known to be within the limits.
    ///
    /// # Errors
    ///
    /// `BadRule` (14) where the steps are not in the grammar, or take a bucket that the forest has not.
    pub fn of_fitting(kind: RuleKind, steps: Vec<Step>, forest: &Forest) -> Result<Self, Refusal>
        requires { IsTrue (rule_limits_ok steps.items) }
        ensures { Judges result (refused_unless (rule_ok kind steps.items forest.now) Refusal.BadRule)
            (λ r. r ≡ record { kind = kind; steps = steps.items }) }
    {
        if !is_rule(kind, &steps) || !takes_known(&steps, forest) {
            return Err(Refusal::BadRule);
        }
        Ok(Rule { kind, steps })
    }

    /// What it serves.
    pub fn kind(&self) -> RuleKind
        ensures value { result ≡ self.now.kind }
    {
        self.kind
    }

    /// Its steps, in order: one or more blocks.
    pub fn steps(&self) -> &[Step]
        ensures value { result.now ≡ self.now.steps }
        ensures lawful { IsLawfulRule self.now.kind self.now.steps }
    {
        &self.steps
    }

    /// Whether the forest has each bucket that the rule takes.
    pub fn is_over(&self, forest: &Forest) -> bool
        ensures { result ≡ rule_ok self.now.kind self.now.steps forest.now }
    {
        takes_known(&self.steps, forest)
    }

    /// Whether the rule reaches the device of a number in a forest: it is under a bucket that the rule takes.
    pub fn reaches(&self, forest: &Forest, osd: u32) -> bool
        ensures value { result ≡ reaches forest.now self.now.steps (pos osd) }
        ensures none { result ≡ false → All (λ step. takes_above forest.now (pos osd) step ≡ false) self.now.steps }
    {
        self.steps.iter().any(|step| takes_above(step, forest, osd))
    }

    /// A copy of the rule.
    ///
    /// # Errors
    ///
    /// `Memory` (30) where there is no memory for it.
    pub fn copy(&self, alloc: Global) -> Result<Self, Memory>
        ensures { IfOk result (λ r. r ≡ self.now) }
    {
        Ok(Rule {
            kind: self.kind,
            steps: Vec::from_slice(alloc, &self.steps)?,
        })
    }
}

/// Whether a step takes a bucket above a device.
fn takes_above(step: &Step, forest: &Forest, osd: u32) -> bool
    ensures { result ≡ takes_above forest.now (pos osd) step.now }
{
    match step {
        Step::Take(bucket) => forest.is_above_device(*bucket, osd),
        _ => false,
    }
}
