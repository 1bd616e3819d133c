//! Which rules keep a map out.

ghost use Rattle.std.specs.Prelude.{◌≡◌, ◌==◌, ◌&&◌, not, length};
ghost use Rattle.std.specs.List.{list_any, list_all, enumerate_from};
ghost use Rattle.cephimport.specs.FitRules.{is_known_word, has_known_words, has_negative, has_few_steps, are_of_size, has_counts, passes, rule_slot_fails, rule_fails_in, some_rule_fails};

use crate::rules::size_of;
use crate::steps::chooses;
use crate::uses::{any_has_rule, is_used};
use cephmap::{CephMap, Pool, Rule, Slot, Step, StepWord};
use crush::limits::MAX_STEPS;

/// What a rule has to pass.
#[derive(Clone, Copy, Debug, PartialEq, Eq)]
pub enum RuleTest {
    /// It is for copies or for coded parts.
    Kind,
    /// Each of its steps has a word that a map has.
    Words,
    /// It has no more steps than a map has.
    Length,
    /// Where a step has a negative count, pools have it, and all of them are of one size.
    Counts,
}

/// Whether steps of a word are known in maps.
fn is_known_word(word: StepWord) -> bool
    ensures { result ≡ is_known_word word }
{
    match word {
        StepWord::Nothing => false,
        StepWord::SetChooseLocalTries => false,
        StepWord::SetChooseLocalFallbackTries => false,
        _ => true,
    }
}

/// Whether each of some steps is known.
fn has_known_words(steps: &[Step]) -> bool
    ensures { result ≡ has_known_words steps.now }
{
    steps.iter().all(|step| is_known_word(step.word))
}

/// Whether some step has a negative count.
fn has_negative(steps: &[Step]) -> bool
    ensures { result ≡ has_negative steps.now }
{
    steps
        .iter()
        .any(|step| chooses(step.word) && step.first < 0)
}

/// Whether there are no more steps than a map has.
fn has_few_steps(steps: &[Step]) -> bool
    ensures { result ≡ has_few_steps steps.now }
{
    steps.len() <= MAX_STEPS
}

/// Whether all pools that have a rule are of a size.
fn are_of_size(pools: &[Pool], rule: usize, size: u8) -> bool
    ensures { result ≡ are_of_size pools.now rule size }
{
    pools
        .iter()
        .all(|pool| pool.rule as usize != rule || pool.size == size)
}

/// Whether a rule has no negative count, or else pools have it that are of one size.
#[tactic(auto, unfolding(crate::specs::FitRules::has_counts))]
fn has_counts(pools: &[Pool], id: usize, steps: &[Step]) -> bool
    ensures { result ≡ has_counts pools.now id steps.now }
{
    !has_negative(steps) || (any_has_rule(pools, id) && are_of_size(pools, id, size_of(pools, id)))
}

/// Whether a rule passes a test.
fn passes(test: RuleTest, pools: &[Pool], id: usize, rule: &Rule) -> bool
    ensures { result ≡ passes test pools.now id rule.now }
{
    match test {
        RuleTest::Kind => rule.kind == 1 || rule.kind == 3,
        RuleTest::Words => has_known_words(&rule.steps),
        RuleTest::Length => has_few_steps(&rule.steps),
        RuleTest::Counts => has_counts(pools, id, &rule.steps),
    }
}

/// Whether the rule of a place is used and fails a test.
#[tactic(auto, unfolding(crate::specs::FitRules::rule_slot_fails))]
fn rule_slot_fails(test: RuleTest, pools: &[Pool], id: usize, slot: &Slot<Rule>) -> bool
    ensures { result ≡ rule_slot_fails test pools.now id slot.now }
{
    match &slot.holds {
        Some(rule) => is_used(pools, id) && !passes(test, pools, id, rule),
        None => false,
    }
}

/// Whether some rule that is used fails a test.
fn rule_fails_in(test: RuleTest, pools: &[Pool], rules: &[Slot<Rule>]) -> bool
    ensures { result ≡ rule_fails_in test pools.now rules.now }
{
    rules
        .iter()
        .enumerate()
        .any(|(id, slot)| rule_slot_fails(test, pools, id, slot))
}

/// Whether some rule of a map that is used fails a test.
pub(crate) fn some_rule_fails(test: RuleTest, map: &CephMap) -> bool
    ensures { result ≡ some_rule_fails test map.now }
{
    rule_fails_in(test, &map.pools, &map.crush.rules)
}
