//! The tests that a list of steps has to pass to be a rule.

ghost use Rattle.std.specs.Prelude.{◌≡◌};
ghost use Rattle.std.specs.List.{list_all};
ghost use Rattle.crush.specs.Grammar.{step_limits_ok, rule_limits_ok, serves, is_last, is_earlier, is_block, sets_tries, is_piece, is_emit, are_blocks, is_rule, takes_known};

use crate::forest::Forest;
use crate::limits::{MAX_COUNT, MAX_STABLE, MAX_STEPS, MAX_TRIES, MAX_VARY};
use crate::step::{Choose, Mode, RuleKind, Step};
use buckets::is_bucket_id;
use buckets::limits::MAX_LEVEL;

/// Whether a step is within the limits.
fn is_step_within(step: &Step) -> bool
    ensures { result ≡ step_limits_ok step.now }
{
    match step {
        Step::Take(bucket) => is_bucket_id(*bucket),
        Step::Choose(choose) => choose.count <= MAX_COUNT && choose.level <= MAX_LEVEL,
        Step::SetChooseTries(tries) | Step::SetChooseleafTries(tries) => 1 <= *tries
            && *tries <= MAX_TRIES,
        Step::SetChooseleafVaryR(vary) => *vary <= MAX_VARY,
        Step::SetChooseleafStable(stable) => *stable <= MAX_STABLE,
        Step::Emit => true,
    }
}

/// Whether each step is within the limits.
fn are_steps_within(steps: &[Step]) -> bool
    ensures { result ≡ list_all step_limits_ok steps.now }
{
    steps.iter().all(is_step_within)
}

/// Whether a rule is within the limits.
#[tactic(auto, using(std::proofs::lemmas::Bool::Decides::nat_tests))]
pub(crate) fn is_within_limits(steps: &[Step]) -> bool
    ensures { result ≡ rule_limits_ok steps.now }
{
    1 <= steps.len() && steps.len() <= MAX_STEPS && are_steps_within(steps)
}

/// Whether a kind of rule chooses in this mode.
fn serves(kind: RuleKind, mode: Mode) -> bool
    ensures { result ≡ serves kind mode }
{
    match kind {
        RuleKind::Replicated => mode == Mode::Firstn,
        RuleKind::Erasure => mode == Mode::Indep,
    }
}

/// Whether a block may end with this choice.
fn is_last(kind: RuleKind, choose: Choose) -> bool
    ensures { result ≡ is_last kind choose }
{
    serves(kind, choose.mode) && choose.to_leaf == (choose.level > 0)
}

/// Whether a block may make this choice before the next.
fn is_earlier(kind: RuleKind, choose: Choose, next: Choose) -> bool
    ensures { result ≡ is_earlier kind choose next }
{
    serves(kind, choose.mode) && !choose.to_leaf && next.level < choose.level
}

/// Whether the steps are a block without its emit.
fn is_block(kind: RuleKind, steps: &[Step]) -> bool
    ensures { result ≡ is_block kind steps.now }
{
    match steps {
        [Step::Take(_), Step::Choose(a)] => is_last(kind, *a),
        [Step::Take(_), Step::Choose(a), Step::Choose(b)] => is_earlier(kind, *a, *b)
            && is_last(kind, *b),
        [
            Step::Take(_),
            Step::Choose(a),
            Step::Choose(b),
            Step::Choose(c),
        ] => { is_earlier(kind, *a, *b) && is_earlier(kind, *b, *c) && is_last(kind, *c) }
        _ => false,
    }
}

/// Whether a step sets how a choose step tries.
fn sets_tries(step: &Step) -> bool
    ensures { result ≡ sets_tries step.now }
{
    match step {
        Step::SetChooseTries(_)
        | Step::SetChooseleafTries(_)
        | Step::SetChooseleafVaryR(_)
        | Step::SetChooseleafStable(_) => true,
        Step::Take(_) | Step::Choose(_) | Step::Emit => false,
    }
}

/// Whether the steps are a block without its emit, after steps that set tries or none.
#[tactic(auto, unfolding(crate::specs::Grammar::is_piece))]
fn is_piece(kind: RuleKind, steps: &[Step]) -> bool
    ensures { result ≡ is_piece kind steps.now }
{
    match steps.split_first() {
        Some((step, rest)) if sets_tries(step) => is_piece(kind, rest),
        _ => is_block(kind, steps),
    }
}

/// Whether the step emits.
fn is_emit(step: &Step) -> bool
    ensures { result ≡ is_emit step.now }
{
    matches!(step, Step::Emit)
}

/// Whether the steps are blocks between emits.
fn are_blocks(kind: RuleKind, steps: &[Step]) -> bool
    ensures { result ≡ are_blocks kind steps.now }
{
    steps
        .split(|step| is_emit(step))
        .all(|piece| is_piece(kind, piece))
}

/// Whether the steps are one or more blocks, each ended by an emit.
pub(crate) fn is_rule(kind: RuleKind, steps: &[Step]) -> bool
    ensures { result ≡ is_rule kind steps.now }
{
    match steps.split_last() {
        Some((last, before)) => is_emit(last) && are_blocks(kind, before),
        None => false,
    }
}

/// Whether the forest has the buckets that the steps take.
pub(crate) fn takes_known(steps: &[Step], forest: &Forest) -> bool
    ensures { result ≡ list_all (takes_known forest.now) steps.now }
{
    steps.iter().all(|step| is_step_known(step, forest))
}

/// Whether the forest has the bucket that the step takes, if it takes one.
fn is_step_known(step: &Step, forest: &Forest) -> bool
    ensures { result ≡ takes_known forest.now step.now }
{
    match step {
        Step::Take(bucket) => forest.bucket(*bucket).is_some(),
        _ => true,
    }
}
