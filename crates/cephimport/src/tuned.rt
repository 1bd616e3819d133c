//! The tunables of a CRUSH map, of which a map has none: what rules look at is set by steps at their front, where it is
//! not jewel's.

ghost use Rattle.std.specs.Prelude.{◌≡◌, IfOk};
ghost use Rattle.std.specs.List.{list_any};
ghost use Rattle.cephimport.specs.Tuned.{own, usual, sets, set_by, is_leaf_choice, looks, sets_first, front_step, front, are_settable};

use cephmap::{Step, StepWord, Tunables};
use crush::limits::{MAX_STABLE, MAX_TRIES, MAX_VARY};
use mapparts::StepPart;
use std::alloc::{AllocError, Global};

/// A tunable that a step sets too.
#[derive(Clone, Copy, Debug, PartialEq, Eq)]
pub enum Tuned {
    /// How often a choice is tried.
    Tries,
    /// What the tries of a bucket add to those of a device below it.
    VaryR,
    /// Whether the choice of a device hangs on no other.
    Stable,
}

/// The number of a tunable.
fn own(tuned: Tuned, tunables: &Tunables) -> u32
    ensures { result ≡ own tuned tunables.now }
{
    match tuned {
        Tuned::Tries => tunables.choose_total_tries,
        Tuned::VaryR => u32::from(tunables.chooseleaf_vary_r),
        Tuned::Stable => u32::from(tunables.chooseleaf_stable),
    }
}

/// Its number in jewel.
fn usual(tuned: Tuned) -> u32
    ensures { result ≡ usual tuned }
{
    match tuned {
        Tuned::Tries => 50,
        Tuned::VaryR => 1,
        Tuned::Stable => 1,
    }
}

/// Whether a step sets it.
fn sets(tuned: Tuned, word: StepWord) -> bool
    ensures { result ≡ sets tuned word }
{
    match tuned {
        Tuned::Tries => word == StepWord::SetChooseTries,
        Tuned::VaryR => word == StepWord::SetChooseLeafVaryR,
        Tuned::Stable => word == StepWord::SetChooseLeafStable,
    }
}

/// The step that sets it to a number; one of tries counts the first try too.
fn set_by(tuned: Tuned, number: u32) -> StepPart
    ensures { result ≡ set_by tuned number }
{
    match tuned {
        Tuned::Tries => StepPart::SetChooseTries(i128::from(number) + 1),
        Tuned::VaryR => StepPart::SetChooseleafVaryR(i128::from(number)),
        Tuned::Stable => StepPart::SetChooseleafStable(i128::from(number)),
    }
}

/// Whether some step chooses items with a device below each, first n.
fn has_leaf_choice(steps: &[Step]) -> bool
    ensures { result ≡ list_any is_leaf_choice steps.now }
{
    steps
        .iter()
        .any(|step| step.word == StepWord::ChooseLeafFirstN)
}

/// Whether the steps of a rule look at it.
fn looks(tuned: Tuned, steps: &[Step]) -> bool
    ensures { result ≡ looks tuned steps.now }
{
    match tuned {
        Tuned::Tries => true,
        Tuned::VaryR => has_leaf_choice(steps),
        Tuned::Stable => has_leaf_choice(steps),
    }
}

/// Whether they set it before they take anything.
#[tactic(auto, unfolding(crate::specs::Tuned::sets_first))]
fn sets_first(tuned: Tuned, steps: &[Step]) -> bool
    ensures { result ≡ sets_first tuned steps.now }
{
    match steps {
        [] => false,
        [step, rest @ ..] => {
            step.word != StepWord::Take && (sets(tuned, step.word) || sets_first(tuned, rest))
        }
    }
}

/// The step that stands for it at the front of a rule, where one is needed.
#[tactic(auto, unfolding(crate::specs::Tuned::front_step))]
fn front_step(tuned: Tuned, tunables: &Tunables, steps: &[Step]) -> Option<StepPart>
    ensures { result ≡ front_step tuned tunables.now steps.now }
{
    let number = own(tuned, tunables);
    if number == usual(tuned) || sets_first(tuned, steps) || !looks(tuned, steps) {
        return None;
    }
    Some(set_by(tuned, number))
}

/// The steps at the front of a rule that stand for tunables.
#[tactic(auto, unfolding(crate::specs::Tuned::front))]
pub(crate) fn front(
    alloc: Global,
    tunables: &Tunables,
    steps: &[Step],
) -> Result<Vec<StepPart>, AllocError>
    ensures { IfOk result (λ parts. parts.items ≡ front tunables.now steps.now) }
{
    let mut parts = Vec::new(alloc);
    if let Some(tries) = front_step(Tuned::Tries, tunables, steps) {
        parts.push(tries)?;
    }
    if let Some(vary) = front_step(Tuned::VaryR, tunables, steps) {
        parts.push(vary)?;
    }
    if let Some(stable) = front_step(Tuned::Stable, tunables, steps) {
        parts.push(stable)?;
    }
    Ok(parts)
}

/// Whether all tunables are jewel's, but for those that steps set, and these are within what steps set.
#[tactic(auto, unfolding(crate::specs::Tuned::are_settable))]
pub(crate) fn are_settable(tunables: &Tunables) -> bool
    ensures { result ≡ are_settable tunables.now }
{
    tunables.choose_local_tries == 0
        && tunables.choose_local_fallback_tries == 0
        && tunables.chooseleaf_descend_once == 1
        && tunables.choose_total_tries < u32::from(MAX_TRIES)
        && tunables.chooseleaf_vary_r <= MAX_VARY
        && tunables.chooseleaf_stable <= MAX_STABLE
}
