//! Steps of rules as a map states them.

ghost use Rattle.std.specs.Prelude.{◌≡◌, ◌++◌, OnOk, IfOk};
ghost use Rattle.cephimport.specs.Steps.{is_setting, emits, chooses, count_for, choose_part, other_step, imported_step, is_idle, takes_ahead, idle_ahead, idle_behind, lives, keeps, kept_steps};

use cephmap::{Step, StepWord};
use crush::Mode;
use mapparts::{ChoosePart, StepPart};
use std::alloc::{AllocError, Global};

/// Whether a step sets how later ones choose.
pub(crate) fn is_setting(word: StepWord) -> bool
    ensures { result ≡ is_setting word }
{
    match word {
        StepWord::SetChooseTries
        | StepWord::SetChooseLeafTries
        | StepWord::SetChooseLeafVaryR
        | StepWord::SetChooseLeafStable => true,
        _ => false,
    }
}

/// Whether a step gives out what was chosen.
fn emits(word: StepWord) -> bool
    ensures { result ≡ emits word }
{
    word == StepWord::Emit
}

/// Whether a step chooses.
pub(crate) fn chooses(word: StepWord) -> bool
    ensures { result ≡ chooses word }
{
    match word {
        StepWord::ChooseFirstN
        | StepWord::ChooseIndep
        | StepWord::ChooseLeafFirstN
        | StepWord::ChooseLeafIndep => true,
        _ => false,
    }
}

/// How many items a step chooses for a pool of a size.
#[tactic(auto, unfolding(crate::specs::Steps::count_for))]
fn count_for(size: u8, count: i32) -> i128
    ensures { result ≡ count_for size count }
{
    if count < 0 {
        i128::from(count) + i128::from(size)
    } else {
        i128::from(count)
    }
}

/// A choose step as a map states it.
#[tactic(auto, unfolding(crate::specs::Steps::choose_part))]
fn choose_part(mode: Mode, to_leaf: bool, size: u8, step: &Step) -> StepPart
    ensures { result ≡ choose_part mode to_leaf size step.now }
{
    StepPart::Choose(ChoosePart {
        mode,
        to_leaf,
        count: count_for(size, step.first),
        level: i128::from(step.second),
    })
}

/// A step that does not choose as a map states it.
fn other_step(word: StepWord, number: i128) -> StepPart
    ensures { result ≡ other_step word number }
{
    match word {
        StepWord::Take => StepPart::Take(number),
        StepWord::SetChooseTries => StepPart::SetChooseTries(number),
        StepWord::SetChooseLeafTries => StepPart::SetChooseleafTries(number),
        StepWord::SetChooseLeafVaryR => StepPart::SetChooseleafVaryR(number),
        StepWord::SetChooseLeafStable => StepPart::SetChooseleafStable(number),
        _ => StepPart::Emit,
    }
}

/// A step as a map states it, for a pool of a size.
#[tactic(auto, unfolding(crate::specs::Steps::imported_step))]
fn imported_step(size: u8, step: &Step) -> StepPart
    ensures { result ≡ imported_step size step.now }
{
    match step.word {
        StepWord::ChooseFirstN => choose_part(Mode::Firstn, false, size, step),
        StepWord::ChooseIndep => choose_part(Mode::Indep, false, size, step),
        StepWord::ChooseLeafFirstN => choose_part(Mode::Firstn, step.second != 0, size, step),
        StepWord::ChooseLeafIndep => choose_part(Mode::Indep, true, size, step),
        _ => other_step(step.word, i128::from(step.first)),
    }
}

/// Whether a step chooses as many items as the size less as many or more, which are none.
#[tactic(auto, unfolding(crate::specs::Steps::is_idle))]
fn is_idle(size: u8, step: &Step) -> bool
    ensures { result ≡ is_idle size step.now }
{
    chooses(step.word) && step.first < 0 && count_for(size, step.first) <= 0
}

/// Whether a step before the next emit takes.
#[tactic(auto, unfolding(crate::specs::Steps::takes_ahead))]
fn takes_ahead(steps: &[Step]) -> bool
    ensures { result ≡ takes_ahead steps.now }
{
    match steps {
        [] => false,
        [step, rest @ ..] => {
            !emits(step.word) && (step.word == StepWord::Take || takes_ahead(rest))
        }
    }
}

/// Whether a step before the next emit chooses nothing, and none takes anew behind it.
#[tactic(auto, unfolding(crate::specs::Steps::idle_ahead))]
fn idle_ahead(size: u8, steps: &[Step]) -> bool
    ensures { result ≡ idle_ahead size steps.now }
{
    match steps {
        [] => false,
        [step, rest @ ..] => {
            !emits(step.word)
                && (is_idle(size, step) && !takes_ahead(rest) || idle_ahead(size, rest))
        }
    }
}

/// Whether the block behind a step gives nothing, where that of the step gives nothing or not.
#[tactic(auto, unfolding(crate::specs::Steps::idle_behind))]
fn idle_behind(size: u8, idle: bool, step: &Step, rest: &[Step]) -> bool
    ensures { result ≡ idle_behind size idle step.now rest.now }
{
    if emits(step.word) {
        idle_ahead(size, rest)
    } else {
        idle
    }
}

/// Whether some step takes, chooses or gives out in a block that gives anything.
#[tactic(auto, unfolding(crate::specs::Steps::lives))]
fn lives(size: u8, idle: bool, steps: &[Step]) -> bool
    ensures { result ≡ lives size idle steps.now }
{
    match steps {
        [] => false,
        [step, rest @ ..] => {
            (!is_setting(step.word) && !idle)
                || lives(size, idle_behind(size, idle, step, rest), rest)
        }
    }
}

/// Whether a step stays: what sets something where a later step lives, else where its block gives anything.
#[tactic(auto, unfolding(crate::specs::Steps::keeps))]
fn keeps(size: u8, idle: bool, step: &Step, rest: &[Step]) -> bool
    ensures { result ≡ keeps size idle step.now rest.now }
{
    if is_setting(step.word) {
        lives(size, idle, rest)
    } else {
        !idle
    }
}

/// Puts the steps that stay behind others.
#[tactic(auto, unfolding(crate::specs::Steps::kept_steps))]
fn put_kept(size: u8, idle: bool, steps: &[Step], out: &mut Vec<StepPart>) -> Result<(), AllocError>
    ensures { OnOk result (out.new.items ≡ out.old.items ++ kept_steps size idle steps.now) }
{
    match steps {
        [] => Ok(()),
        [step, rest @ ..] => {
            if keeps(size, idle, step, rest) {
                out.push(imported_step(size, step))?;
            }
            put_kept(size, idle_behind(size, idle, step, rest), rest, out)
        }
    }
}

/// The steps that stay of a rule's, for a pool of a size.
pub(crate) fn kept_of(alloc: Global, size: u8, steps: &[Step]) -> Result<Vec<StepPart>, AllocError>
    ensures { IfOk result (λ kept. kept.items ≡ kept_steps size (idle_ahead size steps.now) steps.now) }
{
    let mut kept = Vec::new(alloc);
    put_kept(size, idle_ahead(size, steps), steps, &mut kept)?;
    Ok(kept)
}
