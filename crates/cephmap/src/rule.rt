//! Rules of the CRUSH map.

ghost use Rattle.std.specs.Prelude.{◌≡◌, ℕ};
ghost use Rattle.cephmap.specs.Rules.{choose_word_of, set_word_of, step_word_of, step, rule};

use cephbytes::{FromBytes, Listed, ReadError, Refused, entries_at};
use std::alloc::Global;

/// What a step of a rule does.
#[derive(Clone, Copy, Debug, PartialEq, Eq)]
pub enum StepWord {
    /// Nothing.
    Nothing,
    /// Takes the device or the bucket `first`.
    Take,
    /// Chooses `first` items of type `second`, first n.
    ChooseFirstN,
    /// Chooses `first` items of type `second`, in independent places.
    ChooseIndep,
    /// Gives out what was chosen.
    Emit,
    /// Chooses `first` items of type `second`, first n, and a device below each.
    ChooseLeafFirstN,
    /// Chooses `first` items of type `second`, in independent places, and a device below each.
    ChooseLeafIndep,
    /// From now on a choice is tried `first` times.
    SetChooseTries,
    /// From now on the choice of a device is tried `first` times.
    SetChooseLeafTries,
    /// From now on a choice is tried `first` times in the same bucket.
    SetChooseLocalTries,
    /// From now on a choice is tried `first` times in the same bucket, by a permutation.
    SetChooseLocalFallbackTries,
    /// From now on `chooseleaf_vary_r` is `first`.
    SetChooseLeafVaryR,
    /// From now on `chooseleaf_stable` is `first`.
    SetChooseLeafStable,
}

/// The word of a number below 8: one that takes, chooses or gives out.
fn choose_word_of(number: u32) -> Result<StepWord, Refused>
    ensures { result ≡ choose_word_of number }
{
    match number {
        0 => Ok(StepWord::Nothing),
        1 => Ok(StepWord::Take),
        2 => Ok(StepWord::ChooseFirstN),
        3 => Ok(StepWord::ChooseIndep),
        4 => Ok(StepWord::Emit),
        6 => Ok(StepWord::ChooseLeafFirstN),
        7 => Ok(StepWord::ChooseLeafIndep),
        _ => Err(Refused::Unknown),
    }
}

/// The word of a number from 8 on: one that sets something.
fn set_word_of(number: u32) -> Result<StepWord, Refused>
    ensures { result ≡ set_word_of number }
{
    match number {
        8 => Ok(StepWord::SetChooseTries),
        9 => Ok(StepWord::SetChooseLeafTries),
        10 => Ok(StepWord::SetChooseLocalTries),
        11 => Ok(StepWord::SetChooseLocalFallbackTries),
        12 => Ok(StepWord::SetChooseLeafVaryR),
        13 => Ok(StepWord::SetChooseLeafStable),
        _ => Err(Refused::Unknown),
    }
}

/// The word of a number.
fn step_word_of(number: u32) -> Result<StepWord, Refused>
    ensures { result ≡ step_word_of number }
{
    if number < 8 {
        choose_word_of(number)
    } else {
        set_word_of(number)
    }
}

/// A step of a rule.
#[derive(Clone, Copy, Debug, PartialEq, Eq)]
pub struct Step {
    /// What it does.
    pub word: StepWord,
    /// The first number of it.
    pub first: i32,
    /// The second number of it.
    pub second: i32,
}

impl FromBytes for Step {
    const LEAST: u32 = 12;

    ghost LEAST = { 12 };

    ghost form = { step };

    #[tactic(auto, unfolding(crate::specs::Rules::step))]
    fn read(alloc: Global, bytes: &[u8]) -> Result<(Step, &[u8]), ReadError> {
        let (number, rest) = u32::read(alloc, bytes)?;
        let word = step_word_of(number)?;
        let (first, rest) = i32::read(alloc, rest)?;
        let (second, rest) = i32::read(alloc, rest)?;
        Ok((
            Step {
                word,
                first,
                second,
            },
            rest,
        ))
    }
}

/// A rule.
#[derive(Debug, Drop)]
pub struct Rule {
    /// The number of its set, which no release since Luminous asks for.
    pub set: u8,
    /// What it is for, by the number of a pool's kind: 1 for copies, 3 for coded parts.
    pub kind: u8,
    /// The least size of a pool that it serves.
    pub least: u8,
    /// The greatest size of a pool that it serves.
    pub most: u8,
    /// Its steps.
    pub steps: Listed<Step>,
}

impl FromBytes for Rule {
    const LEAST: u32 = 8;

    ghost LEAST = { 8 };

    ghost form = { rule };

    #[tactic(auto, unfolding(crate::specs::Rules::rule))]
    fn read(alloc: Global, bytes: &[u8]) -> Result<(Rule, &[u8]), ReadError> {
        let (size, rest) = u32::read(alloc, bytes)?;
        let (set, rest) = u8::read(alloc, rest)?;
        let (kind, rest) = u8::read(alloc, rest)?;
        let (least, rest) = u8::read(alloc, rest)?;
        let (most, rest) = u8::read(alloc, rest)?;
        let (steps, rest) = entries_at::<Step>(alloc, size, rest)?;
        Ok((
            Rule {
                set,
                kind,
                least,
                most,
                steps,
            },
            rest,
        ))
    }
}
