//! Rules as JSON texts state them.

ghost use Rattle.std.specs.Prelude.{◌≡◌, option_map};
ghost use Rattle.json.specs.Json.{parse_map};
ghost use Rattle.serde_json.specs.Data.{array};
ghost use Rattle.jsonstream.specs.Stream.{rest_of_list, TakesValue};
ghost use Rattle.partjson.specs.StatedMaps.{rule_kind, rule_kind_of, stated_step, stated_rule};
ghost use Rattle.partjson.specs.Steps.{step_word, step_word_of, one_number, emit_with, choose_with, step_with, step_if};

use crate::fields::Must;
use crate::lists::{entries, next_entry};
use crate::objects::{And, fields, object, parts, read_object};
use crate::values::FromJson;
use crate::words::{FromWord, word};
use crush::{Mode, RuleKind};
use json::Reader;
use jsonstream::tokens::list_begins;
use mapparts::{ChoosePart, RulePart, StepPart};
use refusal::Refusal;
use std::alloc::Global;

impl FromWord for RuleKind {
    ghost means = { rule_kind };

    fn from_word(word: &str) -> Option<RuleKind> {
        match word {
            "replicated" => Some(RuleKind::Replicated),
            "erasure" => Some(RuleKind::Erasure),
            _ => None,
        }
    }
}

impl FromJson for RuleKind {
    ghost stated = { rule_kind_of };

    fn read(
        _alloc: Global,
        reader: &mut Reader<'_>,
        depth: usize,
    ) -> Result<Option<RuleKind>, Refusal> {
        word(reader, depth)
    }
}

/// The word of a step.
#[derive(Clone, Copy, Debug, PartialEq, Eq)]
enum StepWord {
    /// `take`.
    Take,
    /// `choose_firstn`, `choose_indep`, `chooseleaf_firstn` or `chooseleaf_indep`: the mode, and whether a
    /// device is taken below.
    Choose(Mode, bool),
    /// `emit`.
    Emit,
    /// `set_choose_tries`.
    Tries,
    /// `set_chooseleaf_tries`.
    LeafTries,
    /// `set_chooseleaf_vary_r`.
    LeafVary,
    /// `set_chooseleaf_stable`.
    LeafStable,
}

impl FromWord for StepWord {
    ghost means = { step_word };

    fn from_word(word: &str) -> Option<StepWord> {
        match word {
            "take" => Some(StepWord::Take),
            "choose_firstn" => Some(StepWord::Choose(Mode::Firstn, false)),
            "choose_indep" => Some(StepWord::Choose(Mode::Indep, false)),
            "chooseleaf_firstn" => Some(StepWord::Choose(Mode::Firstn, true)),
            "chooseleaf_indep" => Some(StepWord::Choose(Mode::Indep, true)),
            "emit" => Some(StepWord::Emit),
            "set_choose_tries" => Some(StepWord::Tries),
            "set_chooseleaf_tries" => Some(StepWord::LeafTries),
            "set_chooseleaf_vary_r" => Some(StepWord::LeafVary),
            "set_chooseleaf_stable" => Some(StepWord::LeafStable),
            _ => None,
        }
    }
}

impl FromJson for StepWord {
    ghost stated = { step_word_of };

    fn read(
        _alloc: Global,
        reader: &mut Reader<'_>,
        depth: usize,
    ) -> Result<Option<StepWord>, Refusal> {
        word(reader, depth)
    }
}

/// The one number behind a word.
fn one_number(numbers: &[i128]) -> Option<i128>
    ensures { result ≡ one_number numbers.now }
{
    match numbers {
        [number] => Some(*number),
        _ => None,
    }
}

/// `[word, count, type]`, where the word has told the rest.
fn choose_step(mode: Mode, to_leaf: bool, numbers: &[i128]) -> Option<StepPart>
    ensures { result ≡ choose_with mode to_leaf numbers.now }
{
    match numbers {
        [count, level] => Some(StepPart::Choose(ChoosePart {
            mode,
            to_leaf,
            count: *count,
            level: *level,
        })),
        _ => None,
    }
}

/// `["emit"]`.
fn emit_step(numbers: &[i128]) -> Option<StepPart>
    ensures { result ≡ emit_with numbers.now }
{
    match numbers {
        [] => Some(StepPart::Emit),
        _ => None,
    }
}

/// The step of a word and the numbers behind it.
fn step_with(word: StepWord, numbers: &[i128]) -> Option<StepPart>
    ensures { result ≡ step_with word numbers.now }
{
    match word {
        StepWord::Take => Some(StepPart::Take(one_number(numbers)?)),
        StepWord::Choose(mode, to_leaf) => choose_step(mode, to_leaf, numbers),
        StepWord::Emit => emit_step(numbers),
        StepWord::Tries => Some(StepPart::SetChooseTries(one_number(numbers)?)),
        StepWord::LeafTries => Some(StepPart::SetChooseleafTries(one_number(numbers)?)),
        StepWord::LeafVary => Some(StepPart::SetChooseleafVaryR(one_number(numbers)?)),
        StepWord::LeafStable => Some(StepPart::SetChooseleafStable(one_number(numbers)?)),
    }
}

/// The step of a word and what is behind it, where all of that are numbers.
fn step_of_list(word: Option<StepWord>, numbers: Option<Vec<i128>>) -> Option<StepPart>
    ensures { result ≡ step_if word (option_map (λ v. v.items) numbers) }
{
    let word = word?;
    let numbers = numbers?;
    step_with(word, numbers.as_slice())
}

/// The step that what is left of a list states.
#[tactic(auto, unfolding(crate::specs::StatedMaps::stated_step))]
fn rest_of_step(
    alloc: Global,
    reader: &mut Reader<'_>,
    depth: usize,
) -> Result<Option<StepPart>, Refusal>
    ensures { TakesValue
        (parse_map (λ ds. stated_step (array ds)) (rest_of_list depth reader.old)) result reader.new }
{
    let Some(word) = next_entry(alloc, reader, depth)? else {
        return Ok(None);
    };
    let numbers = entries(alloc, reader, depth)?;
    Ok(step_of_list(word, numbers))
}

impl FromJson for StepPart {
    ghost stated = { stated_step };

    #[tactic(auto, using(crate::proofs::Steps::no_step))]
    fn read(
        alloc: Global,
        reader: &mut Reader<'_>,
        depth: usize,
    ) -> Result<Option<StepPart>, Refusal> {
        if !list_begins(reader, depth)? {
            return Ok(None);
        }
        rest_of_step(alloc, reader, depth - 1)
    }
}

impl FromJson for RulePart {
    ghost stated = { stated_rule };

    #[tactic(auto, unfolding(crate::specs::StatedMaps::stated_rule))]
    fn read(
        alloc: Global,
        reader: &mut Reader<'_>,
        depth: usize,
    ) -> Result<Option<RulePart>, Refusal> {
        object!(alloc, reader, depth, RulePart {
            id: Must "id",
            kind: Must "kind",
            steps: Must "steps",
        })
    }
}
