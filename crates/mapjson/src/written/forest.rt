//! What is written of a forest and of rules.

ghost use Rattle.std.specs.Prelude.{◌≡◌, ◌∷◌, ◌++◌, [], codes, OnOk};
ghost use Rattle.serde_json.specs.Data.{string};
ghost use Rattle.crush.specs.declared.step.Step.TheVariants.{Choose as TheChoose};
ghost use Rattle.mapparts.specs.declared.parts.BucketPart.{BucketPart};
ghost use Rattle.mapparts.specs.declared.parts.ItemPart.{ItemPart};
ghost use Rattle.mapparts.specs.declared.parts.RulePart.{RulePart};
ghost use Rattle.mapparts.specs.declared.parts.StepPart.{StepPart};
ghost use Rattle.mapparts.specs.declared.parts.CrushParts.{CrushParts};
ghost use Rattle.osdmap.specs.PartsOf.{item_part, bucket_part, step_part, rule_part};
ghost use Rattle.mapjson.specs.Written.{number_data, list_of, kind_word, item_data, bucket_data, use_word, choose_word, step_data, rule_data};
ghost use Rattle.mapjson.specs.Pieces.{tokens_of, IsReadBack};
ghost use Rattle.mapjson.specs.PartsOfChange.{crush_parts};
ghost use Rattle.mapjson.specs.WrittenChanges.{crush_data};

use crate::written::value::{WriteJson, integer, integer_member, list_member, word_member};
use buckets::{Bucket, BucketKind, Item};
use crush::{Choose, Mode, RuleKind, Step};
use json::Writer;
use maptypes::{CrushMap, NumberedRule};
use std::alloc::{AllocError, Global};

/// The word of a bucket's kind.
fn kind_word(kind: BucketKind) -> &'static str
    ensures { result.now ≡ kind_word kind }
{
    match kind {
        BucketKind::Uniform => "uniform",
        BucketKind::List => "list",
        BucketKind::Tree => "tree",
        BucketKind::Straw2 => "straw2",
    }
}

/// The word of what a rule or a pool is for.
pub(crate) fn use_word(kind: RuleKind) -> &'static str
    ensures { result.now ≡ use_word kind }
{
    match kind {
        RuleKind::Replicated => "replicated",
        RuleKind::Erasure => "erasure",
    }
}

/// The word of a choose step.
fn choose_word(mode: Mode, to_leaf: bool) -> &'static str
    ensures { result.now ≡ choose_word mode to_leaf }
{
    match (mode, to_leaf) {
        (Mode::Firstn, false) => "choose_firstn",
        (Mode::Indep, false) => "choose_indep",
        (Mode::Firstn, true) => "chooseleaf_firstn",
        (Mode::Indep, true) => "chooseleaf_indep",
    }
}

impl WriteJson for Item {
    ghost Part = { ItemPart };

    ghost part = { item_part };

    ghost written = { item_data };

    fn write_json(&self, _alloc: Global, out: &mut Writer) -> Result<(), AllocError> {
        out.begin_array()?;
        integer(out, i64::from(self.id))?;
        integer(out, i64::from(self.weight))?;
        out.end_array()
    }
}

impl WriteJson for Bucket {
    ghost Part = { BucketPart };

    ghost part = { bucket_part };

    ghost written = { bucket_data };

    #[tactic(auto, unfolding(crate::specs::Written::bucket_data))]
    fn write_json(&self, alloc: Global, out: &mut Writer) -> Result<(), AllocError> {
        out.begin_object()?;
        integer_member(out, "id", i64::from(self.id))?;
        list_member(alloc, out, "items", &self.items)?;
        word_member(out, "kind", kind_word(self.kind))?;
        integer_member(out, "type", i64::from(self.level))?;
        out.end_object()
    }
}

/// Writes a step that sets how a choose step tries: its word and the number.
fn set_step(out: &mut Writer, word: &str, number: i64) -> Result<(), AllocError>
    ensures tokens { OnOk result (out.new.tokens
        ≡ out.old.tokens ++ tokens_of (list_of (string word.now ∷ number_data number ∷ []))) }
    ensures before { out.new.before ≡ out.old.before }
    ensures back { OnOk result (IsReadBack (list_of (string word.now ∷ number_data number ∷ []))) }
{
    out.begin_array()?;
    out.string(word)?;
    integer(out, number)?;
    out.end_array()
}

/// Writes a choose step.
#[tactic(auto, unfolding(crate::specs::Written::step_data))]
fn choose_step(out: &mut Writer, choose: &Choose) -> Result<(), AllocError>
    ensures tokens { OnOk result (out.new.tokens
        ≡ out.old.tokens ++ tokens_of (step_data (step_part (TheChoose choose.now)))) }
    ensures before { out.new.before ≡ out.old.before }
    ensures back { OnOk result (IsReadBack (step_data (step_part (TheChoose choose.now)))) }
{
    out.begin_array()?;
    out.string(choose_word(choose.mode, choose.to_leaf))?;
    integer(out, i64::from(choose.count))?;
    integer(out, i64::from(choose.level))?;
    out.end_array()
}

/// Writes the step that ends a block.
fn emit_step(out: &mut Writer) -> Result<(), AllocError>
    ensures tokens { OnOk result (out.new.tokens
        ≡ out.old.tokens ++ tokens_of (list_of (string (codes "emit") ∷ []))) }
    ensures before { out.new.before ≡ out.old.before }
{
    out.begin_array()?;
    out.string("emit")?;
    out.end_array()
}

impl WriteJson for Step {
    ghost Part = { StepPart };

    ghost part = { step_part };

    ghost written = { step_data };

    #[tactic(auto, unfolding(crate::specs::Written::step_data))]
    fn write_json(&self, _alloc: Global, out: &mut Writer) -> Result<(), AllocError> {
        match self {
            Step::SetChooseTries(tries) => set_step(out, "set_choose_tries", i64::from(*tries)),
            Step::SetChooseleafTries(tries) => set_step(
                out,
                "set_chooseleaf_tries",
                i64::from(*tries),
            ),
            Step::SetChooseleafVaryR(vary) => set_step(
                out,
                "set_chooseleaf_vary_r",
                i64::from(*vary),
            ),
            Step::SetChooseleafStable(stable) => set_step(
                out,
                "set_chooseleaf_stable",
                i64::from(*stable),
            ),
            Step::Take(id) => set_step(out, "take", i64::from(*id)),
            Step::Choose(choose) => choose_step(out, choose),
            Step::Emit => emit_step(out),
        }
    }
}

impl WriteJson for NumberedRule {
    ghost Part = { RulePart };

    ghost part = { rule_part };

    ghost written = { rule_data };

    #[tactic(auto, unfolding(crate::specs::Written::rule_data))]
    fn write_json(&self, alloc: Global, out: &mut Writer) -> Result<(), AllocError> {
        out.begin_object()?;
        integer_member(out, "id", i64::from(self.id))?;
        word_member(out, "kind", use_word(self.rule.kind()))?;
        list_member(alloc, out, "steps", self.rule.steps())?;
        out.end_object()
    }
}

impl WriteJson for CrushMap {
    ghost Part = { CrushParts };

    ghost part = { crush_parts };

    ghost written = { crush_data };

    #[tactic(auto, unfolding(crate::specs::WrittenChanges::crush_data))]
    fn write_json(&self, alloc: Global, out: &mut Writer) -> Result<(), AllocError> {
        out.begin_object()?;
        list_member(alloc, out, "buckets", self.forest().buckets())?;
        list_member(alloc, out, "rules", self.rules())?;
        out.end_object()
    }
}
