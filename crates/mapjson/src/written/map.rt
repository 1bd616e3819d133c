//! What is written of a map.

ghost use Rattle.std.specs.Prelude.{◌≡◌, ◌++◌, OnOk, option_map, pos};
ghost use Rattle.std.specs.List.{list_any};
ghost use Rattle.crush.specs.Grammar.{sets_tries};
ghost use Rattle.mapparts.specs.declared.parts.MapParts.{MapParts};
ghost use Rattle.osdmap.specs.PartsOf.{osd_part, part_listed, osd_parts, version_of, parts_of};
ghost use Rattle.mapjson.specs.Written.{list_data, osd_data, AreNamed, map_data};
ghost use Rattle.mapjson.specs.Pieces.{tokens_of, tokens_of_some, IsReadBack, IsSomeReadBack};

use crate::written::value::{WriteJson, boolean_member, epoch_member, integer_member, list_member};
use crush::Step;
use json::Writer;
use maptypes::{NumberedRule, OsdState};
use osdmap::OsdMap;
use std::alloc::{AllocError, Global};

/// Writes an OSD that exists, or has a reweight.
#[tactic(auto, unfolding(crate::specs::Written::osd_data))]
fn existing_osd(out: &mut Writer, id: u32, state: &OsdState) -> Result<(), AllocError>
    ensures tokens { OnOk result (out.new.tokens
        ≡ out.old.tokens ++ tokens_of (osd_data (osd_part id state.now))) }
    ensures before { out.new.before ≡ out.old.before }
    ensures back { OnOk result (IsReadBack (osd_data (osd_part id state.now))) }
{
    out.begin_object()?;
    boolean_member(out, "exists", state.exists)?;
    integer_member(out, "id", i64::from(id))?;
    boolean_member(out, "up", state.up)?;
    integer_member(out, "weight", i64::from(state.weight))?;
    out.end_object()
}

/// Writes an OSD, where anything is written of it.
fn osd(out: &mut Writer, map: &OsdMap, id: u32) -> Result<(), AllocError>
    ensures tokens { OnOk result (out.new.tokens
        ≡ out.old.tokens ++ tokens_of_some (option_map osd_data (part_listed map.now.map id))) }
    ensures before { out.new.before ≡ out.old.before }
    ensures back { OnOk result (IsSomeReadBack (option_map osd_data (part_listed map.now.map id))) }
{
    let Some(state) = map.osd(id) else {
        return Ok(());
    };
    if !state.exists && state.weight == 0 {
        return Ok(());
    }
    existing_osd(out, id, &state)
}

/// Writes the list of the OSDs.
fn osds(out: &mut Writer, map: &OsdMap) -> Result<(), AllocError>
    ensures tokens { OnOk result (out.new.tokens
        ≡ out.old.tokens ++ tokens_of (list_data osd_data (osd_parts map.now.map))) }
    ensures before { out.new.before ≡ out.old.before }
    ensures back { OnOk result (IsReadBack (list_data osd_data (osd_parts map.now.map))) }
{
    out.begin_array()?;
    for id in 0..map.max_osd() {
        osd(out, map, id)?;
    }
    out.end_array()
}

/// Whether a step sets how a choose step tries.
fn sets_tries(step: &Step) -> bool
    ensures { result ≡ sets_tries step.now }
{
    match step {
        Step::SetChooseTries(_)
        | Step::SetChooseleafTries(_)
        | Step::SetChooseleafVaryR(_)
        | Step::SetChooseleafStable(_) => true,
        Step::Take(_) | Step::Choose(_) | Step::Emit => false,
    }
}

/// Whether a rule sets tries.
fn rule_sets_tries(rule: &NumberedRule) -> bool
    ensures { result ≡ list_any sets_tries rule.now.rule.steps }
{
    rule.rule.steps().iter().any(|step| sets_tries(step))
}

/// Whether one of some rules sets tries.
fn set_tries(rules: &[NumberedRule]) -> bool
    ensures { result ≡ list_any (λ r. list_any sets_tries r.rule.steps) rules.now }
{
    rules.iter().any(|rule| rule_sets_tries(rule))
}

/// The version of the form in which rules are written: 2 where one of them sets tries, else 1.
fn version(rules: &[NumberedRule]) -> u32
    ensures { pos result ≡ version_of rules.now }
{
    if set_tries(rules) { 2 } else { 1 }
}

impl WriteJson for OsdMap {
    ghost Part = { MapParts };

    ghost part = { λ m. parts_of m.map };

    ghost written = { map_data };

    ghost named = { λ m. AreNamed (parts_of m.map).pg_upmap × AreNamed (parts_of m.map).pg_upmap_items };

    #[tactic(auto, unfolding(crate::specs::Written::map_data, osdmap::specs::PartsOf::parts_of))]
    fn write_json(&self, alloc: Global, out: &mut Writer) -> Result<(), AllocError> {
        out.begin_object()?;
        list_member(alloc, out, "buckets", self.forest().buckets())?;
        epoch_member(out, "epoch", self.epoch())?;
        integer_member(out, "max_osd", i64::from(self.max_osd()))?;
        out.key("osds")?;
        osds(out, self)?;
        list_member(alloc, out, "pg_upmap", self.explicits())?;
        list_member(alloc, out, "pg_upmap_items", self.all_items())?;
        list_member(alloc, out, "pools", self.pools())?;
        list_member(alloc, out, "rules", self.rules())?;
        integer_member(out, "version", i64::from(version(self.rules())))?;
        out.end_object()
    }
}
