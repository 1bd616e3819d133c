//! Maps as JSON texts state them.

ghost use Rattle.std.specs.Prelude.{◌≡◌};
ghost use Rattle.std.specs.List.{list_any};
ghost use Rattle.json.specs.Json.{parse_map};
ghost use Rattle.jsonstream.specs.Stream.{next, TakesValue};
ghost use Rattle.partjson.specs.StatedMaps.{states_tries, map_of, in_its_version, stated_map};

use crate::fields::{MayList, Must};
use crate::objects::{And, fields, object, parts, read_object};
use crate::values::FromJson;
use json::Reader;
use mapparts::{MapParts, RulePart, StepPart};
use refusal::Refusal;
use std::alloc::Global;

/// Whether a step sets how a choose step tries.
fn sets_tries(step: &StepPart) -> bool
    ensures { result ≡ states_tries step.now }
{
    match step {
        StepPart::SetChooseTries(_)
        | StepPart::SetChooseleafTries(_)
        | StepPart::SetChooseleafVaryR(_)
        | StepPart::SetChooseleafStable(_) => true,
        StepPart::Take(_) | StepPart::Choose(_) | StepPart::Emit => false,
    }
}

/// Whether a rule sets tries.
fn rule_sets_tries(rule: &RulePart) -> bool
    ensures { result ≡ list_any states_tries rule.now.steps }
{
    rule.steps.iter().any(|step| sets_tries(step))
}

/// Whether one of some rules sets tries.
fn set_tries(rules: &[RulePart]) -> bool
    ensures { result ≡ list_any (λ r. list_any states_tries r.steps) rules.now }
{
    rules.iter().any(|rule| rule_sets_tries(rule))
}

/// Parts whose rules set tries in version 2 alone.
fn in_its_version(parts: MapParts) -> Option<MapParts>
    ensures { result ≡ in_its_version parts }
{
    if parts.version != 2 && set_tries(&parts.rules) {
        return None;
    }
    Some(parts)
}

/// The parts that the next value states of a map, whatever its version.
#[tactic(auto, unfolding(crate::specs::StatedMaps::map_of))]
fn any_map(
    alloc: Global,
    reader: &mut Reader<'_>,
    depth: usize,
) -> Result<Option<MapParts>, Refusal>
    ensures { TakesValue (parse_map map_of (next depth reader.old)) result reader.new }
{
    object!(alloc, reader, depth, MapParts {
        buckets: Must "buckets",
        epoch: Must "epoch",
        max_osd: Must "max_osd",
        osds: Must "osds",
        pg_upmap: MayList "pg_upmap",
        pg_upmap_items: MayList "pg_upmap_items",
        pools: Must "pools",
        rules: Must "rules",
        version: Must "version",
    })
}

impl FromJson for MapParts {
    ghost stated = { stated_map };

    #[tactic(auto, using(jsonstream::proofs::Taken::read_on), unfolding(crate::specs::StatedMaps::stated_map))]
    fn read(
        alloc: Global,
        reader: &mut Reader<'_>,
        depth: usize,
    ) -> Result<Option<MapParts>, Refusal> {
        let Some(parts) = any_map(alloc, reader, depth)? else {
            return Ok(None);
        };
        Ok(in_its_version(parts))
    }
}
