//! Changes without a base, as JSON texts state them.

ghost use Rattle.std.specs.Prelude.{◌≡◌};
ghost use Rattle.json.specs.Json.{parse_map};
ghost use Rattle.jsonstream.specs.Stream.{next, TakesValue};
ghost use Rattle.partjson.specs.StatedChanges.{unbased_change};

use crate::change::{change_fields, change_with};
use crate::fields::{May, MayList, Unstated};
use crate::objects::{And, fields, read_object};
use crate::values::FromJson;
use json::Reader;
use mapparts::RawChange;
use refusal::Refusal;
use std::alloc::Global;
use std::marker::Model;

/// A change as a text states it without a base, which then is 0.
#[derive(Debug, Drop)]
pub(crate) struct Unbased {
    pub(crate) change: RawChange,
}

impl Model for Unbased {
    ghost use Rattle.mapparts.specs.declared.change.RawChange.{RawChange};

    ghost Value = { RawChange };

    ghost view = { λ u. u.change };
}

/// The parts of a change that the next value states without a base.
fn change_at_zero(
    alloc: Global,
    reader: &mut Reader<'_>,
    depth: usize,
) -> Result<Option<RawChange>, Refusal>
    ensures { TakesValue (parse_map unbased_change (next depth reader.old)) result reader.new }
{
    let mut table = change_fields!(Unstated);
    let found = read_object(alloc, reader, depth, &mut table)?;
    Ok(change_with(found))
}

impl FromJson for Unbased {
    ghost stated = { unbased_change };

    fn read(
        alloc: Global,
        reader: &mut Reader<'_>,
        depth: usize,
    ) -> Result<Option<Unbased>, Refusal> {
        let Some(change) = change_at_zero(alloc, reader, depth)? else {
            return Ok(None);
        };
        Ok(Some(Unbased { change }))
    }
}
