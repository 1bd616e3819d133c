//! What a value can state; numbers and flags.

ghost use Rattle.std.specs.Prelude.{Option};
ghost use Rattle.json.specs.Json.{parse_map};
ghost use Rattle.serde_json.specs.Data.{Data};
ghost use Rattle.serde_json.specs.Find.{as_bool};
ghost use Rattle.jsonstream.specs.Json.{whole_number};
ghost use Rattle.jsonstream.specs.Stream.{next, TakesValue};

use json::Reader;
use jsonstream::tokens::{flag, number};
use refusal::Refusal;
use std::alloc::Global;

/// What a JSON value can state.
pub(crate) trait FromJson: Drop {
    ghost stated: { Data → Option Self };

    /// What the next value states: `None` where that is nothing of the kind.
    fn read(alloc: Global, reader: &mut Reader<'_>, depth: usize) -> Result<Option<Self>, Refusal>
        ensures { TakesValue (parse_map stated (next depth reader.old)) result reader.new };
}

impl FromJson for i128 {
    ghost stated = { whole_number };

    fn read(
        _alloc: Global,
        reader: &mut Reader<'_>,
        depth: usize,
    ) -> Result<Option<i128>, Refusal> {
        number(reader, depth)
    }
}

impl FromJson for bool {
    ghost stated = { as_bool };

    fn read(
        _alloc: Global,
        reader: &mut Reader<'_>,
        depth: usize,
    ) -> Result<Option<bool>, Refusal> {
        flag(reader, depth)
    }
}
