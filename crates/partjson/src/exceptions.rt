//! Exceptions as JSON texts state them.

ghost use Rattle.std.specs.Prelude.{◌≡◌, option_map};
ghost use Rattle.mapparts.specs.PgText.{parts_in};
ghost use Rattle.partjson.specs.StatedMaps.{stated_pg, stated_pair, stated_exception};
ghost use Rattle.partjson.specs.Places.{pair_at};

use crate::values::FromJson;
use crate::words::{FromWord, word};
use json::Reader;
use keylist::Entries;
use mapparts::{ExceptionPart, PairPart, PgParts};
use refusal::Refusal;
use std::alloc::Global;

impl FromWord for PgParts {
    ghost means = { parts_in };

    fn from_word(word: &str) -> Option<PgParts> {
        PgParts::read(word.as_bytes())
    }
}

impl FromJson for PgParts {
    ghost stated = { stated_pg };

    fn read(
        _alloc: Global,
        reader: &mut Reader<'_>,
        depth: usize,
    ) -> Result<Option<PgParts>, Refusal> {
        word(reader, depth)
    }
}

/// A pair of the numbers at its places.
fn pair_of_places(places: Option<(i128, i128)>) -> Option<PairPart>
    ensures { result ≡ option_map pair_at places }
{
    let (from, to) = places?;
    Some(PairPart { from, to })
}

impl FromJson for PairPart {
    ghost stated = { stated_pair };

    fn read(
        alloc: Global,
        reader: &mut Reader<'_>,
        depth: usize,
    ) -> Result<Option<PairPart>, Refusal> {
        let places: Option<(i128, i128)> = FromJson::read(alloc, reader, depth)?;
        Ok(pair_of_places(places))
    }
}

impl<E: FromJson> FromJson for ExceptionPart<E> {
    ghost stated = { stated_exception E.stated };

    fn read(
        alloc: Global,
        reader: &mut Reader<'_>,
        depth: usize,
    ) -> Result<Option<ExceptionPart<E>>, Refusal> {
        let places: Option<(PgParts, Entries<E>)> = FromJson::read(alloc, reader, depth)?;
        let Some((pg, entries)) = places else {
            return Ok(None);
        };
        Ok(Some(ExceptionPart { pg, entries }))
    }
}
