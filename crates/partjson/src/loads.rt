//! What OSDs carry as JSON texts state it.

ghost use Rattle.std.specs.Prelude.{◌≡◌, option_map};
ghost use Rattle.partjson.specs.StatedLoads.{load_of};
ghost use Rattle.partjson.specs.Places.{load_at};

use crate::values::FromJson;
use json::Reader;
use refusal::Refusal;
use std::alloc::Global;

/// An OSD and what it carries as a text states them.
#[derive(Clone, Copy, Debug, PartialEq, Eq)]
pub struct RawLoad {
    /// 0 to 4,095.
    pub osd: i128,
    /// -2,147,483,648 to 2,147,483,647.
    pub carried: i128,
}

/// A load of the numbers at its places.
fn load_of_places(places: Option<(i128, i128)>) -> Option<RawLoad>
    ensures { result ≡ option_map load_at places }
{
    let (osd, carried) = places?;
    Some(RawLoad { osd, carried })
}

impl FromJson for RawLoad {
    ghost stated = { load_of };

    fn read(
        alloc: Global,
        reader: &mut Reader<'_>,
        depth: usize,
    ) -> Result<Option<RawLoad>, Refusal> {
        let places: Option<(i128, i128)> = FromJson::read(alloc, reader, depth)?;
        Ok(load_of_places(places))
    }
}
