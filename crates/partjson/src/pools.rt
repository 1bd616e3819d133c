//! Pools, what they grow to, and OSDs as JSON texts state them.

ghost use Rattle.std.specs.Prelude.{◌≡◌, option_map};
ghost use Rattle.partjson.specs.Places.{growth_at};
ghost use Rattle.partjson.specs.StatedMaps.{stated_pool, stated_growth, osd_of};

use crate::fields::Must;
use crate::objects::{And, fields, object, parts, read_object};
use crate::values::FromJson;
use json::Reader;
use mapparts::{GrowPart, OsdPart, PoolPart};
use refusal::Refusal;
use std::alloc::Global;

impl FromJson for PoolPart {
    ghost stated = { stated_pool };

    #[tactic(auto, unfolding(crate::specs::StatedMaps::stated_pool))]
    fn read(
        alloc: Global,
        reader: &mut Reader<'_>,
        depth: usize,
    ) -> Result<Option<PoolPart>, Refusal> {
        object!(alloc, reader, depth, PoolPart {
            id: Must "id",
            kind: Must "kind",
            pg_num: Must "pg_num",
            pgp_num: Must "pgp_num",
            rule: Must "rule",
            size: Must "size",
        })
    }
}

/// A growth of the numbers at its places.
fn growth_of_places(places: Option<(i128, i128, i128)>) -> Option<GrowPart>
    ensures { result ≡ option_map growth_at places }
{
    let (pool, pg_num, pgp_num) = places?;
    Some(GrowPart {
        pool,
        pg_num,
        pgp_num,
    })
}

impl FromJson for GrowPart {
    ghost stated = { stated_growth };

    fn read(
        alloc: Global,
        reader: &mut Reader<'_>,
        depth: usize,
    ) -> Result<Option<GrowPart>, Refusal> {
        let places: Option<(i128, i128, i128)> = FromJson::read(alloc, reader, depth)?;
        Ok(growth_of_places(places))
    }
}

impl FromJson for OsdPart {
    ghost stated = { osd_of };

    #[tactic(auto, unfolding(crate::specs::StatedMaps::osd_of))]
    fn read(
        alloc: Global,
        reader: &mut Reader<'_>,
        depth: usize,
    ) -> Result<Option<OsdPart>, Refusal> {
        object!(alloc, reader, depth, OsdPart {
            exists: Must "exists",
            id: Must "id",
            up: Must "up",
            weight: Must "weight",
        })
    }
}
