//! Changes as JSON texts state them.

ghost use Rattle.std.specs.Prelude.{◌≡◌, option_map};
ghost use Rattle.partjson.specs.StatedChanges.{reweight_of, crush_of, change_with, stated_change};
ghost use Rattle.partjson.specs.Places.{reweight_at};

use crate::fields::{May, MayList, Must};
use crate::objects::{And, fields, object, parts, read_object};
use crate::values::FromJson;
use json::Reader;
use keylist::Entries;
use mapparts::{
    BucketPart, CrushParts, ExceptionChanges, ExceptionPart, GrowPart, OsdChanges, PairPart,
    PgParts, PoolChanges, PoolPart, RawChange, ReweightPart, RulePart,
};
use refusal::Refusal;
use std::alloc::Global;

/// A reweight of the numbers at its places.
fn reweight_of_places(places: Option<(i128, i128)>) -> Option<ReweightPart>
    ensures { result ≡ option_map reweight_at places }
{
    let (osd, weight) = places?;
    Some(ReweightPart { osd, weight })
}

impl FromJson for ReweightPart {
    ghost stated = { reweight_of };

    fn read(
        alloc: Global,
        reader: &mut Reader<'_>,
        depth: usize,
    ) -> Result<Option<ReweightPart>, Refusal> {
        let places: Option<(i128, i128)> = FromJson::read(alloc, reader, depth)?;
        Ok(reweight_of_places(places))
    }
}

impl FromJson for CrushParts {
    ghost stated = { crush_of };

    #[tactic(auto, unfolding(crate::specs::StatedChanges::crush_of))]
    fn read(
        alloc: Global,
        reader: &mut Reader<'_>,
        depth: usize,
    ) -> Result<Option<CrushParts>, Refusal> {
        object!(alloc, reader, depth, CrushParts {
            buckets: Must "buckets",
            rules: Must "rules",
        })
    }
}

/// The fields of a change of which nothing has come, by the kind of its base.
macro_rules! change_fields {
    ($base:ident) => {
        fields!(
            $base "base",
            MayList "down",
            MayList "grow_pool",
            May "new_crush",
            MayList "new_items",
            MayList "new_pools",
            MayList "new_upmap",
            MayList "old_items",
            MayList "old_pools",
            MayList "old_upmap",
            MayList "up",
            MayList "weight"
        )
    };
}

pub(crate) use change_fields;

/// What the fields of a change make: those of the exceptions and behind them,
type Behind = (
    Entries<PgParts>,
    (
        Entries<i128>,
        (
            Entries<PgParts>,
            (Entries<i128>, (Entries<ReweightPart>, ())),
        ),
    ),
);

/// the new parts before them,
type New = (
    Option<CrushParts>,
    (
        Entries<ExceptionPart<PairPart>>,
        (Entries<PoolPart>, (Entries<ExceptionPart<i128>>, Behind)),
    ),
);

/// and all.
type Found = (i128, (Entries<i128>, (Entries<GrowPart>, New)));

/// The change of what its fields make.
#[inline(always)]
pub(crate) fn change_with(found: Option<Found>) -> Option<RawChange>
    ensures { result ≡ option_map change_with found }
{
    let parts!(
        base, down, grow_pool, new_crush, new_items, new_pools, new_upmap, old_items, old_pools,
        old_upmap, up, weight
    ) = found?;
    Some(RawChange {
        base,
        pools: PoolChanges {
            gone: old_pools,
            come: new_pools,
            grow: grow_pool,
        },
        crush: new_crush,
        osds: OsdChanges { down, up },
        weights: weight,
        explicit: ExceptionChanges {
            gone: old_upmap,
            come: new_upmap,
        },
        items: ExceptionChanges {
            gone: old_items,
            come: new_items,
        },
    })
}

impl FromJson for RawChange {
    ghost stated = { stated_change };

    fn read(
        alloc: Global,
        reader: &mut Reader<'_>,
        depth: usize,
    ) -> Result<Option<RawChange>, Refusal> {
        let mut table = change_fields!(Must);
        let found = read_object(alloc, reader, depth, &mut table)?;
        Ok(change_with(found))
    }
}
