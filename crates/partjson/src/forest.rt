//! The forest as JSON texts state it.

ghost use Rattle.std.specs.Prelude.{◌≡◌, option_map};
ghost use Rattle.partjson.specs.StatedMaps.{bucket_kind, bucket_kind_of, stated_item, stated_bucket};
ghost use Rattle.partjson.specs.Places.{item_placed};

use crate::fields::Must;
use crate::objects::{And, fields, object, parts, read_object};
use crate::values::FromJson;
use crate::words::{FromWord, word};
use buckets::BucketKind;
use json::Reader;
use mapparts::{BucketPart, ItemPart};
use refusal::Refusal;
use std::alloc::Global;

impl FromWord for BucketKind {
    ghost means = { bucket_kind };

    fn from_word(word: &str) -> Option<BucketKind> {
        match word {
            "uniform" => Some(BucketKind::Uniform),
            "list" => Some(BucketKind::List),
            "tree" => Some(BucketKind::Tree),
            "straw2" => Some(BucketKind::Straw2),
            _ => None,
        }
    }
}

impl FromJson for BucketKind {
    ghost stated = { bucket_kind_of };

    fn read(
        _alloc: Global,
        reader: &mut Reader<'_>,
        depth: usize,
    ) -> Result<Option<BucketKind>, Refusal> {
        word(reader, depth)
    }
}

/// An item of the numbers at its places.
fn item_of_places(places: Option<(i128, i128)>) -> Option<ItemPart>
    ensures { result ≡ option_map item_placed places }
{
    let (id, weight) = places?;
    Some(ItemPart { id, weight })
}

impl FromJson for ItemPart {
    ghost stated = { stated_item };

    fn read(
        alloc: Global,
        reader: &mut Reader<'_>,
        depth: usize,
    ) -> Result<Option<ItemPart>, Refusal> {
        let places: Option<(i128, i128)> = FromJson::read(alloc, reader, depth)?;
        Ok(item_of_places(places))
    }
}

impl FromJson for BucketPart {
    ghost stated = { stated_bucket };

    #[tactic(auto, unfolding(crate::specs::StatedMaps::stated_bucket))]
    fn read(
        alloc: Global,
        reader: &mut Reader<'_>,
        depth: usize,
    ) -> Result<Option<BucketPart>, Refusal> {
        object!(alloc, reader, depth, BucketPart {
            id: Must "id",
            items: Must "items",
            kind: Must "kind",
            level: Must "type",
        })
    }
}
