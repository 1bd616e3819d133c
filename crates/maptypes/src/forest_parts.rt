//! The buckets that parts within the limits state.

ghost use Rattle.std.specs.Prelude.{◌≡◌, true, map, IfOk};
ghost use Rattle.std.specs.List.{list_all};
ghost use Rattle.mapparts.specs.Parts.{item_fits, bucket_fits};
ghost use Rattle.maptypes.specs.Values.{item_of, bucket_of};

use buckets::{Bucket, Item};
use keylist::Entries;
use mapparts::numbers::{byte, item_id, word};
use mapparts::{BucketPart, ItemPart};
use std::alloc::{AllocError, Global};

/// The item that a part within the limits states.
fn item_of(part: &ItemPart) -> Item
    requires { item_fits part.now ≡ true }
    ensures { result ≡ item_of part.now }
{
    Item {
        id: item_id(part.id),
        weight: word(part.weight),
    }
}

/// The items that parts within the limits state, in their order.
fn items_of(alloc: Global, parts: &[ItemPart]) -> Result<Vec<Item>, AllocError>
    requires { list_all item_fits parts.now ≡ true }
    ensures { IfOk result (λ items. items.items ≡ map item_of parts.now) }
{
    let mut items = Vec::with_capacity(alloc, parts.len())?;
    for part in parts {
        items.push(item_of(part))?;
    }
    Ok(items)
}

/// The bucket that a part within the limits states.
fn bucket_of(alloc: Global, part: &BucketPart) -> Result<Bucket, AllocError>
    requires { bucket_fits part.now ≡ true }
    ensures { IfOk result (λ bucket. bucket ≡ bucket_of part.now) }
{
    Ok(Bucket {
        id: item_id(part.id),
        level: byte(part.level),
        kind: part.kind,
        items: Entries::new(items_of(alloc, &part.items)?),
    })
}

/// The buckets that parts within the limits state, in their order.
pub(crate) fn buckets_of(alloc: Global, parts: &[BucketPart]) -> Result<Vec<Bucket>, AllocError>
    requires { list_all bucket_fits parts.now ≡ true }
    ensures { IfOk result (λ buckets. buckets.items ≡ map bucket_of parts.now) }
{
    let mut buckets = Vec::with_capacity(alloc, parts.len())?;
    for part in parts {
        buckets.push(bucket_of(alloc, part)?)?;
    }
    Ok(buckets)
}
