//! Which buckets are in use: those that rules take, and those below them.

ghost use Rattle.std.specs.Prelude.{◌≡◌, true, IfOk};
ghost use Rattle.std.specs.List.{list_any, filter};
ghost use Rattle.cephimport.specs.Reach.{is_one_of, lists_item, stands_below, is_reached, next_round, reach, roots, in_use, kept};

use crate::uses::is_taken;
use cephmap::CephMap;
use mapparts::BucketPart;
use mapparts::limits::MAX_LEVEL;
use std::alloc::{AllocError, Global};

/// Whether an id is among some.
fn is_one_of(ids: &[i128], id: i128) -> bool
    ensures { result ≡ is_one_of ids.now id }
{
    ids.iter().any(|own| *own == id)
}

/// Whether a bucket has an item.
pub(crate) fn lists_item(bucket: &BucketPart, id: i128) -> bool
    ensures { result ≡ lists_item bucket.now id }
{
    bucket.items.iter().any(|item| item.id == id)
}

/// Whether an item stands in a bucket that is among some.
fn stands_below(all: &[BucketPart], ids: &[i128], id: i128) -> bool
    ensures { result ≡ stands_below all.now ids.now id }
{
    all.iter().any(|bucket| lists_item(bucket, id) && is_one_of(ids, bucket.id))
}

/// Whether a bucket is among some, or stands in one of them.
fn is_reached(all: &[BucketPart], ids: &[i128], bucket: &BucketPart) -> bool
    ensures { result ≡ is_reached all.now ids.now bucket.now }
{
    is_one_of(ids, bucket.id) || stands_below(all, ids, bucket.id)
}

/// The buckets that are among some, or stand in one of them.
#[tactic(auto, unfolding(crate::specs::Reach::next_round))]
fn next_round(alloc: Global, all: &[BucketPart], ids: &[i128]) -> Result<Vec<i128>, AllocError>
    ensures { IfOk result (λ found. found.items ≡ next_round all.now ids.now) }
{
    all.iter()
        .filter(|bucket| is_reached(all, ids, *bucket))
        .map(|bucket| bucket.id)
        .collect(alloc)
}

/// Whether ids are the same, in the same order.
fn are_same(ids: &[i128], others: &[i128]) -> bool
    ensures { result ≡ true → ids.now ≡ others.now }
{
    ids == others
}

/// The same, so many times, or until nothing comes.
fn reach(
    alloc: Global,
    rounds: u32,
    all: &[BucketPart],
    from: Vec<i128>,
) -> Result<Vec<i128>, AllocError>
    ensures { IfOk result (λ found. found.items ≡ reach rounds all.now from.items) }
{
    let mut ids = from;
    for _ in 0..rounds {
        let after = next_round(alloc, all, &ids)?;
        if are_same(&after, &ids) {
            return Ok(ids);
        }
        ids = after;
    }
    Ok(ids)
}

/// The buckets that rules take.
#[tactic(auto, unfolding(crate::specs::Reach::roots))]
fn roots(alloc: Global, map: &CephMap, all: &[BucketPart]) -> Result<Vec<i128>, AllocError>
    ensures { IfOk result (λ found. found.items ≡ roots map.now all.now) }
{
    all.iter()
        .filter(|bucket| is_taken(map, bucket.id))
        .map(|bucket| bucket.id)
        .collect(alloc)
}

/// The buckets in use: those that rules take, and those below them.
#[tactic(auto, unfolding(crate::specs::Reach::in_use))]
fn in_use(alloc: Global, map: &CephMap, all: &[BucketPart]) -> Result<Vec<i128>, AllocError>
    ensures { IfOk result (λ found. found.items ≡ in_use map.now all.now) }
{
    let taken = roots(alloc, map, all)?;
    reach(alloc, MAX_LEVEL as u32, all, taken)
}

/// Those of some buckets that are among some.
fn those_among(
    alloc: Global,
    all: Vec<BucketPart>,
    ids: &[i128],
) -> Result<Vec<BucketPart>, AllocError>
    ensures { IfOk result (λ found. found.items ≡ filter (λ b. is_one_of ids.now b.id) all.items) }
{
    all.into_iter()
        .filter(|bucket| is_one_of(ids, bucket.id))
        .collect(alloc)
}

/// The buckets in use, of all that a map has.
#[tactic(auto, unfolding(crate::specs::Reach::kept))]
pub(crate) fn kept(
    alloc: Global,
    map: &CephMap,
    all: Vec<BucketPart>,
) -> Result<Vec<BucketPart>, AllocError>
    ensures { IfOk result (λ found. found.items ≡ kept map.now all.items) }
{
    let ids = in_use(alloc, map, &all)?;
    those_among(alloc, all, &ids)
}
