//! Buckets as a map states them.

ghost use Rattle.std.specs.Prelude.{◌≡◌, IfOk, slice_get, unwrap_or};
ghost use Rattle.std.specs.Option.{option_map_or};
ghost use Rattle.cephimport.specs.Buckets.{kind_by_weights, weight_at, weight_in_force, held_item, weighing_of, least, items_held, imported_bucket, slot_part, slot_parts, all_parts};

use crate::weight_sets::set_weight;
use buckets::BucketKind;
use cephmap::{Bucket, Crush, Slot, Weighed, WeightSet, Weights};
use keylist::Entries;
use mapparts::{BucketPart, ItemPart};
use std::alloc::{AllocError, Global};

/// How a bucket picks.
fn kind_by_weights(weights: &Weights) -> BucketKind
    ensures { result ≡ kind_by_weights weights.now }
{
    match weights {
        Weights::Uniform(_) => BucketKind::Uniform,
        Weights::List(_) => BucketKind::List,
        Weights::Tree(_) => BucketKind::Tree,
        Weights::Straw(_) => BucketKind::Straw2,
        Weights::Straw2(_) => BucketKind::Straw2,
    }
}

/// The number at a place of a list; 0 where it is not there.
fn number_at(numbers: &[u32], place: usize) -> u32
    ensures { result ≡ unwrap_or (slice_get numbers.now place) 0 }
{
    numbers.get(place).copied().unwrap_or(0)
}

/// The weight at a place of those of which something was made; 0 where it is not there.
fn weighed_at(all: &[Weighed], place: usize) -> u32
    ensures { result ≡ option_map_or (λ w. w.weight) (slice_get all.now place) 0 }
{
    match all.get(place) {
        Some(weighed) => weighed.weight,
        None => 0,
    }
}

/// The weight of the item at a place.
fn weight_at(weights: &Weights, place: usize) -> u32
    ensures { result ≡ weight_at weights.now place }
{
    match weights {
        Weights::Uniform(weight) => *weight,
        Weights::List(all) => weighed_at(all, place),
        Weights::Straw(all) => weighed_at(all, place),
        Weights::Tree(nodes) if place < 128 => number_at(nodes, 2 * place + 1),
        Weights::Tree(_) => 0,
        Weights::Straw2(all) => number_at(all, place),
    }
}

/// The weight by which a bucket picks the item at a place: its own, or of a straw2 bucket that of the compat weight
/// set.
#[tactic(auto, unfolding(crate::specs::Buckets::weight_in_force))]
fn weight_in_force(sets: &[WeightSet], bucket: &Bucket, place: usize) -> u32
    ensures { result ≡ weight_in_force sets.now bucket.now place }
{
    let own = weight_at(&bucket.weights, place);
    if kind_by_weights(&bucket.weights) == BucketKind::Straw2 {
        set_weight(sets, bucket.id, &bucket.items, place).unwrap_or(own)
    } else {
        own
    }
}

/// The item at a place as a map states it; none where it weighs nothing in a straw2 bucket.
#[tactic(auto, unfolding(crate::specs::Buckets::held_item))]
fn held_item(sets: &[WeightSet], bucket: &Bucket, place: usize, id: i32) -> Option<ItemPart>
    ensures { result ≡ held_item sets.now bucket.now place id }
{
    let weight = weight_in_force(sets, bucket, place);
    if weight == 0 && kind_by_weights(&bucket.weights) == BucketKind::Straw2 {
        return None;
    }
    Some(ItemPart {
        id: i128::from(id),
        weight: i128::from(weight),
    })
}

/// The items that weigh anything, of those of a bucket.
fn weighing_of(
    alloc: Global,
    sets: &[WeightSet],
    bucket: &Bucket,
    ids: &[i32],
) -> Result<Vec<ItemPart>, AllocError>
    ensures { IfOk result (λ items. items.items ≡ weighing_of sets.now bucket.now ids.now) }
{
    ids.iter()
        .enumerate()
        .filter_map(|(place, id)| held_item(sets, bucket, place, *id))
        .collect(alloc)
}

/// The first item, at the least weight.
fn least(alloc: Global, ids: &[i32]) -> Result<Vec<ItemPart>, AllocError>
    ensures { IfOk result (λ items. items.items ≡ least ids.now) }
{
    let mut items = Vec::new(alloc);
    if let Some(id) = ids.first() {
        items.push(ItemPart {
            id: i128::from(*id),
            weight: 1,
        })?;
    }
    Ok(items)
}

/// The items of a bucket as a map states them.
#[tactic(auto, unfolding(crate::specs::Buckets::items_held))]
fn items_held(
    alloc: Global,
    sets: &[WeightSet],
    bucket: &Bucket,
) -> Result<Vec<ItemPart>, AllocError>
    ensures { IfOk result (λ items. items.items ≡ items_held sets.now bucket.now) }
{
    let items = weighing_of(alloc, sets, bucket, &bucket.items)?;
    if items.is_empty() {
        return least(alloc, &bucket.items);
    }
    Ok(items)
}

/// A bucket as a map states it.
#[tactic(auto, unfolding(crate::specs::Buckets::imported_bucket))]
fn imported_bucket(
    alloc: Global,
    sets: &[WeightSet],
    bucket: &Bucket,
) -> Result<BucketPart, AllocError>
    ensures { IfOk result (λ part. part ≡ imported_bucket sets.now bucket.now) }
{
    let items = items_held(alloc, sets, bucket)?;
    Ok(BucketPart {
        id: i128::from(bucket.id),
        level: i128::from(bucket.level),
        kind: kind_by_weights(&bucket.weights),
        items: Entries::new(items),
    })
}

/// The bucket of a place, if there is one, as a map states it.
fn slot_part(
    alloc: Global,
    sets: &[WeightSet],
    slot: &Slot<Bucket>,
) -> Result<Option<BucketPart>, AllocError>
    ensures { IfOk result (λ part. part ≡ slot_part sets.now slot.now) }
{
    match &slot.holds {
        Some(bucket) => Ok(Some(imported_bucket(alloc, sets, bucket)?)),
        None => Ok(None),
    }
}

/// Those of some places as a map states them.
fn slot_parts(
    alloc: Global,
    sets: &[WeightSet],
    slots: &[Slot<Bucket>],
) -> Result<Vec<BucketPart>, AllocError>
    ensures { IfOk result (λ parts. parts.items ≡ slot_parts sets.now slots.now) }
{
    let mut parts = Vec::new(alloc);
    for slot in slots {
        if let Some(part) = slot_part(alloc, sets, slot)? {
            parts.push(part)?;
        }
    }
    Ok(parts)
}

/// All buckets of a CRUSH map as a map states them.
#[tactic(auto, unfolding(crate::specs::Buckets::all_parts))]
pub(crate) fn all_parts(alloc: Global, crush: &Crush) -> Result<Vec<BucketPart>, AllocError>
    ensures { IfOk result (λ parts. parts.items ≡ all_parts crush.now) }
{
    slot_parts(alloc, &crush.weight_sets, &crush.buckets)
}
