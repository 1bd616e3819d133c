//! The weights of all OSDs in their buckets, found in one walk.

ghost use Rattle.std.specs.Prelude.{◌≡◌, ◌<◌, ℕ, pos, length, slice_index, if◌then◌else◌, IfOk};
ghost use Rattle.std.specs.List.{find};
ghost use Rattle.std.specs.Option.{option_map_or};
ghost use Rattle.std.specs.Ordering.{int_eq};
ghost use Rattle.balancer.specs.Shares.{AreItemWeights};

use buckets::{Bucket, Item};
use refusal::Memory;
use std::alloc::Global;

/// Enters the weight of an item at the number of its OSD, if it is one of these.
fn put(weights: &mut Vec<u32>, item: &Item)
    ensures each { (osd : ℕ) → osd < length weights.old.items → slice_index weights.new.items osd
        ≡ (if int_eq item.now.id (pos osd) then item.now.weight else slice_index weights.old.items osd) }
    ensures long { length weights.new.items ≡ length weights.old.items }
{
    if let Ok(osd) = u32::try_from(item.id) {
        let at = osd as usize;
        if at < weights.len() {
            weights[at] = item.weight;
        }
    }
}

/// Enters the weights of the items of a bucket; of two items of one number the first counts.
fn enter(weights: &mut Vec<u32>, items: &[Item])
    ensures each { (osd : ℕ) → osd < length weights.old.items → slice_index weights.new.items osd
        ≡ option_map_or (λ i. i.weight) (find (λ i. int_eq i.id (pos osd)) items.now)
        (slice_index weights.old.items osd) }
    ensures long { length weights.new.items ≡ length weights.old.items }
{
    for place in (0..items.len()).rev() {
        put(weights, &items[place]);
    }
}

/// The weights of so many OSDs in their buckets, by number; or `Memory` (30).
pub(crate) fn item_weights(
    alloc: Global,
    buckets: &[Bucket],
    count: u32,
) -> Result<Vec<u32>, Memory>
    ensures { IfOk result (λ weights. AreItemWeights buckets.now count weights.items) }
{
    let mut weights = Vec::new(alloc);
    weights.resize(count as usize, 0)?;
    for place in (0..buckets.len()).rev() {
        enter(&mut weights, &buckets[place].items);
    }
    Ok(weights)
}
