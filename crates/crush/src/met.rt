//! Whether an item stands in a forest twice, by marks in one pass.

ghost use Rattle.std.specs.Prelude.{◌≡◌, ℕ, ◌+◌, ◌<◌, ◌≤◌, ℤ, length, true, IsTrue, Contains, count_by};
ghost use Rattle.std.specs.Bool.{OnTrue, OnFalse};
ghost use Rattle.std.specs.List.{list_all};
ghost use Rattle.std.specs.Ordering.{int_eq};
ghost use Rattle.buckets.specs.declared.bucket.Item.{Item};
ghost use Rattle.crush.specs.Limits.{max_buckets};
ghost use Rattle.buckets.specs.Limits.{max_devices};
ghost use Rattle.crush.specs.Slots.{slots, slot, marks};
ghost use Rattle.crush.specs.WellFormed.{is_known, has_items_once, has_items_below, IsDescending};

use crate::limits::MAX_BUCKETS;
use crate::search::place_of;
use buckets::limits::MAX_DEVICES;
use buckets::{Bucket, Item};

/// How many items a forest can have, each once.
pub(crate) const SLOTS: usize = MAX_DEVICES as usize + MAX_BUCKETS;

/// The number of a known item, among devices and buckets.
pub(crate) fn slot_of(buckets: &[Bucket], item: i32) -> usize
    requires descending { IsDescending buckets.now }
    requires few { length buckets.now ≤ max_buckets }
    requires known { IsTrue (is_known buckets.now max_devices item) }
    ensures value { result ≡ slot buckets.now item }
    ensures within { result < slots }
{
    match u32::try_from(item) {
        Ok(device) => device as usize,
        Err(_) => MAX_DEVICES as usize + place_of(buckets, item).unwrap(),
    }
}

/// Marks items. Answers false, and leaves off, at one that is marked already.
fn mark(seen: &mut [bool], buckets: &[Bucket], items: &[Item]) -> bool
    requires room { length seen.old ≡ slots }
    requires descending { IsDescending buckets.now }
    requires few { length buckets.now ≤ max_buckets }
    requires known { IsTrue (list_all (λ i. is_known buckets.now max_devices i.id) items.now) }
    ensures once { OnTrue result ((id : ℤ) → IsTrue (is_known buckets.now max_devices id) →
        marks buckets.now seen.new id ≡ marks buckets.now seen.old id + count_by (λ i. int_eq i.id id) items.now) }
    ensures twice { OnFalse result ((i : Item) × Contains items.now i ×
        (2 ≤ marks buckets.now seen.old i.id + count_by (λ j. int_eq j.id i.id) items.now)) }
{
    for item in items {
        let slot = slot_of(buckets, item.id);
        if seen[slot] {
            return false;
        }
        seen[slot] = true;
    }
    true
}

/// Whether no item stands in the forest twice.
pub(crate) fn are_met_once(buckets: &[Bucket]) -> bool
    requires descending { IsDescending buckets.now }
    requires few { length buckets.now ≤ max_buckets }
    requires known { IsTrue (has_items_below buckets.now max_devices) }
    ensures { result ≡ has_items_once buckets.now }
{
    let mut seen = [false; SLOTS];
    for bucket in buckets {
        if !mark(&mut seen, buckets, &bucket.items) {
            return false;
        }
    }
    true
}
