//! The bucket that has each item, found once for all climbs.

ghost use Rattle.std.specs.Prelude.{◌≡◌, ◌≤◌, ℤ, length, slice_index, IsTrue, if◌then◌else◌};
ghost use Rattle.std.specs.List.{list_all, list_any};
ghost use Rattle.std.specs.Ordering.{int_eq};
ghost use Rattle.crush.specs.Limits.{max_buckets};
ghost use Rattle.buckets.specs.Limits.{max_devices};
ghost use Rattle.crush.specs.Parents.{AreParents};
ghost use Rattle.crush.specs.Slots.{slots, slot};
ghost use Rattle.crush.specs.WellFormed.{is_known, IsDescending, IsForest};

use crate::limits::MAX_BUCKETS;
use crate::met::{SLOTS, slot_of};
use buckets::{Bucket, Item};

/// The place of no bucket.
const NOWHERE: u16 = MAX_BUCKETS as u16;

/// Enters the place of a bucket at the numbers of its items.
fn enter(parents: &mut [u16], buckets: &[Bucket], items: &[Item], place: u16)
    requires room { length parents.old ≡ slots }
    requires descending { IsDescending buckets.now }
    requires few { length buckets.now ≤ max_buckets }
    requires known { IsTrue (list_all (λ i. is_known buckets.now max_devices i.id) items.now) }
    ensures { (id : ℤ) → IsTrue (is_known buckets.now max_devices id) →
        slice_index parents.new (slot buckets.now id) ≡ (if list_any (λ i. int_eq i.id id) items.now then place
        else slice_index parents.old (slot buckets.now id)) }
{
    for item in items {
        parents[slot_of(buckets, item.id)] = place;
    }
}

/// The places of the buckets that have the items of a forest, by the items' numbers.
#[tactic(auto, unfolding(crate::specs::Parents::AreParents))]
pub(crate) fn parents_of(buckets: &[Bucket]) -> [u16; SLOTS]
    requires { IsForest buckets.now }
    ensures { AreParents buckets.now result }
{
    let mut parents = [NOWHERE; SLOTS];
    for place in (0..buckets.len()).rev() {
        enter(&mut parents, buckets, &buckets[place].items, place as u16);
    }
    parents
}
