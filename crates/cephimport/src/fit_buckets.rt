//! Which buckets keep a map out.

ghost use Rattle.std.specs.Prelude.{◌≡◌};
ghost use Rattle.cephimport.specs.FitBuckets.{is_kept, is_misfit, fails, bucket_slot_fails, bucket_fails_in, some_bucket_fails, holder_count, times_among, is_alone, stands_once, stand_once, is_unknown, has_unknown, some_unknown, any_unknown};

use crate::exceptions::word_in;
use crate::osds::is_known_osd;
use crate::reach::lists_item;
use crate::uses::has_pools;
use crate::weight_sets::set_fits;
use cephmap::{Bucket, CephMap, Crush, Osds, Slot, WeightSet, Weights};
use mapparts::{BucketPart, ItemPart};

/// What a bucket in use has to pass.
#[derive(Clone, Copy, Debug, PartialEq, Eq)]
pub enum BucketTest {
    /// It is no straw bucket.
    Kind,
    /// It hashes by rjenkins.
    Hash,
    /// The compat weight set has nothing for it, or a weight for each item alone, if it is a straw2 bucket.
    WeightSet,
}

/// Whether a bucket is among those in use.
fn is_kept(kept: &[BucketPart], id: i32) -> bool
    ensures { result ≡ is_kept kept.now id }
{
    kept.iter().any(|part| part.id == i128::from(id))
}

/// Whether the compat weight set does not fit a straw2 bucket.
fn is_misfit(sets: &[WeightSet], bucket: &Bucket) -> bool
    ensures { result ≡ is_misfit sets.now bucket.now }
{
    match &bucket.weights {
        Weights::Straw2(_) => !set_fits(sets, bucket.id, &bucket.items),
        _ => false,
    }
}

/// Whether a bucket fails a test.
fn fails(test: BucketTest, sets: &[WeightSet], bucket: &Bucket) -> bool
    ensures { result ≡ fails test sets.now bucket.now }
{
    match test {
        BucketTest::Kind => matches!(bucket.weights, Weights::Straw(_)),
        BucketTest::Hash => bucket.hash != 0,
        BucketTest::WeightSet => is_misfit(sets, bucket),
    }
}

/// Whether the bucket of a place is in use and fails a test.
#[tactic(auto, unfolding(crate::specs::FitBuckets::bucket_slot_fails))]
fn bucket_slot_fails(
    test: BucketTest,
    sets: &[WeightSet],
    kept: &[BucketPart],
    slot: &Slot<Bucket>,
) -> bool
    ensures { result ≡ bucket_slot_fails test sets.now kept.now slot.now }
{
    match &slot.holds {
        Some(bucket) => fails(test, sets, bucket) && is_kept(kept, bucket.id),
        None => false,
    }
}

/// Whether some bucket of those in places does.
fn bucket_fails_in(
    test: BucketTest,
    sets: &[WeightSet],
    kept: &[BucketPart],
    slots: &[Slot<Bucket>],
) -> bool
    ensures { result ≡ bucket_fails_in test sets.now kept.now slots.now }
{
    slots
        .iter()
        .any(|slot| bucket_slot_fails(test, sets, kept, slot))
}

/// Whether some bucket in use fails a test.
pub(crate) fn some_bucket_fails(test: BucketTest, crush: &Crush, kept: &[BucketPart]) -> bool
    ensures { result ≡ some_bucket_fails test crush.now kept.now }
{
    bucket_fails_in(test, &crush.weight_sets, kept, &crush.buckets)
}

/// In how many buckets an item stands.
fn holder_count(kept: &[BucketPart], id: i128) -> usize
    ensures { result ≡ holder_count kept.now id }
{
    kept.iter().filter(|bucket| lists_item(*bucket, id)).count()
}

/// How often an item stands in a bucket.
fn times_among(items: &[ItemPart], id: i128) -> usize
    ensures { result ≡ times_among items.now id }
{
    items.iter().filter(|item| item.id == id).count()
}

/// Whether an item stands once in a bucket that has it, and in no other one.
#[tactic(auto, unfolding(crate::specs::FitBuckets::is_alone))]
fn is_alone(kept: &[BucketPart], items: &[ItemPart], id: i128) -> bool
    ensures { result ≡ is_alone kept.now items.now id }
{
    holder_count(kept, id) == 1 && times_among(items, id) == 1
}

/// Whether each item of a bucket stands there once, and in no other one.
fn stands_once(kept: &[BucketPart], items: &[ItemPart]) -> bool
    ensures { result ≡ stands_once kept.now items.now }
{
    items.iter().all(|item| is_alone(kept, items, item.id))
}

/// Whether each item stands once.
pub(crate) fn stand_once(kept: &[BucketPart]) -> bool
    ensures { result ≡ stand_once kept.now }
{
    kept.iter().all(|bucket| stands_once(kept, &bucket.items))
}

/// Whether an item is a device, and no OSD of the cluster.
#[tactic(auto, unfolding(crate::specs::FitBuckets::is_unknown))]
fn is_unknown(osds: &Osds, id: i128) -> bool
    ensures { result ≡ is_unknown osds.now id }
{
    match word_in(id) {
        Some(number) => !is_known_osd(osds, number as usize),
        None => false,
    }
}

/// Whether some item is.
fn has_unknown(osds: &Osds, items: &[ItemPart]) -> bool
    ensures { result ≡ has_unknown osds.now items.now }
{
    items.iter().any(|item| is_unknown(osds, item.id))
}

/// Whether some bucket has such a device.
fn some_unknown(osds: &Osds, kept: &[BucketPart]) -> bool
    ensures { result ≡ some_unknown osds.now kept.now }
{
    kept.iter().any(|bucket| has_unknown(osds, &bucket.items))
}

/// Whether some bucket has such a device, where there are pools.
#[tactic(auto, unfolding(crate::specs::FitBuckets::any_unknown))]
pub(crate) fn any_unknown(map: &CephMap, kept: &[BucketPart]) -> bool
    ensures { result ≡ any_unknown map.now kept.now }
{
    has_pools(&map.pools) && some_unknown(&map.osds, kept)
}
