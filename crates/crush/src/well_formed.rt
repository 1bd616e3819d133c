//! The tests that a list of buckets has to pass to be a forest.

ghost use Rattle.std.specs.Prelude.{◌≡◌, ◌≤◌, ◌&&◌, length, IsTrue};
ghost use Rattle.std.specs.List.{list_all};
ghost use Rattle.buckets.specs.Buckets.{bucket_limits_ok, is_plain_bucket, weights_ok};
ghost use Rattle.buckets.specs.Limits.{max_devices};
ghost use Rattle.crush.specs.Forest.{level_of};
ghost use Rattle.crush.specs.Limits.{max_buckets};
ghost use Rattle.crush.specs.WellFormed.{forest_limits_ok, is_plain_forest, has_own_ids, is_item_ok, has_items_below, has_items_once, forest_ok, IsDescending, IsNotAscending};

use crate::limits::{MAX_BUCKETS, PLAIN_BUCKETS};
use crate::met::are_met_once;
use crate::search::{is_known, level_of};
use buckets::limits::{MAX_DEVICES, PLAIN_DEVICES};
use buckets::{Bucket, Item, are_weights_lawful};

/// Whether each bucket is within the limits.
fn are_buckets_within(buckets: &[Bucket]) -> bool
    ensures { result ≡ list_all bucket_limits_ok buckets.now }
{
    buckets.iter().all(Bucket::is_within_limits)
}

/// Whether a forest over devices below `max_osd` is within the limits.
#[tactic(auto, using(std::proofs::lemmas::Bool::Decides::nat_tests))]
pub(crate) fn is_within_limits(buckets: &[Bucket], max_osd: u32) -> bool
    ensures { result ≡ forest_limits_ok buckets.now max_osd }
{
    (1 <= buckets.len() && buckets.len() <= MAX_BUCKETS)
        && (1 <= max_osd && max_osd <= MAX_DEVICES)
        && are_buckets_within(buckets)
}

/// Whether each bucket is one of a plain cluster.
fn are_plain_buckets(buckets: &[Bucket]) -> bool
    ensures { result ≡ list_all is_plain_bucket buckets.now }
{
    buckets.iter().all(Bucket::is_plain)
}

/// Whether there are no more buckets and devices than in a plain cluster, and each bucket is one of such a cluster.
pub(crate) fn is_plain_forest(buckets: &[Bucket], max_osd: u32) -> bool
    ensures { result ≡ is_plain_forest buckets.now max_osd }
{
    buckets.len() <= PLAIN_BUCKETS && max_osd <= PLAIN_DEVICES && are_plain_buckets(buckets)
}

/// Whether no two buckets, in order, have one id.
fn have_own_ids(buckets: &[Bucket]) -> bool
    requires { IsNotAscending buckets.now }
    ensures value { result ≡ has_own_ids buckets.now }
    ensures falls { IsTrue result → IsDescending buckets.now }
{
    buckets.is_sorted_by(|a, b| a.id > b.id)
}

/// Whether an item is known, and its type below that of its bucket.
fn is_item_below(buckets: &[Bucket], max_osd: u32, item: &Item, level: u8) -> bool
    requires { IsDescending buckets.now }
    ensures { result ≡ is_item_ok buckets.now max_osd level item.now }
{
    is_known(buckets, max_osd, item.id) && level_of(buckets, item.id) < level
}

/// Whether each item of a bucket is known, and its type below that of the bucket.
fn are_items_below(buckets: &[Bucket], max_osd: u32, items: &[Item], level: u8) -> bool
    requires { IsDescending buckets.now }
    ensures { result ≡ list_all (is_item_ok buckets.now max_osd level) items.now }
{
    items
        .iter()
        .all(|item| is_item_below(buckets, max_osd, item, level))
}

/// Whether each item is known, and its type below that of its bucket.
fn have_items_below(buckets: &[Bucket], max_osd: u32) -> bool
    requires { IsDescending buckets.now }
    ensures { result ≡ has_items_below buckets.now max_osd }
{
    buckets.iter().all(|bucket| are_items_below(buckets, max_osd, &bucket.items, bucket.level))
}

/// Whether the weights of each bucket add up to a word, and those of each uniform one are all the same.
fn have_lawful_weights(buckets: &[Bucket]) -> bool
    requires { IsTrue (list_all bucket_limits_ok buckets.now) }
    ensures { result ≡ list_all (λ b. weights_ok b.kind b.items) buckets.now }
{
    for bucket in buckets {
        if !are_weights_lawful(bucket.kind, &bucket.items) {
            return false;
        }
    }
    true
}

/// Whether each item is known, has a type below that of its bucket, and stands in the forest once.
fn are_items_lawful(buckets: &[Bucket], max_osd: u32) -> bool
    requires descending { IsDescending buckets.now }
    requires few { length buckets.now ≤ max_buckets }
    requires devices { max_osd ≤ max_devices }
    ensures { result ≡ (has_items_below buckets.now max_osd && has_items_once buckets.now) }
{
    have_items_below(buckets, max_osd) && are_met_once(buckets)
}

/// Whether buckets in order, within the limits, are a well-formed forest over devices below `max_osd`.
pub(crate) fn is_well_formed(buckets: &[Bucket], max_osd: u32) -> bool
    requires sorted { IsNotAscending buckets.now }
    requires limits { IsTrue (forest_limits_ok buckets.now max_osd) }
    ensures { result ≡ forest_ok buckets.now max_osd }
{
    have_own_ids(buckets) && are_items_lawful(buckets, max_osd) && have_lawful_weights(buckets)
}
