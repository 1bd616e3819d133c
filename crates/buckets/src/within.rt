//! Whether an item or a bucket is within the limits.

ghost use Rattle.std.specs.Prelude.{◌≡◌, int_lt, pos};
ghost use Rattle.std.specs.List.{list_all};
ghost use Rattle.buckets.specs.Buckets.{is_bucket_id, item_limits_ok};
ghost use Rattle.buckets.specs.Limits.{plain_devices};

use crate::bucket::{Bucket, Item};
use crate::limits::{LOWEST_BUCKET, MAX_DEVICES, MAX_ITEMS, MAX_LEVEL, PLAIN_DEVICES};

/// Whether a bucket may have this id: -1 to -65,536.
pub fn is_bucket_id(id: i32) -> bool
    ensures { result ≡ is_bucket_id id }
{
    LOWEST_BUCKET <= id && id < 0
}

/// Whether an item is within the limits.
fn is_item_within(item: &Item) -> bool
    ensures { result ≡ item_limits_ok item.now }
{
    LOWEST_BUCKET <= item.id && item.id < MAX_DEVICES as i32 && 0 < item.weight
}

/// Whether each item is within the limits.
fn are_items_within(items: &[Item]) -> bool
    ensures { result ≡ list_all item_limits_ok items.now }
{
    items.iter().all(is_item_within)
}

/// Whether each item has an id below the most devices of a plain cluster.
fn are_plain_items(items: &[Item]) -> bool
    ensures { result ≡ list_all (λ i. int_lt i.id (pos plain_devices)) items.now }
{
    items.iter().all(|item| item.id < PLAIN_DEVICES as i32)
}

impl Bucket {
    ghost use Rattle.std.specs.Prelude.{◌≡◌, int_lt, pos};
    ghost use Rattle.buckets.specs.Buckets.{bucket_limits_ok, is_plain_bucket};

    /// Whether the bucket is within the limits: its id -1 to -65,536, its type 1 to 15, its items 1 to 64, in a straw2
    /// bucket 1 to 4,096, each with an id of -65,536 to 4,095 and a weight above 0.
    #[tactic(auto, using(std::proofs::lemmas::Bool::Decides::nat_tests))]
    pub fn is_within_limits(&self) -> bool
        ensures { result ≡ bucket_limits_ok self.now }
    {
        let count = self.items.len();
        is_bucket_id(self.id)
            && (1 <= self.level && self.level <= MAX_LEVEL)
            && (1 <= count && count <= self.kind.most_items())
            && are_items_within(&self.items)
    }

    /// Whether the bucket has no more items than one of a plain cluster, 64, and none of an id above 1,023.
    pub fn is_plain(&self) -> bool
        ensures { result ≡ is_plain_bucket self.now }
    {
        self.items.len() <= MAX_ITEMS && are_plain_items(&self.items)
    }
}
