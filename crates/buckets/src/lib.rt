//! Buckets of a CRUSH forest, each by itself: its items, its kind, which item it picks, and which buckets a forest may
//! have.
//!
//! - `limits`: the limits of items and of buckets
//! - `bucket`: items, kinds and buckets
//! - `within`: whether an item or a bucket is within the limits
//! - `weights`: whether the weights of a bucket are lawful
//! - `pick`: the item that a bucket picks, by its kind
//! - `pick/uniform`, `pick/list`, `pick/tree`, `pick/straw2`: the place that each kind picks
//! - `pick/logarithm`: Ceph's fixed-point logarithm, by which the straws of a straw2 bucket are drawn
#![tactic(auto)]

mod bucket;
pub mod limits;
mod pick;
mod weights;
mod within;

pub use bucket::{Bucket, BucketKind, Item};
pub use weights::are_weights_lawful;
pub use within::is_bucket_id;
