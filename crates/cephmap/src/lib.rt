//! A cluster's map as Ceph encodes it in bytes (`ceph osd getmap -o FILE`; OSDMap.cc, osd_types.cc and CrushWrapper.cc,
//! `encode`), by releases from Nautilus to Reef.
//!
//! - `map`: the whole map
//! - `crush`, `bucket`, `rule`: the CRUSH map, its buckets and its rules
//! - `pool`: pools
//! - `group`: groups, and what is stated of them one by one
//! - `address`: addresses of OSDs, which are passed
//! - `parts`: small parts that stand in many places
//! - `laws`: what follows of the grammar
#![tactic(auto)]

mod address;
mod bucket;
mod crush;
mod group;
pub mod laws;
mod map;
mod parts;
mod pool;
mod rule;

pub use bucket::{Bucket, Slot, Weighed, Weights};
pub use crush::{
    BucketWeights, Classes, Crush, DeviceClass, Names, Shadow, ShadowTrees, Tunables, WeightSet,
};
pub use group::{Group, GroupOsds, GroupPairs, GroupPrimary, Pair};
pub use map::{CephMap, Osds, Temporary, Upmaps, checked_map};
pub use parts::{Fsid, Name, Setting, Settings};
pub use pool::{Pool, PoolKind, PoolName};
pub use rule::{Rule, Step, StepWord};
