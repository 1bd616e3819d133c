//! The map of a cluster: its forest, rules, pools and OSDs, the changes that make the next map of it, and where it
//! places the groups of its pools.
//!
//! - `map`: the map of a cluster, and the look-ups in it
//! - `build`: the map that parts state
//! - `build/pools`, `build/osds`, `build/exceptions`: its pools, its OSDs and its exceptions
//! - `copy`: a copy of a map
//! - `check`: what a map refuses of a change
//! - `check/osds`, `check/pools`, `check/devices`, `check/rules`, `check/groups`: where each number is looked for
//! - `apply`, `in_place`: the map after a change, and changes made where the lists of a map stand
//! - `placement`: where a map places the groups of its pools
//! - `placing`: what places the groups of one pool
//! - `sets`, `mapped`: sets of OSDs that exist or are up, and what exceptions make of a raw set
#![tactic(auto)]

mod apply;
mod build;
mod check;
mod copy;
mod in_place;
pub mod map;
mod mapped;
mod placement;
mod placing;
mod sets;

pub use map::OsdMap;
pub use mapparts::{MapParts, Profile};
pub use maptypes::{
    Change, ChangeParts, CrushMap, Exception, Explicit, Grow, Incremental, Items, NumberedRule,
    OsdState, Pair, Pg, Pool, Presence, Reweight, UpSet,
};
pub use placing::{GroupSets, Placing, stable_mod};
