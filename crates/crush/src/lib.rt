//! CRUSH: where a rule places the replicas of a group in a forest of buckets. What a bucket picks is told by the crate
//! `buckets`.
//!
//! - `limits`: the limits of forests, of rules, and of the pools that rules serve
//! - `forest`: forests, and the bucket above an item
//! - `well_formed`, `search`, `met`, `parents`: which lists of buckets are forests, and look-ups in one
//! - `step`, `rule`, `grammar`: steps, rules, and which lists of steps are rules
//! - `choose`, `chooser`, `placement`: what choosing goes by and comes to, and the descent
//! - `firstn`, `indep`: choosing items that are packed, and items that keep their positions
//! - `remembered`, `device`: picks that are remembered once tries are many, and the descent by them
//! - `work`, `run`: the room that runs work in, and the run of a rule
#![tactic(auto)]

pub mod choose;
mod chooser;
mod device;
mod firstn;
pub mod forest;
mod grammar;
mod indep;
pub mod limits;
mod met;
mod parents;
pub mod placement;
mod remembered;
pub mod rule;
mod run;
mod search;
pub mod step;
mod well_formed;
pub mod work;

pub use buckets::{Bucket, BucketKind, Item};
pub use forest::Forest;
pub use placement::Placement;
pub use rule::Rule;
pub use step::{Choose, Mode, RuleKind, Step};
pub use work::Work;
