//! The map of a cluster by its own bytes, as `cephmap` reads them, in the form of a map's parts; or what keeps it out.
//!
//! - `why`: what keeps a map out, and why no parts were made
//! - `whole`: the parts of a map, and what keeps it out first
//! - `pools`, `osds`, `exceptions`: pools, OSDs and exceptions as a map states them
//! - `forest`, `weight_sets`: buckets, and the weights that the compat weight set gives their items
//! - `uses`, `reach`: which rules pools use, what these take, and which buckets stand below
//! - `rules`, `steps`, `tuned`: rules, their steps, and those that stand for tunables
//! - `fit_buckets`, `fit_rules`: which buckets and rules keep a map out
#![tactic(auto)]

mod exceptions;
mod fit_buckets;
mod fit_rules;
mod forest;
mod osds;
mod pools;
mod reach;
mod rules;
mod steps;
mod tuned;
mod uses;
mod weight_sets;
mod whole;
mod why;

pub use whole::{imported, profile_of};
pub use why::{ImportError, StaysOut};
