//! The values that maps and changes are made of, each right by its type: made of parts within the limits (`mapparts`),
//! or refused.
//!
//! - `pg`, `pg_text`: placement groups and their texts
//! - `pool`, `grow`: pools, and what they grow to
//! - `short`, `exception`, `exception_parts`: lists of at most 20 entries, exceptions, and those that parts stand for
//! - `osd`: what a map has of an OSD
//! - `up_set`: the set of a group
//! - `rules`, `forest_parts`, `rule_parts`, `crush_map`: rules under their ids, buckets and steps that parts stand for,
//!   and CRUSH maps
//! - `change`, `named`: changes and incrementals; what a change names and leaves
#![tactic(auto)]

pub mod change;
pub mod crush_map;
pub mod exception;
pub mod exception_parts;
mod forest_parts;
pub mod grow;
pub mod named;
pub mod osd;
pub mod pg;
pub mod pg_text;
pub mod pool;
mod rule_parts;
pub mod rules;
pub mod short;
pub mod up_set;

pub use change::{Change, ChangeParts, Incremental, Reweight};
pub use crush_map::CrushMap;
pub use exception::{Entry, Exception, Explicit, Items, NamesGroup, Pair};
pub use exception_parts::{StandsFor, exceptions_of};
pub use grow::Grow;
pub use named::join_groups_of;
pub use osd::{OsdState, Presence};
pub use pg::Pg;
pub use pool::Pool;
pub use rules::NumberedRule;
pub use short::{Blank, Short};
pub use up_set::UpSet;
