//! The state of a monitor: the first map, the journal of sealed epochs since, the present map and its table. All calls
//! are those of one thread; the monitor above lends a state to many.
//!
//! - `state`: a state and its commits
//! - `balancing`: a plan and its commit
//! - `answers`: what is asked of a state
//! - `shared_map`: the first map, held once
#![tactic(auto)]

mod answers;
mod balancing;
mod shared_map;
mod state;

pub use balancing::Balance;
pub use epochlog::{Keeps, Nothing};
pub use shared_map::SharedMap;
pub use state::{Commit, Proposal, State};
