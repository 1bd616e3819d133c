//! What a script of commands does to a cluster, and whether it is to be given: what each command moves, what a map
//! refuses of it, and what a Ceph monitor would take away again.
//!
//! - `order`: what a command does with the exceptions of a group
//! - `asking`: the lines of a script that ask alone
//! - `script`: what the lines of a script say
//! - `doubt`: why a script is not to be given
//! - `judging`: the commands of a script, one after the other
//! - `counts`: how many groups each OSD has
#![tactic(auto)]

mod asking;
mod counts;
mod doubt;
mod judging;
mod order;
mod script;

pub use counts::{counts_of, with_all_up};
pub use doubt::Doubt;
pub use judging::{Doubted, Taken, Verdict, judge};
pub use order::Order;
