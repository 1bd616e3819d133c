//! The store of a monitor's journal, which outlives the process: a first map and the changes since, as texts in a file.
//!
//! - `row`, `first`: the text of an incremental, and of a first map
//! - `noted`: what clauses alone read of a store
//! - `store`: the store
//! - `found`: the map that the texts of a store stand for
//! - `opening`: how a store is begun and opened
//! - `keep`: how many changes an open leaves
//! - `trim`: how its first map moves on, so that not all changes are kept
//! - `witness`: who is told that a store has failed
//! - `error`: why a store is not begun or opened
#![tactic(auto)]

mod error;
mod first;
mod found;
mod keep;
mod noted;
mod opening;
mod row;
mod store;
mod trim;
mod witness;

pub use error::OpenError;
pub use keep::{KEPT, Keep};
pub use opening::{FileMaps, adopt, begin, claim_log, copy_store, open};
pub use store::MapStore;
pub use witness::Witness;
