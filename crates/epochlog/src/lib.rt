//! A journal of sealed epochs, and what a store of it owes.
//!
//! A row shows each epoch's incremental for good and is read without a lock; passes know what a reader has seen of it.
//! What is sealed has been kept: so no accepted change is lost in a crash.
//!
//! No call waits but that of a store, and only `Row::new`, `Row::of_fitting`, `Row::pass` and a store take memory.
//!
//! - `keeps`: what a store owes
//! - `nothing`: the store of a monitor that keeps its journal in memory alone
//! - `keeper`, `kept`: a store that is asked nothing more once it has failed, and what it has kept
//! - `row`: a row of sealed epochs, and its limits
//! - `pass`: what a reader has seen of a row
//! - `error`: why an incremental is not sealed
#![tactic(auto)]

mod error;
mod keeper;
mod keeps;
mod kept;
mod nothing;
mod pass;
mod row;

pub use error::NotSealed;
pub use keeper::Keeper;
pub use keeps::{Keeps, NotKept};
pub use kept::Kept;
pub use nothing::Nothing;
pub use pass::Pass;
pub use row::{MAX_CAPACITY, MAX_FIRST_EPOCH, Row};
