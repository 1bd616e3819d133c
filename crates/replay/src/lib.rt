//! What a kept journal stands for: a text of a first map, and for each change since a row of its epoch and its text.
//!
//! - `row`: a row, and the map after its change
//! - `fault`: why there is no such map
//! - `rows`: all rows, one after the other
#![tactic(auto)]

mod fault;
mod row;
mod rows;

pub use fault::Fault;
pub use row::{Row, make_row};
pub use rows::replay;
