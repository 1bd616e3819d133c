//! Values that are sealed once each in a row that many read without a lock, and what a reader has seen of it.
//!
//! - `row`: a row of cells that are sealed once each
//! - `pass`, `known`: what a reader has seen of a row, and what is known of one cell
#![tactic(auto)]

mod known;
mod pass;
mod row;

pub use known::Known;
pub use pass::Pass;
pub use row::Row;
