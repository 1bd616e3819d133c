//! What follows from the definitions of a store's texts: each law is the contract of a function that does nothing.
//!
//! - `laws`: what a store is opened with that held the journal of a monitor, and behind it what a crash leaves of later
//!   runs
#![tactic(auto)]

pub mod laws;
