//! What no clause says of the crates below, and no run of a program shows, tried by their public calls.
//!
//! They stand here and not in those crates, since the gate proves a crate that has tests twice.
//!
//! - `examples`: what they begin from
//! - `changes`: the written form of changes
//! - `errors`: texts of errors
//! - `journals`: a journal of texts played again
//! - `keepers`: stores that find no memory, fail or do not forget
//! - `rows`: a row of epochs and its passes
//! - `members`: members of a monitor beside one another
//! - `sessions`: sessions over sinks and gates that fail or wait
#![tactic(auto)]

#[cfg(test)]
mod changes;
#[cfg(test)]
mod errors;
#[cfg(test)]
mod examples;
#[cfg(test)]
mod journals;
#[cfg(test)]
mod keepers;
#[cfg(test)]
mod members;
#[cfg(test)]
mod rows;
#[cfg(test)]
mod sessions;
