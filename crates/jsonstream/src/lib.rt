//! The values of a JSON text (RFC 8259), read from its tokens one after another, with no tree of them.
//!
//! - `tokens`: the next value of a text, read or passed
//! - `numbers`: the whole number that the digits of one state
#![tactic(auto)]

mod numbers;
pub mod tokens;
