//! What follows from the definitions of maps, of changes and of their texts: each law is the contract of a function
//! that does nothing, or of one that writes a map or a change and reads it back.
//!
//! - `changes`: the order of a change's parts
//! - `maps`: what holds in every map holds in those that lawful changes lead to
//! - `texts`: the text of a map states that map
//! - `change_texts`: the text of a change states that change
#![tactic(auto)]

pub mod change_texts;
pub mod changes;
pub mod maps;
pub mod texts;
