//! Lists as contracts see them, and lists whose entries have keys: where the keys rise, such a list is a finite map.
//!
//! - `entries`: a vector that contracts see as a list
//! - `key`: what has a key among its like
//! - `order`: entries in ascending order of their keys
//! - `find`: look-ups by halving
//! - `in_place`, `replace`: lists changed where they stand, and entries put in place of those with their keys
//! - `merge`: how many entries two lists have as one
#![tactic(auto)]

mod entries;
mod find;
mod in_place;
mod key;
mod merge;
mod order;
mod replace;

pub use entries::Entries;
pub use find::{are_apart, entry_of, has, last_of};
pub use in_place::{put_all, take_away};
pub use key::Keyed;
pub use merge::put_count;
pub use order::{are_distinct, sort_distinct, sort_entries, sort_vec};
