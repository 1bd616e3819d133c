//! The table of a map: for each group its set, for each OSD the groups in whose up set it stands. What it shows is what
//! the map says, and a patch makes of it the table of the map after a change, by one run of a rule for each group that
//! the change can place otherwise.
//!
//! - `table`, `pool_table`: the table of a map and what it shows, and the part of one pool
//! - `rooms`: where groups are placed side by side, in threads
//! - `parts`, `shares`, `stretches`: which of them, room by room: all of a large pool, those of it that a change names,
//!   or all of many pools
//! - `mapped`, `shown`: mapped sets as they are stored, and as callers see them
//! - `patch`, `group_patches`, `prepare`, `install`: what a change makes of a table, how it is found, and how it is put
//!   in
//! - `candidates`, `concerned`: the groups whose exceptions a change can concern, and those of a pool that it does
//! - `named`: the pools in which such groups stand, one after another
//! - `update`, `sets`: a change with the source of the sets after it, and these sets
//! - `table_patch`: what a change makes of the tables of all pools
#![tactic(auto)]

mod candidates;
mod concerned;
mod group_patches;
mod install;
mod mapped;
mod named;
mod parts;
pub mod patch;
pub mod pool_table;
mod prepare;
pub mod rooms;
mod sets;
mod shares;
mod shown;
mod stretches;
pub mod table;
mod table_patch;
mod update;

pub use patch::Patch;
pub use rooms::Rooms;
pub use table::PgTable;
