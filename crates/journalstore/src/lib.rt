//! The texts of a journal, kept in a SQLite file: a first map, and the changes since.
//!
//! - `opening`, `beginning`, `begun`: how a store is opened, how it is made, and what it then says
//! - `store`: the store, and its two changes
//! - `facts`: what a store notes beside its texts
//! - `append`, `checkpoint`: how a change is appended, and how a new first map takes the place of the old one
//! - `files`, `backup`: the files of a store, and a copy of them as one file
//! - `claim`: what the file of a store says of its log
//! - `reading`, `note`: how the texts are read, and what may stand beside one
//! - `shape`: whether a database has the tables of a store
//! - `exclusive`: a value that only its owner reaches
//! - `error`: why a store does not do what it is asked
#![tactic(auto)]

mod append;
mod backup;
mod beginning;
mod begun;
mod checkpoint;
mod claim;
mod error;
mod exclusive;
mod facts;
mod files;
mod note;
mod opening;
mod reading;
mod shape;
mod store;

pub use append::LAST_EPOCH;
pub use backup::copy_store;
pub use beginning::{Beginning, begin};
pub use begun::is_begun;
pub use claim::claim_log;
pub use error::StoreError;
pub use facts::Facts;
pub use files::Place;
pub use note::without_note;
pub use opening::{FileTexts, fold_log, is_missing, open};
pub use reading::{StoredText, StoredTexts};
pub use store::TextStore;
