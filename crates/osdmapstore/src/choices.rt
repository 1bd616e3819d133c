//! What the command line asks for.
use cli::SessionOptions;

/// What the command line asks for.
#[derive(Debug, Drop)]
pub struct Options {
    /// The path of the map that a new store begins with, where one is to be made.
    pub begin: Option<String>,
    /// The path of the map that a new store begins with, where one is to be made if it is missing.
    pub open_or_begin: Option<String>,
    /// How many changes this open and each later one leaves in the store, where that is said.
    pub keep: Option<u32>,
    /// Whether each change is synced twice.
    pub wary: bool,
    /// The word that stands beside each change of the run, where there is one.
    pub by: Option<String>,
    /// Whether the run ends once its journal is full.
    pub end_when_full: bool,
    /// Whether the number of the store's life is told behind the epoch.
    pub life: bool,
    /// The path of the copy, where only one is to be made.
    pub backup: Option<String>,
    /// Whether the copy is to go on by itself, as a store of another number.
    pub restore: bool,
    /// The epoch behind which changes may be lost with the store's log, where it is to be opened without a log that is
    /// missing.
    pub without_log: Option<u32>,
    /// The path of the store.
    pub store: String,
    /// How its sessions are to be run.
    pub sessions: SessionOptions,
}
