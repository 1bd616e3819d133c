//! What the command line asks for.
use cli::SessionOptions;

/// What the command line asks for.
#[derive(Debug, Drop)]
pub struct Options {
    /// The path of the map.
    pub map: String,
    /// How its sessions are to be run.
    pub sessions: SessionOptions,
}
