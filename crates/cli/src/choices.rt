//! What a command line asks of sessions, and why it asks for no run.
ghost use Rattle.std.specs.Prelude.{◌≡◌, ◌≢◌, ◌≤◌, vec_len};
ghost use Rattle.epochlog.specs.Epochs.{max_capacity};
ghost use Rattle.server.specs.Serving.{max_scripts};

use mapparts::Profile;
use std::alloc::AllocError;
use thiserror::Error;

/// How sessions are to be run.
#[derive(Debug, Drop)]
pub struct SessionOptions {
    /// How many changes the journal holds: 1 to 65,536.
    pub journal: u32,
    /// Which maps and changes texts may state: those of stock clusters, or plain ones alone.
    pub profile: Profile,
    /// The paths of the scripts.
    pub scripts: Vec<String>,
    /// The paths of their answers, one for each script, or none.
    pub answers: Vec<String>,
    pub ghost least: { 1 ≤ journal },
    pub ghost most: { journal ≤ max_capacity },
    pub ghost few: { vec_len scripts ≤ max_scripts },
    pub ghost paired: { vec_len answers ≢ 0 → vec_len answers ≡ vec_len scripts },
}

/// Why there are no options.
#[derive(Debug, Drop, Error)]
pub enum LineError {
    /// Help was asked for: its text.
    #[error("{0}")]
    Help(String),
    /// The words are no command line: the parser's text.
    #[error("{0}")]
    Usage(String),
    /// More scripts than can be run.
    #[error("too many scripts")]
    TooMany,
    /// There are files for answers, but not one for each script.
    #[error("not as many --to as scripts")]
    Unpaired,
    /// The parser found no memory.
    #[error("memory")]
    Memory,
}

impl From<AllocError> for LineError {
    ghost use Rattle.std.specs.Prelude.{◌≡◌};
    ghost use Rattle.cli.specs.declared.choices.LineError.TheVariants.{Memory as OutOfMemory};

    ghost from_gives = { λ _ e. e ≡ OutOfMemory };

    fn from(_error: AllocError) -> LineError {
        LineError::Memory
    }
}
