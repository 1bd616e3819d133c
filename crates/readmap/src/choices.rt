//! What the command line asks for, and why it asks for nothing.

use std::alloc::AllocError;

/// What the command line asks for.
#[derive(Debug, Drop)]
pub(crate) struct Options {
    /// The files of which it is told what stands in them.
    pub parts: Vec<String>,
    /// Those whose maps are told as their texts.
    pub texts: Vec<String>,
    /// A script, and behind it the files over whose maps it is judged; or nothing.
    pub judged: Vec<String>,
}

/// Why there are no options.
#[derive(Debug, Drop)]
pub(crate) enum WordsError {
    /// Help or the version was asked for: its text.
    Help(String),
    /// The words are no command line: the parser's text.
    Usage(String),
    /// Out of memory.
    Memory,
}

impl From<AllocError> for WordsError {
    ghost use Rattle.std.specs.Prelude.{◌≡◌};
    ghost use Rattle.readmap.specs.declared.choices.WordsError.TheVariants.{Memory as OutOfMemory};

    ghost from_gives = { λ _ e. e ≡ OutOfMemory };

    fn from(_error: AllocError) -> WordsError {
        WordsError::Memory
    }
}
