//! What a session is played from, and where its answers go.

use crate::failure::Failure;
use std::io::{Stdin, Stdout};
use std::sync::Arc;
use std::sync::atomic::AtomicBool;

/// Where the lines of a live session come from.
#[derive(Drop)]
pub enum Source {
    /// Standard input.
    Standard(Stdin),
    /// The file of a path, which the session's thread opens.
    File(String),
}

/// Where the answers of a live session go.
#[derive(Drop)]
pub enum Target {
    /// Standard output.
    Standard(Stdout),
    /// The file of a path, which the session's thread makes or empties.
    File(String),
}

/// The two ends of a live session, and what ends it beside the end of its lines.
#[derive(Drop)]
pub struct Streams {
    /// Where its lines come from.
    pub source: Source,
    /// Where its answers go.
    pub target: Target,
    /// Once this is set it reads no more lines.
    pub end: Option<Arc<AtomicBool>>,
}

/// What a session is played from, and where its answers go.
#[derive(Drop)]
pub enum Part {
    /// The bytes of a script, whose answers are put out once all sessions have ended.
    Script(Vec<u8>),
    /// Lines that come while the session runs, each answered as soon as it has ended.
    Live(Streams),
}

impl Source {
    ghost use Rattle.std.specs.Prelude.{◌≡◌};
    ghost use Rattle.server.specs.Failures.{failure_text, source_text};

    /// What has failed where the lines are not read.
    pub fn failure(&self) -> Failure<'_>
        ensures { failure_text result ≡ source_text self.now }
    {
        match self {
            Source::Standard(_) => Failure::Input,
            Source::File(path) => Failure::File(path.as_str()),
        }
    }
}

impl Target {
    ghost use Rattle.std.specs.Prelude.{◌≡◌};
    ghost use Rattle.server.specs.Failures.{failure_text, target_text};

    /// What has failed where the answers are not written.
    pub fn failure(&self) -> Failure<'_>
        ensures { failure_text result ≡ target_text self.now }
    {
        match self {
            Target::Standard(_) => Failure::Output,
            Target::File(path) => Failure::File(path.as_str()),
        }
    }
}
