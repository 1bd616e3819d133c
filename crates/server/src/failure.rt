//! What of a live session fails.

use std::fmt;
use thiserror::Error;

/// A file or stream of a live session that has failed. Its text is what the session's thread tells on standard error.
#[derive(Clone, Copy, Debug, Error)]
pub enum Failure<'a> {
    /// A file is not read, or not written: its path.
    File(&'a str),
    /// Standard input is not read.
    Input,
    /// Standard output is not written.
    Output,
}

impl<'a> fmt::Display for Failure<'a> {
    ghost use Rattle.std.specs.Prelude.{Some};
    ghost use Rattle.server.specs.Failures.{failure_text};

    ghost output = { λ failure. Some (failure_text failure) };

    fn fmt<W: fmt::Write>(&self, f: &mut fmt::Formatter<W>) -> fmt::Result {
        match self {
            Failure::File(path) => writeln!(f, "file: {path}"),
            Failure::Input => f.write_str("input\n"),
            Failure::Output => f.write_str("output\n"),
        }
    }
}
