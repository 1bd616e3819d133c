//! How a run of a program ends.

use crate::choices::LineError;
use refusal::Refusal;
use server::Fault;
use std::{fmt, io};
use thiserror::Error;

/// Why a run ends before all is done. Its text is what the run tells on standard error.
#[derive(Debug, Drop, Error)]
pub enum Ending<'a> {
    /// The words are no command line: the parser's text.
    Usage(&'a str),
    /// An argument is not UTF-8.
    NoText,
    /// There are more scripts than can be run.
    TooManyScripts,
    /// There are files for answers, but not one for each script.
    Unpaired,
    /// More than one of the scripts is standard input.
    TwoInputs,
    /// More than one of the files for answers is standard output.
    TwoOutputs,
    /// The map is refused.
    Map(Refusal),
    /// A file is not read, or not written: its path.
    File(&'a str),
    /// The output is not written.
    Output,
    /// What live sessions have told.
    Told,
    /// A change that a session has seen is not of one session, or the lock has lost the state.
    Lost,
    /// Out of memory.
    Memory,
}

impl<'a> Ending<'a> {
    ghost use Rattle.std.specs.Prelude.{◌≡◌, ◌≤◌};
    ghost use Rattle.std.specs.IoError.{error_kind};
    ghost use Rattle.cli.specs.Endings.{status_of, words_ending, file_ending, fault_ending, EndsLine};

    /// Of a run whose words cannot be read: out of memory, else one is not UTF-8.
    pub fn of_words(error: &io::Error) -> Ending<'a>
        ensures { result ≡ words_ending (error_kind error.now) }
    {
        match error.kind() {
            io::ErrorKind::OutOfMemory => Ending::Memory,
            _ => Ending::NoText,
        }
    }

    /// Of a run that cannot read the file of a path: out of memory, else whatever the system says.
    pub fn of_file(error: &io::Error, path: &'a str) -> Ending<'a>
        ensures ending { result ≡ file_ending (error_kind error.now) path.entry }
        ensures status { 3 ≤ status_of result }
    {
        match error.kind() {
            io::ErrorKind::OutOfMemory => Ending::Memory,
            _ => Ending::File(path),
        }
    }

    /// Of a run that is served into memory, so that its output fails only where that is short.
    pub fn of_fault(fault: Fault) -> Ending<'a>
        ensures ending { result ≡ fault_ending fault }
        ensures status { 2 ≤ status_of result }
    {
        match fault {
            Fault::Map(refusal) => Ending::Map(refusal),
            Fault::Told => Ending::Told,
            Fault::Lost => Ending::Lost,
            Fault::Output | Fault::Memory => Ending::Memory,
        }
    }

    /// Of a run whose command line asks for none. At `Ok` it is the text of help, to be shown.
    pub fn of_line(error: &'a LineError) -> Result<&'a str, Ending<'a>>
        ensures { EndsLine error.now result }
    {
        match error {
            LineError::Help(text) => Ok(text.as_str()),
            LineError::Usage(text) => Err(Ending::Usage(text.as_str())),
            LineError::TooMany => Err(Ending::TooManyScripts),
            LineError::Unpaired => Err(Ending::Unpaired),
            LineError::Memory => Err(Ending::Memory),
        }
    }

    /// The exit status of the program: 1 to 4, or 7.
    pub fn status(&self) -> u8
        ensures { result ≡ status_of self.now }
    {
        match self {
            Ending::Usage(_) | Ending::NoText | Ending::TooManyScripts | Ending::Unpaired => 1,
            Ending::TwoInputs | Ending::TwoOutputs => 1,
            Ending::Map(_) => 2,
            Ending::File(_) | Ending::Output | Ending::Told => 3,
            Ending::Memory => 4,
            Ending::Lost => 7,
        }
    }
}

impl<'a> fmt::Display for Ending<'a> {
    ghost use Rattle.std.specs.Prelude.{Some};
    ghost use Rattle.cli.specs.Endings.{text_of};

    ghost output = { λ ending. Some (text_of ending) };

    fn fmt<W: fmt::Write>(&self, f: &mut fmt::Formatter<W>) -> fmt::Result {
        match self {
            Ending::Usage(text) => f.write_str(text),
            Ending::NoText => f.write_str("an argument is not UTF-8\n"),
            Ending::TooManyScripts => f.write_str("too many scripts\n"),
            Ending::Unpaired => f.write_str("not as many --to as scripts\n"),
            Ending::TwoInputs => f.write_str("standard input is given twice\n"),
            Ending::TwoOutputs => f.write_str("standard output is given twice\n"),
            Ending::Map(refusal) => writeln!(f, "map: {refusal}"),
            Ending::File(path) => writeln!(f, "file: {path}"),
            Ending::Output => f.write_str("output\n"),
            Ending::Told => f.write_str(""),
            Ending::Lost => f.write_str("a change is lost\n"),
            Ending::Memory => f.write_str("memory\n"),
        }
    }
}
