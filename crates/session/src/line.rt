//! The lines of a text, each with what it asks for.
ghost use Rattle.std.specs.Prelude.{◌≡◌, ◌<◌, ◌∷◌, ◌++◌, ⊤, length, position, IfSome, MatchOption};
ghost use Rattle.std.specs.Option.{option_map};
ghost use Rattle.session.specs.Readings.{IsUnended, IsAsking, AsksNone};
ghost use Rattle.session.specs.Commands.{is_newline, command_of, command_in};

use crate::command::Command;
use crate::parse::{read_command, read_question};
use memchr::memchr;
use monitor::Question;

/// A line, read into its command: `None` where it is none.
#[derive(Clone, Copy)]
pub(crate) struct Line<'t> {
    pub text: &'t [u8],
    pub command: Option<Command<'t>>,
    pub ghost read: { option_map command_of command ≡ command_in text.now },
}

/// The first line that ends in a text, and what stands behind its newline.
#[derive(Clone, Copy)]
pub(crate) struct FirstLine<'t> {
    pub line: &'t [u8],
    pub rest: &'t [u8],
}

/// The first line that ends in a text, which asks a question, and what stands behind its newline.
#[derive(Clone, Copy)]
pub(crate) struct Asking<'t> {
    pub line: &'t [u8],
    pub question: Question,
    pub rest: &'t [u8],
}

/// The place of the first newline.
fn newline(text: &[u8]) -> Option<usize>
    ensures place { result ≡ position is_newline text.now }
    ensures within { IfSome result (λ at. at < length text.now) }
{
    memchr(b'\n', text)
}

/// The first line that ends in a text. `None` where no line ends in it.
pub(crate) fn cut(text: &[u8]) -> Option<FirstLine<'_>>
    ensures { MatchOption result (IsUnended text.now)
        (λ found. IsUnended found.line.now × (text.now ≡ found.line.now ++ 10 ∷ found.rest.now)) }
{
    match newline(text) {
        Some(end) => Some(FirstLine {
            line: &text[..end],
            rest: &text[end + 1..],
        }),
        None => None,
    }
}

/// Reads a line into its command.
pub(crate) fn read_line(text: &[u8]) -> Line<'_>
    ensures { result.text.now ≡ text.now }
{
    Line {
        text,
        command: read_command(text),
    }
}

/// The first line that ends in a text, where it asks a question.
#[tactic(auto, using(crate::proofs::Asked::asks_line))]
pub(crate) fn first_asking(text: &[u8]) -> Option<Asking<'_>>
    ensures asks { IfSome result (λ asking. IsAsking asking.line.now asking.question) }
    ensures text { IfSome result (λ asking. text.now ≡ asking.line.now ++ 10 ∷ asking.rest.now) }
    ensures none { MatchOption result (AsksNone text.now) (λ _. ⊤) }
{
    let FirstLine { line, rest } = cut(text)?;
    let question = read_question(line)?;
    Some(Asking {
        line,
        question,
        rest,
    })
}
