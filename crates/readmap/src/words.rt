//! The words in which it is told why there is no answer, or why a line is not to be given.

ghost use Rattle.std.specs.Prelude.{◌≡◌};
ghost use Rattle.readmap.specs.Words.{fault_words};

use crate::text::Untold;
use cephbytes::{ReadError, Refused};
use std::fmt;
use upmap_cleanup::Cause;
use verdict::{Doubt, Doubted};

/// Why bytes are no map.
pub(crate) fn fault(error: &ReadError) -> &'static str
    ensures { result.now ≡ fault_words error.now }
{
    match error {
        ReadError::Memory => "there is no memory for it",
        ReadError::Refused(Refused::Short) => "it is cut off, or a length in it lies",
        ReadError::Refused(Refused::TooNew) => "a part of it is of a later release",
        ReadError::Refused(Refused::Trailing) => "more stands behind it",
        ReadError::Refused(Refused::Unknown) => "a part of it is of a kind that is not known",
        ReadError::Refused(Refused::WrongSum) => "its sum is not that of its bytes",
    }
}

impl fmt::Display for Untold {
    ghost use Rattle.std.specs.Prelude.{Some};
    ghost use Rattle.readmap.specs.Words.{untold_words};

    ghost output = { λ why. Some (untold_words why) };

    fn fmt<W: fmt::Write>(&self, f: &mut fmt::Formatter<W>) -> fmt::Result {
        match self {
            Untold::Memory => f.write_str("there is no memory for it"),
            Untold::StaysOut(why) => write!(f, "it does not come in: {}", why.name()),
            Untold::Refused(refusal) => write!(f, "it is no map: {}", refusal.name()),
        }
    }
}

/// Why a monitor would take all exceptions of a group away.
#[derive(Drop)]
struct Takes(Cause);

impl fmt::Display for Takes {
    ghost use Rattle.std.specs.Prelude.{Some};
    ghost use Rattle.readmap.specs.Words.{cause_words};

    ghost output = { λ takes. Some (cause_words takes.0) };

    fn fmt<W: fmt::Write>(&self, f: &mut fmt::Formatter<W>) -> fmt::Result {
        match self.0 {
            Cause::Crowded { step, one, other } => {
                write!(
                    f,
                    "by step {step} osd.{one} and osd.{other} stand below one bucket"
                )
            }
            Cause::Spread { step, buckets } => {
                write!(
                    f,
                    "its set stands below {buckets} buckets, more than step {step} chooses"
                )
            }
            Cause::Outside { step, .. } => {
                write!(
                    f,
                    "a place stands outside of what is taken before step {step}"
                )
            }
            Cause::Unreached(Some(osd)) => write!(f, "the rule does not reach osd.{osd}"),
            Cause::Unreached(None) => f.write_str("a place is empty"),
            Cause::Out(osd) => write!(f, "osd.{osd} is out"),
            Cause::IdleSet => f.write_str("its set is what the rule gives"),
            Cause::SetLength => f.write_str("its set has another length than the pool's size"),
            Cause::IdlePairs => f.write_str("none of its pairs does anything"),
        }
    }
}

/// Why a line is in doubt.
#[derive(Drop)]
struct Because(Doubt);

impl fmt::Display for Because {
    ghost use Rattle.std.specs.Prelude.{Some};
    ghost use Rattle.readmap.specs.Words.{doubt_words};

    ghost output = { λ because. Some (doubt_words because.0) };

    fn fmt<W: fmt::Write>(&self, f: &mut fmt::Formatter<W>) -> fmt::Result {
        match self.0 {
            Doubt::Unknown => f.write_str("no command that is known"),
            Doubt::Refused(refusal) => write!(f, "the map refuses it: {}", refusal.name()),
            Doubt::Fewer => f.write_str("a monitor would take some of its pairs away again"),
            Doubt::Gone(cause) => {
                write!(f, "a monitor would take it away again: {}", Takes(cause))
            }
        }
    }
}

/// A line that is in doubt.
#[derive(Drop)]
pub(crate) struct InDoubt(pub Doubted);

impl fmt::Display for InDoubt {
    ghost use Rattle.std.specs.Prelude.{Some};
    ghost use Rattle.readmap.specs.Words.{doubted_words};

    ghost output = { λ line. Some (doubted_words line.0) };

    fn fmt<W: fmt::Write>(&self, f: &mut fmt::Formatter<W>) -> fmt::Result {
        let number = self.0.line.saturating_add(1);
        write!(f, "line {number}: in doubt: {}", Because(self.0.why))
    }
}
