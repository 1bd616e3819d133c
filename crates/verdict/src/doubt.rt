//! Why a script is not to be given, and why there is no answer.

ghost use Rattle.std.specs.Prelude.{◌≡◌};
ghost use Rattle.std.specs.Result.{result_err};
ghost use Rattle.verdict.specs.Verdicts.{doubt_by};

use refusal::{Memory, Refusal};
use std::alloc::AllocError;
use upmap_cleanup::{Cause, Remnant};

/// Why a script is not to be given.
#[derive(Clone, Copy, Debug)]
pub enum Doubt {
    /// A line is no command that is known.
    Unknown,
    /// The map refuses a command.
    Refused(Refusal),
    /// A monitor would take some of the pairs away again that a command gives.
    Fewer,
    /// A monitor would take all exceptions of the group away again, and why.
    Gone(Cause),
}

/// Why a command does not stand: a doubt, or no memory.
#[derive(Debug)]
pub(crate) enum Stop {
    Doubt(Doubt),
    Memory,
}

impl From<Memory> for Stop {
    ghost use Rattle.verdict.specs.declared.doubt.Stop.TheVariants as stop;

    ghost from_gives = { λ _ s. s ≡ stop.Memory };

    fn from(_memory: Memory) -> Stop {
        Stop::Memory
    }
}

impl From<Refusal> for Stop {
    ghost use Rattle.verdict.specs.Verdicts.{stop_by};

    ghost from_gives = { λ refusal s. s ≡ stop_by refusal };

    fn from(refusal: Refusal) -> Stop {
        match refusal {
            Refusal::Memory => Stop::Memory,
            other => Stop::Doubt(Doubt::Refused(other)),
        }
    }
}

/// Why a monitor would not leave what it finds.
pub(crate) fn doubt_of(left: Remnant) -> Result<(), Doubt>
    ensures { result_err result ≡ doubt_by left }
{
    match left {
        Remnant::All => Ok(()),
        Remnant::Fewer => Err(Doubt::Fewer),
        Remnant::Gone(cause) => Err(Doubt::Gone(cause)),
    }
}
