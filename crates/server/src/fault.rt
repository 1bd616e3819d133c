//! Why nothing is served, or not all of it.
ghost use Rattle.std.specs.Prelude.{◌≡◌, ◌≢◌};
ghost use Rattle.refusal.specs.declared.refused.Refusal.TheVariants.{Memory as OutOfMemory};
ghost use Rattle.server.specs.declared.fault.Fault.TheVariants.{Output as NoOutput, Memory as ShortOfMemory};

use refusal::{Memory, Refusal};
use session::WriteFailed;
use thiserror::Error;

/// Why nothing is served, or not all of it.
#[derive(Clone, Copy, Debug, PartialEq, Eq, Error)]
pub enum Fault {
    /// The map is refused.
    #[error("map: {0}")]
    Map(Refusal),
    /// The sink of the texts has failed.
    #[error("output")]
    Output,
    /// The files of a live session have failed, which its thread has told.
    #[error("told")]
    Told,
    /// A change that a session has seen is not of one session, or the lock has lost the state.
    #[error("a change is lost")]
    Lost,
    /// Out of memory.
    #[error("memory")]
    Memory,
}

/// Why nothing is left of sessions.
#[derive(Clone, Copy, Debug, PartialEq, Eq)]
pub enum Unplayed {
    /// Out of memory.
    Memory,
    /// A change that a session has seen is not of one session, or the lock has lost the state.
    Lost,
}

impl From<Memory> for Unplayed {
    fn from(_memory: Memory) -> Unplayed {
        Unplayed::Memory
    }
}

impl From<Unplayed> for Fault {
    ghost use Rattle.server.specs.Serving.{fault_of};

    ghost from_gives = { λ unplayed fault. fault ≡ fault_of unplayed };

    fn from(unplayed: Unplayed) -> Fault {
        match unplayed {
            Unplayed::Memory => Fault::Memory,
            Unplayed::Lost => Fault::Lost,
        }
    }
}

impl From<WriteFailed> for Fault {
    ghost from_gives = { λ _ fault. fault ≡ NoOutput };

    fn from(_failed: WriteFailed) -> Fault {
        Fault::Output
    }
}

impl From<Memory> for Fault {
    ghost from_gives = { λ _ fault. fault ≡ ShortOfMemory };

    fn from(_memory: Memory) -> Fault {
        Fault::Memory
    }
}

impl Fault {
    /// Why there is no map, where this refusal is the answer.
    pub fn of_refusal(refusal: Refusal) -> Fault
        ensures memory { refusal ≡ OutOfMemory → result ≡ Fault.Memory }
        ensures other { refusal ≢ OutOfMemory → result ≡ Fault.Map refusal }
    {
        match refusal {
            Refusal::Memory => Fault::Memory,
            refusal => Fault::Map(refusal),
        }
    }
}
