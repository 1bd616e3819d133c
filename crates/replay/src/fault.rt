//! Why a kept journal stands for no map.

use refusal::Refusal;
use std::fmt;
use thiserror::Error;

/// Why a kept journal stands for no map.
#[derive(Clone, Copy, Debug, PartialEq, Eq, Error)]
pub enum Fault {
    /// The text of the first map is refused.
    First(Refusal),
    /// The row of an epoch is refused, the first that is.
    Row { epoch: u64, refusal: Refusal },
}

/// `map: NAME` or `row EPOCH: NAME`, by the name of the refusal.
impl fmt::Display for Fault {
    ghost use Rattle.std.specs.Prelude.{Some};
    ghost use Rattle.replay.specs.Replays.{fault_text};

    ghost output = { λ f. Some (fault_text f) };

    fn fmt<W: fmt::Write>(&self, f: &mut fmt::Formatter<W>) -> fmt::Result {
        match self {
            Fault::First(refusal) => write!(f, "map: {refusal}"),
            Fault::Row { epoch, refusal } => write!(f, "row {epoch}: {refusal}"),
        }
    }
}
