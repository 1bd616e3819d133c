//! Why a session stops before its end.
ghost use Rattle.std.specs.Prelude.{◌≡◌};
ghost use Rattle.session.specs.declared.error.SessionError.TheVariants.{Write as CannotWrite};

use crate::sink::WriteFailed;
use thiserror::Error;

/// Why a session stops before its script or its input ends.
#[derive(Clone, Copy, Debug, PartialEq, Eq, Error)]
pub enum SessionError {
    /// The sink has failed.
    #[error("the sink has failed")]
    Write,
    /// The text of an answer found no memory.
    #[error("the text of an answer found no memory")]
    Memory,
    /// The gate did not let a line through.
    #[error("the gate did not let a line through")]
    Held,
    /// A read failed, or more lines came than a line's number can count.
    #[error("the input could not be read")]
    Read,
}

impl From<WriteFailed> for SessionError {
    ghost from_gives = { λ _ e. e ≡ CannotWrite };

    fn from(_failed: WriteFailed) -> SessionError {
        SessionError::Write
    }
}
