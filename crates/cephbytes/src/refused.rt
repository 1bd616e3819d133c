//! Why bytes are refused.

ghost use Rattle.std.specs.Prelude.{◌≡◌};
ghost use Rattle.cephbytes.specs.declared.refused.ReadError.TheVariants as errors;

use std::alloc::{AllocError, AllocFailed};

/// Why bytes are refused: the first fault from the left.
#[derive(Clone, Copy, Debug, PartialEq, Eq)]
pub enum Refused {
    /// A thing passes the end of the bytes.
    Short,
    /// A section wants a reader of a later version.
    TooNew,
    /// Bytes stand behind the last thing.
    Trailing,
    /// A number that says what stands here is none that is known.
    Unknown,
    /// The sum that stands in the bytes is not theirs.
    WrongSum,
}

/// Why a list was not read.
#[derive(Debug, Drop)]
pub enum ReadError {
    /// Out of memory.
    Memory,
    /// The bytes are refused.
    Refused(Refused),
}

impl From<Refused> for ReadError {
    ghost from_gives = { λ r e. e ≡ errors.Refused r };

    fn from(r: Refused) -> ReadError {
        ReadError::Refused(r)
    }
}

impl From<AllocError> for ReadError {
    ghost from_gives = { λ _ e. e ≡ errors.Memory };

    fn from(_e: AllocError) -> ReadError {
        ReadError::Memory
    }
}

impl<T: Drop> From<AllocFailed<T>> for ReadError {
    ghost from_gives = { λ _ e. e ≡ errors.Memory };

    fn from(_e: AllocFailed<T>) -> ReadError {
        ReadError::Memory
    }
}
