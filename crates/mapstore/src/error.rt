//! Why a store of a journal is not begun or opened.

ghost use Rattle.std.specs.Prelude.{◌≡◌};

use journalstore::StoreError;
use refusal::{Memory, Refusal};
use replay::Fault;
use std::alloc::{AllocError, AllocFailed};
use std::fmt;
use thiserror::Error;

/// Why a store of a journal is not begun or opened.
#[derive(Clone, Copy, Debug, PartialEq, Eq, Error)]
pub enum OpenError {
    /// The file, the disk or memory.
    Store(StoreError),
    /// The texts stand for no map.
    Journal(Fault),
    /// The text of this epoch begins with no profile.
    NoProfile(u64),
    /// The map has this epoch, and a first map at most 2,147,483,648.
    LateEpoch(u64),
}

impl fmt::Display for OpenError {
    ghost use Rattle.std.specs.Prelude.{Some};
    ghost use Rattle.mapstore.specs.Words.{open_error_text};

    ghost output = { λ e. Some (open_error_text e) };

    fn fmt<W: fmt::Write>(&self, f: &mut fmt::Formatter<W>) -> fmt::Result {
        match self {
            OpenError::Store(error) => write!(f, "{error}"),
            OpenError::Journal(fault) => write!(f, "{fault}"),
            OpenError::NoProfile(epoch) => write!(f, "row {epoch}: no profile"),
            OpenError::LateEpoch(epoch) => write!(
                f,
                "the map has epoch {epoch}, and the first at most 2147483648"
            ),
        }
    }
}

impl From<StoreError> for OpenError {
    ghost use Rattle.std.specs.Prelude.{◌≡◌};
    ghost use Rattle.mapstore.specs.declared.error.OpenError.TheVariants.{Store};

    ghost from_gives = { λ store e. e ≡ Store store };

    fn from(error: StoreError) -> OpenError {
        OpenError::Store(error)
    }
}

impl From<Memory> for OpenError {
    ghost use Rattle.std.specs.Prelude.{◌≡◌};
    ghost use Rattle.journalstore.specs.declared.error.StoreError.TheVariants.{Memory as OutOfMemory};
    ghost use Rattle.mapstore.specs.declared.error.OpenError.TheVariants.{Store};

    ghost from_gives = { λ _ e. e ≡ Store OutOfMemory };

    fn from(_error: Memory) -> OpenError {
        OpenError::Store(StoreError::Memory)
    }
}

impl From<AllocError> for OpenError {
    ghost use Rattle.std.specs.Prelude.{◌≡◌};
    ghost use Rattle.journalstore.specs.declared.error.StoreError.TheVariants.{Memory as OutOfMemory};
    ghost use Rattle.mapstore.specs.declared.error.OpenError.TheVariants.{Store};

    ghost from_gives = { λ _ e. e ≡ Store OutOfMemory };

    fn from(_error: AllocError) -> OpenError {
        OpenError::Store(StoreError::Memory)
    }
}

impl<T: Drop> From<AllocFailed<T>> for OpenError {
    ghost use Rattle.std.specs.Prelude.{◌≡◌};
    ghost use Rattle.journalstore.specs.declared.error.StoreError.TheVariants.{Memory as OutOfMemory};
    ghost use Rattle.mapstore.specs.declared.error.OpenError.TheVariants.{Store};

    ghost from_gives = { λ _ e. e ≡ Store OutOfMemory };

    fn from(_error: AllocFailed<T>) -> OpenError {
        OpenError::Store(StoreError::Memory)
    }
}

/// A fault of the journal; where memory was short, that.
impl From<Fault> for OpenError {
    ghost use Rattle.std.specs.Prelude.{◌≡◌, ◌⊎◌};
    ghost use Rattle.journalstore.specs.declared.error.StoreError.TheVariants.{Memory as OutOfMemory};
    ghost use Rattle.mapstore.specs.declared.error.OpenError.TheVariants.{Store, Journal};

    ghost from_gives = { λ fault e. (e ≡ Store OutOfMemory) ⊎ (e ≡ Journal fault) };

    fn from(fault: Fault) -> OpenError {
        match fault {
            Fault::First(Refusal::Memory) => OpenError::Store(StoreError::Memory),
            Fault::Row {
                refusal: Refusal::Memory,
                ..
            } => OpenError::Store(StoreError::Memory),
            _ => OpenError::Journal(fault),
        }
    }
}
