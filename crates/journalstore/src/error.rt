//! Why a store does not do what it is asked.

ghost use Rattle.journalstore.specs.Faults.{IsOfFile};

use sqlite::{Error, ErrorCode};
use sqlite_trees::error::StoreError as Failure;
use std::alloc::{AllocError, AllocFailed};
use std::{fmt, io};
use thiserror::Error;

/// Why a store does not do what it is asked.
#[derive(Clone, Copy, Debug, PartialEq, Eq, Error)]
pub enum StoreError {
    /// There is no file, or an empty one.
    Missing,
    /// There is no file, or an empty one, and beside it a log that is not.
    LogAlone,
    /// The file claims its log, which may have the changes behind this epoch, and there is none.
    LogLost(u32),
    /// There is a file already where a copy is to be made.
    Taken,
    /// The folder in which a copy is to be made is missing.
    NoFolder,
    /// There is no right to make a copy in that folder.
    NoRight,
    /// The system refuses to make the copy.
    NoCopy,
    /// The log was begun anew during each try to copy it.
    Moving,
    /// The file cannot be opened: its folder is missing, it is no plain file, or the system refuses it.
    Unopened,
    /// Another process or store has the file open.
    InUse,
    /// The file is no database, or not one of a store.
    Foreign,
    /// A change in it was made in another store, or in another life of it.
    Mixed,
    /// The file is damaged, or another program has written it, whose pages have no sums.
    Damaged,
    /// The file has a first map already.
    Begun,
    /// The epoch is above 2^63 - 1, the greatest that a file holds.
    EpochTooLarge,
    /// There is a change with this epoch or a later one.
    EpochTaken,
    /// The text is too long for a file.
    TextTooLong,
    /// The disk is full.
    Full,
    /// The disk failed.
    Disk,
    /// Memory is short.
    Memory,
    /// An earlier failure of the disk has shut the store.
    Shut,
}

impl fmt::Display for StoreError {
    ghost use Rattle.std.specs.Prelude.{Some};
    ghost use Rattle.journalstore.specs.Faults.{said};

    ghost output = { λ e. Some (said e) };

    fn fmt<W: fmt::Write>(&self, f: &mut fmt::Formatter<W>) -> fmt::Result {
        let said = match self {
            StoreError::LogLost(epoch) => {
                return write!(
                    f,
                    "its log is missing: bring it back, or by --without-log {epoch} lose what it has behind that epoch"
                );
            }
            StoreError::Missing => "there is no store at this path",
            StoreError::LogAlone => "there is a log at this path, and no store with it",
            StoreError::Taken => "there is a file at the path of the copy",
            StoreError::NoFolder => "the folder of the copy is missing",
            StoreError::NoRight => "there is no right to make the copy in its folder",
            StoreError::NoCopy => "the copy cannot be made there",
            StoreError::Moving => "the store was written faster than it was copied",
            StoreError::Unopened => "the file cannot be opened",
            StoreError::InUse => "the store is in use",
            StoreError::Foreign => "the file is not a store",
            StoreError::Mixed => {
                "the store has a change of another store: its log is not its own"
            }
            StoreError::Damaged => "the store is damaged, or another program has written it",
            StoreError::Begun => "the store has a first map already",
            StoreError::EpochTooLarge => "the epoch is above 2^63 - 1",
            StoreError::EpochTaken => "the store has a change with this epoch or a later one",
            StoreError::TextTooLong => "the text is too long for a store",
            StoreError::Full => "the disk is full",
            StoreError::Disk => "the disk failed",
            StoreError::Memory => "memory is short",
            StoreError::Shut => "an earlier failure of the disk has shut the store",
        };
        f.write_str(said)
    }
}

/// The name of a failure of the system at a file of a store: out of memory, else as is said.
pub(crate) fn of_system(error: &io::Error, otherwise: StoreError) -> StoreError
    ensures { IsOfFile otherwise → IsOfFile result }
{
    match error.kind() {
        io::ErrorKind::OutOfMemory => StoreError::Memory,
        io::ErrorKind::StorageFull => StoreError::Full,
        _ => otherwise,
    }
}

/// The name of a failure of the system where a copy is to be made.
pub(crate) fn of_copy(error: &io::Error) -> StoreError {
    match error.kind() {
        io::ErrorKind::NotFound | io::ErrorKind::NotADirectory => StoreError::NoFolder,
        io::ErrorKind::PermissionDenied | io::ErrorKind::ReadOnlyFilesystem => StoreError::NoRight,
        _ => of_system(error, StoreError::NoCopy),
    }
}

/// The name of a failure of the database, as it comes from a file whose tables are those of a store.
fn named(code: ErrorCode) -> StoreError
    ensures { IsOfFile result }
{
    match code {
        ErrorCode::CannotOpen => StoreError::Unopened,
        ErrorCode::DatabaseBusy => StoreError::InUse,
        ErrorCode::NotADatabase => StoreError::Foreign,
        ErrorCode::ConstraintViolation(_) => StoreError::EpochTaken,
        ErrorCode::TooBig => StoreError::TextTooLong,
        ErrorCode::DiskFull => StoreError::Full,
        ErrorCode::SystemIoFailure => StoreError::Disk,
        ErrorCode::OutOfMemory => StoreError::Memory,
        ErrorCode::Closed => StoreError::Shut,
        _ => StoreError::Damaged,
    }
}

impl From<Error> for StoreError {
    ghost use Rattle.journalstore.specs.Faults.{IsOfFile};

    ghost from_gives = { λ _ e. IsOfFile e };

    fn from(error: Error) -> StoreError {
        match error {
            Error::SqliteFailure(code) => named(code),
            _ => StoreError::Damaged,
        }
    }
}

impl From<Failure> for StoreError {
    ghost use Rattle.journalstore.specs.Faults.{IsOfFile};

    ghost from_gives = { λ _ e. IsOfFile e };

    fn from(failure: Failure) -> StoreError {
        match failure {
            Failure::OutOfMemory => StoreError::Memory,
            Failure::Io => StoreError::Disk,
            Failure::Corrupt => StoreError::Damaged,
            Failure::Full => StoreError::Full,
            Failure::Broken => StoreError::Shut,
            Failure::Unstorable => StoreError::TextTooLong,
        }
    }
}

impl From<AllocError> for StoreError {
    ghost use Rattle.std.specs.Prelude.{◌≡◌};
    ghost use Rattle.journalstore.specs.declared.error.StoreError.TheVariants.{Memory};

    ghost from_gives = { λ _ e. e ≡ Memory };

    fn from(_error: AllocError) -> StoreError {
        StoreError::Memory
    }
}

impl<T: Drop> From<AllocFailed<T>> for StoreError {
    ghost use Rattle.std.specs.Prelude.{◌≡◌};
    ghost use Rattle.journalstore.specs.declared.error.StoreError.TheVariants.{Memory};

    ghost from_gives = { λ _ e. e ≡ Memory };

    fn from(_error: AllocFailed<T>) -> StoreError {
        StoreError::Memory
    }
}
