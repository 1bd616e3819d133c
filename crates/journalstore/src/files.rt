//! The files of a store: that of its database, and the log beside it.

ghost use Rattle.std.specs.Prelude.{◌≢◌, IfErr};
ghost use Rattle.journalstore.specs.declared.error.StoreError.TheVariants.{EpochTooLarge};

use crate::claim::NO_CLAIM;
use crate::error::{StoreError, of_system};
use crate::shape::JOURNAL;
use std::fs;
use std::io::{ErrorKind, Read};
use std::ops::Range;

/// The bytes of the smallest page of a database (SQLite, database file format).
const SMALLEST_PAGE: u64 = 512;

/// The bytes of a log's header and of the header of a frame: a shorter log holds nothing (SQLite, database file
/// format).
const LEAST_LOG: u64 = 56;

/// The bytes of a log that holds nothing: its header, and a frame's up to its gate. The port makes such a one as it
/// opens a store without a log.
const EMPTY_LOG: u64 = 41;

/// The bytes of the largest page of a database (SQLite, database file format).
const LARGEST_PAGE: u64 = 65536;

/// Where the first page has the user version, a number whose greatest byte comes first (SQLite, database file format).
const VERSION_AT: Range<usize> = 60..64;

/// Where a store lies, and whether it may have lost its log.
#[derive(Clone, Copy, Debug)]
pub struct Place<'a> {
    /// The path of its file.
    pub path: &'a str,
    /// If its file claims a log that is missing, behind this epoch, it is opened all the same.
    pub without_log: Option<u32>,
}

impl<'a> Place<'a> {
    /// A store that has not lost its log.
    pub(crate) fn of(path: &'a str) -> Place<'a> {
        Place {
            path,
            without_log: None,
        }
    }
}

/// The name of a file beside that of a store. The files lie where a link leads.
pub(crate) fn beside(rt: &HostRuntime, path: &str, end: &str) -> Result<String, StoreError>
    ensures { IfErr result (λ e. e ≢ EpochTooLarge) }
{
    match fs::canonicalize(rt, path) {
        Ok(real) => Ok(format!(in rt.alloc(); "{}{end}", real.as_str())?),
        Err(error) if error.kind() == ErrorKind::NotFound => {
            Ok(format!(in rt.alloc(); "{path}{end}")?)
        }
        Err(error) => Err(of_system(&error, StoreError::Unopened)),
    }
}

/// How long the file of a name is, if there is one.
///
/// # Errors
///
/// `Unopened` where the system does not tell, as of a name that is too long; `Memory`.
pub(crate) fn length_of(rt: &HostRuntime, name: &str) -> Result<Option<u64>, StoreError>
    ensures { IfErr result (λ e. e ≢ EpochTooLarge) }
{
    match fs::metadata(rt, name) {
        Ok(found) => Ok(Some(found.len())),
        Err(error) if error.kind() == ErrorKind::NotFound => Ok(None),
        Err(error) => Err(of_system(&error, StoreError::Unopened)),
    }
}

/// Whether there is a log beside a store that may hold something.
pub(crate) fn has_log(rt: &HostRuntime, path: &str) -> Result<bool, StoreError>
    ensures { IfErr result (λ e. e ≢ EpochTooLarge) }
{
    let log = beside(rt, path, "-wal")?;
    let length = length_of(rt, log.as_str())?.unwrap_or(0);
    Ok(length >= LEAST_LOG)
}

/// The first page of the file of a store, and perhaps more.
///
/// # Errors
///
/// `Unopened` where the system gives none, as of a folder; `Memory`.
fn first_page(rt: &HostRuntime, path: &str) -> Result<Vec<u8>, StoreError>
    ensures { IfErr result (λ e. e ≢ EpochTooLarge) }
{
    let mut bytes = Vec::new(rt.alloc());
    let read = fs::open(rt, path).and_then(|file| file.take(LARGEST_PAGE).read_to_end(&mut bytes));
    match read {
        Ok(_) => Ok(bytes),
        Err(error) => Err(of_system(&error, StoreError::Unopened)),
    }
}

/// The claim that a first page makes: its user version (SQLite, database file format), where it names the table of the
/// changes.
fn claim_in(page: &[u8]) -> u32 {
    let mut places = page.windows(JOURNAL.len());
    match page.get(VERSION_AT) {
        Some([a, b, c, d]) if places.any(|text| text == JOURNAL.as_bytes()) => {
            u32::from_be_bytes([*a, *b, *c, *d])
        }
        _ => NO_CLAIM,
    }
}

/// Tests that the log of a store is there, if its file claims one; a log that the port has made is there.
///
/// # Errors
///
/// `LogLost` with the epoch behind which it may have changes, unless that is the one that may be lost; `Unopened`,
/// `Memory`.
pub(crate) fn check_log(rt: &HostRuntime, place: Place<'_>) -> Result<(), StoreError>
    ensures { IfErr result (λ e. e ≢ EpochTooLarge) }
{
    let log = beside(rt, place.path, "-wal")?;
    if length_of(rt, log.as_str())?.unwrap_or(0) >= EMPTY_LOG {
        return Ok(());
    }
    match claim_in(first_page(rt, place.path)?.as_slice()) {
        NO_CLAIM => Ok(()),
        epoch if place.without_log == Some(epoch) => Ok(()),
        epoch => Err(StoreError::LogLost(epoch)),
    }
}

/// Tests that there is a file at the path, and that it has the length of a page: the port would make a database of a
/// shorter one.
///
/// # Errors
///
/// `Missing` where there is no file, or an empty one, and `LogAlone` where there is a log of one; `Foreign` where it is
/// shorter than any page; `Unopened`, `Memory`.
pub(crate) fn check_there(rt: &HostRuntime, path: &str) -> Result<(), StoreError>
    ensures { IfErr result (λ e. e ≢ EpochTooLarge) }
{
    match length_of(rt, path)?.unwrap_or(0) {
        0 if has_log(rt, path)? => Err(StoreError::LogAlone),
        0 => Err(StoreError::Missing),
        length if length < SMALLEST_PAGE => Err(StoreError::Foreign),
        _ => Ok(()),
    }
}

/// Tests that a store can be made at the path as far as names and lengths tell: no log stands there that has lost its
/// file, which the port would take for none, nor a store that has lost its log, and no name is too long.
///
/// # Errors
///
/// `LogAlone`, `LogLost`, `Unopened`, `Memory`.
pub(crate) fn check_free(rt: &HostRuntime, path: &str) -> Result<(), StoreError>
    ensures { IfErr result (λ e. e ≢ EpochTooLarge) }
{
    let journal = beside(rt, path, "-journal")?;
    length_of(rt, journal.as_str())?;
    let length = length_of(rt, path)?.unwrap_or(0);
    if length >= SMALLEST_PAGE {
        return check_log(rt, Place::of(path));
    }
    if has_log(rt, path)? {
        Err(StoreError::LogAlone)
    } else {
        Ok(())
    }
}
