//! A copy of a store that a program may have open.
//!
//! A database and its log stand for the last commit in the log at each moment, also while the log is copied into the
//! file: what a copy of the file then lacks of it is in the log still. So a copy of the file and a later one of the log
//! belong together unless the log was begun anew between them, which its header tells, whose salts are then others.

use crate::checkpoint::checkpoint;
use crate::claim::{NO_CLAIM, close_with};
use crate::error::{StoreError, of_copy, of_system};
use crate::facts::{Facts, read_facts};
use crate::files::{Place, beside, check_log, check_there, has_log, length_of};
use crate::opening::find;
use crate::reading::{StoredTexts, read};
use sqlite::{Alter, Connection, Start, params};
use std::alloc::Global;
use std::fs::{self, File};
use std::io::{self, ErrorKind, Read};
use std::path::Path;

/// The bytes of a log's header (SQLite, database file format).
const HEADER: usize = 32;

/// How often files are copied until a copy is whole.
const TRIES: usize = 100;

/// How many names are tried for the part of a copy.
const PARTS: u32 = 1000;

/// Puts another number into each note, between its first letters and its first comma.
const RENAME: &str =
    "UPDATE journal SET change = 'life=' || ?1 || substr(change, instr(change, ',')) \
WHERE change >= 'life=' AND change < 'life>'";

/// The header of a log; zeros where there is none.
fn header_of(rt: &HostRuntime, log: &str) -> Result<[u8; HEADER], StoreError> {
    let mut header = [0; HEADER];
    match fs::open(rt, log) {
        Ok(mut file) => match file.read_exact(&mut header) {
            Ok(()) => Ok(header),
            Err(error) if error.kind() == ErrorKind::UnexpectedEof => Ok([0; HEADER]),
            Err(error) => Err(of_system(&error, StoreError::Disk)),
        },
        Err(error) if error.kind() == ErrorKind::NotFound => Ok(header),
        Err(error) => Err(of_system(&error, StoreError::Unopened)),
    }
}

/// Copies a file with its rights, if it is there: whether it is.
fn copy(rt: &HostRuntime, from: &str, to: &str) -> Result<bool, StoreError> {
    let mut source = match fs::open(rt, from) {
        Ok(file) => file,
        Err(error) if error.kind() == ErrorKind::NotFound => return Ok(false),
        Err(error) => return Err(of_system(&error, StoreError::Unopened)),
    };
    let mut target = match fs::create(rt, to) {
        Ok(file) => file,
        Err(error) => return Err(of_copy(&error)),
    };
    let rights = source.metadata().map(|found| found.permissions());
    let set = rights.and_then(|rights| target.set_permissions(rights));
    match set.and_then(|()| io::copy(&mut source, &mut target)) {
        Ok(_) => Ok(true),
        Err(error) => Err(of_system(&error, StoreError::Disk)),
    }
}

/// Takes a file away, if it is there.
fn remove(rt: &HostRuntime, name: &str) -> Result<(), StoreError> {
    match fs::remove_file(rt, name) {
        Ok(()) => Ok(()),
        Err(error) if error.kind() == ErrorKind::NotFound => Ok(()),
        Err(error) => Err(of_system(&error, StoreError::Disk)),
    }
}

/// Copies a file and its log once: whether the two copies belong together.
fn copy_once(rt: &HostRuntime, from: (&str, &str), to: (&str, &str)) -> Result<bool, StoreError> {
    let before = header_of(rt, from.1)?;
    remove(rt, to.1)?;
    if !copy(rt, from.0, to.0)? {
        return Err(StoreError::Missing);
    }
    copy(rt, from.1, to.1)?;
    Ok(header_of(rt, to.1)? == before && header_of(rt, from.1)? == before)
}

/// Copies the files of a store to two others, which then belong together.
fn copy_files(rt: &HostRuntime, path: &str, to: (&str, &str)) -> Result<(), StoreError> {
    let log = beside(rt, path, "-wal")?;
    for _ in 0..TRIES {
        if copy_once(rt, (path, log.as_str()), to)? {
            return Ok(());
        }
    }
    Err(StoreError::Moving)
}

/// Has the notes of all changes say this number.
fn name_life<S: Alter>(conn: &mut Connection<S>, life: i64) -> Result<(), StoreError> {
    conn.execute(RENAME, params![life])?;
    Ok(())
}

/// Gives a store another number, where it has a place for one.
fn give_life<S: Alter>(
    alloc: Global,
    conn: &mut Connection<S>,
    texts: &StoredTexts,
    life: Option<i64>,
) -> Result<(), StoreError> {
    match (read_facts(conn, texts)?, life) {
        (Some(Facts { keep, .. }), Some(life)) => {
            name_life(conn, life)?;
            checkpoint(alloc, conn, texts, Some(Facts { life, keep }))
        }
        _ => Ok(()),
    }
}

/// Reads the store of these files, gives it another number, if one is told, copies its log into its file, which then
/// claims none, and takes the log away.
fn make_whole<W: Start>(
    rt: &HostRuntime,
    files: (&str, &str),
    start: W,
    life: Option<i64>,
) -> Result<StoredTexts, StoreError> {
    let mut conn = find(rt, files.0, start)?;
    let texts = read(rt.alloc(), &mut conn)?;
    give_life(rt.alloc(), &mut conn, &texts, life)?;
    close_with(conn, NO_CLAIM)?;
    remove(rt, files.1)?;
    Ok(texts)
}

/// Makes an empty file of a name that no file has: whether it is made.
fn is_made(rt: &HostRuntime, name: &str) -> Result<bool, StoreError> {
    match File::create_new(rt, name) {
        Ok(_) => Ok(true),
        Err(error) if error.kind() == ErrorKind::AlreadyExists => Ok(false),
        Err(error) => Err(of_copy(&error)),
    }
}

/// Makes the part of a copy, a file of its own: its name, and that of its log, which no file has.
fn make_part(rt: &HostRuntime, to: &str) -> Result<(String, String), StoreError> {
    for number in 1..=PARTS {
        let part = format!(in rt.alloc(); "{to}.{number}.part")?;
        let log = format!(in rt.alloc(); "{to}.{number}.part-wal")?;
        if length_of(rt, log.as_str())?.is_none() && is_made(rt, part.as_str())? {
            return Ok((part, log));
        }
    }
    Err(StoreError::Taken)
}

/// Syncs the folder of a file, so that the file keeps its name in a crash.
fn sync_folder(rt: &HostRuntime, name: &str) -> io::Result<()> {
    let folder = match Path::new(name).parent() {
        Some(folder) if !folder.as_str().is_empty() => folder.as_str(),
        _ => ".",
    };
    File::open(rt, folder)?.sync_all()
}

/// Gives a part the name of the copy, in the place of no file that was made meanwhile: by a second name, where the
/// folder takes one.
fn name(rt: &HostRuntime, part: &str, to: &str) -> io::Result<()> {
    match fs::hard_link(rt, part, to) {
        Ok(()) => fs::remove_file(rt, part),
        Err(error) if error.kind() == ErrorKind::AlreadyExists => Err(error),
        Err(_) => fs::rename(rt, part, to),
    }
}

/// Gives a whole part the name of the copy; both are on the disk before it ends.
fn put(rt: &HostRuntime, part: &str, to: &str) -> Result<(), StoreError> {
    let synced = File::open(rt, part).and_then(|file| file.sync_all());
    match synced
        .and_then(|()| name(rt, part, to))
        .and_then(|()| sync_folder(rt, to))
    {
        Ok(()) => Ok(()),
        Err(error) if error.kind() == ErrorKind::AlreadyExists => Err(StoreError::Taken),
        Err(error) => Err(of_system(&error, StoreError::Disk)),
    }
}

/// Tests that there is neither a file of this name nor the log of one.
fn check_target(rt: &HostRuntime, to: &str) -> Result<(), StoreError> {
    match fs::metadata(rt, to) {
        Ok(_) => Err(StoreError::Taken),
        Err(error) if error.kind() != ErrorKind::NotFound => Err(of_copy(&error)),
        Err(_) if has_log(rt, to)? => Err(StoreError::LogAlone),
        Err(_) => Ok(()),
    }
}

/// Makes one file of the files of a store, which another program may have open and write: a store by itself. What it
/// holds is what the store held at one moment of the call, and is read from the copy. Until it is whole the file has
/// the name of the copy with a number and `.part` behind it, which no other file has. With `life` it is a store of this
/// number, where it has a place for one: one that goes on by itself.
///
/// # Errors
///
/// `Taken` where there is a file of this name already, and `LogAlone` where there is a log beside it; `NoFolder`,
/// `NoRight` and `NoCopy` where none can be made there; `Moving` where the store was written faster than it was copied;
/// else those of `open`. Then no file of this name is made, but where the folder alone was not synced.
pub fn copy_store<W: Start>(
    rt: &HostRuntime,
    place: Place<'_>,
    to: &str,
    start: W,
    life: Option<i64>,
) -> Result<StoredTexts, StoreError> {
    check_there(rt, place.path)?;
    check_log(rt, place)?;
    check_target(rt, to)?;
    let (part, log) = make_part(rt, to)?;
    let files = (part.as_str(), log.as_str());
    let made = match copy_files(rt, place.path, files) {
        Ok(()) => make_whole(rt, files, start, life),
        Err(error) => Err(error),
    };
    let done = match made {
        Ok(texts) => match put(rt, part.as_str(), to) {
            Ok(()) => return Ok(texts),
            Err(error) => error,
        },
        Err(error) => error,
    };
    let _ = remove(rt, part.as_str());
    let _ = remove(rt, log.as_str());
    Err(done)
}
