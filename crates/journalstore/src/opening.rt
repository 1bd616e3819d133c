//! How a store is opened.

ghost use Rattle.std.specs.Prelude.{◌≡◌, ◌≢◌, IfOk, IfErr};
ghost use Rattle.sqlite.specs.State.{HasCleanDisk};
ghost use Rattle.sqlite.specs.Files.{file_state, over_files, IsOpened, HoldsDatabase};
ghost use Rattle.sqlite.specs.Start.{FindsIn};
ghost use Rattle.sqlite.specs.WalFiles.{image_at};
ghost use Rattle.journalstore.specs.declared.error.StoreError.TheVariants.{EpochTooLarge};
ghost use Rattle.journalstore.specs.Faults.{IsOfFile};
ghost use Rattle.journalstore.specs.Texts.{Texts, StandsFor};
ghost use Rattle.journalstore.specs.Read.{texts_read};
ghost use Rattle.journalstore.specs.Stores.{IsReady, Holds};
ghost use Rattle.journalstore.specs.Folded.{IsFoldedFrom};

use crate::claim::{NO_CLAIM, close_with};
use crate::error::StoreError;
use crate::exclusive::Exclusive;
use crate::facts::read_facts;
use crate::files::{Place, check_log, check_there};
use crate::reading::{StoredTexts, read};
use crate::shape::is_store;
use crate::store::TextStore;
use sqlite::{Connection, FileFrom, FileStore, Files, Start};
use sqlite_disk::Disk;

/// A connection to files that held what `W` says.
pub(crate) type FileConnection<W> = Connection<FileStore<FileFrom<W>>>;

/// A store in files that held what `W` says.
pub type FileTexts<W> = TextStore<FileStore<FileFrom<W>>>;

/// Opens the file, whatever it holds. Where there is none it makes one, whose pages end in sums.
pub(crate) fn connect<W: Start>(
    rt: &HostRuntime,
    path: &str,
    start: W,
) -> Result<FileConnection<W>, StoreError>
    ensures found { IfOk result (λ c. HasCleanDisk (file_state c) → FindsIn (image_at W.Start) (file_state c)) }
    ensures opened { IfOk result (λ c. HasCleanDisk (file_state c) → IsOpened c) }
    ensures named { IfErr result IsOfFile }
{
    match Connection::open_from(rt, path, true, start) {
        Ok(conn) => Ok(conn),
        Err((error, _)) => Err(error.into()),
    }
}

/// Opens a file that has the tables of a store.
pub(crate) fn find<W: Start>(
    rt: &HostRuntime,
    path: &str,
    start: W,
) -> Result<FileConnection<W>, StoreError>
    ensures found { IfOk result (λ c. HasCleanDisk (file_state c) → FindsIn (image_at W.Start) (file_state c)) }
    ensures ready { IfOk result (IsReady over_files) }
    ensures named { IfErr result IsOfFile }
{
    let conn = connect(rt, path, start)?;
    if is_store(conn.schema()) {
        Ok(conn)
    } else {
        Err(StoreError::Foreign)
    }
}

/// Opens a store and reads all that it holds: the texts that the files held, if they held a store.
///
/// No clause ties the files to the path. Another process may make or remove the file between the test for it and the
/// open; an empty file that appears then is made a database with no table, and `Foreign` is answered.
///
/// # Errors
///
/// `Missing` where there is no file, or an empty one, and `LogAlone` where its log is there; `LogLost` where its file
/// claims a log that is missing, and then no file is made; `Unopened`, `InUse`, `Foreign`, `Mixed`, `Damaged`, `Full`,
/// `Disk`, `Memory`.
pub fn open<W: Start>(
    rt: &HostRuntime,
    place: Place<'_>,
    start: W,
) -> Result<(FileTexts<W>, StoredTexts), StoreError>
    ensures holds { IfOk result (λ r. Holds over_files r.0 (texts_read r.1)) }
    ensures found { IfOk result (λ r. (db : _) (t : Texts) → HasCleanDisk (file_state r.0.conn)
        → HoldsDatabase (image_at W.Start) db → StandsFor db t → texts_read r.1 ≡ t) }
    ensures named { IfErr result (λ e. e ≢ EpochTooLarge) }
{
    check_there(rt, place.path)?;
    check_log(rt, place)?;
    let mut conn = find(rt, place.path, start)?;
    let texts = read(rt.alloc(), &mut conn)?;
    let facts = read_facts(&mut conn, &texts)?;
    let conn = Exclusive::new(conn);
    Ok((TextStore { conn, facts }, texts))
}

/// Copies the log of a store into its file, which then is the store by itself, and claims no log: the two files, which
/// hold the database that they held, the file alone too, also after a crash.
///
/// # Errors
///
/// Those of `open`; the store holds what it did.
pub fn fold_log<W: Start>(
    rt: &HostRuntime,
    path: &str,
    start: W,
) -> Result<Files<FileFrom<W>>, StoreError>
    ensures folded { IfOk result (IsFoldedFrom ⟦<FileFrom<W> as Disk>⟧ (image_at W.Start)) }
{
    check_there(rt, path)?;
    check_log(rt, Place::of(path))?;
    let conn = find(rt, path, start)?;
    let files = close_with(conn, NO_CLAIM)?;
    Ok(files)
}

/// Whether there is no store at a path, nor anything of one.
pub fn is_missing(rt: &HostRuntime, path: &str) -> bool {
    matches!(check_there(rt, path), Err(StoreError::Missing))
}
