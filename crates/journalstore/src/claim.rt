//! What the file of a store says of its log, as SQLite's user version, a number in the file's first page. It is 0 where
//! the file is the store by itself. A run that is to change the store has the file claim the log, which is on the disk
//! by then.

ghost use Rattle.std.specs.Prelude.{◌≡◌, ◌≤◌, IsTrue, IfOk, IfErr, OnOk};
ghost use Rattle.sqlite.specs.Files.{file_state, over_files};
ghost use Rattle.sqlite.specs.State.{HasCleanDisk};
ghost use Rattle.sqlite.specs.WalReads.{AreClean};
ghost use Rattle.sqlite_trees.specs.Objects.{version_tree, version_rows};
ghost use Rattle.sqlite_trees.specs.View.{IsClean, doubt};
ghost use Rattle.sqlite_store.specs.FileStore.{view, HasSpilled};
ghost use Rattle.journalstore.specs.Faults.{IsOfFile};
ghost use Rattle.journalstore.specs.Texts.{Texts};
ghost use Rattle.journalstore.specs.Stores.{Holds};
ghost use Rattle.journalstore.specs.Claims.{claim_of, Claims, IsWithClaim, IsClosedWith};

use crate::error::StoreError;
use crate::exclusive::Exclusive;
use crate::shape::is_store;
use crate::store::TextStore;
use sqlite::{Alter, Connection, FileStore, Files};
use sqlite_disk::Disk;
use sqlite_trees::error::StoreError as Failure;
use sqlite_trees::store::Store;
use std::alloc::Global;

/// The claim of a file that is the store by itself.
pub(crate) const NO_CLAIM: u32 = 0;

/// The claim of a file whose log may have the changes behind an epoch.
fn claim_of(epoch: u64) -> u32
    ensures { result ≡ claim_of epoch }
{
    epoch.min(u64::from(u32::MAX)) as u32
}

/// Closes the files of a database that has failed: why it did.
fn failed<D: Disk + Drop>(store: FileStore<D>, failure: Failure) -> StoreError
    ensures { IsOfFile result }
{
    drop(store.close());
    failure.into()
}

/// The database as its last commit left it, with this claim: with one commit more, if it made another.
fn with_claim<D: Disk + Drop>(store: FileStore<D>, claim: u32) -> Result<FileStore<D>, StoreError>
    ensures claims { IfOk result (λ s. IsClean (view s) → IsTrue (view s).is_open
        → Claims claim (view store) (view s)) }
    ensures logged { IfOk result (λ s. IsClean (view s) → IsTrue (view s).is_open → ¬ HasSpilled s) }
    ensures clean { IfOk result (λ s. doubt (view store).is_clean ≤ doubt (view s).is_clean) }
    ensures named { IfErr result IsOfFile }
{
    let mut store = store;
    store.rollback();
    if store.version() == claim {
        return Ok(store);
    }
    if let Err(failure) = store.set_version(claim) {
        return Err(failed(store, failure));
    }
    match store.commit() {
        Ok(()) => Ok(store),
        Err(failure) => Err(failed(store, failure)),
    }
}

/// Has the database make this claim, copies the log into the file, and gives the two back.
pub(crate) fn close_with<D: Disk + Drop>(
    conn: Connection<FileStore<D>>,
    claim: u32,
) -> Result<Files<D>, StoreError>
    ensures closed { IfOk result (λ files. AreClean D.Disk files.log files.db → IsClosedWith claim conn files) }
    ensures named { IfErr result IsOfFile }
{
    let mut store = with_claim(conn.into_store(), claim)?;
    match store.checkpoint() {
        Ok(()) => Ok(store.close()),
        Err(failure) => Err(failed(store, failure)),
    }
}

/// The same, and goes on.
fn go_on_with<D: Disk + Drop>(
    alloc: Global,
    conn: Connection<FileStore<D>>,
    claim: u32,
) -> Result<Connection<FileStore<D>>, StoreError>
    ensures claims { IfOk result (λ c. HasCleanDisk (file_state c) → IsWithClaim claim conn c) }
    ensures named { IfErr result IsOfFile }
{
    let mut store = with_claim(conn.into_store(), claim)?;
    if let Err(failure) = store.checkpoint() {
        return Err(failed(store, failure));
    }
    match Connection::over(alloc, store) {
        Ok(conn) => Ok(conn),
        Err((error, store)) => {
            drop(store.close());
            Err(error.into())
        }
    }
}

/// Has the file of an open store claim its log, which may have the changes behind this epoch from then on: the store,
/// which holds what it held. Its file, which has all of it, says so until `fold_log`; if the log is then missing, the
/// store is not opened. The log is on the disk before the file claims it.
///
/// # Errors
///
/// The disk's, `Memory`, or `Damaged`; the store has then ended, and its file may claim its log.
pub fn claim_log<D: Disk + Drop>(
    alloc: Global,
    store: TextStore<FileStore<D>>,
    epoch: u64,
) -> Result<TextStore<FileStore<D>>, StoreError>
    ensures holds { IfOk result (λ s. (t : Texts) → Holds over_files store t → Holds over_files s t) }
    ensures claims { IfOk result (λ s. HasCleanDisk (file_state s.conn)
        → (file_state s.conn).committed.trees version_tree ≡ version_rows (claim_of epoch)) }
    ensures facts { IfOk result (λ s. s.facts ≡ store.facts) }
    ensures clean { IfOk result (λ s. HasCleanDisk (file_state s.conn) → HasCleanDisk (file_state store.conn)) }
    ensures named { IfErr result IsOfFile }
{
    let TextStore { conn, facts } = store;
    let conn = go_on_with(alloc, conn.into_inner(), claim_of(epoch))?;
    if !is_store(conn.schema()) {
        return Err(StoreError::Damaged);
    }
    let conn = Exclusive::new(conn);
    Ok(TextStore { conn, facts })
}
