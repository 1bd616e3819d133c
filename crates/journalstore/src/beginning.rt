//! How a store is made.

ghost use Rattle.std.specs.Prelude.{◌≡◌, ◌≢◌, ◌<◌, ◌≤◌, ◌^◌, IfOk, IfErr, IsErrAnd};
ghost use Rattle.sqlite.specs.State.{HasCleanDisk};
ghost use Rattle.sqlite.specs.Files.{file_state, over_files, HoldsDatabase};
ghost use Rattle.sqlite.specs.WalFiles.{image_at};
ghost use Rattle.journalstore.specs.declared.error.StoreError.TheVariants.{EpochTooLarge};
ghost use Rattle.journalstore.specs.Texts.{Texts, StandsFor, begun_with};
ghost use Rattle.journalstore.specs.Read.{texts_read};
ghost use Rattle.journalstore.specs.Stores.{Holds};

use crate::append::LAST_EPOCH;
use crate::begun::is_begun;
use crate::checkpoint::add_map;
use crate::error::StoreError;
use crate::facts::Facts;
use crate::files::{Place, check_free};
use crate::opening::{FileTexts, connect, open};
use crate::reading::StoredTexts;
use crate::shape::{JOURNAL, is_blank, is_store};
use sqlite::{Alter, Connection, Error, ErrorCode, Start, Transaction, params};

const MAP: &str = "CREATE TABLE map (epoch INTEGER PRIMARY KEY, text TEXT NOT NULL) STRICT";

const ABOUT: &str = "CREATE TABLE store (life INTEGER PRIMARY KEY, keep INTEGER NOT NULL) STRICT";

/// What a store begins with.
#[derive(Clone, Copy, Debug)]
pub struct Beginning<'a> {
    /// The epoch of the first map, and its text.
    pub epoch: u64,
    pub text: &'a str,
    /// What the store notes of itself.
    pub facts: Facts,
}

/// Puts what a store notes of itself into its table, which is empty.
fn add_facts<S: Alter>(tx: &mut Transaction<'_, S>, facts: Facts) -> Result<(), Error> {
    tx.execute(
        "INSERT INTO store (life, keep) VALUES (?1, ?2)",
        params![facts.life, facts.keep],
    )?;
    Ok(())
}

/// Makes the tables and their first rows, in one transaction.
fn make_tables<S: Alter>(conn: &mut Connection<S>, first: &Beginning<'_>) -> Result<(), Error>
    requires { first.now.epoch < 2 ^ 63 }
{
    if !conn.is_autocommit() {
        return Err(Error::SqliteFailure(ErrorCode::TransactionState));
    }
    let mut tx = conn.transaction();
    tx.execute(JOURNAL, &[])?;
    tx.execute(MAP, &[])?;
    tx.execute(ABOUT, &[])?;
    add_map(&mut tx, first.epoch, first.text)?;
    add_facts(&mut tx, first.facts)?;
    tx.commit()
}

/// Makes a database with no table a store with its first map.
fn make_store<S: Alter>(conn: &mut Connection<S>, first: &Beginning<'_>) -> Result<(), StoreError>
    requires { first.now.epoch < 2 ^ 63 }
    ensures named { IfErr result (λ e. e ≢ EpochTooLarge) }
{
    if is_store(conn.schema()) {
        return Err(StoreError::Begun);
    }
    if !is_blank(conn.schema()) {
        return Err(StoreError::Foreign);
    }
    make_tables(conn, first)?;
    Ok(())
}

/// Makes the tables of a store and the row of its first map where there is no table, and copies the log into the file.
fn make_file<W: Start>(
    rt: &HostRuntime,
    path: &str,
    start: W,
    first: &Beginning<'_>,
) -> Result<(), StoreError>
    requires { first.now.epoch < 2 ^ 63 }
    ensures named { IfErr result (λ e. e ≢ EpochTooLarge) }
{
    check_free(rt, path)?;
    let mut conn = connect(rt, path, start)?;
    make_store(&mut conn, first)?;
    conn.close()?;
    Ok(())
}

/// Makes a store with its first map, in one transaction, where there is no file, an empty one, or a database with no
/// table, and opens it as `open` does. Its file is then the store by itself. `starts` stands for what the files held,
/// and for what they hold as they are opened.
///
/// # Errors
///
/// `EpochTooLarge` if the epoch is above 2^63 - 1; `Begun` where there is a store, `LogLost` where its log is missing,
/// `LogAlone` where there is a log whose file is missing, and `Foreign` where there is another database, and then
/// nothing is written; else those of `open` but `Missing`, and `TextTooLong`.
pub fn begin<V: Start, W: Start>(
    rt: &HostRuntime,
    path: &str,
    starts: (V, W),
    first: &Beginning<'_>,
) -> Result<(FileTexts<W>, StoredTexts), StoreError>
    ensures begun { IfOk result (λ r. Holds over_files r.0 (begun_with first.now.epoch first.now.text.now)) }
    ensures read { IfOk result (λ r. texts_read r.1 ≡ begun_with first.now.epoch first.now.text.now) }
    ensures found { IfOk result (λ r. (db : _) (t : Texts) → HasCleanDisk (file_state r.0.conn)
        → HoldsDatabase (image_at W.Start) db → StandsFor db t → texts_read r.1 ≡ t) }
    ensures only { IfErr result (λ e. e ≡ EpochTooLarge → 2 ^ 63 ≤ first.now.epoch) }
    ensures refused { 2 ^ 63 ≤ first.now.epoch → IsErrAnd result (λ e. e ≡ EpochTooLarge) }
{
    if first.epoch > LAST_EPOCH {
        return Err(StoreError::EpochTooLarge);
    }
    let (none, start) = starts;
    make_file(rt, path, none, first)?;
    let (texts, found) = open(rt, Place::of(path), start)?;
    if !is_begun(&found, first.epoch, first.text) {
        return Err(StoreError::Damaged);
    }
    Ok((texts, found))
}
