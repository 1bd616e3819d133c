//! What a store notes of itself beside its texts.

ghost use Rattle.std.specs.Prelude.{◌≡◌, IfErr, OnOk};
ghost use Rattle.sqlite.specs.State.{HasCleanDisk};
ghost use Rattle.sqlite.specs.Held.{state};
ghost use Rattle.journalstore.specs.Faults.{IsOfFile};
ghost use Rattle.journalstore.specs.Read.{noted_with};
ghost use Rattle.journalstore.specs.Stores.{HoldsIn};

use crate::error::StoreError;
use crate::reading::{StoredText, StoredTexts};
use crate::shape::is_for_notes;
use sqlite::{Alter, Connection, Row};

/// What a store notes of itself.
#[derive(Clone, Copy, Debug, PartialEq, Eq)]
pub struct Facts {
    /// The number of its life: another one for each store that was begun, or restored from a copy.
    pub life: i64,
    /// How many changes a start leaves.
    pub keep: u32,
}

/// What a store is to note of itself, where another number of changes is to be kept, and there is a place for it.
pub(crate) fn with_keep(facts: Option<Facts>, keep: Option<u32>) -> Option<Facts>
    ensures { result ≡ noted_with facts keep }
{
    match (facts, keep) {
        (Some(facts), Some(keep)) => Some(Facts {
            life: facts.life,
            keep,
        }),
        _ => None,
    }
}

/// What the one row of a store's own table says.
fn facts_in(rows: &[Row]) -> Result<Facts, StoreError>
    ensures { IfErr result IsOfFile }
{
    match rows {
        [row] => Ok(Facts {
            life: row.get(0)?,
            keep: row.get(1)?,
        }),
        _ => Err(StoreError::Damaged),
    }
}

/// Reads what a store with a place for it notes of itself.
fn read_own<S: Alter>(conn: &mut Connection<S>) -> Result<Facts, StoreError>
    ensures holds { OnOk result ((t : _) → HoldsIn S.Store conn.old t → HoldsIn S.Store conn.new t) }
    ensures clean { HasCleanDisk (state S.Store conn.new) → HasCleanDisk (state S.Store conn.old) }
    ensures named { IfErr result IsOfFile }
{
    let rows = conn.query_all("SELECT life, keep FROM store", &[])?;
    let facts = facts_in(rows.as_slice())?;
    Ok(facts)
}

/// Tests that the changes which say a life were made in this one.
fn check_lives(changes: &[StoredText], life: i64) -> Result<(), StoreError>
    ensures { IfErr result IsOfFile }
{
    for change in changes {
        match change.life {
            Some(own) if own != life => return Err(StoreError::Mixed),
            _ => {}
        }
    }
    Ok(())
}

/// Reads what a store notes of itself, where it has a place for that. Of its texts the changes have to be of its life.
pub(crate) fn read_facts<S: Alter>(
    conn: &mut Connection<S>,
    texts: &StoredTexts,
) -> Result<Option<Facts>, StoreError>
    ensures holds { OnOk result ((t : _) → HoldsIn S.Store conn.old t → HoldsIn S.Store conn.new t) }
    ensures clean { HasCleanDisk (state S.Store conn.new) → HasCleanDisk (state S.Store conn.old) }
    ensures named { IfErr result IsOfFile }
{
    if !is_for_notes(conn.schema()) {
        return Ok(None);
    }
    let facts = read_own(conn)?;
    check_lives(texts.changes.as_slice(), facts.life)?;
    Ok(Some(facts))
}
