//! How the texts are read.

ghost use Rattle.std.specs.Prelude.{◌≡◌, [], ◌∷◌, map, All, IfOk, IfErr, OnOk};
ghost use Rattle.sqlite.specs.State.{HasCleanDisk, IsUnchanged};
ghost use Rattle.sqlite.specs.Held.{state};
ghost use Rattle.journalstore.specs.Faults.{IsOfFile};
ghost use Rattle.journalstore.specs.Texts.{entry_shown, IsEntryShown, AreRising, AreEntries};
ghost use Rattle.journalstore.specs.Read.{entry_read, texts_read};
ghost use Rattle.journalstore.specs.Stores.{IsReady, HoldsIn};

use crate::error::StoreError;
use crate::note::{life_in, without_note};
use sqlite::{Alter, Connection, Row};
use std::alloc::Global;

/// An epoch and its text, as they were read.
#[derive(Drop)]
pub struct StoredText {
    pub epoch: u64,
    /// The text without its note.
    pub text: String,
    /// The number of the life in which it was written, where its note says one.
    pub life: Option<i64>,
}

/// The first map and the changes since, in the order of their epochs, as they were read.
#[derive(Drop)]
pub struct StoredTexts {
    pub first: StoredText,
    pub changes: Vec<StoredText>,
}

/// What a row shows.
fn text_in(alloc: Global, row: &Row) -> Result<StoredText, StoreError>
    ensures shown { IfOk result (λ t. IsEntryShown row.now × (entry_read t ≡ entry_shown row.now)) }
    ensures named { IfErr result IsOfFile }
{
    let whole: String = row.get(1)?;
    Ok(StoredText {
        epoch: row.get(0)?,
        text: String::from_str(alloc, without_note(whole.as_str()))?,
        life: life_in(whole.as_str())?,
    })
}

/// What rows show, whose epochs have to rise.
pub(crate) fn texts_in(alloc: Global, rows: &[Row]) -> Result<Vec<StoredText>, StoreError>
    ensures shown { IfOk result (λ ts. (map entry_read ts.items ≡ map entry_shown rows.now) × All IsEntryShown rows.now
        × AreRising (map entry_read ts.items)) }
    ensures named { IfErr result IsOfFile }
{
    let mut found = Vec::new(alloc);
    let mut least = 0;
    for row in rows {
        let text = text_in(alloc, row)?;
        if text.epoch < least {
            return Err(StoreError::Damaged);
        }
        let Some(next) = text.epoch.checked_add(1) else {
            return Err(StoreError::Damaged);
        };
        least = next;
        found.push(text)?;
    }
    Ok(found)
}

/// Reads the table of the first map.
fn read_maps<S: Alter>(
    alloc: Global,
    conn: &mut Connection<S>,
) -> Result<Vec<StoredText>, StoreError>
    ensures entries { IsReady S.Store conn.old → HasCleanDisk (state S.Store conn.new) → IfOk result (λ ts.
        AreEntries ((state S.Store conn.new).now.trees 1) (map entry_read ts.items)
        × IsUnchanged (state S.Store conn.old) (state S.Store conn.new)) }
    ensures clean { HasCleanDisk (state S.Store conn.new) → HasCleanDisk (state S.Store conn.old) }
    ensures named { IfErr result IsOfFile }
{
    let rows = conn.query_all("SELECT epoch, text FROM map", &[])?;
    texts_in(alloc, rows.as_slice())
}

/// Reads the table of the changes.
fn read_changes<S: Alter>(
    alloc: Global,
    conn: &mut Connection<S>,
) -> Result<Vec<StoredText>, StoreError>
    ensures entries { IsReady S.Store conn.old → HasCleanDisk (state S.Store conn.new) → IfOk result (λ ts.
        AreEntries ((state S.Store conn.new).now.trees 0) (map entry_read ts.items)
        × IsUnchanged (state S.Store conn.old) (state S.Store conn.new)) }
    ensures clean { HasCleanDisk (state S.Store conn.new) → HasCleanDisk (state S.Store conn.old) }
    ensures named { IfErr result IsOfFile }
{
    let rows = conn.query_all("SELECT epoch, change FROM journal ORDER BY epoch", &[])?;
    texts_in(alloc, rows.as_slice())
}

/// The one text of a table.
pub(crate) fn only(texts: Vec<StoredText>) -> Result<StoredText, StoreError>
    ensures only { IfOk result (λ t. texts.items ≡ t ∷ []) }
    ensures named { IfErr result IsOfFile }
{
    let mut texts = texts;
    let Some(text) = texts.pop() else {
        return Err(StoreError::Damaged);
    };
    if !texts.is_empty() {
        return Err(StoreError::Damaged);
    }
    Ok(text)
}

/// Reads all that the tables of a store hold.
pub(crate) fn read<S: Alter>(
    alloc: Global,
    conn: &mut Connection<S>,
) -> Result<StoredTexts, StoreError>
    ensures holds { IsReady S.Store conn.old → IfOk result (λ texts. HoldsIn S.Store conn.new (texts_read texts)) }
    ensures same { IsReady S.Store conn.old → HasCleanDisk (state S.Store conn.new)
        → OnOk result (IsUnchanged (state S.Store conn.old) (state S.Store conn.new)) }
    ensures clean { HasCleanDisk (state S.Store conn.new) → HasCleanDisk (state S.Store conn.old) }
    ensures named { IfErr result IsOfFile }
{
    let first = only(read_maps(alloc, conn)?)?;
    let changes = read_changes(alloc, conn)?;
    Ok(StoredTexts { first, changes })
}
