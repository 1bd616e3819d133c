//! How other texts take the place of those that a store holds, a new first map and its last changes; and how what it
//! notes of itself becomes another.

ghost use Rattle.std.specs.Prelude.{◌≡◌, ◌⊎◌, ◌<◌, ◌≤◌, ◌^◌, [], ◌∷◌, map, Err, IfOk, IfErr, OnOk, OnErr};
ghost use Rattle.sqlite.specs.State.{HasCleanDisk, IsUnchanged, KeepsCommit, Survives};
ghost use Rattle.sqlite.specs.Held.{state};
ghost use Rattle.journalstore.specs.declared.error.StoreError.TheVariants.{EpochTooLarge};
ghost use Rattle.journalstore.specs.Faults.{IsOfFile};
ghost use Rattle.journalstore.specs.Texts.{AreEntries, StandsFor};
ghost use Rattle.journalstore.specs.Read.{entry_read, texts_read};
ghost use Rattle.journalstore.specs.Stores.{IsInWriting, IsWritten, HoldsIn, LeavesIn, KeepsIn};

use crate::append::LAST_EPOCH;
use crate::begun::are_same_texts;
use crate::error::StoreError;
use crate::facts::Facts;
use crate::reading::{StoredText, StoredTexts, only, texts_in};
use sqlite::{Alter, Connection, Error, Transaction, params};
use std::alloc::Global;

/// Takes the changes up to an epoch away, and all first maps.
fn clear<S: Alter>(tx: &mut Transaction<'_, S>, epoch: u64) -> Result<(), Error>
    requires { epoch < 2 ^ 63 }
    ensures same_reference { tx.new.conn.ghost_name ≡ tx.old.conn.ghost_name }
    ensures writing { IsInWriting (state S.Store tx.old.conn.now) → HasCleanDisk (state S.Store tx.new.conn.now)
        → OnOk result (IsInWriting (state S.Store tx.new.conn.now)) }
    ensures keeps { IsInWriting (state S.Store tx.old.conn.now) → HasCleanDisk (state S.Store tx.new.conn.now)
        → KeepsCommit (state S.Store tx.old.conn.now) (state S.Store tx.new.conn.now) }
    ensures survives { Survives (state S.Store tx.old.conn.now) (state S.Store tx.new.conn.now) (λ _. ⊥) }
{
    tx.execute(
        "DELETE FROM journal WHERE epoch <= ?1",
        params![epoch as i64],
    )?;
    tx.execute("DELETE FROM map", &[])?;
    Ok(())
}

/// Adds a first map.
pub(crate) fn add_map<S: Alter>(
    tx: &mut Transaction<'_, S>,
    epoch: u64,
    text: &str,
) -> Result<(), Error>
    requires { epoch < 2 ^ 63 }
    ensures same_reference { tx.new.conn.ghost_name ≡ tx.old.conn.ghost_name }
    ensures writing { IsInWriting (state S.Store tx.old.conn.now) → HasCleanDisk (state S.Store tx.new.conn.now)
        → OnOk result (IsInWriting (state S.Store tx.new.conn.now)) }
    ensures keeps { IsInWriting (state S.Store tx.old.conn.now) → HasCleanDisk (state S.Store tx.new.conn.now)
        → KeepsCommit (state S.Store tx.old.conn.now) (state S.Store tx.new.conn.now) }
    ensures survives { Survives (state S.Store tx.old.conn.now) (state S.Store tx.new.conn.now) (λ _. ⊥) }
{
    tx.execute(
        "INSERT INTO map (epoch, text) VALUES (?1, ?2)",
        params![epoch as i64, text],
    )?;
    Ok(())
}

/// Notes of the store what is told.
fn put_facts<S: Alter>(tx: &mut Transaction<'_, S>, facts: Facts) -> Result<(), Error>
    ensures same_reference { tx.new.conn.ghost_name ≡ tx.old.conn.ghost_name }
    ensures writing { IsInWriting (state S.Store tx.old.conn.now) → HasCleanDisk (state S.Store tx.new.conn.now)
        → OnOk result (IsInWriting (state S.Store tx.new.conn.now)) }
    ensures keeps { IsInWriting (state S.Store tx.old.conn.now) → HasCleanDisk (state S.Store tx.new.conn.now)
        → KeepsCommit (state S.Store tx.old.conn.now) (state S.Store tx.new.conn.now) }
    ensures survives { Survives (state S.Store tx.old.conn.now) (state S.Store tx.new.conn.now) (λ _. ⊥) }
{
    tx.execute(
        "UPDATE store SET life = ?1, keep = ?2",
        params![facts.life, facts.keep],
    )?;
    Ok(())
}

/// Notes of the store what is told, if anything is.
#[tactic(auto, using(crate::proofs::CheckpointLemmas::survives_none, crate::proofs::CheckpointLemmas::keeps_none))]
fn put_facts_if_any<S: Alter>(
    tx: &mut Transaction<'_, S>,
    facts: Option<Facts>,
) -> Result<(), Error>
    ensures same_reference { tx.new.conn.ghost_name ≡ tx.old.conn.ghost_name }
    ensures writing { IsInWriting (state S.Store tx.old.conn.now) → HasCleanDisk (state S.Store tx.new.conn.now)
        → OnOk result (IsInWriting (state S.Store tx.new.conn.now)) }
    ensures keeps { IsInWriting (state S.Store tx.old.conn.now) → HasCleanDisk (state S.Store tx.new.conn.now)
        → KeepsCommit (state S.Store tx.old.conn.now) (state S.Store tx.new.conn.now) }
    ensures survives { Survives (state S.Store tx.old.conn.now) (state S.Store tx.new.conn.now) (λ _. ⊥) }
{
    match facts {
        Some(facts) => put_facts(tx, facts),
        None => Ok(()),
    }
}

/// Reads the table of the first map inside a transaction.
fn read_maps<S: Alter>(
    alloc: Global,
    tx: &mut Transaction<'_, S>,
) -> Result<Vec<StoredText>, StoreError>
    ensures same_reference { tx.new.conn.ghost_name ≡ tx.old.conn.ghost_name }
    ensures entries { IsInWriting (state S.Store tx.old.conn.now) → HasCleanDisk (state S.Store tx.new.conn.now)
        → IfOk result (λ ts. AreEntries ((state S.Store tx.new.conn.now).now.trees 1) (map entry_read ts.items)
        × IsUnchanged (state S.Store tx.old.conn.now) (state S.Store tx.new.conn.now)) }
    ensures keeps { IsInWriting (state S.Store tx.old.conn.now) → HasCleanDisk (state S.Store tx.new.conn.now)
        → KeepsCommit (state S.Store tx.old.conn.now) (state S.Store tx.new.conn.now) }
    ensures named { IfErr result IsOfFile }
    ensures survives { Survives (state S.Store tx.old.conn.now) (state S.Store tx.new.conn.now) (λ _. ⊥) }
{
    let rows = tx.query_all("SELECT epoch, text FROM map", &[])?;
    texts_in(alloc, rows.as_slice())
}

/// Reads the table of the changes inside a transaction.
fn read_changes<S: Alter>(
    alloc: Global,
    tx: &mut Transaction<'_, S>,
) -> Result<Vec<StoredText>, StoreError>
    ensures same_reference { tx.new.conn.ghost_name ≡ tx.old.conn.ghost_name }
    ensures entries { IsInWriting (state S.Store tx.old.conn.now) → HasCleanDisk (state S.Store tx.new.conn.now)
        → IfOk result (λ ts. AreEntries ((state S.Store tx.new.conn.now).now.trees 0) (map entry_read ts.items)
        × IsUnchanged (state S.Store tx.old.conn.now) (state S.Store tx.new.conn.now)) }
    ensures keeps { IsInWriting (state S.Store tx.old.conn.now) → HasCleanDisk (state S.Store tx.new.conn.now)
        → KeepsCommit (state S.Store tx.old.conn.now) (state S.Store tx.new.conn.now) }
    ensures named { IfErr result IsOfFile }
    ensures survives { Survives (state S.Store tx.old.conn.now) (state S.Store tx.new.conn.now) (λ _. ⊥) }
{
    let rows = tx.query_all("SELECT epoch, change FROM journal ORDER BY epoch", &[])?;
    texts_in(alloc, rows.as_slice())
}

/// Reads what a transaction would leave.
fn read_inside<S: Alter>(
    alloc: Global,
    tx: &mut Transaction<'_, S>,
) -> Result<StoredTexts, StoreError>
    ensures same_reference { tx.new.conn.ghost_name ≡ tx.old.conn.ghost_name }
    ensures stands { IsInWriting (state S.Store tx.old.conn.now) → HasCleanDisk (state S.Store tx.new.conn.now)
        → IfOk result (λ texts. StandsFor (state S.Store tx.new.conn.now).now.trees (texts_read texts)
        × IsUnchanged (state S.Store tx.old.conn.now) (state S.Store tx.new.conn.now)) }
    ensures keeps { IsInWriting (state S.Store tx.old.conn.now) → HasCleanDisk (state S.Store tx.new.conn.now)
        → KeepsCommit (state S.Store tx.old.conn.now) (state S.Store tx.new.conn.now) }
    ensures named { IfErr result IsOfFile }
    ensures survives { Survives (state S.Store tx.old.conn.now) (state S.Store tx.new.conn.now) (λ _. ⊥) }
{
    let first = only(read_maps(alloc, tx)?)?;
    let changes = read_changes(alloc, tx)?;
    Ok(StoredTexts { first, changes })
}

/// Writes a checkpoint inside a transaction.
fn write<S: Alter>(
    alloc: Global,
    tx: &mut Transaction<'_, S>,
    texts: &StoredTexts,
    facts: Option<Facts>,
) -> Result<(), StoreError>
    requires { texts.now.first.epoch < 2 ^ 63 }
    ensures same_reference { tx.new.conn.ghost_name ≡ tx.old.conn.ghost_name }
    ensures written { IsInWriting (state S.Store tx.old.conn.now) → HasCleanDisk (state S.Store tx.new.conn.now)
        → OnOk result (IsWritten (state S.Store tx.new.conn.now) (texts_read texts.now)) }
    ensures keeps { IsInWriting (state S.Store tx.old.conn.now) → HasCleanDisk (state S.Store tx.new.conn.now)
        → KeepsCommit (state S.Store tx.old.conn.now) (state S.Store tx.new.conn.now) }
    ensures named { IfErr result IsOfFile }
    ensures survives { Survives (state S.Store tx.old.conn.now) (state S.Store tx.new.conn.now) (λ _. ⊥) }
{
    clear(tx, texts.first.epoch)?;
    add_map(tx, texts.first.epoch, texts.first.text.as_str())?;
    put_facts_if_any(tx, facts)?;
    let read = read_inside(alloc, tx)?;
    if are_same_texts(&read, texts) {
        Ok(())
    } else {
        Err(StoreError::EpochTaken)
    }
}

/// Makes a text the first map, as `TextStore::checkpoint` says.
pub(crate) fn checkpoint<S: Alter>(
    alloc: Global,
    conn: &mut Connection<S>,
    texts: &StoredTexts,
    facts: Option<Facts>,
) -> Result<(), StoreError>
    ensures cut { OnOk result ((t : _) → HoldsIn S.Store conn.old t
        → HoldsIn S.Store conn.new (texts_read texts.now)) }
    ensures kept { OnErr result ((t : _) → HoldsIn S.Store conn.old t → KeepsIn S.Store conn.new t) }
    ensures crash { (t : _) → HoldsIn S.Store conn.old t → LeavesIn S.Store conn.new
        (λ db. StandsFor db t ⊎ StandsFor db (texts_read texts.now)) }
    ensures clean { HasCleanDisk (state S.Store conn.new) → HasCleanDisk (state S.Store conn.old) }
    ensures only { IfErr result (λ e. e ≡ EpochTooLarge → 2 ^ 63 ≤ texts.now.first.epoch) }
    ensures refused { 2 ^ 63 ≤ texts.now.first.epoch → (result ≡ Err EpochTooLarge) × (conn.new ≡ conn.old) }
{
    if texts.first.epoch > LAST_EPOCH {
        return Err(StoreError::EpochTooLarge);
    }
    if !conn.is_autocommit() {
        return Err(StoreError::Damaged);
    }
    let mut tx = conn.transaction();
    write(alloc, &mut tx, texts, facts)?;
    tx.commit()?;
    Ok(())
}
