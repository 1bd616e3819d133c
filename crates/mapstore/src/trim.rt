//! How the first map of a store moves on, so that not all changes are kept.

ghost use Rattle.std.specs.Prelude.{◌≡◌, true, IfOk, OnOk};
ghost use Rattle.sqlite.specs.State.{HasCleanDisk};
ghost use Rattle.sqlite.specs.Held.{state};
ghost use Rattle.journalstore.specs.Read.{texts_read};
ghost use Rattle.journalstore.specs.Stores.{Holds};
ghost use Rattle.mapstore.specs.Openings.{IsMapOf};

use crate::error::OpenError;
use crate::first::write_first;
use crate::found::find_map;
use crate::keep::Keep;
use journalstore::{StoreError, StoredText, StoredTexts, TextStore};
use osdmap::OsdMap;
use refusal::Memory;
use sqlite::Alter;
use std::alloc::Global;

/// The map that texts stand for, of which it is known that they do.
fn find_known(alloc: Global, texts: &StoredTexts) -> Result<OsdMap, StoreError>
    ensures { IfOk result (λ m. IsMapOf (texts_read texts.now) m.map) }
{
    match find_map(alloc, texts) {
        Ok(map) => Ok(map),
        Err(OpenError::Store(error)) => Err(error),
        Err(_) => Err(StoreError::Damaged),
    }
}

/// The last changes, so many; the others stay.
fn split_last(
    alloc: Global,
    changes: &mut Vec<StoredText>,
    keep: u32,
) -> Result<Vec<StoredText>, StoreError> {
    let mut last = Vec::new(alloc);
    for _ in 0..keep {
        let Some(change) = changes.pop() else {
            break;
        };
        last.push(change)?;
    }
    last.reverse();
    Ok(last)
}

/// Texts that are to stand for the same map, with so many changes: the first map is the one after the others.
fn shorten(alloc: Global, found: StoredTexts, keep: u32) -> Result<StoredTexts, StoreError> {
    let mut found = found;
    let changes = split_last(alloc, &mut found.changes, keep)?;
    let map = find_known(alloc, &found)?;
    let Ok(text) = write_first(alloc, &map) else {
        return Err(StoreError::Memory);
    };
    let epoch = map.epoch();
    Ok(StoredTexts {
        first: StoredText {
            epoch,
            text,
            life: None,
        },
        changes,
    })
}

/// Whether two maps have one text: then they are one.
fn is_same(alloc: Global, left: &OsdMap, map: &OsdMap) -> Result<bool, Memory>
    ensures { IfOk result (λ same. same ≡ true → left.now.map ≡ map.now.map) }
{
    let text = write_first(alloc, left)?;
    let other = write_first(alloc, map)?;
    Ok(text.as_str() == other.as_str())
}

/// Tests that texts stand for a map.
fn check_same(alloc: Global, texts: &StoredTexts, map: &OsdMap) -> Result<(), StoreError>
    ensures { OnOk result (IsMapOf (texts_read texts.now) map.now.map) }
{
    let left = find_known(alloc, texts)?;
    match is_same(alloc, &left, map) {
        Ok(true) => Ok(()),
        Ok(false) => Err(StoreError::Damaged),
        Err(_) => Err(StoreError::Memory),
    }
}

/// Has a store, which holds these texts, note how many changes a start is to leave, if that is told.
fn note<S: Alter>(
    alloc: Global,
    store: &mut TextStore<S>,
    texts: StoredTexts,
    keep: Option<u32>,
) -> Result<StoredTexts, StoreError>
    requires holds { Holds S.Store store.old (texts_read texts) }
    ensures holds { IfOk result (λ past. Holds S.Store store.new (texts_read past)) }
    ensures same { IfOk result (λ past. past ≡ texts) }
    ensures clean { HasCleanDisk (state S.Store store.new.conn) → HasCleanDisk (state S.Store store.old.conn) }
{
    if keep.is_none() {
        return Ok(texts);
    }
    store.checkpoint(alloc, &texts, keep)?;
    Ok(texts)
}

/// Moves the first map on where there are more changes than twice as many as are to be kept; so many are then left,
/// and what that costs comes but once in so many changes. What is left stands for the same map, which is tested before
/// it is written: the texts that the store then holds. Where a number is told, the store notes it.
///
/// # Errors
///
/// What a checkpoint refuses, or `Memory`.
pub(crate) fn trim<S: Alter>(
    alloc: Global,
    store: &mut TextStore<S>,
    found: StoredTexts,
    map: &OsdMap,
    keep: Keep,
) -> Result<StoredTexts, StoreError>
    requires holds { Holds S.Store store.old (texts_read found) }
    requires map { IsMapOf (texts_read found) map.now.map }
    ensures holds { IfOk result (λ past. Holds S.Store store.new (texts_read past)) }
    ensures map { IfOk result (λ past. IsMapOf (texts_read past) map.now.map) }
    ensures clean { HasCleanDisk (state S.Store store.new.conn) → HasCleanDisk (state S.Store store.old.conn) }
{
    let (count, noted) = (keep.count(store.facts()), keep.note(store.facts()));
    if found.changes.len() as u64 <= 2 * u64::from(count) {
        return note(alloc, store, found, noted);
    }
    let past = shorten(alloc, found, count)?;
    check_same(alloc, &past, map)?;
    store.checkpoint(alloc, &past, noted)?;
    Ok(past)
}
