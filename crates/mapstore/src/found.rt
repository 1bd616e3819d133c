//! The map that the texts of a store stand for.

ghost use Rattle.std.specs.Prelude.{◌≡◌, ◌≢◌, ◌++◌, List, ℕ, [], ◌∷◌, map, MatchOption, IfOk, IfErr};
ghost use Rattle.std.specs.List.{AllZip};
ghost use Rattle.journalstore.specs.Read.{entry_read, texts_read};
ghost use Rattle.mapstore.specs.JournalTexts.{word_of};
ghost use Rattle.mapstore.specs.Openings.{IsRow, IsMapOf, IsUnread, IsUnopened};

use crate::error::OpenError;
use crate::row::word;
use journalstore::{StoredText, StoredTexts};
use mapparts::Profile;
use osdmap::OsdMap;
use replay::{Row, replay};
use std::alloc::Global;

/// What stands behind the word of a profile, if a text begins with it.
fn strip_word(text: &[u8], profile: Profile) -> Option<&[u8]>
    ensures { MatchOption result ((json : List ℕ) → text.now ≢ word_of profile ++ json)
        (λ json. text.now ≡ word_of profile ++ json.now) }
{
    text.strip_prefix(word(profile).as_bytes())
}

/// The row of an epoch and its text.
fn read_row(alloc: Global, stored: &StoredText) -> Result<Row, OpenError>
    ensures row { IfOk result (IsRow (entry_read stored.now)) }
    ensures wordless { IfErr result (IsUnread (entry_read stored.now ∷ [])) }
{
    let text = stored.text.as_bytes();
    let json = match (
        strip_word(text, Profile::Plain),
        strip_word(text, Profile::Stock),
    ) {
        (Some(json), _) | (None, Some(json)) => json,
        (None, None) => return Err(OpenError::NoProfile(stored.epoch)),
    };
    Ok(Row {
        epoch: stored.epoch,
        text: json.to_vec(alloc)?,
    })
}

/// The rows of epochs and their texts.
fn read_rows(alloc: Global, changes: &[StoredText]) -> Result<Vec<Row>, OpenError>
    ensures rows { IfOk result (λ rows. AllZip IsRow (map entry_read changes.now) rows.items) }
    ensures wordless { IfErr result (IsUnread (map entry_read changes.now)) }
{
    let mut rows = Vec::new(alloc);
    for stored in changes {
        let row = read_row(alloc, stored)?;
        rows.push(row)?;
    }
    Ok(rows)
}

/// The map that the texts of a store stand for.
///
/// # Errors
///
/// `NoProfile` with the first epoch whose text begins with none; else `Journal` where a text is refused; or `Store`
/// where memory is short.
pub(crate) fn find_map(alloc: Global, texts: &StoredTexts) -> Result<OsdMap, OpenError>
    ensures map { IfOk result (λ m. IsMapOf (texts_read texts.now) m.map) }
    ensures unopened { IfErr result (IsUnopened (texts_read texts.now)) }
{
    let rows = read_rows(alloc, texts.changes.as_slice())?;
    let map = replay(alloc, texts.first.text.as_bytes(), &rows, Profile::Stock)?;
    Ok(map)
}
