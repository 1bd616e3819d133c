//! The text of an incremental.

ghost use Rattle.std.specs.Prelude.{◌≡◌, string_bytes, IfOk, OnOk};
ghost use Rattle.journalstore.specs.Texts.{bare_text};
ghost use Rattle.mapstore.specs.JournalTexts.{word_of, row_text, IsTextedStep};

use journalstore::without_note;
use mapjson::write_change;
use mapparts::Profile;
use maptypes::Incremental;
use refusal::Memory;
use std::alloc::Global;
use std::str;

/// The word of a profile, and a space.
pub(crate) fn word(profile: Profile) -> &'static str
    ensures { result.now ≡ word_of profile }
{
    match profile {
        Profile::Plain => "plain ",
        Profile::Stock => "stock ",
    }
}

/// The text of an incremental without a note: `plain` or `stock` by the profile of its change, a space, and the change
/// as JSON, whose base is the epoch before.
///
/// # Errors
///
/// `Memory` (30) where there is no memory for it.
fn write_bare(alloc: Global, step: &Incremental) -> Result<String, Memory>
    ensures text { IfOk result (λ t. string_bytes t ≡ row_text step.now) }
    ensures states { OnOk result (IsTextedStep step.now) }
{
    let change = step.change();
    let json = write_change(alloc, step.epoch().saturating_sub(1), change)?;
    let Ok(json) = str::from_utf8(&json) else {
        unreachable!()
    };
    let mut text = String::from_str(alloc, word(change.parts().profile))?;
    text.push_str(json)?;
    Ok(text)
}

/// A text with a note in front, as far as it is a note.
fn put_note(alloc: Global, note: &str, bare: String) -> Result<String, Memory>
    requires { bare_text (string_bytes bare) ≡ string_bytes bare }
    ensures { IfOk result (λ t. bare_text (string_bytes t) ≡ string_bytes bare) }
{
    let mut text = String::from_str(alloc, note)?;
    text.push_str(bare.as_str())?;
    if without_note(text.as_str()) == bare.as_str() {
        Ok(text)
    } else {
        Ok(bare)
    }
}

/// The text of an incremental with a note: the note, `plain` or `stock` by the profile of its change, a space, and the
/// change as JSON, whose base is the epoch before. What is no note is left out.
///
/// # Errors
///
/// `Memory` (30) where there is no memory for it.
#[tactic(auto, using(crate::proofs::RowLemmas::bare_row))]
pub(crate) fn write_row(alloc: Global, note: &str, step: &Incremental) -> Result<String, Memory>
    ensures text { IfOk result (λ t. bare_text (string_bytes t) ≡ row_text step.now) }
    ensures states { OnOk result (IsTextedStep step.now) }
{
    let bare = write_bare(alloc, step)?;
    put_note(alloc, note, bare)
}
