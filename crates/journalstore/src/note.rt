//! What stands beside a change in its row: in which life of a store it was made, when, and by whom.

ghost use Rattle.std.specs.Prelude.{◌≡◌, IfErr};
ghost use Rattle.journalstore.specs.Faults.{IsOfFile};
ghost use Rattle.journalstore.specs.Texts.{bare_text};

use crate::error::StoreError;

/// A text without its note: `life=N,made=M` and perhaps `,by=WORD`, and a space.
#[tactic(auto, unfolding(crate::specs::Texts::bare_text))]
pub fn without_note(text: &str) -> &str
    ensures { result.now ≡ bare_text text.now }
{
    if !text.starts_with('l') {
        return text;
    }
    match text.split_once(' ') {
        Some((_, bare)) => bare,
        None => "",
    }
}

/// Whether what a note says behind its first number is when a change was made, and perhaps by whom.
fn is_rest(rest: &str) -> bool {
    let Some(made) = rest.strip_prefix("made=") else {
        return false;
    };
    let number = match made.split_once(',') {
        Some((number, by)) if by.starts_with("by=") => number,
        Some(_) => return false,
        None => made,
    };
    number.parse::<u64>().is_ok()
}

/// The number of the life that a note says.
fn life_of(note: &str) -> Option<i64> {
    let (life, rest) = note.strip_prefix("life=")?.split_once(',')?;
    if is_rest(rest) {
        life.parse::<i64>().ok()
    } else {
        None
    }
}

/// The number of the life that the note of a text says, where it has one.
pub(crate) fn life_in(text: &str) -> Result<Option<i64>, StoreError>
    ensures { IfErr result IsOfFile }
{
    if !text.starts_with('l') {
        return Ok(None);
    }
    let Some((note, _)) = text.split_once(' ') else {
        return Err(StoreError::Damaged);
    };
    match life_of(note) {
        Some(life) => Ok(Some(life)),
        None => Err(StoreError::Damaged),
    }
}
