//! Whether texts are those that a store begins with, or those that a checkpoint is to leave.

ghost use Rattle.std.specs.Prelude.{◌≡◌, ◌↔◌, true, map};
ghost use Rattle.journalstore.specs.Texts.{begun_with};
ghost use Rattle.journalstore.specs.Read.{entry_read, texts_read};

use crate::reading::{StoredText, StoredTexts};

/// Whether a text has this epoch and says this.
fn says(stored: &StoredText, epoch: u64, text: &str) -> bool
    ensures { (result ≡ true) ↔ (entry_read stored.now ≡ (epoch, text.now)) }
{
    stored.epoch == epoch && stored.text.as_str() == text
}

/// Whether this is what a store begins with: a first map of this epoch and text, and no change.
#[tactic(auto, using(crate::proofs::StoreLemmas::begun_read, crate::proofs::StoreLemmas::read_begun))]
pub fn is_begun(texts: &StoredTexts, epoch: u64, text: &str) -> bool
    ensures { (result ≡ true) ↔ (texts_read texts.now ≡ begun_with epoch text.now) }
{
    says(&texts.first, epoch, text) && texts.changes.is_empty()
}

/// Whether a text says the same as another.
fn is_same(text: &StoredText, other: &StoredText) -> bool
    ensures { result ≡ true → entry_read text.now ≡ entry_read other.now }
{
    says(text, other.epoch, other.text.as_str())
}

/// Whether texts say the same as others, one after the other.
fn are_same(texts: &[StoredText], others: &[StoredText]) -> bool
    ensures { result ≡ true → map entry_read texts.now ≡ map entry_read others.now }
{
    if texts.len() != others.len() {
        return false;
    }
    for at in 0..texts.len() {
        if !is_same(&texts[at], &others[at]) {
            return false;
        }
    }
    true
}

/// Whether these are the same texts as others.
#[tactic(auto, using(crate::proofs::StoreLemmas::same_read))]
pub(crate) fn are_same_texts(texts: &StoredTexts, others: &StoredTexts) -> bool
    ensures { result ≡ true → texts_read texts.now ≡ texts_read others.now }
{
    is_same(&texts.first, &others.first)
        && are_same(texts.changes.as_slice(), others.changes.as_slice())
}
