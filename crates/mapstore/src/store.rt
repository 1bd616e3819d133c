//! The store of a journal.

ghost use Rattle.std.specs.Prelude.{◌≡◌, ◌≤◌, string_bytes, IfOk, OnOk, OnErr};
ghost use Rattle.journalstore.specs.Texts.{bare_text};
ghost use Rattle.mapstore.specs.JournalTexts.{row_text, IsTextedStep};

use crate::noted::Noted;
use crate::row::write_row;
use crate::witness::Witness;
use epochlog::{Keeps, NotKept};
use journalstore::{Facts, StoreError, StoredTexts, TextStore};
use maptypes::Incremental;
use osdmap::OsdMap;
use refusal::Memory;
use sqlite::Alter;
use std::alloc::Global;

/// A journal in a database: the map that was found there, and the incrementals since.
#[derive(Drop)]
pub struct MapStore<S: Alter> {
    pub(crate) texts: TextStore<S>,
    /// The texts that were found, behind which those of the incrementals stand.
    pub(crate) past: Noted<StoredTexts>,
    /// The map that they stand for.
    pub(crate) found: Noted<OsdMap>,
    /// The epoch of that map.
    pub(crate) first: u64,
    /// No change has a later epoch.
    pub(crate) last: u64,
    pub(crate) alloc: Global,
    /// Who is told why it fails, and how many changes it has taken.
    pub(crate) witness: Witness,
}

impl<S: Alter> MapStore<S> {
    /// What its file noted of itself as it was opened, where it has a place for that.
    pub fn facts(&self) -> Option<Facts>
        ensures { result ≡ self.now.texts.facts }
    {
        self.texts.facts()
    }

    /// The text of an incremental, with a note where the store has a number.
    fn write(&self, step: &Incremental) -> Result<String, Memory>
        ensures text { IfOk result (λ t. bare_text (string_bytes t) ≡ row_text step.now) }
        ensures states { OnOk result (IsTextedStep step.now) }
    {
        match self.texts.facts() {
            Some(facts) => {
                let note = self.witness.sign(facts.life)?;
                write_row(self.alloc, note.as_str(), step)
            }
            None => write_row(self.alloc, "", step),
        }
    }
}

impl<S: Alter> Keeps for MapStore<S> {
    ghost use Rattle.std.specs.Prelude.{⊤};
    ghost use Rattle.mapstore.specs.Stores.{HoldsJournal, MayLeaveJournal};
    ghost use Rattle.mapstore.specs.Laws.{settled_at};

    ghost holds = { HoldsJournal S.Store };

    ghost may_leave = { MayLeaveJournal S.Store };

    ghost may_fail = { ⊤ };

    ghost settled = { settled_at S.Store };

    fn keep(&mut self, step: &Incremental) -> Result<(), NotKept> {
        if step.epoch() <= self.last {
            self.witness.tell(StoreError::EpochTaken);
            return Err(NotKept::Failed);
        }
        let Ok(text) = self.write(step) else {
            return Err(NotKept::Memory);
        };
        let Err(error) = self.texts.append(step.epoch(), text.as_str()) else {
            self.last = step.epoch();
            self.witness.count(self.last.saturating_sub(self.first));
            return Ok(());
        };
        let is_running = self.texts.is_running();
        if is_running && error == StoreError::Memory {
            return Err(NotKept::Memory);
        }
        self.witness.tell(error);
        Err(NotKept::Failed)
    }

    fn forgets(&self) -> bool {
        false
    }
}
