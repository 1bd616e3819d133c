//! The store of a journal's texts.

ghost use Rattle.std.specs.Prelude.{◌≡◌, ◌⊎◌, ◌≤◌, ◌^◌, true, map, IfErr, OnOk, OnErr, Err};
ghost use Rattle.sqlite.specs.State.{HasCleanDisk};
ghost use Rattle.sqlite.specs.Held.{state};
ghost use Rattle.journalstore.specs.declared.error.StoreError.TheVariants.{EpochTooLarge};
ghost use Rattle.journalstore.specs.Texts.{bare_text, with_change, IsAfter, StandsFor};
ghost use Rattle.journalstore.specs.Read.{texts_read};
ghost use Rattle.journalstore.specs.Stores.{Holds, Leaves, Keeps};

use crate::append::{append, is_running};
use crate::checkpoint::checkpoint;
use crate::error::StoreError;
use crate::exclusive::Exclusive;
use crate::facts::{Facts, with_keep};
use crate::reading::StoredTexts;
use sqlite::{Alter, Connection, File, FileStore};
use std::alloc::Global;

/// The texts of a journal in a database: a first map, and the changes since.
#[derive(Drop)]
pub struct TextStore<S: Alter> {
    pub(crate) conn: Exclusive<Connection<S>>,
    /// What it noted of itself as it was opened, where it has a place for that.
    pub(crate) facts: Option<Facts>,
}

impl<S: Alter> TextStore<S> {
    /// What it noted of itself as it was opened, where it has a place for that.
    pub fn facts(&self) -> Option<Facts>
        ensures { result ≡ self.now.facts }
    {
        self.facts
    }

    /// Appends a change, which may have a note in front, with one sync of the disk. After `Ok` each crash leaves it.
    /// After an error the store holds what it did before, unless a failure of the disk has shut it. Whatever a crash
    /// leaves holds the texts from before, or those with the change.
    ///
    /// The clauses speak of an epoch above those of all changes; any other is the caller's fault.
    ///
    /// # Errors
    ///
    /// `EpochTooLarge` if the epoch is above 2^63 - 1, and then nothing is changed; `EpochTaken` if there is a change
    /// with it; else the disk's, `TextTooLong`, `Memory` or `Shut`.
    pub fn append(&mut self, epoch: u64, change: &str) -> Result<(), StoreError>
        ensures appends { OnOk result ((t : _) → Holds S.Store self.old t → IsAfter t epoch
            → Holds S.Store self.new (with_change t (epoch, bare_text change.now))) }
        ensures kept { OnErr result ((t : _) → Holds S.Store self.old t → Keeps S.Store self.new t) }
        ensures crash { (t : _) → Holds S.Store self.old t → IsAfter t epoch → Leaves S.Store self.new
            (λ db. StandsFor db t ⊎ StandsFor db (with_change t (epoch, bare_text change.now))) }
        ensures only { IfErr result (λ e. e ≡ EpochTooLarge → 2 ^ 63 ≤ epoch) }
        ensures refused { 2 ^ 63 ≤ epoch → (result ≡ Err EpochTooLarge) × (self.new ≡ self.old) }
    {
        let conn = &mut self.conn;
        append(&mut conn.value, epoch, change)
    }

    /// Makes another text the first map, and takes the old one and the changes up to its epoch away, in one
    /// transaction; those behind it have to be the changes of `texts`. With `keep` it notes how many changes a start
    /// is to leave, where there is a place. After an error the store holds what it did before, unless a failure of the
    /// disk has shut it. Whatever a crash leaves holds the texts from before, or the new ones.
    ///
    /// # Errors
    ///
    /// `EpochTooLarge` if the epoch is above 2^63 - 1, and then nothing is changed; `EpochTaken` if there are
    /// other changes with a later epoch; else the disk's, `TextTooLong`, `Memory` or `Shut`.
    pub fn checkpoint(
        &mut self,
        alloc: Global,
        texts: &StoredTexts,
        keep: Option<u32>,
    ) -> Result<(), StoreError>
        ensures cut { OnOk result ((t : _) → Holds S.Store self.old t
            → Holds S.Store self.new (texts_read texts.now)) }
        ensures kept { OnErr result ((t : _) → Holds S.Store self.old t → Keeps S.Store self.new t) }
        ensures crash { (t : _) → Holds S.Store self.old t → Leaves S.Store self.new
            (λ db. StandsFor db t ⊎ StandsFor db (texts_read texts.now)) }
        ensures clean { HasCleanDisk (state S.Store self.new.conn) → HasCleanDisk (state S.Store self.old.conn) }
        ensures only { IfErr result (λ e. e ≡ EpochTooLarge → 2 ^ 63 ≤ texts.now.first.epoch) }
        ensures refused { 2 ^ 63 ≤ texts.now.first.epoch → (result ≡ Err EpochTooLarge) × (self.new ≡ self.old) }
    {
        let facts = with_keep(self.facts, keep);
        let conn = &mut self.conn;
        checkpoint(alloc, &mut conn.value, texts, facts)
    }

    /// Whether the database answers a question: then no failure has shut it, and it holds what it kept. Where memory is
    /// short it may not.
    pub fn is_running(&mut self) -> bool
        ensures holds { result ≡ true → (t : _) → Keeps S.Store self.old t → Holds S.Store self.new t }
        ensures crash { (t : _) (more : _) → Leaves S.Store self.old (λ db. StandsFor db t ⊎ StandsFor db more)
            → Leaves S.Store self.new (λ db. StandsFor db t ⊎ StandsFor db more) }
    {
        let conn = &mut self.conn;
        is_running(&mut conn.value)
    }
}

fn needs_sync<T: Send + Sync>(_value: &T) {}

/// Threads may share a store in a file.
pub fn may_be_shared(store: &TextStore<FileStore<File>>) {
    needs_sync(store);
}
