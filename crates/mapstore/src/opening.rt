//! How a store is begun and opened.

ghost use Rattle.std.specs.Prelude.{◌≡◌, ◌<◌, IfOk, IfErr};
ghost use Rattle.sqlite.specs.State.{HasCleanDisk};
ghost use Rattle.sqlite.specs.Held.{state};
ghost use Rattle.sqlite.specs.Files.{file_state, over_files};
ghost use Rattle.sqlite.specs.WalFiles.{image_at};
ghost use Rattle.mapparts.specs.Limits.{max_first_epoch};
ghost use Rattle.epochlog.specs.Journals.{Journal};
ghost use Rattle.journalstore.specs.Texts.{begun_with};
ghost use Rattle.journalstore.specs.Read.{texts_read};
ghost use Rattle.journalstore.specs.Stores.{Holds};
ghost use Rattle.mapstore.specs.declared.error.OpenError.TheVariants.{LateEpoch};
ghost use Rattle.mapstore.specs.JournalTexts.{begun};
ghost use Rattle.mapstore.specs.Stores.{HoldsJournal};
ghost use Rattle.mapstore.specs.Openings.{IsMapOf, IsFoundIn, IsUnopened};
ghost use Rattle.mapjson.specs.Written.{written};

use crate::error::OpenError;
use crate::first::write_first;
use crate::found::find_map;
use crate::keep::Keep;
use crate::noted::Noted;
use crate::store::MapStore;
use crate::trim::trim;
use crate::witness::Witness;
use journalstore::{Beginning, Facts, Place, StoredTexts, TextStore};
use mapparts::limits::MAX_FIRST_EPOCH;
use osdmap::OsdMap;
use sqlite::{Alter, FileFrom, FileStore, Start};
use std::alloc::Global;

/// A store in files that held what `W` says.
pub type FileMaps<W> = MapStore<FileStore<FileFrom<W>>>;

/// Whether a first map may have this epoch.
fn check_epoch(map: &OsdMap) -> Result<(), OpenError>
    ensures { IfErr result (λ e. (e ≡ LateEpoch map.now.map.epoch) × (max_first_epoch < map.now.map.epoch)) }
{
    if i128::from(map.epoch()) > MAX_FIRST_EPOCH {
        Err(OpenError::LateEpoch(map.epoch()))
    } else {
        Ok(())
    }
}

/// The store over texts that stand for a map, which the journal begins with.
fn hold<S: Alter>(
    alloc: Global,
    texts: TextStore<S>,
    past: &StoredTexts,
    map: &OsdMap,
    witness: Witness,
) -> MapStore<S>
    requires stands { IsMapOf (texts_read past.now) map.now.map }
    requires holds { Holds S.Store texts (texts_read past.now) }
    ensures holds { HoldsJournal S.Store result (begun map.now.map) }
    ensures same { result.texts ≡ texts }
{
    let epoch = map.epoch();
    MapStore {
        texts,
        past: Noted::of(past),
        found: Noted::of(map),
        first: epoch,
        last: epoch,
        alloc,
        witness,
    }
}

/// The store over an open one, in which these texts were found, with the map that they stand for, which the journal
/// begins with. The first map moves on where there are more changes than twice as many as `keep` says, so that so many
/// are left; the store notes a number that is told.
///
/// # Errors
///
/// `NoProfile` with the first epoch whose text begins with none; else `Journal` where the texts stand for no map; else
/// `LateEpoch` if the map's epoch is above 2,147,483,648; or `Store` with what a checkpoint refuses, or with `Memory`.
pub fn adopt<S: Alter + Drop>(
    alloc: Global,
    texts: TextStore<S>,
    found: StoredTexts,
    keep: Keep,
    witness: Witness,
) -> Result<(MapStore<S>, OsdMap), OpenError>
    requires { Holds S.Store texts (texts_read found) }
    ensures holds { IfOk result (λ r. HoldsJournal S.Store r.0 (begun r.1.map)) }
    ensures map { IfOk result (λ r. IsMapOf (texts_read found) r.1.map) }
    ensures clean { IfOk result (λ r. HasCleanDisk (state S.Store r.0.texts.conn)
        → HasCleanDisk (state S.Store texts.conn)) }
    ensures unopened { IfErr result (IsUnopened (texts_read found)) }
{
    let map = find_map(alloc, &found)?;
    check_epoch(&map)?;
    let mut texts = texts;
    let past = trim(alloc, &mut texts, found, &map, keep)?;
    Ok((hold(alloc, texts, &past, &map, witness), map))
}

/// Makes a store with this first map and no change, which notes this of itself, where there is no file, an empty one,
/// or a database with no table, and opens it: the store, and the map that its text states. Its file is then the store
/// by itself. `starts` stands for what the files held, and for what they hold as they are opened.
///
/// # Errors
///
/// `LateEpoch` if the map's epoch is above 2,147,483,648, and then nothing is written; `Store` with what
/// [`journalstore::begin`] refuses, `Begun` where there is a store, or with `Memory`.
pub fn begin<V: Start, W: Start>(
    rt: &HostRuntime,
    path: &str,
    starts: (V, W),
    first: (&OsdMap, Facts),
    witness: Witness,
) -> Result<(FileMaps<W>, OsdMap), OpenError>
    ensures holds { IfOk result (λ r. HoldsJournal over_files r.0 (begun r.1.map)) }
    ensures map { IfOk result (λ r. IsMapOf (begun_with first.entry.0.now.map.epoch (written first.entry.0.now.map))
        r.1.map) }
    ensures found { IfOk result (λ r. IsFoundIn over_files (image_at W.Start) r.0 r.1.map) }
{
    let (map, facts) = first;
    check_epoch(map)?;
    let text = write_first(rt.alloc(), map)?;
    let beginning = Beginning {
        epoch: map.epoch(),
        text: text.as_str(),
        facts,
    };
    let (texts, found) = journalstore::begin(rt, path, starts, &beginning)?;
    adopt(rt.alloc(), texts, found, Keep::All, witness)
}

/// Opens a store: the map that its texts stand for, which the journal begins with. Where there are more changes than
/// twice as many as `keep` says it writes a checkpoint, which leaves so many.
///
/// # Errors
///
/// `Store` with what [`journalstore::open`] refuses, `Missing` where there is no file and `LogLost` where its log is
/// missing, or with what a checkpoint does; `NoProfile` with the first epoch whose text begins with none; `Journal`
/// where the texts stand for no map; `LateEpoch` if the map's epoch is above 2,147,483,648.
pub fn open<W: Start>(
    rt: &HostRuntime,
    place: Place<'_>,
    start: W,
    keep: Keep,
    witness: Witness,
) -> Result<(FileMaps<W>, OsdMap), OpenError>
    ensures holds { IfOk result (λ r. HoldsJournal over_files r.0 (begun r.1.map)) }
    ensures found { IfOk result (λ r. IsFoundIn over_files (image_at W.Start) r.0 r.1.map) }
{
    let (texts, found) = journalstore::open(rt, place, start)?;
    adopt(rt.alloc(), texts, found, keep, witness)
}

/// Has the file of an open store claim its log, as [`journalstore::claim_log`] says, from its last epoch on: the store,
/// which holds the journal that it held.
///
/// # Errors
///
/// `Store` with what [`journalstore::claim_log`] refuses.
pub fn claim_log<W: Start>(store: FileMaps<W>) -> Result<FileMaps<W>, OpenError>
    ensures holds { IfOk result (λ s. (j : Journal) → HoldsJournal over_files store j → HoldsJournal over_files s j) }
    ensures clean { IfOk result (λ s. HasCleanDisk (file_state s.texts.conn)
        → HasCleanDisk (file_state store.texts.conn)) }
{
    let MapStore {
        texts,
        past,
        found,
        first,
        last,
        alloc,
        witness,
    } = store;
    let texts = journalstore::claim_log(alloc, texts, last)?;
    Ok(MapStore {
        texts,
        past,
        found,
        first,
        last,
        alloc,
        witness,
    })
}

/// Makes one file of the files of a store, which another program may have open, as [`journalstore::copy_store`] says:
/// the map that its texts stand for. With `life` it is a store of this number.
///
/// # Errors
///
/// `Store` with what [`journalstore::copy_store`] refuses, and then no file of this name is made; `NoProfile` and
/// `Journal` as of [`open`], where the file is a copy of a store that stands for no map.
pub fn copy_store<W: Start>(
    rt: &HostRuntime,
    place: Place<'_>,
    to: &str,
    start: W,
    life: Option<i64>,
) -> Result<OsdMap, OpenError> {
    let found = journalstore::copy_store(rt, place, to, start, life)?;
    find_map(rt.alloc(), &found)
}
