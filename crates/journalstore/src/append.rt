//! How a change is appended.

ghost use Rattle.std.specs.Prelude.{◌≡◌, ◌⊎◌, ◌<◌, ◌≤◌, ◌^◌, pos, true, [], ◌∷◌, Err, IfErr, OnOk, OnErr};
ghost use Rattle.sqlite.specs.declared.types.Value.TheVariants.{Int, Text};
ghost use Rattle.sqlite.specs.State.{HasCleanDisk, Survives, Executes, CommitsBy};
ghost use Rattle.sqlite.specs.Held.{state};
ghost use Rattle.journalstore.specs.declared.error.StoreError.TheVariants.{EpochTooLarge};
ghost use Rattle.journalstore.specs.Tables.{insert_text};
ghost use Rattle.journalstore.specs.Texts.{bare_text, with_change, IsAfter, StandsFor};
ghost use Rattle.journalstore.specs.Stores.{HoldsIn, LeavesIn, KeepsIn};

use crate::error::StoreError;
use sqlite::{Alter, Connection, Error, params};

/// The greatest epoch that a file holds.
pub const LAST_EPOCH: u64 = (1 << 63) - 1;

/// Runs the one statement of an append, in a transaction of its own.
fn insert<S: Alter>(conn: &mut Connection<S>, epoch: u64, change: &str) -> Result<usize, Error>
    requires { epoch < 2 ^ 63 }
    ensures runs { HasCleanDisk (state S.Store conn.new) → Executes insert_text (Int (pos epoch) ∷ Text change.now ∷ [])
        (state S.Store conn.old) (state S.Store conn.new) result }
    ensures survives { Survives (state S.Store conn.old) (state S.Store conn.new)
        (CommitsBy insert_text (Int (pos epoch) ∷ Text change.now ∷ []) (state S.Store conn.old)) }
{
    conn.execute(
        "INSERT INTO journal (epoch, change) VALUES (?1, ?2)",
        params![epoch as i64, change],
    )
}

/// Appends a change, as `TextStore::append` says.
pub(crate) fn append<S: Alter>(
    conn: &mut Connection<S>,
    epoch: u64,
    change: &str,
) -> Result<(), StoreError>
    ensures appends { OnOk result ((t : _) → HoldsIn S.Store conn.old t → IsAfter t epoch
        → HoldsIn S.Store conn.new (with_change t (epoch, bare_text change.now))) }
    ensures kept { OnErr result ((t : _) → HoldsIn S.Store conn.old t → KeepsIn S.Store conn.new t) }
    ensures crash { (t : _) → HoldsIn S.Store conn.old t → IsAfter t epoch → LeavesIn S.Store conn.new
        (λ db. StandsFor db t ⊎ StandsFor db (with_change t (epoch, bare_text change.now))) }
    ensures only { IfErr result (λ e. e ≡ EpochTooLarge → 2 ^ 63 ≤ epoch) }
    ensures refused { 2 ^ 63 ≤ epoch → (result ≡ Err EpochTooLarge) × (conn.new ≡ conn.old) }
{
    if epoch > LAST_EPOCH {
        return Err(StoreError::EpochTooLarge);
    }
    insert(conn, epoch, change)?;
    Ok(())
}

/// Whether the database answers a question, as `TextStore::is_running` says.
pub(crate) fn is_running<S: Alter>(conn: &mut Connection<S>) -> bool
    ensures holds { result ≡ true → (t : _) → KeepsIn S.Store conn.old t → HoldsIn S.Store conn.new t }
    ensures crash { (t : _) (more : _) → LeavesIn S.Store conn.old (λ db. StandsFor db t ⊎ StandsFor db more)
        → LeavesIn S.Store conn.new (λ db. StandsFor db t ⊎ StandsFor db more) }
{
    conn.prepare("SELECT epoch, text FROM map").is_ok()
}
