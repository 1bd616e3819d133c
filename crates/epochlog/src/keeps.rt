//! What a store owes.

use maptypes::Incremental;
use std::fmt;
use thiserror::Error;

/// Why a store did not take an incremental.
#[derive(Clone, Copy, Debug, PartialEq, Eq, Error)]
pub enum NotKept {
    /// Memory is short, and the store is as it was: it may be asked again.
    Memory,
    /// The store has failed: it did not take the incremental, as far as it knows.
    Failed,
}

impl fmt::Display for NotKept {
    ghost use Rattle.std.specs.Prelude.{Some};
    ghost use Rattle.epochlog.specs.Stores.{not_kept_text};

    ghost output = { λ e. Some (not_kept_text e) };

    fn fmt<W: fmt::Write>(&self, f: &mut fmt::Formatter<W>) -> fmt::Result {
        f.write_str(match self {
            NotKept::Memory => "memory is short",
            NotKept::Failed => "the store has failed",
        })
    }
}

/// A store of incrementals, which outlives a crash.
pub trait Keeps {
    ghost use Rattle.std.specs.Prelude.{◌≡◌, true, false, IfErr, OnOk};
    ghost use Rattle.epochlog.specs.declared.keeps.NotKept.TheVariants.{Memory, Failed};
    ghost use Rattle.epochlog.specs.Journals.{Journal, with_step, IsBeforeOrAfter};

    /// It holds this journal.
    ghost holds: { Self → Journal → Type 0 };

    /// A crash at this moment may leave this journal.
    ghost may_leave: { Self → Journal → Type 0 };

    /// Whether it may fail at all.
    ghost may_fail: { Type 0 };

    /// While it holds a journal, a crash leaves that one and no other.
    ghost settled: { (store : Self) (held left : Journal) → holds store held → may_leave store left → left ≡ held };

    /// Keeps an incremental behind those that it holds. A crash at any moment of it leaves the journal from before,
    /// with this incremental or without.
    ///
    /// # Errors
    ///
    /// `Memory` where memory is short, and then it holds what it did; `Failed`.
    fn keep(&mut self, step: &Incremental) -> Result<(), NotKept>
        ensures kept { OnOk result ((j : Journal) → holds self.old j → holds self.new (with_step j step.now)) }
        ensures crash { (j : Journal) → holds self.old j → (left : Journal) → may_leave self.new left
            → IsBeforeOrAfter j step.now left }
        ensures same { IfErr result (λ e. e ≡ Memory → (j : Journal) → holds self.old j → holds self.new j) }
        ensures fails { IfErr result (λ e. e ≡ Failed → may_fail) };

    /// Whether it may be asked on with a journal that lacks what it holds: only one that holds nothing may.
    fn forgets(&self) -> bool
        ensures any { result ≡ true → (j : Journal) → holds self.now j }
        ensures fails { result ≡ false → may_fail };
}
