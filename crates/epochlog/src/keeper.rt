//! A store that is asked nothing more once it has failed.

use crate::keeps::{Keeps, NotKept};
use crate::kept::Kept;
use maptypes::Incremental;
use refusal::Refusal;

/// A store, and whether it has failed. Nobody knows what a store holds after that, so it is asked nothing more.
#[derive(Drop)]
pub struct Keeper<K: Keeps + Drop> {
    pub(crate) store: K,
    pub(crate) has_failed: bool,
}

impl<K: Keeps + Drop> Keeper<K> {
    ghost use Rattle.std.specs.Prelude.{◌≡◌, ◌⊎◌, true, false, IfOk, IfErr, OnErr};
    ghost use Rattle.refusal.specs.declared.refused.Refusal.TheVariants.{Memory, NotStored};
    ghost use Rattle.maptypes.specs.Incrementals.{Step};
    ghost use Rattle.epochlog.specs.Journals.{Journal, with_step, Follows, IsIncremental};
    ghost use Rattle.epochlog.specs.Stores.{IsKeptBy};

    /// The keeper of a store that has not failed.
    #[tactic(auto, using(crate::proofs::Keeping::kept_first))]
    pub fn new(store: K) -> Keeper<K>
        ensures value { result ≡ record { store = store; has_failed = false } }
        ensures kept { (j : Journal) → K.holds store j → IsKeptBy K.holds K.may_leave K.may_fail result j }
    {
        Keeper {
            store,
            has_failed: false,
        }
    }

    /// The store.
    pub fn store(&self) -> &K
        ensures { result.now ≡ self.now.store }
    {
        &self.store
    }

    /// The store, which nobody asks any more.
    pub fn into_store(self) -> K
        ensures { result ≡ self.store }
    {
        self.store
    }

    /// Keeps an incremental behind those that are kept, and gives it back as one that is. The journal is kept where it
    /// is the next.
    ///
    /// # Errors
    ///
    /// `Memory` (30) where memory is short and the store is as it was; else `NotStored` (35) where the store does not
    /// take it, or has failed before. A crash may then still leave it.
    pub fn keep(&mut self, step: Box<Incremental>) -> Result<Kept, Refusal>
        ensures same_step { IfOk result (λ kept. (kept ≡ step.value) × IsIncremental step.value) }
        ensures kept { IfOk result (λ _. (self.old.has_failed ≡ false) × (self.new.has_failed ≡ false)
            × ((j : Journal) → IsKeptBy K.holds K.may_leave K.may_fail self.old j
            → IsKeptBy K.holds K.may_leave K.may_fail self.new (with_step j step.value))) }
        ensures failed { IfErr result (λ e.
            ((e ≡ Memory) × (self.old.has_failed ≡ false) × (self.new.has_failed ≡ false))
            ⊎ ((e ≡ NotStored) × (self.new.has_failed ≡ true))) }
        ensures same { OnErr result ((j : Journal) → Follows j step.value
            → IsKeptBy K.holds K.may_leave K.may_fail self.old j
            → IsKeptBy K.holds K.may_leave K.may_fail self.new j) }
    {
        let _epoch = step.epoch();
        let _parts = step.change().parts();
        if self.has_failed {
            return Err(Refusal::NotStored);
        }
        match self.store.keep(&step) {
            Ok(()) => Ok(Kept { step }),
            Err(NotKept::Memory) => Err(Refusal::Memory),
            Err(NotKept::Failed) => {
                self.has_failed = true;
                Err(Refusal::NotStored)
            }
        }
    }

    /// Takes note that the last incremental that was kept is not in the journal: a store that holds it counts as
    /// failed.
    pub fn forget(&mut self)
        ensures { (j : Journal) (step : Step) → Follows j step → IsIncremental step
            → IsKeptBy K.holds K.may_leave K.may_fail self.old (with_step j step)
            → (self.old.has_failed ≡ false) → IsKeptBy K.holds K.may_leave K.may_fail self.new j }
    {
        if !self.store.forgets() {
            self.has_failed = true;
        }
    }
}
