//! A row of sealed epochs.
ghost use Rattle.std.specs.Prelude.{◌≡◌, true, false, ◌+◌, ◌-◌, ◌<◌, ◌≤◌, [], ◌∷◌, ◌++◌, length, Contains, slice_get};
ghost use Rattle.std.specs.Prelude.{IfOk, IfErr, OnOk, OnErr, IfSome, IfNone};
ghost use Rattle.refusal.specs.Outcomes.{refused_unless, Gives};
ghost use Rattle.refusal.specs.declared.refused.Refusal.TheVariants.{BadLimit};
ghost use Rattle.epochlog.specs.Epochs.{epoch_of, is_within_limits, IsRowSize};

use crate::error::NotSealed;
use crate::kept::Kept;
use crate::pass::Pass;
use mapparts::limits;
use maptypes::Incremental;
use refusal::{Memory, Refusal};
use std::alloc::Global;
use std::marker::Model;

/// The greatest capacity of a row, in epochs.
pub const MAX_CAPACITY: u32 = 65_536;
/// The greatest first epoch of a row.
pub const MAX_FIRST_EPOCH: u64 = limits::MAX_FIRST_EPOCH as u64;

/// A row of epochs, which are sealed one after another and show one incremental each for good.
#[derive(Drop)]
pub struct Row {
    first: u64,
    cells: sealed::Row<Incremental>,
}

impl Model for Row {
    ghost use Rattle.epochlog.specs.Epochs.{Line, IsRowSize};
    ghost use Rattle.std.specs.Prelude.{length};

    ghost Value = { Line };

    ghost view = { λ r. record { first = r.first; cells = r.cells } };

    ghost invariant = { λ r. IsRowSize r.first (length r.cells) };
}

impl Row {
    /// A row with no epoch sealed, for the epochs after `first`.
    ///
    /// # Errors
    ///
    /// `BadLimit` (12) where `first` is not 1 to 2,147,483,648 or `capacity` not 1 to 65,536 epochs; else `Memory` (30)
    /// where there is no memory for it.
    pub fn new(alloc: Global, first: u64, capacity: u32) -> Result<Row, Refusal>
        ensures made { Gives result (refused_unless (is_within_limits first capacity) BadLimit)
            (λ row. (row.first ≡ first) × (length row.cells ≡ capacity)) }
        ensures limits { OnOk result (IsRowSize first capacity) }
    {
        if !(1..=MAX_FIRST_EPOCH).contains(&first) || !(1..=MAX_CAPACITY).contains(&capacity) {
            return Err(Refusal::BadLimit);
        }
        Ok(Row::of_fitting(alloc, first, capacity)?)
    }

    /// The row that `new` makes, of a first epoch and a capacity that are known to be within their limits.
    ///
    /// # Errors
    ///
    /// `Memory` (30) where there is no memory for it.
    pub fn of_fitting(alloc: Global, first: u64, capacity: u32) -> Result<Row, Memory>
        requires { IsRowSize first capacity }
        ensures { IfOk result (λ row. (row.first ≡ first) × (length row.cells ≡ capacity)) }
    {
        let cells = sealed::Row::new(alloc, capacity as usize)?;
        Ok(Row { first, cells })
    }

    /// How many epochs it takes, 1 to 65,536.
    pub fn capacity(&self) -> u32
        ensures capacity { result ≡ length self.now.cells }
        ensures limits { IsRowSize self.now.first result }
    {
        self.cells.capacity() as u32
    }

    /// A pass that has seen nothing, with room for the whole row.
    ///
    /// # Errors
    ///
    /// `Memory` (30) where there is no memory for it.
    pub fn pass(&self, alloc: Global) -> Result<Pass, Memory>
        ensures row { IfOk result (λ pass. pass.row ≡ self.now) }
        ensures history { IfOk result (λ pass. pass.history ≡ []) }
    {
        Ok(Pass {
            first: self.first,
            seen: self.cells.pass(alloc)?,
        })
    }

    /// Seals the epoch after those that the pass has seen, which is that of the incremental, and answers it. What is
    /// sealed a keeper has kept before.
    ///
    /// # Errors
    ///
    /// `NotSealed` (32) with the very box where another sealed the epoch first: the pass is as it was.
    pub fn seal(&self, pass: &mut Pass, kept: Kept) -> Result<u64, (Box<Incremental>, NotSealed)>
        requires row { pass.old.row ≡ self.now }
        requires room { length pass.old.history < length self.now.cells }
        requires next { kept.epoch ≡ epoch_of pass.old + 1 }
        ensures row { pass.new.row ≡ pass.old.row }
        ensures epoch { IfOk result (λ epoch. epoch ≡ kept.epoch) }
        ensures sealed { IfOk result (λ _. pass.new.history ≡ pass.old.history ++ kept ∷ []) }
        ensures back { IfErr result (λ back. back.0.value ≡ kept) }
        ensures unchanged { OnErr result (pass.new ≡ pass.old) }
    {
        let incremental = kept.into_step();
        let epoch = incremental.epoch();
        match self.cells.seal(&mut pass.seen, incremental) {
            Ok(()) => Ok(epoch),
            Err(incremental) => Err((incremental, NotSealed)),
        }
    }

    /// Shows the incremental of the epoch after those that the pass has seen, if that epoch is sealed.
    pub fn read_next<'a>(&'a self, pass: &mut Pass) -> Option<&'a Incremental>
        requires row { pass.old.row ≡ self.now }
        ensures row { pass.new.row ≡ pass.old.row }
        ensures shown { IfSome result (λ r. pass.new.history ≡ pass.old.history ++ r.now ∷ []) }
        ensures unchanged { IfNone result (pass.new ≡ pass.old) }
        ensures epoch { IfSome result (λ r. r.now.epoch ≡ epoch_of pass.old + 1) }
    {
        let next = pass.epoch() + 1;
        // The number of what is found is looked at, so that a history needs no promise of other threads.
        self.cells
            .read_next_if(&mut pass.seen, |found| found.epoch() == next)
    }

    /// Whether an epoch is the row's first one, or one before it, or is sealed by now, for who looks without a pass.
    pub fn is_sealed(&self, epoch: u64) -> bool
        ensures first { epoch ≤ self.now.first → result ≡ true }
        ensures last { self.now.first + length self.now.cells < epoch → result ≡ false }
    {
        epoch <= self.first || self.cells.is_sealed((epoch - self.first - 1) as usize)
    }

    /// The incremental of an epoch that the pass has seen.
    pub fn at<'a>(&'a self, pass: &Pass, epoch: u64) -> &'a Incremental
        requires row { pass.now.row ≡ self.now }
        requires after { self.now.first < epoch }
        requires seen { epoch ≤ epoch_of pass.now }
        ensures epoch { result.now.epoch ≡ epoch }
        ensures shown { Contains pass.now.history result.now }
        ensures place { slice_get pass.now.history (epoch - (self.now.first + 1)) ≡ Some result.now }
    {
        self.cells.at(&pass.seen, (epoch - self.first - 1) as usize)
    }
}
