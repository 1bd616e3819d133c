//! A row of cells that are sealed once each.
ghost use Rattle.std.specs.Prelude.{◌≡◌, ◌<◌, [], ◌∷◌, ◌++◌, length, true, IfOk, OnOk, IfErr, OnErr, IfSome, IfNone, slice_get};
ghost use Rattle.std.specs.Fn.{FnOnceReturnsAt};
ghost use Rattle.sealed.specs.History.{PassFacts};

use crate::known::Known;
use crate::pass::Pass;
use once_cell::race::OnceBox;
use std::alloc::{AllocError, Global};
use std::marker::Model;

/// A row of cells, which are sealed one after another and show one value each for good. Contracts see the names of
/// the cells.
#[derive(Drop)]
pub struct Row<T> {
    cells: Vec<OnceBox<T>>,
}

impl<T> Model for Row<T> {
    ghost use Rattle.std.specs.Prelude.{ℕ, List, map};
    ghost use Rattle.once_cell.specs.Once.{cell_name};

    ghost Value = { List ℕ };

    ghost view = { λ r. map cell_name r.cells.items };
}

impl<T> Row<T> {
    /// A row of empty cells.
    ///
    /// # Errors
    ///
    /// `AllocError` where there is no memory for it.
    pub fn new(alloc: Global, capacity: usize) -> Result<Row<T>, AllocError>
        ensures { IfOk result (λ row. length row ≡ capacity) }
    {
        let mut cells = Vec::with_capacity(alloc, capacity)?;
        for _ in 0..capacity {
            cells.push_reserved(OnceBox::new(alloc));
        }
        Ok(Row { cells })
    }

    /// How many cells it has.
    pub fn capacity(&self) -> usize
        ensures { result ≡ length self.now }
    {
        self.cells.len()
    }

    /// A pass that has seen nothing, with room for the whole row.
    ///
    /// # Errors
    ///
    /// `AllocError` where there is no memory for it.
    pub fn pass(&self, alloc: Global) -> Result<Pass<T>, AllocError>
        ensures row { IfOk result (λ pass. pass.row ≡ self.now) }
        ensures history { IfOk result (λ pass. pass.history ≡ []) }
    {
        let mut tokens = Vec::with_capacity(alloc, self.cells.len())?;
        for cell in &self.cells {
            let mut note = cell.note();
            tokens.push_reserved(Known::of(&mut note));
        }
        Ok(Pass::unread(tokens))
    }

    /// Seals the cell after those that the pass has seen.
    ///
    /// # Errors
    ///
    /// The box, where another sealed the cell first: the pass is as it was.
    pub fn seal(&self, pass: &mut Pass<T>, value: Box<T>) -> Result<(), Box<T>>
    where
        T: Drop,
        requires row { pass.old.row ≡ self.now }
        requires room { length pass.old.history < length self.now }
        ensures row { pass.new.row ≡ pass.old.row }
        ensures sealed { OnOk result (pass.new.history ≡ pass.old.history ++ value.value ∷ []) }
        ensures back { IfErr result (λ b. b.value ≡ value.value) }
        ensures unchanged { OnErr result (pass.new ≡ pass.old) }
    {
        let cell = &self.cells[pass.len()];
        let mut note = cell.note();
        match cell.set_as(value, &mut note) {
            Ok(()) => {
                pass.grow(&mut note);
                Ok(())
            }
            Err(value) => Err(value),
        }
    }

    /// Shows the value after those that the pass has seen, if there is one and it passes a test.
    pub fn read_next_if<'a, F: FnOnce(&T) -> bool>(
        &'a self,
        pass: &mut Pass<T>,
        test: F,
    ) -> Option<&'a T>
    where
        F: Drop,
        requires row { pass.old.row ≡ self.now }
        requires test { F.IsAlwaysCallable test }
        ensures row { pass.new.row ≡ pass.old.row }
        ensures shown { IfSome result (λ r. pass.new.history ≡ pass.old.history ++ r.now ∷ []) }
        ensures unchanged { IfNone result (pass.new ≡ pass.old) }
        ensures passes { IfSome result (λ r. FnOnceReturnsAt F.FnOnce test r.now true) }
    {
        let cell = self.cells.get(pass.len())?;
        let mut note = cell.note();
        let value = cell.get_as(&mut note)?;
        if !test(value) {
            return None;
        }
        pass.grow(&mut note);
        Some(value)
    }

    /// Shows the value after those that the pass has seen, if there is one.
    pub fn read_next<'a>(&'a self, pass: &mut Pass<T>) -> Option<&'a T>
        requires row { pass.old.row ≡ self.now }
        ensures row { pass.new.row ≡ pass.old.row }
        ensures shown { IfSome result (λ r. pass.new.history ≡ pass.old.history ++ r.now ∷ []) }
        ensures unchanged { IfNone result (pass.new ≡ pass.old) }
    {
        self.read_next_if(pass, |_| true)
    }

    /// Whether the cell of a place is there and is sealed by now, for who looks without a pass. It stays so.
    pub fn is_sealed(&self, index: usize) -> bool
        ensures { result ≡ true → index < length self.now }
    {
        match self.cells.get(index) {
            Some(cell) => cell.get().is_some(),
            None => false,
        }
    }

    /// A value that the pass has seen, by its place.
    pub fn at<'a>(&'a self, pass: &Pass<T>, index: usize) -> &'a T
        requires row { pass.now.row ≡ self.now }
        requires seen { index < length pass.now.history }
        ensures { slice_get pass.now.history index ≡ Some result.now }
    {
        let token = pass.token(index);
        let cell = &self.cells[index];
        let mut note = cell.note();
        Known::tell(&mut note, token);
        match cell.get_as(&mut note) {
            Some(value) => value,
            None => unreachable!(),
        }
    }
}
