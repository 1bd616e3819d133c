//! A vector that contracts see as a list.

ghost use Rattle.std.specs.Prelude.{◌≡◌, ◌<◌, length, slice_set, IfOk};

use refusal::Memory;
use std::alloc::Global;
use std::marker::Model;
use std::ops::DerefSlice;

/// A vector that contracts see as the list of its elements: how much room it has is no part of the value. It is read
/// as a slice.
#[derive(Debug, Drop)]
pub struct Entries<T> {
    list: Vec<T>,
}

impl<T> Model for Entries<T> {
    ghost use Rattle.std.specs.Prelude.{List};

    ghost Value = { List T };

    ghost view = { λ e. e.list.items };
}

impl<T> DerefSlice for Entries<T> {
    type Elem = T;

    ghost deref_gives = { λ e xs. xs ≡ e };

    fn deref(&self) -> &[T] {
        &self.list
    }
}

impl<T> Entries<T> {
    /// The elements of a vector.
    pub fn new(list: Vec<T>) -> Self
        ensures { result ≡ list.items }
    {
        Entries { list }
    }

    /// How many there are.
    pub fn len(&self) -> usize
        ensures { result ≡ length self.now }
    {
        self.list.len()
    }

    /// The vector itself.
    pub fn into_vec(self) -> Vec<T>
        ensures { result.items ≡ self }
    {
        self.list
    }
}

impl<T: Drop> Entries<T> {
    /// Puts another element into a place.
    pub fn set(&mut self, place: usize, element: T)
        requires { place < length self.old }
        ensures { self.new ≡ slice_set self.old place element }
    {
        self.list[place] = element;
    }
}

impl<T: Copy + Drop> Entries<T> {
    /// A copy of the elements.
    ///
    /// # Errors
    ///
    /// `Memory` (30) where there is no memory for it.
    pub fn copy(&self, alloc: Global) -> Result<Entries<T>, Memory>
        ensures { IfOk result (λ copy. copy ≡ self.now) }
    {
        let list = Vec::from_slice(alloc, &self.list)?;
        Ok(Entries { list })
    }
}
