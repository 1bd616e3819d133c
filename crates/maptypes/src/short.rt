//! A list of a few entries, in place.

ghost use Rattle.std.specs.Prelude.{◌≡◌, ◌≤◌, ◌<◌, [], ◌∷◌, ◌++◌, length, slice_set};

use mapparts::limits::MAX_PLACES;
use std::alloc::AllocError;
use std::marker::Model;
use std::ops::DerefSlice;

/// What stands in a place where a short list has no entry.
pub trait Blank: Copy {
    ghost use Rattle.std.specs.Prelude.{◌≡◌};

    ghost blank: { Self };

    /// The entry that stands for none.
    fn blank() -> Self
        ensures { result ≡ blank };
}

/// A list of at most 20 entries, in place: as many as a group has OSDs at most. It is read as a slice.
#[derive(Copy, Debug)]
pub struct Short<T: Blank> {
    len: usize,
    places: [T; MAX_PLACES],
}

impl<T: Blank> Model for Short<T> {
    ghost use Rattle.std.specs.Prelude.{List, ◌++◌, ◌-◌, length, take, replicate};
    ghost use Rattle.std.proofs.Common.{arith, ap, sym, ◌∙◌, length-take-le, take-append-drop};
    ghost use Rattle.maptypes.specs.Shorts.{IsFilled};

    ghost Value = { List T };

    ghost view = { λ s. take s.len s.places };

    ghost invariant = { λ s. IsFilled T.blank s.len s.places };

    ghost inverse = { λ xs. record { len = length xs; places = xs ++ replicate (20 - length xs) T.blank } };

    ghost inverse_ok = { λ s h i. record {
      len = length-take-le s.len s.places (omega (arith, h.few, h.twenty)) i;
      places = (ap (λ n. take s.len s.places ++ replicate (20 - n) T.blank)
          (length-take-le s.len s.places (omega (arith, h.few, h.twenty)))
          ∙ ap (λ xs. take s.len s.places ++ xs) (sym h.none_behind)
          ∙ take-append-drop s.len s.places) i;
    } };
}

impl<T: Blank> Clone for Short<T> {
    ghost use Rattle.std.specs.Prelude.{◌≡◌, ⊤};

    ghost is_clone = { λ s r. r ≡ s };

    ghost is_infallible = { λ _. ⊤ };

    fn clone(&self) -> Result<Short<T>, AllocError> {
        Ok(*self)
    }
}

impl<T: Blank + PartialEq> PartialEq for Short<T> {
    ghost use Rattle.std.specs.Cmp.Lexicographic.{pointwise, lists_per};

    ghost eq = { pointwise T.eq };

    ghost laws = { lists_per T.laws };

    fn eq(&self, other: &Short<T>) -> bool {
        self.as_slice() == other.as_slice()
    }
}

impl<T: Blank + Eq> Eq for Short<T> {
    ghost use Rattle.std.specs.Cmp.Lexicographic.{lists_equiv};

    ghost laws = { lists_equiv T.Eq.laws };
}

impl<T: Blank> DerefSlice for Short<T> {
    type Elem = T;

    ghost deref_gives = { λ s xs. xs ≡ s };

    fn deref(&self) -> &[T] {
        &self.places[..self.len]
    }
}

impl<T: Blank> Short<T> {
    /// The list without an entry.
    pub fn new() -> Self
        ensures { result ≡ [] }
    {
        Short {
            len: 0,
            places: [T::blank(); MAX_PLACES],
        }
    }

    /// The entries, in order.
    pub fn as_slice(&self) -> &[T]
        ensures value { result.now ≡ self.now }
        ensures few { length self.now ≤ 20 }
    {
        &self.places[..self.len]
    }

    /// One more entry, behind the others.
    pub fn push(&mut self, entry: T)
        requires { length self.old < 20 }
        ensures { self.new ≡ self.old ++ entry ∷ [] }
    {
        self.places[self.len] = entry;
        self.len += 1;
    }

    /// Puts another entry into a place.
    pub fn set(&mut self, place: usize, entry: T)
        requires { place < length self.old }
        ensures { self.new ≡ slice_set self.old place entry }
    {
        if place < self.len {
            self.places[place] = entry;
        }
    }
}

impl Blank for Option<u32> {
    ghost use Rattle.std.specs.Prelude.{None};

    ghost blank = { None };

    fn blank() -> Option<u32> {
        None
    }
}

impl Blank for Option<u16> {
    ghost use Rattle.std.specs.Prelude.{None};

    ghost blank = { None };

    fn blank() -> Option<u16> {
        None
    }
}
