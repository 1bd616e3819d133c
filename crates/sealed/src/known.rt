//! What is known of one cell, in a form that a shared reference can show.
ghost use Rattle.std.specs.Prelude.{◌≡◌, ℕ, IfSome};
ghost use Rattle.std.specs.declared.option.Option.{Option};
ghost use Rattle.std.specs.Coded.{coded_option};
ghost use Rattle.once_cell.specs.Once.{noted, Agrees};
ghost use denote.Sharing.{said};

use once_cell::race::Note;
use std::marker::{Model, PhantomData};

/// What is known of one cell. It takes no bytes, and unlike a `Note` it can be shown to many threads.
///
/// A clause reads the cell's name as `cell`, and the value, once it was seen, as `known`.
pub struct Known<T> {
    marker: PhantomData<T>,
    pub ghost cell: { ℕ },
    pub ghost known: { Option T } by { coded_option T.code },
}

impl<T> Model for Known<T> {
    ghost also_owns = { λ n. noted T.row n.cell n.known };

    ghost also_shares = { λ n _ κ. said (noted T.row n.cell n.known) κ };
}

impl<T> Known<T> {
    /// Keeps what a note knows.
    pub fn of(note: &mut Note<T>) -> Known<T>
        ensures { (note.new ≡ note.old) × (result.cell ≡ note.old.cell) × (result.known ≡ note.old.known) }
    {
        let _ = note;
        Known {
            marker: PhantomData,
        }
    }

    /// Tells a note what is known here.
    pub fn tell(note: &mut Note<T>, from: &Known<T>)
        requires { note.old.cell ≡ from.now.cell }
        ensures { (note.new.cell ≡ note.old.cell) × (note.new.known ≡ from.now.known) }
    {}

    /// A copy of what is known.
    pub fn again(&self) -> Known<T>
        ensures { result ≡ self.now }
    {
        Known {
            marker: PhantomData,
        }
    }

    /// A cell shows one value: two who know a value of it know the same one.
    pub fn agrees(&self, other: &Known<T>)
        requires { self.now.cell ≡ other.now.cell }
        ensures { IfSome other.now.known (Agrees self.now.known) }
    {}
}

impl<T> Drop for Known<T> {
    fn drop(self) {
        let Known { marker: _ } = self;
    }
}

unsafe impl<T> Send for Known<T> {}

unsafe impl<T> Sync for Known<T> {}
