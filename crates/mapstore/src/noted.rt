//! A value that clauses alone read.

ghost use Rattle.std.specs.Prelude.{◌≡◌};

use std::marker::{Model, PhantomData};

/// A value as it was when it was noted. It has no bytes, and clauses alone read it: a `Snapshot` that any thread may
/// have, whatever the value.
pub struct Noted<T> {
    marker: PhantomData<T>,
    pub ghost value: { T },
}

impl<T> Model for Noted<T> {
    ghost use base.Fml.{ftrue};

    ghost also_owns = { λ _. ftrue };
}

unsafe impl<T> Send for Noted<T> {}

unsafe impl<T> Sync for Noted<T> {}

impl<T> Drop for Noted<T> {
    fn drop(self) {
        let Noted { marker: _ } = self;
    }
}

impl<T> Noted<T> {
    /// Notes a value.
    pub(crate) fn of(value: &T) -> Noted<T>
        ensures { result.value ≡ value.now }
    {
        let _ = value;
        Noted {
            marker: PhantomData,
        }
    }
}
