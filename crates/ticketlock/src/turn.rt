//! A turn of either kind.
ghost use Rattle.std.specs.Prelude.{◌≡◌, IfOk, IfErr};
ghost use Rattle.ticketlock.specs.Callers.{IsTurnReadOf, IsTurnWriteOf, GivesRead, GivesWrite};

use crate::fact::Fact;
use crate::lock::Lock;
use crate::read_guard::ReadGuard;
use crate::tokens::{TurnRead, TurnWrite};
use crate::write_guard::WriteGuard;

/// A turn that has come at a lock, and what it gives there. `L` is a reference to the lock.
pub trait Turn<L> {
    /// What holds the lock.
    type Guard;

    /// The turn is one of the lock.
    ghost is_at: { L → Self → Type 0 };

    /// What is known of the guard.
    ghost gives: { L → Self → Self.Guard → Type 0 };

    /// Holds the lock.
    ///
    /// # Errors
    ///
    /// The turn as it was, where a step at a slot of the value did not win.
    fn hold(self, lock: L) -> Result<Self::Guard, Self>
        requires { is_at lock self }
        ensures ok { IfOk result (gives lock self) }
        ensures err { IfErr result (λ t. t ≡ self) };
}

impl<'a, T: Fact + Drop + 'a> Turn<&'a Lock<T>> for TurnRead {
    type Guard = ReadGuard<'a, T>;

    ghost is_at = { λ lock turn. IsTurnReadOf lock.now turn };

    ghost gives = { λ lock turn guard. GivesRead lock.now turn guard };

    fn hold(self, lock: &'a Lock<T>) -> Result<ReadGuard<'a, T>, TurnRead> {
        lock.try_read(self)
    }
}

impl<'a, T: Fact + Drop + 'a> Turn<&'a Lock<T>> for TurnWrite {
    type Guard = WriteGuard<'a, T>;

    ghost is_at = { λ lock turn. IsTurnWriteOf lock.now turn };

    ghost gives = { λ lock turn guard. GivesWrite T.fact lock.now turn guard };

    fn hold(self, lock: &'a Lock<T>) -> Result<WriteGuard<'a, T>, TurnWrite> {
        lock.try_write(self)
    }
}

impl<T: Fact + Drop> Lock<T> {
    /// Holds the lock, once the turn of either kind has come.
    ///
    /// # Errors
    ///
    /// The turn as it was, where a step at a slot of the value did not win.
    pub fn try_hold<'a, U: Turn<&'a Lock<T>>>(&'a self, turn: U) -> Result<U::Guard, U>
        requires { U.is_at self turn }
        ensures ok { IfOk result (U.gives self.entry turn) }
        ensures err { IfErr result (λ t. t ≡ turn) }
    {
        turn.hold(self)
    }
}
