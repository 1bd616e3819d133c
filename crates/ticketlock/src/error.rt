//! Why no lock is made.
ghost use Rattle.std.specs.Prelude.{◌≡◌};

use std::alloc::AllocError;
use std::fmt;
use thiserror::Error;

/// Why no lock is made. Each has a number and a name.
#[derive(Clone, Copy, Debug, PartialEq, Eq, Error)]
pub enum LockError {
    /// 12: the number of seats is outside 1 to 1,024, or the limit of draws outside 1 to 2^40.
    BadLimit,
    /// 30: out of memory.
    Memory,
}

impl LockError {
    ghost use Rattle.ticketlock.specs.Errors.{lock_error_number, lock_error_name};

    /// The number.
    pub fn number(&self) -> u8
        ensures { result ≡ lock_error_number self.now }
    {
        match self {
            LockError::BadLimit => 12,
            LockError::Memory => 30,
        }
    }

    /// The name.
    pub fn name(&self) -> &'static str
        ensures { result.now ≡ lock_error_name self.now }
    {
        match self {
            LockError::BadLimit => "BadLimit",
            LockError::Memory => "Memory",
        }
    }
}

impl fmt::Display for LockError {
    ghost use Rattle.std.specs.Prelude.{Some};
    ghost use Rattle.ticketlock.specs.Errors.{lock_error_name};

    ghost output = { λ error. Some (lock_error_name error) };

    fn fmt<W: fmt::Write>(&self, f: &mut fmt::Formatter<W>) -> fmt::Result {
        f.write_str(self.name())
    }
}

impl From<AllocError> for LockError {
    ghost use Rattle.ticketlock.specs.declared.error.LockError.TheVariants.{Memory};

    ghost from_gives = { λ _ e. e ≡ Memory };

    fn from(_error: AllocError) -> LockError {
        LockError::Memory
    }
}
