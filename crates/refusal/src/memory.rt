//! The refusal of calls that fail only if memory runs out.

ghost use Rattle.std.specs.Prelude.{◌≡◌, codes};

use std::alloc::{AllocError, AllocFailed};
use std::fmt;
use thiserror::Error;

/// 30: out of memory. It is the error of calls that nothing else refuses.
#[derive(Clone, Copy, Debug, PartialEq, Eq, Error)]
pub struct Memory;

impl Memory {
    /// The number: 30.
    pub fn number(&self) -> u8
        ensures { result ≡ 30 }
    {
        30
    }

    /// The name: `Memory`.
    pub fn name(&self) -> &'static str
        ensures { result.now ≡ codes "Memory" }
    {
        "Memory"
    }
}

impl fmt::Display for Memory {
    ghost use Rattle.std.specs.Prelude.{Some, codes};

    ghost output = { λ _. Some (codes "Memory") };

    fn fmt<W: fmt::Write>(&self, f: &mut fmt::Formatter<W>) -> fmt::Result {
        f.write_str(self.name())
    }
}

impl From<AllocError> for Memory {
    fn from(_error: AllocError) -> Memory {
        Memory
    }
}

impl<T: Drop> From<AllocFailed<T>> for Memory {
    fn from(_failed: AllocFailed<T>) -> Memory {
        Memory
    }
}
