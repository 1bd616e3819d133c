//! The exceptions that parts within their limits stand for.

ghost use Rattle.std.specs.Prelude.{◌≡◌, ◌≤◌, pos, nat_abs, true, map, length, IfOk, IsTrue};
ghost use Rattle.std.specs.List.{list_all};
ghost use Rattle.mapparts.specs.Limits.{stock};
ghost use Rattle.mapparts.specs.Parts.{is_between, exception_fits, exceptions_fit};
ghost use Rattle.maptypes.specs.Values.{exception_of};

use crate::exception::{Exception, Pair};
use crate::pg::Pg;
use crate::short::{Blank, Short};
use mapparts::numbers::word;
use mapparts::{ExceptionPart, Limited, PairPart};
use refusal::Memory;
use std::alloc::Global;

/// The id of an OSD, which is within its limits, in two bytes.
#[tactic(auto, unfolding(mapparts::specs::Parts::is_between))]
fn short_id(id: i128) -> u16
    requires { IsTrue (is_between (pos 0) (pos 65535) id) }
    ensures { result ≡ nat_abs id }
{
    id as u16
}

/// A part that stands for an entry of an exception.
pub trait StandsFor<E>: Limited + Copy + Drop {
    ghost use Rattle.std.specs.Prelude.{◌≡◌, true};
    ghost use Rattle.mapparts.specs.Limits.{stock};

    ghost entry_of: { Self → E };

    /// The entry that it stands for.
    fn entry(&self) -> E
        requires { Self.within stock self.now ≡ true }
        ensures { result ≡ entry_of self.now };
}

impl StandsFor<u32> for i128 {
    ghost use Rattle.std.specs.Prelude.{nat_abs};

    ghost entry_of = { nat_abs };

    fn entry(&self) -> u32 {
        word(*self)
    }
}

impl StandsFor<Pair> for PairPart {
    ghost use Rattle.maptypes.specs.Values.{pair_of};

    ghost entry_of = { pair_of };

    fn entry(&self) -> Pair {
        Pair {
            from: short_id(self.from),
            to: short_id(self.to),
        }
    }
}

/// The entries that at most 20 parts within their limits stand for, in their order.
fn entries_of<E: Blank, P: StandsFor<E>>(parts: &[P]) -> Short<E>
    requires few { length parts.now ≤ 20 }
    requires fits { list_all (P.within stock) parts.now ≡ true }
    ensures { result ≡ map P.entry_of parts.now }
{
    let mut entries = Short::new();
    for part in parts {
        entries.push(part.entry());
    }
    entries
}

/// The exception that a part within its limits stands for.
fn exception_of<E: Blank, P: StandsFor<E>>(part: &ExceptionPart<P>) -> Exception<E>
    requires { exception_fits (P.within stock) part.now ≡ true }
    ensures { result ≡ exception_of P.entry_of part.now }
{
    Exception {
        pg: Pg::of_parts(&part.pg),
        entries: entries_of(&part.entries),
    }
}

/// The exceptions that parts within their limits stand for, in their order.
///
/// # Errors
///
/// `Memory` (30) where there is no memory for them.
pub fn exceptions_of<E: Blank, P: StandsFor<E>>(
    alloc: Global,
    parts: &[ExceptionPart<P>],
) -> Result<Vec<Exception<E>>, Memory>
    requires { exceptions_fit (P.within stock) parts.now ≡ true }
    ensures { IfOk result (λ es. es.items ≡ map (exception_of P.entry_of) parts.now) }
{
    let mut exceptions = Vec::with_capacity(alloc, parts.len())?;
    for part in parts {
        exceptions.push(exception_of(part))?;
    }
    Ok(exceptions)
}
