//! Addresses of OSDs, of which only their form is told.

ghost use Rattle.std.specs.Prelude.{◌≡◌, ℕ};
ghost use Rattle.cephbytes.specs.Encoding.{Gives};
ghost use Rattle.cephmap.specs.Addresses.{address_of, address, addresses_of, addresses};

use cephbytes::{FromBytes, Listed, ReadError, Refused, section_at, skip_at};
use std::alloc::Global;

/// Passes an address behind the number of its form.
#[tactic(auto, unfolding(crate::specs::Addresses::address_of))]
fn pass_address(kind: u8, bytes: &[u8]) -> Result<&[u8], ReadError>
    ensures { Gives (λ x. (tt, x.now)) result (address_of kind bytes.now) }
{
    match kind {
        0 => {
            let rest = skip_at(bytes, 135)?;
            Ok(rest)
        }
        1 => {
            let (_, rest) = section_at(bytes, 255)?;
            Ok(rest)
        }
        _ => Err(ReadError::Refused(Refused::Unknown)),
    }
}

/// An address.
#[derive(Debug, Drop)]
pub(crate) struct Address {
    /// The number of its form.
    kind: u8,
}

impl FromBytes for Address {
    const LEAST: u32 = 1;

    ghost LEAST = { 1 };

    ghost form = { address };

    #[tactic(auto, unfolding(crate::specs::Addresses::address))]
    fn read(alloc: Global, bytes: &[u8]) -> Result<(Address, &[u8]), ReadError> {
        let (kind, rest) = u8::read(alloc, bytes)?;
        let rest = pass_address(kind, rest)?;
        Ok((Address { kind }, rest))
    }
}

/// Passes the addresses of an OSD behind the number of their form.
#[tactic(auto, unfolding(crate::specs::Addresses::addresses_of))]
fn pass_addresses(alloc: Global, kind: u8, bytes: &[u8]) -> Result<&[u8], ReadError>
    ensures { Gives (λ x. (tt, x.now)) result (addresses_of kind bytes.now) }
{
    if kind == 2 {
        let (_all, rest) = Listed::<Address>::read(alloc, bytes)?;
        return Ok(rest);
    }
    pass_address(kind, bytes)
}

/// The addresses of an OSD.
#[derive(Debug, Drop)]
pub(crate) struct Addresses {
    /// The number of their form.
    kind: u8,
}

impl FromBytes for Addresses {
    const LEAST: u32 = 1;

    ghost LEAST = { 1 };

    ghost form = { addresses };

    #[tactic(auto, unfolding(crate::specs::Addresses::addresses))]
    fn read(alloc: Global, bytes: &[u8]) -> Result<(Addresses, &[u8]), ReadError> {
        let (kind, rest) = u8::read(alloc, bytes)?;
        let rest = pass_addresses(alloc, kind, rest)?;
        Ok((Addresses { kind }, rest))
    }
}
