//! Kinds of things that bytes hold.

ghost use Rattle.std.specs.Prelude.{ℕ};
ghost use Rattle.std.specs.Int.{w32, w64};
ghost use Rattle.cephbytes.specs.Encoding.{Front, Gives, number, signed, text};

use crate::front::{i32_at, i64_at, text_at, u8_at, u16_at, u32_at, u64_at};
use crate::refused::ReadError;
use std::alloc::Global;

/// A kind of thing that bytes hold.
pub trait FromBytes: Drop {
    /// How many bytes each has at least.
    const LEAST: u32;

    ghost LEAST: { ℕ };

    /// What stands at the front of bytes.
    ghost form: { Front Self };

    /// The thing at the front of bytes, and the bytes behind it.
    ///
    /// # Errors
    ///
    /// `Refused` with the first fault from the left; `Memory` where memory runs out.
    fn read(alloc: Global, bytes: &[u8]) -> Result<(Self, &[u8]), ReadError>
        ensures { Gives (λ x. (x.0, x.1.now)) result (form bytes.now) };
}

impl FromBytes for u8 {
    const LEAST: u32 = 1;

    ghost LEAST = { 1 };

    ghost form = { number 1 };

    fn read(_alloc: Global, bytes: &[u8]) -> Result<(u8, &[u8]), ReadError> {
        Ok(u8_at(bytes)?)
    }
}

impl FromBytes for u16 {
    const LEAST: u32 = 2;

    ghost LEAST = { 2 };

    ghost form = { number 2 };

    fn read(_alloc: Global, bytes: &[u8]) -> Result<(u16, &[u8]), ReadError> {
        Ok(u16_at(bytes)?)
    }
}

impl FromBytes for u32 {
    const LEAST: u32 = 4;

    ghost LEAST = { 4 };

    ghost form = { number 4 };

    fn read(_alloc: Global, bytes: &[u8]) -> Result<(u32, &[u8]), ReadError> {
        Ok(u32_at(bytes)?)
    }
}

impl FromBytes for u64 {
    const LEAST: u32 = 8;

    ghost LEAST = { 8 };

    ghost form = { number 8 };

    fn read(_alloc: Global, bytes: &[u8]) -> Result<(u64, &[u8]), ReadError> {
        Ok(u64_at(bytes)?)
    }
}

impl FromBytes for i32 {
    const LEAST: u32 = 4;

    ghost LEAST = { 4 };

    ghost form = { signed w32 };

    fn read(_alloc: Global, bytes: &[u8]) -> Result<(i32, &[u8]), ReadError> {
        Ok(i32_at(bytes)?)
    }
}

impl FromBytes for i64 {
    const LEAST: u32 = 8;

    ghost LEAST = { 8 };

    ghost form = { signed w64 };

    fn read(_alloc: Global, bytes: &[u8]) -> Result<(i64, &[u8]), ReadError> {
        Ok(i64_at(bytes)?)
    }
}
