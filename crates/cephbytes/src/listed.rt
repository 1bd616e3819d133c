//! Lists of things that bytes hold.

ghost use Rattle.std.specs.Prelude.{◌≡◌, [], ◌≤◌, ◌*◌, length, IfOk, Ok, List, ℕ, Result};
ghost use Rattle.cephbytes.specs.Encoding.{Front, Gives, entries, many, listed, text};

use crate::form::FromBytes;
use crate::front::{text_at, u32_at};
use crate::refused::{ReadError, Refused};
use std::alloc::Global;
use std::marker::Model;
use std::ops::DerefSlice;

/// A list that stands in bytes behind its length. It is read as a slice; contracts see its elements.
#[derive(Debug, Drop)]
pub struct Listed<T> {
    list: Vec<T>,
}

impl<T> Model for Listed<T> {
    ghost use Rattle.std.specs.Prelude.{List};

    ghost Value = { List T };

    ghost view = { λ l. l.list.items };
}

impl<T> DerefSlice for Listed<T> {
    type Elem = T;

    ghost deref_gives = { λ l xs. xs ≡ l };

    fn deref(&self) -> &[T] {
        &self.list
    }
}

/// A text, which stands behind its length of four bytes. It need not be UTF-8.
#[derive(Debug, Drop)]
pub struct Text {
    bytes: Vec<u8>,
}

impl Model for Text {
    ghost use Rattle.std.specs.Prelude.{List, ℕ};

    ghost Value = { List ℕ };

    ghost view = { λ t. t.bytes.items };
}

impl<T> Listed<T> {
    /// An empty list.
    pub fn empty(alloc: Global) -> Self
        ensures { result ≡ [] }
    {
        Listed {
            list: Vec::new(alloc),
        }
    }
}

impl Text {
    /// Its bytes.
    pub fn as_bytes(&self) -> &[u8]
        ensures { result.now ≡ self.now }
    {
        &self.bytes
    }
}

impl FromBytes for Text {
    const LEAST: u32 = 4;

    ghost LEAST = { 4 };

    ghost form = { text };

    fn read(alloc: Global, bytes: &[u8]) -> Result<(Text, &[u8]), ReadError> {
        let (front, rest) = text_at(bytes)?;
        let bytes = Vec::from_slice(alloc, front)?;
        Ok((Text { bytes }, rest))
    }
}

/// So many things of a kind.
fn entries_of<T: FromBytes>(
    alloc: Global,
    count: u32,
    bytes: &[u8],
) -> Result<(Listed<T>, &[u8]), ReadError>
    ensures { Gives (λ x. (x.0, x.1.now)) result (entries T.form count bytes.now) }
{
    let mut list = Vec::new(alloc);
    let mut rest = bytes;
    for _ in 0..count {
        let (entry, after) = T::read(alloc, rest)?;
        list.push(entry)?;
        rest = after;
    }
    Ok((Listed { list }, rest))
}

/// So many things of a kind, and the bytes behind them. Where the bytes that are left have no room for as many, that is
/// told before any memory is taken.
///
/// # Errors
///
/// `Refused` with `Short` where there is no room, or with the first fault from the left; `Memory` where memory runs
/// out.
#[tactic(auto, unfolding(crate::specs::Encoding::many))]
pub fn entries_at<T: FromBytes>(
    alloc: Global,
    count: u32,
    bytes: &[u8],
) -> Result<(Listed<T>, &[u8]), ReadError>
    ensures value { Gives (λ x. (x.0, x.1.now)) result (many T.LEAST T.form count bytes.now) }
    ensures room { IfOk result (λ x. length x.0 * T.LEAST ≤ length bytes.now) }
{
    if (bytes.len() as u64) < count as u64 * T::LEAST as u64 {
        return Err(ReadError::Refused(Refused::Short));
    }
    entries_of(alloc, count, bytes)
}

impl<T: FromBytes> FromBytes for Listed<T> {
    const LEAST: u32 = 4;

    ghost LEAST = { 4 };

    ghost form = { listed T.LEAST T.form };

    #[tactic(auto, unfolding(crate::specs::Encoding::listed))]
    fn read(alloc: Global, bytes: &[u8]) -> Result<(Listed<T>, &[u8]), ReadError> {
        let (count, rest) = u32_at(bytes)?;
        entries_at(alloc, count, rest)
    }
}
