//! A cursor over bytes: each call reads what stands at its place and goes behind it.

ghost use Rattle.std.specs.Prelude.{◌≡◌, ◌≤◌, ◌*◌, length, IfOk, Ok, ℕ};
ghost use Rattle.std.specs.Int.{w32, w64};
ghost use Rattle.cephbytes.specs.Encoding.{Moves, number, signed, taken, skip, text, count, section, at_end, seen, bytes_of};

use crate::front::{
    Section, bytes_at, count_at, end_at, i32_at, i64_at, section_at, skip_at, text_at, u8_at,
    u16_at, u32_at, u64_at,
};
use crate::refused::Refused;
use std::marker::Model;

/// How many bytes a number has.
#[derive(Clone, Copy, Debug, PartialEq, Eq)]
pub enum Width {
    /// One.
    One,
    /// Two.
    Two,
    /// Four.
    Four,
    /// Eight.
    Eight,
}

/// The bytes that are left. A call that is refused leaves it where it was.
#[derive(Debug, Drop)]
pub struct Cursor<'a> {
    rest: &'a [u8],
}

impl<'a> Model for Cursor<'a> {
    ghost use Rattle.std.specs.Prelude.{ℕ, List};

    ghost Value = { List ℕ };

    ghost view = { λ c. c.rest.now };
}

impl<'a> Cursor<'a> {
    /// A cursor that stands before the first of `bytes`.
    pub fn new(bytes: &'a [u8]) -> Cursor<'a>
        ensures { result ≡ bytes.now }
    {
        Cursor { rest: bytes }
    }

    /// How many bytes are left.
    pub fn left(&self) -> usize
        ensures { result ≡ length self.now }
    {
        self.rest.len()
    }

    /// An unsigned number of one byte, 0 to 255.
    ///
    /// # Errors
    ///
    /// `Short` where no byte is left.
    pub fn u8(&mut self) -> Result<u8, Refused>
        ensures { Moves (λ x. x) (number 1) self.old result self.new }
    {
        let (number, rest) = u8_at(self.rest)?;
        self.rest = rest;
        Ok(number)
    }

    /// An unsigned number of four bytes, the lowest first.
    ///
    /// # Errors
    ///
    /// `Short` where fewer bytes are left.
    pub fn u32(&mut self) -> Result<u32, Refused>
        ensures { Moves (λ x. x) (number 4) self.old result self.new }
    {
        let (number, rest) = u32_at(self.rest)?;
        self.rest = rest;
        Ok(number)
    }

    /// An unsigned number of `width` bytes, the lowest first.
    ///
    /// # Errors
    ///
    /// `Short` where fewer bytes are left.
    pub fn number(&mut self, width: Width) -> Result<u64, Refused>
        ensures { Moves (λ x. x) (number (bytes_of width)) self.old result self.new }
    {
        match width {
            Width::One => {
                let (number, rest) = u8_at(self.rest)?;
                self.rest = rest;
                Ok(number as u64)
            }
            Width::Two => {
                let (number, rest) = u16_at(self.rest)?;
                self.rest = rest;
                Ok(number as u64)
            }
            Width::Four => {
                let (number, rest) = u32_at(self.rest)?;
                self.rest = rest;
                Ok(number as u64)
            }
            Width::Eight => {
                let (number, rest) = u64_at(self.rest)?;
                self.rest = rest;
                Ok(number)
            }
        }
    }

    /// A number of four bytes in two's complement, the lowest first.
    ///
    /// # Errors
    ///
    /// `Short` where fewer bytes are left.
    pub fn i32(&mut self) -> Result<i32, Refused>
        ensures { Moves (λ x. x) (signed w32) self.old result self.new }
    {
        let (number, rest) = i32_at(self.rest)?;
        self.rest = rest;
        Ok(number)
    }

    /// A number of eight bytes in two's complement, the lowest first.
    ///
    /// # Errors
    ///
    /// `Short` where fewer bytes are left.
    pub fn i64(&mut self) -> Result<i64, Refused>
        ensures { Moves (λ x. x) (signed w64) self.old result self.new }
    {
        let (number, rest) = i64_at(self.rest)?;
        self.rest = rest;
        Ok(number)
    }

    /// The next `wanted` bytes.
    ///
    /// # Errors
    ///
    /// `Short` where fewer bytes are left.
    pub fn bytes(&mut self, wanted: usize) -> Result<&'a [u8], Refused>
        ensures { Moves (λ x. x.now) (taken wanted) self.old result self.new }
    {
        let (front, rest) = bytes_at(self.rest, wanted)?;
        self.rest = rest;
        Ok(front)
    }

    /// Passes `passed` bytes.
    ///
    /// # Errors
    ///
    /// `Short` where fewer bytes are left.
    pub fn skip(&mut self, passed: usize) -> Result<(), Refused>
        ensures { Moves (λ _. tt) (skip passed) self.old result self.new }
    {
        self.rest = skip_at(self.rest, passed)?;
        Ok(())
    }

    /// The bytes of a text, which stands behind its length of four bytes. They need not be UTF-8.
    ///
    /// # Errors
    ///
    /// `Short` where the length or the text passes the end.
    pub fn text(&mut self) -> Result<&'a [u8], Refused>
        ensures { Moves (λ x. x.now) text self.old result self.new }
    {
        let (front, rest) = text_at(self.rest)?;
        self.rest = rest;
        Ok(front)
    }

    /// How many things of at least `each` bytes stand here: a number of four bytes, no more than the bytes behind it
    /// have room for. So memory for that many may be taken before any of them is read.
    ///
    /// # Errors
    ///
    /// `Short` where the number passes the end, or where that many things would.
    pub fn count(&mut self, each: u32) -> Result<u32, Refused>
        ensures value { Moves (λ x. x) (count each) self.old result self.new }
        ensures room { IfOk result (λ n. n * each ≤ length self.new) }
    {
        let (number, rest) = count_at(self.rest, each)?;
        self.rest = rest;
        Ok(number)
    }

    /// A section that a reader of version `knows` may read. The cursor goes behind it, so an end of the section that
    /// its reader does not know is passed.
    ///
    /// # Errors
    ///
    /// `TooNew` where its reader must know a later version than `knows`; `Short` where the section passes the end.
    pub fn section(&mut self, knows: u8) -> Result<Section<'a>, Refused>
        ensures { Moves (λ s. record { version = s.version; own = s.own.now }) (section knows) self.old result
            self.new }
    {
        let (section, rest) = section_at(self.rest, knows)?;
        self.rest = rest;
        Ok(section)
    }

    /// Answers `Ok` where nothing is left.
    ///
    /// # Errors
    ///
    /// `Trailing` where bytes are left.
    pub fn end(&self) -> Result<(), Refused>
        ensures { seen (λ _. tt) result ≡ at_end self.now }
    {
        end_at(self.rest)
    }
}
