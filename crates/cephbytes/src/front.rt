//! What stands at the front of bytes, and the bytes behind it. Numbers are little-endian. Each call answers the first
//! fault from the left, if there is one.

ghost use Rattle.std.specs.Prelude.{◌≡◌, ◌≤◌, ◌*◌, length, OnOk, IfOk, Ok};
ghost use Rattle.std.specs.Int.{w32, w64};
ghost use Rattle.cephbytes.specs.Encoding.{seen, number, signed, taken, skip, text, count, section, at_end, known_version, Own};

use crate::refused::Refused;

/// An unsigned number of one byte, 0 to 255, and the bytes behind it.
///
/// # Errors
///
/// `Short` where fewer bytes are left.
pub fn u8_at(bytes: &[u8]) -> Result<(u8, &[u8]), Refused>
    ensures { seen (λ x. (x.0, x.1.now)) result ≡ number 1 bytes.now }
{
    if bytes.is_empty() {
        return Err(Refused::Short);
    }
    let (front, rest) = bytes.split_at(1);
    Ok((front[0], rest))
}

/// An unsigned number of two bytes, and the bytes behind it.
///
/// # Errors
///
/// `Short` where fewer bytes are left.
pub fn u16_at(bytes: &[u8]) -> Result<(u16, &[u8]), Refused>
    ensures { seen (λ x. (x.0, x.1.now)) result ≡ number 2 bytes.now }
{
    if bytes.len() < 2 {
        return Err(Refused::Short);
    }
    let (front, rest) = bytes.split_at(2);
    Ok((u16::from_le_bytes([front[0], front[1]]), rest))
}

/// An unsigned number of four bytes, and the bytes behind it.
///
/// # Errors
///
/// `Short` where fewer bytes are left.
pub fn u32_at(bytes: &[u8]) -> Result<(u32, &[u8]), Refused>
    ensures { seen (λ x. (x.0, x.1.now)) result ≡ number 4 bytes.now }
{
    if bytes.len() < 4 {
        return Err(Refused::Short);
    }
    let (front, rest) = bytes.split_at(4);
    let number = u32::from_le_bytes([front[0], front[1], front[2], front[3]]);
    Ok((number, rest))
}

/// An unsigned number of eight bytes, and the bytes behind it.
///
/// # Errors
///
/// `Short` where fewer bytes are left.
pub fn u64_at(bytes: &[u8]) -> Result<(u64, &[u8]), Refused>
    ensures { seen (λ x. (x.0, x.1.now)) result ≡ number 8 bytes.now }
{
    if bytes.len() < 8 {
        return Err(Refused::Short);
    }
    let (front, rest) = bytes.split_at(8);
    let number = u64::from_le_bytes([
        front[0], front[1], front[2], front[3], front[4], front[5], front[6], front[7],
    ]);
    Ok((number, rest))
}

/// A number of four bytes in two's complement, and the bytes behind it.
///
/// # Errors
///
/// `Short` where fewer bytes are left.
pub fn i32_at(bytes: &[u8]) -> Result<(i32, &[u8]), Refused>
    ensures { seen (λ x. (x.0, x.1.now)) result ≡ signed w32 bytes.now }
{
    let (number, rest) = u32_at(bytes)?;
    Ok((number.cast_signed(), rest))
}

/// A number of eight bytes in two's complement, and the bytes behind it.
///
/// # Errors
///
/// `Short` where fewer bytes are left.
pub fn i64_at(bytes: &[u8]) -> Result<(i64, &[u8]), Refused>
    ensures { seen (λ x. (x.0, x.1.now)) result ≡ signed w64 bytes.now }
{
    let (number, rest) = u64_at(bytes)?;
    Ok((number.cast_signed(), rest))
}

/// The first `wanted` bytes, and the bytes behind them.
///
/// # Errors
///
/// `Short` where fewer bytes are left.
pub fn bytes_at(bytes: &[u8], wanted: usize) -> Result<(&[u8], &[u8]), Refused>
    ensures { seen (λ x. (x.0.now, x.1.now)) result ≡ taken wanted bytes.now }
{
    if bytes.len() < wanted {
        return Err(Refused::Short);
    }
    Ok(bytes.split_at(wanted))
}

/// The bytes behind the first `passed`.
///
/// # Errors
///
/// `Short` where fewer bytes are left.
pub fn skip_at(bytes: &[u8], passed: usize) -> Result<&[u8], Refused>
    ensures { seen (λ x. (tt, x.now)) result ≡ skip passed bytes.now }
{
    if bytes.len() < passed {
        return Err(Refused::Short);
    }
    let (_, rest) = bytes.split_at(passed);
    Ok(rest)
}

/// The bytes of a text, which stands behind its length of four bytes, and the bytes behind it. They need not be UTF-8.
///
/// # Errors
///
/// `Short` where the length or the text passes the end.
#[tactic(auto, unfolding(crate::specs::Encoding::text))]
pub fn text_at(bytes: &[u8]) -> Result<(&[u8], &[u8]), Refused>
    ensures { seen (λ x. (x.0.now, x.1.now)) result ≡ text bytes.now }
{
    let (wanted, rest) = u32_at(bytes)?;
    bytes_at(rest, wanted as usize)
}

/// How many things of at least `each` bytes stand here: a number of four bytes, no more than the bytes behind it have
/// room for. So memory for that many may be taken before any of them is read.
///
/// # Errors
///
/// `Short` where the number passes the end, or where that many things would.
#[tactic(auto, unfolding(crate::specs::Encoding::count))]
pub fn count_at(bytes: &[u8], each: u32) -> Result<(u32, &[u8]), Refused>
    ensures value { seen (λ x. (x.0, x.1.now)) result ≡ count each bytes.now }
    ensures room { IfOk result (λ x. x.0 * each ≤ length x.1.now) }
{
    let (number, rest) = u32_at(bytes)?;
    if (rest.len() as u64) < number as u64 * each as u64 {
        return Err(Refused::Short);
    }
    Ok((number, rest))
}

/// A section's version, and its own bytes.
#[derive(Clone, Copy, Debug)]
pub struct Section<'a> {
    /// The version that it was written by.
    pub version: u8,
    /// Its own bytes, of which a reader may leave an end that it does not know.
    pub own: &'a [u8],
}

/// A section that a reader of version `knows` may read, and the bytes behind it. It begins with its version and the
/// least version that its reader must know, of one byte each, and its length of four bytes.
///
/// # Errors
///
/// `TooNew` where its reader must know a later version than `knows`; `Short` where the section passes the end.
#[tactic(auto, unfolding(crate::specs::Encoding::section))]
pub fn section_at(bytes: &[u8], knows: u8) -> Result<(Section<'_>, &[u8]), Refused>
    ensures { seen (λ x. (record { version = x.0.version; own = x.0.own.now }, x.1.now)) result
        ≡ section knows bytes.now }
{
    let (version, rest) = u8_at(bytes)?;
    let (least, rest) = u8_at(rest)?;
    if knows < least {
        return Err(Refused::TooNew);
    }
    let (own, rest) = text_at(rest)?;
    Ok((Section { version, own }, rest))
}

/// Answers `Ok` where nothing is left.
///
/// # Errors
///
/// `Trailing` where bytes are left.
pub fn end_at(bytes: &[u8]) -> Result<(), Refused>
    ensures { seen (λ _. tt) result ≡ at_end bytes.now }
{
    if bytes.is_empty() {
        Ok(())
    } else {
        Err(Refused::Trailing)
    }
}

/// Answers `Ok` where a version is one from `first` to `last`.
///
/// # Errors
///
/// `Unknown` where it is an earlier one, `TooNew` where it is a later one.
pub fn known_version(first: u8, last: u8, version: u8) -> Result<(), Refused>
    ensures { seen (λ _. tt) result ≡ known_version first last version }
{
    if version < first {
        return Err(Refused::Unknown);
    }
    if version > last {
        return Err(Refused::TooNew);
    }
    Ok(())
}
