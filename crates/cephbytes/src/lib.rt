//! Ceph's binary encoding (Ceph, include/encoding.h), read from a cursor over bytes, and the CRC-32C that ends a map.
//!
//! - `cursor`: a cursor over bytes
//! - `front`: what stands at the front of bytes, and the bytes behind it
//! - `form`: kinds of things that bytes hold
//! - `listed`: lists of a kind, and texts
//! - `crc`: CRC-32C
//! - `refused`: why bytes are refused
//! - `laws`, `read_again`: what follows of the sum, and that what was written is read again
#![tactic(auto)]

mod crc;
mod cursor;
mod form;
mod front;
pub mod laws;
mod listed;
pub mod read_again;
mod refused;

pub use crc::crc32c;
pub use cursor::{Cursor, Width};
pub use form::FromBytes;
pub use front::{
    Section, bytes_at, count_at, end_at, i32_at, i64_at, known_version, section_at, skip_at,
    text_at, u8_at, u16_at, u32_at, u64_at,
};
pub use listed::{Listed, Text, entries_at};
pub use refused::{ReadError, Refused};
