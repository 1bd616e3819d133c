//! The limits of items and of buckets. The definitions of specs/Limits.antt, which clauses cite, are these constants.

/// The lowest id of a bucket. The highest is -1.
pub const LOWEST_BUCKET: i32 = -65_536;

/// The highest type of a bucket. The lowest is 1, and 0 is the type of a device.
pub const MAX_LEVEL: u8 = 15;

/// The most items of a bucket that is none of straws. A bucket has at least 1.
pub const MAX_ITEMS: usize = 64;

/// The most items of a straw2 bucket.
pub const MAX_STRAWS: usize = 4096;

/// The most devices, which are numbered from 0 on. A map has room for at least 1.
pub const MAX_DEVICES: u32 = 4096;

/// The most devices of a plain cluster.
pub const PLAIN_DEVICES: u32 = 1024;
