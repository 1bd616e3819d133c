//! The limits of a lock.

/// How many seats a lock has at most. It has at least 1.
pub const MAX_SEATS: u32 = 1024;
/// How many draws a seat has at most. It has at least 1.
pub const MAX_DRAWS: u64 = 1 << 40;
