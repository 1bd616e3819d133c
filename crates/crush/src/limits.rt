//! The limits of forests, of rules, and of the pools that rules serve. The definitions of specs/Limits.antt, which
//! clauses cite, are these constants.

pub use buckets::limits::{LOWEST_BUCKET, MAX_DEVICES, MAX_ITEMS, MAX_LEVEL, MAX_STRAWS};

/// The most buckets of a forest, which has at least 1.
pub const MAX_BUCKETS: usize = 4096;

/// The most buckets of the forest of a plain cluster.
pub const PLAIN_BUCKETS: usize = 512;

/// The most steps of a rule, which has at least 1.
pub const MAX_STEPS: usize = 16;

/// The greatest count of a choose step. The least is 0, which stands for the size of the pool.
pub const MAX_COUNT: u8 = 20;

/// The most places of a pool, which has at least 1.
pub const MAX_SIZE: usize = 20;

/// The reweight of a device that takes its whole share. 0 takes none.
pub const FULL_WEIGHT: u32 = 65_536;

/// The most tries that a step of a rule sets. The least is 1.
pub const MAX_TRIES: u8 = 200;

/// The greatest number that a step of `chooseleaf_vary_r` sets. The least is 0.
pub const MAX_VARY: u8 = 4;

/// The greatest number that a step of `chooseleaf_stable` sets. The least is 0.
pub const MAX_STABLE: u8 = 1;
