//! The limits of maps and changes, each named once; those of buckets are those of `buckets`, those of forests and rules
//! those of `crush`. The definitions of specs/Limits.antt, which clauses cite, are these constants. Those that hang on
//! the profile are in one table, [`Limits`].

use crush::limits;

/// The greatest version of the form in which maps are stated. The least is 1.
pub const MAX_VERSION: i128 = 2;
/// The greatest first epoch.
pub const MAX_FIRST_EPOCH: i128 = 2_147_483_648;
/// The greatest `max_osd`.
pub const MAX_OSDS: i128 = buckets::limits::MAX_DEVICES as i128;
/// The greatest id of an OSD.
pub const MAX_OSD_ID: i128 = MAX_OSDS - 1;
/// The greatest `max_osd` of a plain cluster.
pub const MAX_PLAIN_OSDS: i128 = buckets::limits::PLAIN_DEVICES as i128;
/// The lowest id of a bucket.
pub const LOWEST_BUCKET: i128 = buckets::limits::LOWEST_BUCKET as i128;
/// The greatest type of a bucket or a step.
pub const MAX_LEVEL: i128 = buckets::limits::MAX_LEVEL as i128;
/// The greatest weight of an item.
pub const MAX_ITEM_WEIGHT: i128 = u32::MAX as i128;
/// How many rules a map has at most.
pub const MAX_RULES: usize = 256;
/// The greatest id of a rule.
pub const MAX_RULE_ID: i128 = 255;
/// The greatest count of a choose step.
pub const MAX_COUNT: i128 = limits::MAX_COUNT as i128;
/// The most tries that a step of a rule sets. The least is 1.
pub const MAX_TRIES: i128 = limits::MAX_TRIES as i128;
/// The greatest number that a step of `chooseleaf_vary_r` sets.
pub const MAX_VARY: i128 = limits::MAX_VARY as i128;
/// The greatest number that a step of `chooseleaf_stable` sets.
pub const MAX_STABLE: i128 = limits::MAX_STABLE as i128;
/// The greatest size of a pool.
pub const MAX_SIZE: i128 = limits::MAX_SIZE as i128;
/// How many places a set of a group has at most, and so how many entries an exception.
pub const MAX_PLACES: usize = limits::MAX_SIZE;
/// How many pools a map has at most.
pub const MAX_POOLS: usize = 256;
/// The greatest id of a pool.
pub const MAX_POOL_ID: i128 = 65_535;
/// How many groups a pool has at most.
pub const MAX_GROUPS: i128 = 65_536;
/// How many groups all pools of a map have together at most.
pub const MAX_TOTAL_GROUPS: u128 = 1_048_576;
/// How many exceptions of one kind a map has at most, and how many entries a list of a change.
pub const MAX_ENTRIES: usize = 1_048_576;
/// The reweight of an OSD that takes its whole share.
pub const FULL_WEIGHT: u32 = limits::FULL_WEIGHT;
/// The greatest epoch to which a change applies.
pub const MAX_BASE: i128 = u64::MAX as i128;
/// The greatest reweight that a change may state. One above the whole is refused by the map.
pub const MAX_STATED_REWEIGHT: i128 = u32::MAX as i128;

/// The greatest id of an OSD of a plain cluster.
pub const MAX_PLAIN_OSD_ID: i128 = MAX_PLAIN_OSDS - 1;
/// How many places a pool of a plain cluster has at most, and so how many entries an exception.
pub const PLAIN_PLACES: usize = 10;
/// The greatest size of a pool of a plain cluster.
pub const PLAIN_SIZE: i128 = PLAIN_PLACES as i128;
/// How many groups a pool of a plain cluster has at most.
pub const PLAIN_GROUPS: i128 = 4_096;
/// How many items a bucket of a plain cluster has at most.
pub const PLAIN_ITEMS: usize = 64;
/// How many rules a plain cluster has at most.
pub const PLAIN_RULES: usize = 32;
/// How many pools a plain cluster has at most.
pub const PLAIN_POOLS: usize = 32;
/// How many exceptions of one kind a plain cluster has at most, and how many entries a list of a change of one.
pub const PLAIN_ENTRIES: usize = 131_072;

/// The limits that hang on the profile: one row of their table. [`Profile::limits`](crate::Profile::limits) has both.
#[derive(Clone, Copy, Debug, PartialEq, Eq)]
pub struct Limits {
    /// The greatest `max_osd`: 1,024, of a stock cluster 4,096.
    pub max_osd: i128,
    /// The greatest id of an OSD: 1,023; 4,095.
    pub osd: i128,
    /// How many buckets there are at most: 512; 4,096.
    pub buckets: usize,
    /// How many items a bucket has at most, where its kind has no lower limit: 64; 4,096.
    pub items: usize,
    /// How many rules there are at most: 32; 256.
    pub rules: usize,
    /// How many pools there are at most: 32; 256.
    pub pools: usize,
    /// How many groups a pool has at most: 4,096; 65,536.
    pub groups: i128,
    /// The greatest count of a choose step: 10; 20.
    pub count: i128,
    /// The greatest size of a pool: 10; 20.
    pub size: i128,
    /// How many entries an exception has at most: 10; 20.
    pub places: usize,
    /// How many exceptions of one kind a map has at most, and how many entries a list of a change: 131,072; 1,048,576.
    pub entries: usize,
}
