//! Maps as texts state them, their numbers untested.

use crate::pg_parts::PgParts;
use buckets::BucketKind;
use crush::{Mode, RuleKind};
use keylist::Entries;

/// A map as a text states it, its numbers untested: each is any whole number.
#[derive(Debug, Drop)]
pub struct MapParts {
    /// The version of the form: 1 or 2.
    pub version: i128,
    /// The first epoch: 1 to 2,147,483,648.
    pub epoch: i128,
    /// OSDs have ids below this: 1 to 4,096.
    pub max_osd: i128,
    /// The buckets of the forest: 1 to 4,096.
    pub buckets: Entries<BucketPart>,
    /// The rules: 1 to 256.
    pub rules: Entries<RulePart>,
    /// The pools: 0 to 256.
    pub pools: Entries<PoolPart>,
    /// The OSDs listed.
    pub osds: Entries<OsdPart>,
    /// The explicit sets: 0 to 1,048,576.
    pub pg_upmap: Entries<ExceptionPart<i128>>,
    /// The pairs of groups: 0 to 1,048,576.
    pub pg_upmap_items: Entries<ExceptionPart<PairPart>>,
}

/// A bucket as a text states it.
#[derive(Debug, Drop)]
pub struct BucketPart {
    /// -1 down to -65,536.
    pub id: i128,
    /// The type: 1 to 15.
    pub level: i128,
    /// How the bucket picks.
    pub kind: BucketKind,
    /// The items in order: 1 to 64, in a straw2 bucket 1 to 4,096.
    pub items: Entries<ItemPart>,
}

/// An item as a text states it.
#[derive(Clone, Copy, Debug, PartialEq, Eq)]
pub struct ItemPart {
    /// A device or a bucket: -65,536 to 4,095.
    pub id: i128,
    /// 1 to 4,294,967,295.
    pub weight: i128,
}

/// A rule as a text states it.
#[derive(Debug, Drop)]
pub struct RulePart {
    /// 0 to 255.
    pub id: i128,
    /// What it is for: copies or coded parts.
    pub kind: RuleKind,
    /// The steps in order: 1 to 16.
    pub steps: Entries<StepPart>,
}

/// A step as a text states it.
#[derive(Clone, Copy, Debug, PartialEq, Eq)]
pub enum StepPart {
    /// How often later choose steps try: 1 to 200. A map's text has it in version 2 alone.
    SetChooseTries(i128),
    /// How often later choose steps try for a leaf: 1 to 200. A map's text has it in version 2 alone.
    SetChooseleafTries(i128),
    /// What the replica number of a bucket adds to that of its leaf: 0 to 4. A stock map's text has it, in version 2
    /// alone.
    SetChooseleafVaryR(i128),
    /// Whether leaves are sought in the same way however many items are chosen: 0 or 1. A stock map's text has it, in
    /// version 2 alone.
    SetChooseleafStable(i128),
    /// A bucket: -1 down to -65,536.
    Take(i128),
    /// Some items below each of those chosen before.
    Choose(ChoosePart),
    /// What was chosen goes to the result.
    Emit,
}

/// A choose step as a text states it.
#[derive(Clone, Copy, Debug, PartialEq, Eq)]
pub struct ChoosePart {
    /// First n, or independent places.
    pub mode: Mode,
    /// Whether a device below each bucket chosen is taken in its place.
    pub to_leaf: bool,
    /// 0 to 20, where 0 is the size of the pool.
    pub count: i128,
    /// The type chosen: 0 to 15.
    pub level: i128,
}

/// A pool as a text states it.
#[derive(Clone, Copy, Debug, PartialEq, Eq)]
pub struct PoolPart {
    /// 1 to 65,535.
    pub id: i128,
    /// What it is for: copies or coded parts.
    pub kind: RuleKind,
    /// The number of groups: 1 to 65,536.
    pub pg_num: i128,
    /// The number of groups for placement: 1 to 65,536, at most `pg_num`.
    pub pgp_num: i128,
    /// The id of the pool's rule: 0 to 255.
    pub rule: i128,
    /// How many OSDs a group has: 1 to 20.
    pub size: i128,
}

/// What a pool grows to, as a text states it.
#[derive(Clone, Copy, Debug, PartialEq, Eq)]
pub struct GrowPart {
    /// The id of the pool: 1 to 65,535.
    pub pool: i128,
    /// The number of groups: 1 to 65,536.
    pub pg_num: i128,
    /// The number of groups for placement: 1 to 65,536, at most `pg_num`.
    pub pgp_num: i128,
}

/// A CRUSH map as a text states it.
#[derive(Debug, Drop)]
pub struct CrushParts {
    /// The buckets of the forest: 1 to 4,096.
    pub buckets: Entries<BucketPart>,
    /// The rules: 1 to 256.
    pub rules: Entries<RulePart>,
}

/// An OSD as a text states it.
#[derive(Clone, Copy, Debug, PartialEq, Eq)]
pub struct OsdPart {
    /// 0 to 4,095.
    pub id: i128,
    /// Whether it exists.
    pub exists: bool,
    /// Whether it is up.
    pub up: bool,
    /// The reweight, in parts of 65,536: 0 to 65,536.
    pub weight: i128,
}

/// An exception as a text states it.
#[derive(Debug, Drop)]
pub struct ExceptionPart<E> {
    /// The group: its pool is 1 to 65,535, its number has at most 32 bits.
    pub pg: PgParts,
    /// What is said of the group, in order: 0 to 20 OSDs or pairs.
    pub entries: Entries<E>,
}

/// A pair as a text states it.
#[derive(Clone, Copy, Debug, PartialEq, Eq)]
pub struct PairPart {
    /// 0 to 4,095.
    pub from: i128,
    /// 0 to 4,095.
    pub to: i128,
}
