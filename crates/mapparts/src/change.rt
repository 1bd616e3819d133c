//! Changes as texts state them, and the families that the parts of a change form: here of numbers untested, in
//! `maptypes` of values.

use crate::parts::{CrushParts, ExceptionPart, GrowPart, PairPart, PoolPart};
use crate::pg_parts::PgParts;
use keylist::Entries;

/// What a change does with pools: by ids, pools and growths.
#[derive(Debug, Drop)]
pub struct PoolChanges<I, P, G> {
    /// The ids of the pools that are taken away, with their exceptions: 1 to 65,535. A text has them as `old_pools`.
    pub gone: Entries<I>,
    /// The pools that come: `new_pools`.
    pub come: Entries<P>,
    /// The pools that grow, and what to: `grow_pool`.
    pub grow: Entries<G>,
}

/// What a change does with OSDs: 0 to 4,095.
#[derive(Debug, Drop)]
pub struct OsdChanges<I> {
    /// The OSDs that go down.
    pub down: Entries<I>,
    /// The OSDs that come up.
    pub up: Entries<I>,
}

/// What a change does with the exceptions of one kind: by groups and exceptions.
#[derive(Debug, Drop)]
pub struct ExceptionChanges<G, E> {
    /// The groups whose exception is taken away: `old_upmap`, or `old_items` of pairs.
    pub gone: Entries<G>,
    /// The exceptions that groups get, in place of those they have: `new_upmap`, or `new_items` of pairs.
    pub come: Entries<E>,
}

/// A change as a text states it, its numbers untested: each is any whole number.
#[derive(Debug, Drop)]
pub struct RawChange {
    /// The epoch to which the change applies: 0 to 2^64 - 1.
    pub base: i128,
    /// The pools that are taken away, come and grow.
    pub pools: PoolChanges<i128, PoolPart, GrowPart>,
    /// The forest and the rules that come in place of those of the map: `new_crush`.
    pub crush: Option<CrushParts>,
    /// The OSDs that go down and come up.
    pub osds: OsdChanges<i128>,
    /// The OSDs that get another reweight: `weight`.
    pub weights: Entries<ReweightPart>,
    /// The explicit sets that are taken away and come.
    pub explicit: ExceptionChanges<PgParts, ExceptionPart<i128>>,
    /// The pairs of groups that are taken away and come.
    pub items: ExceptionChanges<PgParts, ExceptionPart<PairPart>>,
}

/// An OSD and its new reweight as a text states them.
#[derive(Clone, Copy, Debug, PartialEq, Eq)]
pub struct ReweightPart {
    /// 0 to 4,095.
    pub osd: i128,
    /// 0 to 4,294,967,295.
    pub weight: i128,
}
