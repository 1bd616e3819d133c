//! Groups, and what is stated of them one by one.

ghost use Rattle.std.specs.Prelude.{◌≡◌, ℕ};
ghost use Rattle.cephmap.specs.Groups.{group, group_osds, group_primary, pair, group_pairs};

use cephbytes::{FromBytes, Listed, ReadError, known_version, skip_at};
use std::alloc::Global;

/// A group.
#[derive(Clone, Copy, Debug, PartialEq, Eq)]
pub struct Group {
    /// The id of its pool.
    pub pool: i64,
    /// Its number in the pool.
    pub number: u32,
}

impl FromBytes for Group {
    const LEAST: u32 = 17;

    ghost LEAST = { 17 };

    ghost form = { group };

    #[tactic(auto, unfolding(crate::specs::Groups::group))]
    fn read(alloc: Global, bytes: &[u8]) -> Result<(Group, &[u8]), ReadError> {
        let (version, rest) = u8::read(alloc, bytes)?;
        known_version(1, 1, version)?;
        let (pool, rest) = i64::read(alloc, rest)?;
        let (number, rest) = u32::read(alloc, rest)?;
        let rest = skip_at(rest, 4)?;
        Ok((Group { pool, number }, rest))
    }
}

/// A group and OSDs: the set that it has in place of its own.
#[derive(Debug, Drop)]
pub struct GroupOsds {
    /// The group.
    pub group: Group,
    /// The ids of the OSDs; 2^31 - 1 where there is none.
    pub osds: Listed<i32>,
}

impl FromBytes for GroupOsds {
    const LEAST: u32 = 21;

    ghost LEAST = { 21 };

    ghost form = { group_osds };

    #[tactic(auto, unfolding(crate::specs::Groups::group_osds))]
    fn read(alloc: Global, bytes: &[u8]) -> Result<(GroupOsds, &[u8]), ReadError> {
        let (group, rest) = Group::read(alloc, bytes)?;
        let (osds, rest) = Listed::<i32>::read(alloc, rest)?;
        Ok((GroupOsds { group, osds }, rest))
    }
}

/// A group and the OSD that is to be its primary.
#[derive(Clone, Copy, Debug, PartialEq, Eq)]
pub struct GroupPrimary {
    /// The group.
    pub group: Group,
    /// The id of the OSD.
    pub osd: i32,
}

impl FromBytes for GroupPrimary {
    const LEAST: u32 = 21;

    ghost LEAST = { 21 };

    ghost form = { group_primary };

    #[tactic(auto, unfolding(crate::specs::Groups::group_primary))]
    fn read(alloc: Global, bytes: &[u8]) -> Result<(GroupPrimary, &[u8]), ReadError> {
        let (group, rest) = Group::read(alloc, bytes)?;
        let (osd, rest) = i32::read(alloc, rest)?;
        Ok((GroupPrimary { group, osd }, rest))
    }
}

/// An OSD, and the one that stands in its place.
#[derive(Clone, Copy, Debug, PartialEq, Eq)]
pub struct Pair {
    /// The id of the OSD that leaves.
    pub from: i32,
    /// The id of the OSD that comes.
    pub to: i32,
}

impl FromBytes for Pair {
    const LEAST: u32 = 8;

    ghost LEAST = { 8 };

    ghost form = { pair };

    #[tactic(auto, unfolding(crate::specs::Groups::pair))]
    fn read(alloc: Global, bytes: &[u8]) -> Result<(Pair, &[u8]), ReadError> {
        let (from, rest) = i32::read(alloc, bytes)?;
        let (to, rest) = i32::read(alloc, rest)?;
        Ok((Pair { from, to }, rest))
    }
}

/// A group and pairs of OSDs.
#[derive(Debug, Drop)]
pub struct GroupPairs {
    /// The group.
    pub group: Group,
    /// The pairs.
    pub pairs: Listed<Pair>,
}

impl FromBytes for GroupPairs {
    const LEAST: u32 = 21;

    ghost LEAST = { 21 };

    ghost form = { group_pairs };

    #[tactic(auto, unfolding(crate::specs::Groups::group_pairs))]
    fn read(alloc: Global, bytes: &[u8]) -> Result<(GroupPairs, &[u8]), ReadError> {
        let (group, rest) = Group::read(alloc, bytes)?;
        let (pairs, rest) = Listed::<Pair>::read(alloc, rest)?;
        Ok((GroupPairs { group, pairs }, rest))
    }
}
