//! What stands above OSDs.

ghost use Rattle.std.specs.Prelude.{◌≡◌, IfOk};
ghost use Rattle.std.specs.List.{count_by};
ghost use Rattle.maptypes.specs.Sets.{is_of, stands};
ghost use Rattle.balancer.specs.Moves.{domain_of, domains_of, are_under_same};

use osdmap::OsdMap;
use refusal::Memory;
use std::alloc::Global;

/// The failure domain of an OSD: the bucket of a type above it, and for type 0 the OSD itself.
#[tactic(auto, unfolding(crate::specs::Moves::domain_of))]
pub(crate) fn domain_of(map: &OsdMap, level: u8, osd: u32) -> Option<i64>
    ensures { result ≡ domain_of map.now.map level osd }
{
    if level == 0 {
        return Some(i64::from(osd));
    }
    let bucket = map.forest().ancestor_of_device(osd, level)?;
    Some(i64::from(bucket))
}

/// Whether two OSDs have the same bucket of a type above them, or neither has one.
pub(crate) fn are_under_same(map: &OsdMap, some: u32, other: u32, level: u8) -> bool
    ensures { result ≡ are_under_same map.now.map some other level }
{
    let forest = map.forest();
    forest.ancestor_of_device(some, level) == forest.ancestor_of_device(other, level)
}

/// The failure domains of all OSDs, by number; or `Memory` (30).
pub(crate) fn domains_of(alloc: Global, map: &OsdMap, level: u8) -> Result<Vec<Option<i64>>, Memory>
    ensures { IfOk result (λ domains. domains.items ≡ domains_of map.now.map level) }
{
    let mut domains = Vec::with_capacity(alloc, map.max_osd() as usize)?;
    for osd in 0..map.max_osd() {
        domains.push(domain_of(map, level, osd))?;
    }
    Ok(domains)
}

/// Whether an OSD stands in a set.
pub(crate) fn stands(places: &[Option<u32>], osd: u32) -> bool
    ensures { result ≡ stands osd places.now }
{
    places.iter().any(|place| *place == Some(osd))
}

/// In how many places of a set an OSD stands.
pub(crate) fn count_places(places: &[Option<u32>], osd: u32) -> usize
    ensures { result ≡ count_by (is_of osd) places.now }
{
    places.iter().filter(|place| **place == Some(osd)).count()
}
