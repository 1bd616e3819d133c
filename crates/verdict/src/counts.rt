//! How many groups each OSD has, and a map's parts with all their OSDs up.

ghost use Rattle.std.specs.Prelude.{◌≡◌, map, IfOk};
ghost use Rattle.std.specs.List.{range_with_len};
ghost use Rattle.osdmap.specs.Maps.{ClusterMap};
ghost use Rattle.pgtable.specs.Index.{count_of};
ghost use Rattle.pgtable.specs.Tables.{IsTableOf};
ghost use Rattle.verdict.specs.Counts.{up_part, all_up, all_counts};

use keylist::Entries;
use mapparts::{MapParts, OsdPart};
use osdmap::OsdMap;
use pgtable::{PgTable, Rooms};
use refusal::Memory;
use std::alloc::{AllocError, Global};
use std::thread::Threads;

/// An OSD that is up, where it exists.
fn up_part(osd: &OsdPart) -> OsdPart
    ensures { result ≡ up_part osd.now }
{
    OsdPart {
        up: osd.exists,
        ..*osd
    }
}

/// Some OSDs that are all up.
fn up_parts(alloc: Global, osds: &[OsdPart]) -> Result<Vec<OsdPart>, AllocError>
    ensures { IfOk result (λ up. up.items ≡ map up_part osds.now) }
{
    osds.iter().map(|osd| up_part(osd)).collect(alloc)
}

/// The parts of a map whose OSDs are all up: then an up set is all that its rule and its exceptions give.
///
/// # Errors
///
/// `Memory` (30) where there is no memory for it.
pub fn with_all_up(alloc: Global, parts: MapParts) -> Result<MapParts, Memory>
    ensures { IfOk result (λ up. up ≡ all_up parts) }
{
    let osds = up_parts(alloc, &parts.osds)?;
    Ok(MapParts {
        version: parts.version,
        epoch: parts.epoch,
        max_osd: parts.max_osd,
        buckets: parts.buckets,
        rules: parts.rules,
        pools: parts.pools,
        osds: Entries::new(osds),
        pg_upmap: parts.pg_upmap,
        pg_upmap_items: parts.pg_upmap_items,
    })
}

/// In how many up sets of a table each of the first so many OSDs stands.
fn counted(alloc: Global, table: &PgTable, osds: u32) -> Result<Vec<usize>, Memory>
    ensures { IfOk result (λ counts. (m : ClusterMap) → IsTableOf table.now m
        → counts.items ≡ map (count_of m) (range_with_len 0 osds)) }
{
    let mut counts = Vec::with_capacity(alloc, osds as usize)?;
    for osd in 0..osds {
        counts.push(table.count(osd))?;
    }
    Ok(counts)
}

/// In how many groups' up sets each OSD stands, by number; of many groups in threads.
///
/// # Errors
///
/// `Memory` (30) where there is no memory for it.
pub fn counts_of<R: Threads + Sync>(
    rt: &R,
    alloc: Global,
    map: &OsdMap,
) -> Result<Vec<usize>, Memory>
    ensures { IfOk result (λ counts. counts.items ≡ all_counts map.now.map) }
{
    let mut rooms = Rooms::new(rt, alloc, map)?;
    let table = PgTable::build(rt, alloc, map, &mut rooms)?;
    counted(alloc, &table, map.max_osd())
}
