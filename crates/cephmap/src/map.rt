//! The whole map.

ghost use Rattle.std.specs.Prelude.{◌≡◌, ℕ};
ghost use Rattle.cephbytes.specs.Encoding.{Gives, seen};
ghost use Rattle.cephmap.specs.Maps.{start, osds, temporary, boxed_crush, removed_snapshots, lately, upmap_primaries, upmaps, client_map, sum_over, own_sum, client_section, osd_map};

use crate::address::Addresses;
use crate::crush::Crush;
use crate::group::{GroupOsds, GroupPairs, GroupPrimary};
use crate::parts::{Fsid, Interval, Settings};
use crate::pool::{Pool, PoolName};
use cephbytes::{
    FromBytes, Listed, ReadError, Refused, Section, crc32c, end_at, known_version, section_at,
    skip_at, text_at, u32_at,
};
use std::alloc::Global;

/// How a map begins.
#[derive(Debug, Drop)]
struct Start {
    /// The cluster's id.
    fsid: Fsid,
    /// The map's epoch.
    epoch: u32,
    /// The pools.
    pools: Listed<Pool>,
    /// Their names.
    pool_names: Listed<PoolName>,
    /// The map's flags.
    flags: u32,
}

impl FromBytes for Start {
    const LEAST: u32 = 52;

    ghost LEAST = { 52 };

    ghost form = { start };

    #[tactic(auto, unfolding(crate::specs::Maps::start))]
    fn read(alloc: Global, bytes: &[u8]) -> Result<(Start, &[u8]), ReadError> {
        let (fsid, rest) = Fsid::read(alloc, bytes)?;
        let (epoch, rest) = u32::read(alloc, rest)?;
        let rest = skip_at(rest, 16)?;
        let (pools, rest) = Listed::<Pool>::read(alloc, rest)?;
        let (pool_names, rest) = Listed::<PoolName>::read(alloc, rest)?;
        let rest = skip_at(rest, 4)?;
        let (flags, rest) = u32::read(alloc, rest)?;
        Ok((
            Start {
                fsid,
                epoch,
                pools,
                pool_names,
                flags,
            },
            rest,
        ))
    }
}

/// The OSDs of a map, by their ids.
#[derive(Debug, Drop)]
pub struct Osds {
    /// OSDs have ids below this.
    pub max_osd: u32,
    /// The state of each: bit 0 where it exists, bit 1 where it is up.
    pub states: Listed<u32>,
    /// The reweight of each, in units of 1/65,536.
    pub reweights: Listed<u32>,
}

impl FromBytes for Osds {
    const LEAST: u32 = 16;

    ghost LEAST = { 16 };

    ghost form = { osds };

    #[tactic(auto, unfolding(crate::specs::Maps::osds))]
    fn read(alloc: Global, bytes: &[u8]) -> Result<(Osds, &[u8]), ReadError> {
        let (max_osd, rest) = u32::read(alloc, bytes)?;
        let (states, rest) = Listed::<u32>::read(alloc, rest)?;
        let (reweights, rest) = Listed::<u32>::read(alloc, rest)?;
        let (_own, rest) = Listed::<Addresses>::read(alloc, rest)?;
        Ok((
            Osds {
                max_osd,
                states,
                reweights,
            },
            rest,
        ))
    }
}

/// What groups have for a time (`pg_temp`, `primary_temp`).
#[derive(Debug, Drop)]
pub struct Temporary {
    /// Sets.
    pub sets: Listed<GroupOsds>,
    /// Primaries.
    pub primaries: Listed<GroupPrimary>,
}

impl FromBytes for Temporary {
    const LEAST: u32 = 8;

    ghost LEAST = { 8 };

    ghost form = { temporary };

    #[tactic(auto, unfolding(crate::specs::Maps::temporary))]
    fn read(alloc: Global, bytes: &[u8]) -> Result<(Temporary, &[u8]), ReadError> {
        let (sets, rest) = Listed::<GroupOsds>::read(alloc, bytes)?;
        let (primaries, rest) = Listed::<GroupPrimary>::read(alloc, rest)?;
        Ok((Temporary { sets, primaries }, rest))
    }
}

/// The CRUSH map behind its length.
#[tactic(auto, unfolding(crate::specs::Maps::boxed_crush))]
fn boxed_crush_at(alloc: Global, bytes: &[u8]) -> Result<(Crush, &[u8]), ReadError>
    ensures { Gives (λ x. (x.0, x.1.now)) result (boxed_crush bytes.now) }
{
    let (own, rest) = text_at(bytes)?;
    let (crush, _) = Crush::read(alloc, own)?;
    Ok((crush, rest))
}

/// Snapshots of a pool that are removed.
#[derive(Debug, Drop)]
struct RemovedSnapshots {
    /// The id of the pool.
    pool: i64,
    /// Their numbers.
    intervals: Listed<Interval>,
}

impl FromBytes for RemovedSnapshots {
    const LEAST: u32 = 12;

    ghost LEAST = { 12 };

    ghost form = { removed_snapshots };

    #[tactic(auto, unfolding(crate::specs::Maps::removed_snapshots))]
    fn read(alloc: Global, bytes: &[u8]) -> Result<(RemovedSnapshots, &[u8]), ReadError> {
        let (pool, rest) = i64::read(alloc, bytes)?;
        let (intervals, rest) = Listed::<Interval>::read(alloc, rest)?;
        Ok((RemovedSnapshots { pool, intervals }, rest))
    }
}

/// Passes the version of the CRUSH map, what snapshots were removed of late, and when an OSD changed last.
#[tactic(auto, unfolding(crate::specs::Maps::lately))]
fn pass_lately(alloc: Global, bytes: &[u8]) -> Result<&[u8], ReadError>
    ensures { Gives (λ x. (tt, x.now)) result (lately bytes.now) }
{
    let rest = skip_at(bytes, 4)?;
    let (_removed, rest) = Listed::<RemovedSnapshots>::read(alloc, rest)?;
    let (_purged, rest) = Listed::<RemovedSnapshots>::read(alloc, rest)?;
    let rest = skip_at(rest, 16)?;
    Ok(rest)
}

/// What operators have stated of groups one by one.
#[derive(Debug, Drop)]
pub struct Upmaps {
    /// Sets (`pg_upmap`).
    pub sets: Listed<GroupOsds>,
    /// Pairs (`pg_upmap_items`).
    pub pairs: Listed<GroupPairs>,
    /// Primaries (`pg_upmap_primaries`).
    pub primaries: Listed<GroupPrimary>,
}

/// The primaries that stand in a map from version 10 on.
#[tactic(auto, unfolding(crate::specs::Maps::upmap_primaries))]
fn upmap_primaries_at(
    alloc: Global,
    version: u8,
    bytes: &[u8],
) -> Result<(Listed<GroupPrimary>, &[u8]), ReadError>
    ensures { Gives (λ x. (x.0, x.1.now)) result (upmap_primaries version bytes.now) }
{
    if version < 10 {
        return Ok((Listed::empty(alloc), bytes));
    }
    Listed::<GroupPrimary>::read(alloc, bytes)
}

/// What operators have stated of groups, in a map of a version.
#[tactic(auto, unfolding(crate::specs::Maps::upmaps))]
fn upmaps_at(alloc: Global, version: u8, bytes: &[u8]) -> Result<(Upmaps, &[u8]), ReadError>
    ensures { Gives (λ x. (x.0, x.1.now)) result (upmaps version bytes.now) }
{
    let (sets, rest) = Listed::<GroupOsds>::read(alloc, bytes)?;
    let (pairs, rest) = Listed::<GroupPairs>::read(alloc, rest)?;
    let rest = pass_lately(alloc, rest)?;
    let (primaries, rest) = upmap_primaries_at(alloc, version, rest)?;
    Ok((
        Upmaps {
            sets,
            pairs,
            primaries,
        },
        rest,
    ))
}

/// A cluster's map, its numbers as they stand.
#[derive(Debug, Drop)]
pub struct CephMap {
    /// The cluster's id.
    pub fsid: Fsid,
    /// The map's epoch.
    pub epoch: u32,
    /// Its flags.
    pub flags: u32,
    /// The pools.
    pub pools: Listed<Pool>,
    /// The names of pools.
    pub pool_names: Listed<PoolName>,
    /// The OSDs.
    pub osds: Osds,
    /// The affinity of each OSD as a primary, in units of 1/65,536; none where each has the usual one.
    pub affinities: Listed<u32>,
    /// The CRUSH map.
    pub crush: Crush,
    /// The profiles of coded parts.
    pub profiles: Listed<Settings>,
    /// What groups have for a time.
    pub temporary: Temporary,
    /// What operators have stated of groups.
    pub upmaps: Upmaps,
}

/// What clients use of a map of a version.
#[tactic(auto, unfolding(crate::specs::Maps::client_map))]
fn client_map_at(alloc: Global, version: u8, bytes: &[u8]) -> Result<(CephMap, &[u8]), ReadError>
    ensures { Gives (λ x. (x.0, x.1.now)) result (client_map version bytes.now) }
{
    known_version(9, 10, version)?;
    let (start, rest) = Start::read(alloc, bytes)?;
    let (osds, rest) = Osds::read(alloc, rest)?;
    let (temporary, rest) = Temporary::read(alloc, rest)?;
    let (affinities, rest) = Listed::<u32>::read(alloc, rest)?;
    let (crush, rest) = boxed_crush_at(alloc, rest)?;
    let (profiles, rest) = Listed::<Settings>::read(alloc, rest)?;
    let (upmaps, rest) = upmaps_at(alloc, version, rest)?;
    end_at(rest)?;
    let map = CephMap {
        fsid: start.fsid,
        epoch: start.epoch,
        flags: start.flags,
        pools: start.pools,
        pool_names: start.pool_names,
        osds,
        affinities,
        crush,
        profiles,
        temporary,
        upmaps,
    };
    Ok((map, rest))
}

/// The sum of all bytes but the four in which it stands, before those of `after`.
fn sum_over(bytes: &[u8], after: &[u8]) -> u32
    ensures { result ≡ sum_over bytes.now after.now }
{
    let before = bytes.len().saturating_sub(after.len() + 4);
    crc32c(crc32c(0xffff_ffff, &bytes[..before]), after)
}

/// Passes the sum of all of `whole`, where it is right.
#[tactic(auto, unfolding(crate::specs::Maps::own_sum))]
fn pass_sum<'a>(whole: &[u8], bytes: &'a [u8]) -> Result<&'a [u8], Refused>
    ensures { seen (λ x. (tt, x.now)) result ≡ own_sum whole.now bytes.now }
{
    let (stands, after) = u32_at(bytes)?;
    if stands != sum_over(whole, after) {
        return Err(Refused::WrongSum);
    }
    Ok(after)
}

/// The section of clients in a map whose sum is right.
#[tactic(auto, unfolding(crate::specs::Maps::client_section))]
fn client_section_at<'a>(whole: &[u8], bytes: &'a [u8]) -> Result<(Section<'a>, &'a [u8]), Refused>
    ensures { seen (λ x. (record { version = x.0.version; own = x.0.own.now }, x.1.now)) result
        ≡ client_section whole.now bytes.now }
{
    let (client, rest) = section_at(bytes, 1)?;
    let (_, rest) = section_at(rest, 1)?;
    let rest = pass_sum(whole, rest)?;
    Ok((client, rest))
}

/// The map that bytes are, all of them: what `ceph osd getmap -o FILE` writes.
///
/// # Errors
///
/// `Refused` with the first fault of these: of the sections that hold the map, of the sum of its bytes (`WrongSum`), of
/// what stands in the sections, from the left. `Memory` where memory runs out; what is taken is bounded by the bytes
/// that are there, whatever lengths they state.
#[tactic(auto, unfolding(crate::specs::Maps::whole_map))]
pub fn checked_map(alloc: Global, bytes: &[u8]) -> Result<CephMap, ReadError>
    ensures { Gives (λ m. m) result (osd_map bytes.now) }
{
    let (outer, rest) = section_at(bytes, 8)?;
    known_version(8, 8, outer.version)?;
    end_at(rest)?;
    let (client, _) = client_section_at(bytes, outer.own)?;
    let (map, _) = client_map_at(alloc, client.version, client.own)?;
    Ok(map)
}
