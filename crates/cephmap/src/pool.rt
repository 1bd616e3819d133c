//! Pools.

ghost use Rattle.std.specs.Prelude.{◌≡◌, ℕ};
ghost use Rattle.cephbytes.specs.Encoding.{Gives, seen};
ghost use Rattle.cephmap.specs.Pools.{pool_kind_of, pool_kind, sizes, snapshots, tiers, options, target, fields, pool, pool_name};

use crate::parts::{Interval, Setting, Settings, Snapshot};
use cephbytes::{FromBytes, Listed, ReadError, Refused, Text, known_version, section_at, skip_at};
use std::alloc::Global;

/// What a pool keeps of each object.
#[derive(Clone, Copy, Debug, PartialEq, Eq)]
pub enum PoolKind {
    /// Copies.
    Replicated,
    /// Coded parts.
    Erasure,
}

/// The kind that a number stands for.
fn pool_kind_of(number: u8) -> Result<PoolKind, Refused>
    ensures { result ≡ pool_kind_of number }
{
    match number {
        1 => Ok(PoolKind::Replicated),
        3 => Ok(PoolKind::Erasure),
        _ => Err(Refused::Unknown),
    }
}

impl FromBytes for PoolKind {
    const LEAST: u32 = 1;

    ghost LEAST = { 1 };

    ghost form = { pool_kind };

    #[tactic(auto, unfolding(crate::specs::Pools::pool_kind))]
    fn read(alloc: Global, bytes: &[u8]) -> Result<(PoolKind, &[u8]), ReadError> {
        let (number, rest) = u8::read(alloc, bytes)?;
        let kind = pool_kind_of(number)?;
        Ok((kind, rest))
    }
}

/// How the section of a pool begins: what places its groups.
#[derive(Clone, Copy, Debug, PartialEq, Eq)]
struct Sizes {
    /// What the pool keeps of each object.
    kind: PoolKind,
    /// How many OSDs a group has.
    size: u8,
    /// The id of the rule.
    rule: u8,
    /// How names of objects are hashed.
    object_hash: u8,
    /// The number of groups.
    pg_num: u32,
    /// The number of groups for placement.
    pgp_num: u32,
}

impl FromBytes for Sizes {
    const LEAST: u32 = 12;

    ghost LEAST = { 12 };

    ghost form = { sizes };

    #[tactic(auto, unfolding(crate::specs::Pools::sizes))]
    fn read(alloc: Global, bytes: &[u8]) -> Result<(Sizes, &[u8]), ReadError> {
        let (kind, rest) = PoolKind::read(alloc, bytes)?;
        let (size, rest) = u8::read(alloc, rest)?;
        let (rule, rest) = u8::read(alloc, rest)?;
        let (object_hash, rest) = u8::read(alloc, rest)?;
        let (pg_num, rest) = u32::read(alloc, rest)?;
        let (pgp_num, rest) = u32::read(alloc, rest)?;
        Ok((
            Sizes {
                kind,
                size,
                rule,
                object_hash,
                pg_num,
                pgp_num,
            },
            rest,
        ))
    }
}

/// The numbers of groups that a pool is to have.
#[derive(Clone, Copy, Debug, PartialEq, Eq)]
struct Target {
    /// The number of groups.
    pg_num: u32,
    /// The number of groups for placement.
    pgp_num: u32,
    /// The number of groups while two of them become one.
    pending: u32,
}

impl FromBytes for Target {
    const LEAST: u32 = 12;

    ghost LEAST = { 12 };

    ghost form = { target };

    #[tactic(auto, unfolding(crate::specs::Pools::target))]
    fn read(alloc: Global, bytes: &[u8]) -> Result<(Target, &[u8]), ReadError> {
        let (pg_num, rest) = u32::read(alloc, bytes)?;
        let (pgp_num, rest) = u32::read(alloc, rest)?;
        let (pending, rest) = u32::read(alloc, rest)?;
        Ok((
            Target {
                pg_num,
                pgp_num,
                pending,
            },
            rest,
        ))
    }
}

/// What stands in the section of a pool.
#[derive(Debug, Drop)]
struct Fields {
    /// What places its groups.
    sizes: Sizes,
    /// Its flags.
    flags: u64,
    /// How few OSDs a group serves with.
    min_size: u8,
    /// The name of its profile.
    erasure_code_profile: Text,
    /// The numbers of groups that it is to have.
    target: Target,
}

/// Passes counts of old kinds of groups, when the pool changed last, its snapshots, and its owner.
#[tactic(auto, unfolding(crate::specs::Pools::snapshots))]
fn pass_snapshots(alloc: Global, bytes: &[u8]) -> Result<&[u8], ReadError>
    ensures { Gives (λ x. (tt, x.now)) result (snapshots bytes.now) }
{
    let rest = skip_at(bytes, 24)?;
    let (_taken, rest) = Listed::<Snapshot>::read(alloc, rest)?;
    let (_removed, rest) = Listed::<Interval>::read(alloc, rest)?;
    let rest = skip_at(rest, 8)?;
    Ok(rest)
}

/// Passes quotas, tiers and caches.
#[tactic(auto, unfolding(crate::specs::Pools::tiers))]
fn pass_tiers(alloc: Global, bytes: &[u8]) -> Result<&[u8], ReadError>
    ensures { Gives (λ x. (tt, x.now)) result (tiers bytes.now) }
{
    let rest = skip_at(bytes, 16)?;
    let (_tiers, rest) = Listed::<u64>::read(alloc, rest)?;
    let rest = skip_at(rest, 25)?;
    let (_properties, rest) = Listed::<Setting>::read(alloc, rest)?;
    let (_, rest) = section_at(rest, 255)?;
    let rest = skip_at(rest, 44)?;
    Ok(rest)
}

/// Passes what else stands before the numbers of groups that a pool is to have.
#[tactic(auto, unfolding(crate::specs::Pools::options))]
fn pass_options(alloc: Global, bytes: &[u8]) -> Result<&[u8], ReadError>
    ensures { Gives (λ x. (tt, x.now)) result (options bytes.now) }
{
    let rest = skip_at(bytes, 34)?;
    let (_, rest) = section_at(rest, 255)?;
    let rest = skip_at(rest, 4)?;
    let (_applications, rest) = Listed::<Settings>::read(alloc, rest)?;
    let rest = skip_at(rest, 8)?;
    Ok(rest)
}

/// What stands in the section of a pool, and what is behind it.
#[tactic(auto, unfolding(crate::specs::Pools::fields))]
fn fields_at(alloc: Global, version: u8, bytes: &[u8]) -> Result<(Fields, &[u8]), ReadError>
    ensures { Gives (λ x. (x.0, x.1.now)) result (fields version bytes.now) }
{
    known_version(29, 30, version)?;
    let (sizes, rest) = Sizes::read(alloc, bytes)?;
    let rest = pass_snapshots(alloc, rest)?;
    let (flags, rest) = u64::read(alloc, rest)?;
    let rest = skip_at(rest, 4)?;
    let (min_size, rest) = u8::read(alloc, rest)?;
    let rest = pass_tiers(alloc, rest)?;
    let (erasure_code_profile, rest) = Text::read(alloc, rest)?;
    let rest = pass_options(alloc, rest)?;
    let (target, rest) = Target::read(alloc, rest)?;
    Ok((
        Fields {
            sizes,
            flags,
            min_size,
            erasure_code_profile,
            target,
        },
        rest,
    ))
}

/// A pool.
#[derive(Debug, Drop)]
pub struct Pool {
    /// Its id.
    pub id: i64,
    /// What it keeps of each object.
    pub kind: PoolKind,
    /// How many OSDs a group has.
    pub size: u8,
    /// How few OSDs a group serves with.
    pub min_size: u8,
    /// The id of the rule that places its groups.
    pub rule: u8,
    /// How names of objects are hashed: 2 is rjenkins.
    pub object_hash: u8,
    /// The number of groups.
    pub pg_num: u32,
    /// The number of groups for placement.
    pub pgp_num: u32,
    /// The number of groups that it is to have.
    pub pg_num_target: u32,
    /// The number of groups for placement that it is to have.
    pub pgp_num_target: u32,
    /// The number of groups while two of them become one.
    pub pg_num_pending: u32,
    /// Its flags: bit 0 where groups of several pools are kept apart.
    pub flags: u64,
    /// The name of its profile; empty where it keeps copies.
    pub erasure_code_profile: Text,
}

impl FromBytes for Pool {
    const LEAST: u32 = 14;

    ghost LEAST = { 14 };

    ghost form = { pool };

    #[tactic(auto, unfolding(crate::specs::Pools::pool))]
    fn read(alloc: Global, bytes: &[u8]) -> Result<(Pool, &[u8]), ReadError> {
        let (id, rest) = i64::read(alloc, bytes)?;
        let (section, rest) = section_at(rest, 5)?;
        let (fields, _) = fields_at(alloc, section.version, section.own)?;
        let pool = Pool {
            id,
            kind: fields.sizes.kind,
            size: fields.sizes.size,
            min_size: fields.min_size,
            rule: fields.sizes.rule,
            object_hash: fields.sizes.object_hash,
            pg_num: fields.sizes.pg_num,
            pgp_num: fields.sizes.pgp_num,
            pg_num_target: fields.target.pg_num,
            pgp_num_target: fields.target.pgp_num,
            pg_num_pending: fields.target.pending,
            flags: fields.flags,
            erasure_code_profile: fields.erasure_code_profile,
        };
        Ok((pool, rest))
    }
}

/// The name of a pool.
#[derive(Debug, Drop)]
pub struct PoolName {
    /// The id of the pool.
    pub pool: i64,
    /// The name.
    pub name: Text,
}

impl FromBytes for PoolName {
    const LEAST: u32 = 12;

    ghost LEAST = { 12 };

    ghost form = { pool_name };

    #[tactic(auto, unfolding(crate::specs::Pools::pool_name))]
    fn read(alloc: Global, bytes: &[u8]) -> Result<(PoolName, &[u8]), ReadError> {
        let (pool, rest) = i64::read(alloc, bytes)?;
        let (name, rest) = Text::read(alloc, rest)?;
        Ok((PoolName { pool, name }, rest))
    }
}
