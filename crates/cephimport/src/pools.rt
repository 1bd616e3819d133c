//! Pools as a map states them.

ghost use Rattle.std.specs.Prelude.{◌≡◌, map, IfOk};
ghost use Rattle.std.specs.List.{list_all};
ghost use Rattle.cephimport.specs.Pools.{pool_use, imported_pool, hashes_well};

use cephmap::{Pool, PoolKind};
use crush::RuleKind;
use mapparts::PoolPart;
use std::alloc::{AllocError, Global};

/// What a pool is for.
fn pool_use(kind: PoolKind) -> RuleKind
    ensures { result ≡ pool_use kind }
{
    match kind {
        PoolKind::Replicated => RuleKind::Replicated,
        PoolKind::Erasure => RuleKind::Erasure,
    }
}

/// A pool as a map states it.
#[tactic(auto, unfolding(crate::specs::Pools::imported_pool))]
fn imported_pool(pool: &Pool) -> PoolPart
    ensures { result ≡ imported_pool pool.now }
{
    PoolPart {
        id: i128::from(pool.id),
        kind: pool_use(pool.kind),
        pg_num: i128::from(pool.pg_num),
        pgp_num: i128::from(pool.pgp_num),
        rule: i128::from(pool.rule),
        size: i128::from(pool.size),
    }
}

/// Pools as a map states them.
pub(crate) fn pool_parts(alloc: Global, pools: &[Pool]) -> Result<Vec<PoolPart>, AllocError>
    ensures { IfOk result (λ parts. parts.items ≡ map imported_pool pools.now) }
{
    pools.iter().map(|pool| imported_pool(pool)).collect(alloc)
}

/// Whether a pool keeps its groups apart from those of others, and hashes names by rjenkins.
#[tactic(auto, unfolding(crate::specs::Pools::hashes_well))]
fn hashes_well(pool: &Pool) -> bool
    ensures { result ≡ hashes_well pool.now }
{
    pool.flags % 2 == 1 && pool.object_hash == 2
}

/// Whether each pool does.
pub(crate) fn all_hash_well(pools: &[Pool]) -> bool
    ensures { result ≡ list_all hashes_well pools.now }
{
    pools.iter().all(|pool| hashes_well(pool))
}
