//! How many groups the pools of a map have together.

ghost use Rattle.std.specs.Prelude.{◌≡◌, ◌≤◌, true, nat_abs};
ghost use Rattle.std.specs.List.{list_all};
ghost use Rattle.mapparts.specs.Limits.{max_groups};
ghost use Rattle.mapparts.specs.Parts.{pool_fits, has_few_groups};

use crate::limits::MAX_TOTAL_GROUPS;
use crate::numbers::word;
use crate::parts::PoolPart;

/// The number of groups of a pool within its limits.
fn group_count(pool: &PoolPart) -> u128
    requires { pool_fits pool.now ≡ true }
    ensures value { result ≡ nat_abs pool.now.pg_num }
    ensures few { result ≤ max_groups }
{
    u128::from(word(pool.pg_num))
}

/// Whether some pools, each within its limits, have together no more groups than a map may have.
#[tactic(auto, unfolding(crate::specs::Parts::has_few_groups))]
pub fn have_few_groups(pools: &[PoolPart]) -> bool
    requires { list_all pool_fits pools.now ≡ true }
    ensures { result ≡ has_few_groups pools.now }
{
    let mut groups: u128 = 0;
    for pool in pools {
        groups += group_count(pool);
    }
    groups <= MAX_TOTAL_GROUPS
}
