//! Changes made where the lists of a map stand, in the room that these have.

ghost use Rattle.std.specs.Prelude.{◌≡◌, ◌+◌, ◌≤◌, true, not, map, length, vec_len, vec_capacity};
ghost use Rattle.std.specs.List.{fold, filter};
ghost use Rattle.std.specs.List.Sorted.{IsNonDecreasingBy};
ghost use Rattle.keylist.specs.Keys.{has_key};
ghost use Rattle.keylist.specs.Order.{IsRising};
ghost use Rattle.keylist.specs.Puts.{put};
ghost use Rattle.maptypes.specs.Exceptions.{pg_key, key_of, exceptions_after};
ghost use Rattle.maptypes.specs.Growth.{with_growths};
ghost use Rattle.osdmap.specs.Changes.{with_up, with_weight};
ghost use Rattle.osdmap.specs.Marks.{are_below};

use keylist::{Entries, has, last_of, put_all, take_away};
use mapparts::{ExceptionChanges, PoolChanges};
use maptypes::{Entry, Exception, Grow, Pg, Pool, Presence, Reweight};

/// Each OSD of a list goes up or down.
pub(crate) fn set_up(presences: &mut Entries<Presence>, osds: &[u32], up: bool)
    requires { are_below (λ osd. osd) (length presences.old) osds.now ≡ true }
    ensures { presences.new ≡ fold (with_up up) presences.old osds.now }
{
    for osd in osds {
        let place = *osd as usize;
        let exists = presences[place].exists;
        presences.set(place, Presence { exists, up });
    }
}

/// Each OSD of a list gets its reweight.
pub(crate) fn set_weights(weights: &mut Entries<u32>, reweights: &[Reweight])
    requires { are_below (λ w. w.osd) (length weights.old) reweights.now ≡ true }
    ensures { weights.new ≡ fold with_weight weights.old reweights.now }
{
    for reweight in reweights {
        weights.set(reweight.osd as usize, reweight.weight);
    }
}

/// A pool after growths, in ascending order: the last one of it counts.
#[tactic(auto, unfolding(maptypes::specs::Growth::with_growths))]
pub(crate) fn with_growths(growths: &[Grow], pool: Pool) -> Pool
    requires { IsNonDecreasingBy (λ g. g.pool) growths.now }
    ensures { result ≡ with_growths growths.now pool }
{
    match last_of(growths, u64::from(pool.id())) {
        Some(growth) => growth.grow(&pool),
        None => pool,
    }
}

/// Each pool grows as growths in ascending order say.
fn grow_all(pools: &mut Vec<Pool>, growths: &[Grow])
    requires { IsNonDecreasingBy (λ g. g.pool) growths.now }
    ensures { pools.new.items ≡ map (with_growths growths.now) pools.old.items }
{
    for at in 0..pools.len() {
        pools[at] = with_growths(growths, pools[at]);
    }
}

/// Pools grow where there are growths, these in ascending order; else the list is not looked at.
fn grow_some(pools: &mut Vec<Pool>, growths: &[Grow])
    requires { IsNonDecreasingBy (λ g. g.pool) growths.now }
    ensures { pools.new.items ≡ map (with_growths growths.now) pools.old.items }
{
    if !growths.is_empty() {
        grow_all(pools, growths);
    }
}

/// Pools go, come and grow, each list in ascending order.
pub(crate) fn change_pools(pools: &mut Vec<Pool>, changes: &PoolChanges<u32, Pool, Grow>)
    requires rising { IsRising (λ p. p.id) pools.old.items }
    requires gone { IsNonDecreasingBy (λ id. id) changes.now.gone }
    requires come { IsRising (λ p. p.id) changes.now.come }
    requires growths { IsNonDecreasingBy (λ g. g.pool) changes.now.grow }
    requires room { vec_len pools.old + length changes.now.come ≤ vec_capacity pools.old }
    ensures { pools.new.items ≡ map (with_growths changes.now.grow) (fold (put (λ p. p.id))
        (filter (λ p. not (has_key (λ id. id) changes.now.gone p.id)) pools.old.items) changes.now.come) }
{
    take_away(pools, &changes.gone);
    put_all(pools, &changes.come);
    grow_some(pools, &changes.grow);
}

/// The exceptions of the groups of some pools go.
fn leave_pools<E: Entry>(exceptions: &mut Vec<Exception<E>>, gone_pools: &[u32])
    requires { IsNonDecreasingBy (λ id. id) gone_pools.now }
    ensures items { exceptions.new.items ≡
        filter (λ e. not (has_key (λ id. id) gone_pools.now e.pg.pool)) exceptions.old.items }
    ensures fewer { vec_len exceptions.new ≤ vec_len exceptions.old }
    ensures room { vec_capacity exceptions.new ≡ vec_capacity exceptions.old }
{
    if gone_pools.is_empty() {
        return;
    }
    exceptions.retain(
        |exception: &Exception<E>| -> bool
            requires { IsNonDecreasingBy (λ id. id) gone_pools.now }
            ensures { result ≡ not (has_key (λ id. id) gone_pools.entry.now exception.now.pg.pool) }
        { !has(gone_pools, u64::from(exception.pg.pool)) },
    );
}

/// The exceptions of some groups go.
fn leave_groups<E: Entry>(exceptions: &mut Vec<Exception<E>>, gone: &[Pg])
    requires rising { IsRising key_of exceptions.old.items }
    requires gone { IsNonDecreasingBy pg_key gone.now }
    ensures items { exceptions.new.items ≡
        filter (λ e. not (has_key pg_key gone.now (key_of e))) exceptions.old.items }
    ensures fewer { vec_len exceptions.new ≤ vec_len exceptions.old }
    ensures room { vec_capacity exceptions.new ≡ vec_capacity exceptions.old }
{
    if !gone.is_empty() {
        take_away(exceptions, gone);
    }
}

/// Exceptions go with their pools, or by their groups, and come, each list in ascending order. Where none is named and
/// no pool goes, the list is not looked at.
pub(crate) fn change_exceptions<E: Entry>(
    exceptions: &mut Vec<Exception<E>>,
    gone_pools: &[u32],
    changes: &ExceptionChanges<Pg, Exception<E>>,
)
    requires rising { IsRising key_of exceptions.old.items }
    requires pools { IsNonDecreasingBy (λ id. id) gone_pools.now }
    requires gone { IsNonDecreasingBy pg_key changes.now.gone }
    requires come { IsRising key_of changes.now.come }
    requires room { vec_len exceptions.old + length changes.now.come ≤ vec_capacity exceptions.old }
    ensures { exceptions.new.items ≡
        exceptions_after gone_pools.now changes.now.gone changes.now.come exceptions.old.items }
{
    leave_pools(exceptions, gone_pools);
    leave_groups(exceptions, &changes.gone);
    put_all(exceptions, &changes.come);
}
