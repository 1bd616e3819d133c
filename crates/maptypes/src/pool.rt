//! Pools: how many groups they have, and the rule and size by which these are placed.

use crush::RuleKind;
use keylist::Keyed;
use mapparts::numbers::word;
use mapparts::{Limited, PoolPart, Profile};
use refusal::Refusal;
use std::marker::Model;

/// A pool: 1 to 65,535 is its id, 1 to 65,536 its number of groups `pg_num`, 1 to `pg_num` the number `pgp_num` of
/// groups for placement, 0 to 255 the id of its rule, 1 to 20 the size of a group (Ceph, `pg_pool_t`).
#[derive(Clone, Copy, Debug, PartialEq, Eq)]
pub struct Pool {
    id: u32,
    kind: RuleKind,
    pg_num: u32,
    pgp_num: u32,
    rule: u32,
    size: u32,
}

impl Model for Pool {
    ghost use Rattle.maptypes.specs.Pools.{PoolFacts, IsWithinLimits};

    ghost Value = { PoolFacts };

    ghost view = { λ p. record {
      id = p.id;
      kind = p.kind;
      pg_num = p.pg_num;
      pgp_num = p.pgp_num;
      rule = p.rule;
      size = p.size;
    } };

    ghost invariant = { λ p. IsWithinLimits (record {
      id = p.id;
      kind = p.kind;
      pg_num = p.pg_num;
      pgp_num = p.pgp_num;
      rule = p.rule;
      size = p.size;
    }) };

    ghost inverse = { λ p. record {
      id = p.id;
      kind = p.kind;
      pg_num = p.pg_num;
      pgp_num = p.pgp_num;
      rule = p.rule;
      size = p.size;
    } };
}

impl Pool {
    ghost use Rattle.std.specs.Prelude.{◌≡◌, ◌<◌, ◌≤◌, true};
    ghost use Rattle.refusal.specs.Outcomes.{Judges, refused_unless};
    ghost use Rattle.refusal.specs.declared.refused.Refusal.TheVariants.{BadPool};
    ghost use Rattle.mapparts.specs.Limits.{max_groups, plain, stock};
    ghost use Rattle.maptypes.specs.Pools.{IsWithinLimits};
    ghost use Rattle.mapparts.specs.Parts.{pool_fits, has_enough_groups, pool_fault};
    ghost use Rattle.maptypes.specs.Values.{pool_of};

    /// The pool of a plain cluster that its parts state.
    ///
    /// # Errors
    ///
    /// `BadLimit` (12) where a number is outside the limits, those of plain clusters among them; else `BadPool` (15)
    /// where `pgp_num` is above `pg_num`.
    pub fn new(part: PoolPart) -> Result<Pool, Refusal>
        ensures { Judges result (pool_fault plain part) (λ pool. pool ≡ pool_of part) }
    {
        if !part.fits(&Profile::Plain.limits()) {
            return Err(Refusal::BadLimit);
        }
        Pool::of_fitting(part)
    }

    /// The pool of a stock cluster that its parts state.
    ///
    /// # Errors
    ///
    /// `BadLimit` (12) where a number is outside its limits; else `BadPool` (15) where `pgp_num` is above `pg_num`.
    pub fn stock(part: PoolPart) -> Result<Pool, Refusal>
        ensures { Judges result (pool_fault stock part) (λ pool. pool ≡ pool_of part) }
    {
        if !part.fits(&Profile::Stock.limits()) {
            return Err(Refusal::BadLimit);
        }
        Pool::of_fitting(part)
    }

    /// The pool that its parts state, whose numbers are known to be within their limits.
    ///
    /// # Errors
    ///
    /// `BadPool` (15) where `pgp_num` is above `pg_num`.
    #[tactic(auto, unfolding(mapparts::specs::Parts::has_enough_groups))]
    pub fn of_fitting(part: PoolPart) -> Result<Pool, Refusal>
        requires { pool_fits part ≡ true }
        ensures { Judges result (refused_unless (has_enough_groups part) BadPool) (λ pool. pool ≡ pool_of part) }
    {
        if part.pgp_num > part.pg_num {
            return Err(Refusal::BadPool);
        }
        Ok(Pool {
            id: word(part.id),
            kind: part.kind,
            pg_num: word(part.pg_num),
            pgp_num: word(part.pgp_num),
            rule: word(part.rule),
            size: word(part.size),
        })
    }

    /// Its numbers are within their limits: for a proof alone.
    pub fn is_within_limits(&self)
        ensures { IsWithinLimits self.now }
    {
        let _ = &self.id;
    }

    /// The pool with other numbers of groups: `pg_num` is at most 65,536, and `pgp_num` 1 to `pg_num`.
    pub(crate) fn with_groups(&self, pg_num: u32, pgp_num: u32) -> Pool
        requires some { 0 < pgp_num }
        requires few { pgp_num ≤ pg_num }
        requires most { pg_num ≤ max_groups }
        ensures { result ≡ record self.now { pg_num = pg_num; pgp_num = pgp_num } }
    {
        Pool {
            id: self.id,
            kind: self.kind,
            pg_num,
            pgp_num,
            rule: self.rule,
            size: self.size,
        }
    }

    /// The id.
    pub fn id(&self) -> u32
        ensures { result ≡ self.now.id }
    {
        self.id
    }

    /// What the pool's rule is for.
    pub fn kind(&self) -> RuleKind
        ensures { result ≡ self.now.kind }
    {
        self.kind
    }

    /// The number of groups: at most 65,536.
    pub fn pg_num(&self) -> u32
        ensures value { result ≡ self.now.pg_num }
        ensures few { result ≤ max_groups }
    {
        self.pg_num
    }

    /// The number of groups for placement.
    pub fn pgp_num(&self) -> u32
        ensures value { result ≡ self.now.pgp_num }
        ensures some { 0 < result }
    {
        self.pgp_num
    }

    /// The id of the pool's rule.
    pub fn rule(&self) -> u32
        ensures { result ≡ self.now.rule }
    {
        self.rule
    }

    /// How many OSDs a group has: 1 to 20.
    pub fn size(&self) -> u8
        ensures value { result ≡ self.now.size }
        ensures some { 1 ≤ result }
        ensures few { result ≤ 20 }
    {
        self.size as u8
    }
}

impl Keyed for Pool {
    ghost key_of = { λ pool. pool.id };

    fn key(&self) -> u64 {
        u64::from(self.id())
    }
}
