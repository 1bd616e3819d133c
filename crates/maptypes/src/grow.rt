//! Growing pools.

use crate::pool::Pool;
use keylist::Keyed;
use mapparts::numbers::word;
use mapparts::{GrowPart, Limited, Profile};
use refusal::Refusal;
use std::marker::Model;

/// What a pool grows to: 1 to 65,535 is its id, 1 to 65,536 its number of groups `pg_num`, 1 to `pg_num` the number
/// `pgp_num` of groups for placement.
#[derive(Clone, Copy, Debug, PartialEq, Eq)]
pub struct Grow {
    pool: u32,
    pg_num: u32,
    pgp_num: u32,
}

impl Model for Grow {
    ghost use Rattle.maptypes.specs.Growth.{Growth, IsGrowth};

    ghost Value = { Growth };

    ghost view = { λ g. record { pool = g.pool; pg_num = g.pg_num; pgp_num = g.pgp_num } };

    ghost invariant = { λ g. IsGrowth (record { pool = g.pool; pg_num = g.pg_num; pgp_num = g.pgp_num }) };

    ghost inverse = { λ g. record { pool = g.pool; pg_num = g.pg_num; pgp_num = g.pgp_num } };
}

impl Grow {
    ghost use Rattle.std.specs.Prelude.{◌≡◌, true};
    ghost use Rattle.refusal.specs.Outcomes.{Judges, refused_unless};
    ghost use Rattle.refusal.specs.declared.refused.Refusal.TheVariants.{BadPool};
    ghost use Rattle.maptypes.specs.Growth.{IsGrowth, with_growth};
    ghost use Rattle.mapparts.specs.Parts.{growth_fits, grows_evenly, growth_fault};
    ghost use Rattle.maptypes.specs.Values.{growth_of};
    ghost use Rattle.mapparts.specs.Limits.{plain, stock};

    /// What a pool of a plain cluster grows to.
    ///
    /// # Errors
    ///
    /// `BadLimit` (12) where a number is outside the limits, those of plain clusters among them; else `BadPool` (15)
    /// where `pgp_num` is above `pg_num`.
    pub fn new(pool: i128, pg_num: i128, pgp_num: i128) -> Result<Grow, Refusal>
        ensures { Judges result (growth_fault plain (record { pool = pool; pg_num = pg_num; pgp_num = pgp_num }))
            (λ g. g ≡ growth_of (record { pool = pool; pg_num = pg_num; pgp_num = pgp_num })) }
    {
        let part = GrowPart {
            pool,
            pg_num,
            pgp_num,
        };
        if !part.fits(&Profile::Plain.limits()) {
            return Err(Refusal::BadLimit);
        }
        Grow::of_fitting(part)
    }

    /// What a pool of a stock cluster grows to.
    ///
    /// # Errors
    ///
    /// `BadLimit` (12) where a number is outside its limits; else `BadPool` (15) where `pgp_num` is above `pg_num`.
    pub fn stock(part: GrowPart) -> Result<Grow, Refusal>
        ensures { Judges result (growth_fault stock part) (λ g. g ≡ growth_of part) }
    {
        if !part.fits(&Profile::Stock.limits()) {
            return Err(Refusal::BadLimit);
        }
        Grow::of_fitting(part)
    }

    /// The growth that a part states, whose numbers are known to be within their limits.
    ///
    /// # Errors
    ///
    /// `BadPool` (15) where `pgp_num` is above `pg_num`.
    #[tactic(auto, unfolding(mapparts::specs::Parts::grows_evenly))]
    pub fn of_fitting(part: GrowPart) -> Result<Grow, Refusal>
        requires { growth_fits part ≡ true }
        ensures { Judges result (refused_unless (grows_evenly part) BadPool) (λ g. g ≡ growth_of part) }
    {
        if part.pgp_num > part.pg_num {
            return Err(Refusal::BadPool);
        }
        Ok(Grow {
            pool: word(part.pool),
            pg_num: word(part.pg_num),
            pgp_num: word(part.pgp_num),
        })
    }

    /// The id of the pool.
    pub fn pool(&self) -> u32
        ensures { result ≡ self.now.pool }
    {
        self.pool
    }

    /// The number of groups.
    pub fn pg_num(&self) -> u32
        ensures { result ≡ self.now.pg_num }
    {
        self.pg_num
    }

    /// The number of groups for placement. Each number is within its limits.
    pub fn pgp_num(&self) -> u32
        ensures value { result ≡ self.now.pgp_num }
        ensures within { IsGrowth self.now }
    {
        self.pgp_num
    }

    /// A pool with these numbers of groups.
    pub fn grow(&self, pool: &Pool) -> Pool
        ensures { result ≡ with_growth pool.now self.now }
    {
        pool.with_groups(self.pg_num, self.pgp_num)
    }
}

impl Keyed for Grow {
    ghost key_of = { λ g. g.pool };

    fn key(&self) -> u64 {
        u64::from(self.pool)
    }
}
