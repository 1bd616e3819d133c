//! Placement groups.

ghost use Rattle.std.specs.Prelude.{◌≡◌};

use keylist::Keyed;
use mapparts::PgParts;

/// How many numbers a group of one pool could have: those of 32 bits.
const GROUPS_PER_POOL: u64 = 0x1_0000_0000;

/// A placement group (Ceph, `pg_t`). Groups are ordered by pool, then number.
#[derive(Clone, Copy, Debug, PartialEq, Eq, PartialOrd, Ord)]
pub struct Pg {
    /// The id of the pool: in a map 1 to 65,535.
    pub pool: u32,
    /// The number within the pool: in a map below the pool's number of groups.
    pub number: u32,
}

impl Pg {
    ghost use Rattle.maptypes.specs.Values.{pg_of};

    /// The group of these parts; a part of more than 32 bits counts as 0.
    pub fn of_parts(parts: &PgParts) -> Pg
        ensures { result ≡ pg_of parts.now }
    {
        Pg {
            pool: parts.pool.unwrap_or(0),
            number: parts.number.unwrap_or(0),
        }
    }
}

impl Keyed for Pg {
    ghost use Rattle.maptypes.specs.Exceptions.{pg_key};

    ghost key_of = { pg_key };

    /// The key by which groups are ordered: by pool, then by number.
    fn key(&self) -> u64 {
        u64::from(self.pool) * GROUPS_PER_POOL + u64::from(self.number)
    }
}
