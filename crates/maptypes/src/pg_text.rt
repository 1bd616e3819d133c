//! The text of a group: the pool's id in decimal, a point, and the number in lower hexadecimal, both without leading
//! zeros (Ceph, `pg_t::print`).

ghost use Rattle.maptypes.specs.GroupText.{TextNamesGroup};

use crate::pg::Pg;
use mapparts::PgParts;
use std::fmt;

impl Pg {
    ghost use Rattle.std.specs.Prelude.{◌≡◌};
    ghost use Rattle.maptypes.specs.GroupText.{group_in};

    /// The group that a text names; `None` where it is no text of a group, or a part of it has more than 32 bits.
    pub fn parse(text: &[u8]) -> Option<Pg>
        ensures { result ≡ group_in text.now }
    {
        let parts = PgParts::read(text)?;
        Some(Pg {
            pool: parts.pool?,
            number: parts.number?,
        })
    }
}

/// A law: the text of a group names that group.
pub fn group_text_is_read_back(_pool: u32, _number: u32)
    ensures { TextNamesGroup _pool _number }
{}

impl fmt::Display for Pg {
    ghost use Rattle.std.specs.Prelude.{Some};
    ghost use Rattle.maptypes.specs.GroupText.{group_text};

    ghost output = { λ pg. Some (group_text pg) };

    fn fmt<W: fmt::Write>(&self, f: &mut fmt::Formatter<W>) -> fmt::Result {
        write!(f, "{}.{:x}", self.pool, self.number)
    }
}
