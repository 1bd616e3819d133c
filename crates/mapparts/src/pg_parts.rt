//! The parts of a group in its text: the pool's id in decimal, a point, and the number in lower hexadecimal, both
//! without leading zeros (Ceph, `pg_t::print`).

ghost use Rattle.std.specs.Prelude.{◌≡◌, ◌<◌, ◌≤◌, IfSome, length, position, option_and_then};
ghost use Rattle.mapparts.specs.PgText.{part_in, within, is_point};

use crate::numeral::number;

/// The base of a pool's id in a text.
const POOL_BASE: u32 = 10;
/// The base of a group's number in a text.
const NUMBER_BASE: u32 = 16;

/// The parts of a group as a text states them. Each is `None` where it has more than 32 bits.
#[derive(Clone, Copy, Debug, PartialEq, Eq)]
pub struct PgParts {
    /// The id of the pool.
    pub pool: Option<u32>,
    /// The number within the pool.
    pub number: Option<u32>,
}

/// A number of at most 32 bits.
fn narrow(number: Option<u64>) -> Option<u32>
    ensures { result ≡ option_and_then within number }
{
    u32::try_from(number?).ok()
}

/// The number that a text is, without leading zeros: `Some(None)` where it has more than 32 bits.
#[tactic(auto, using(crate::proofs::PgTexts::part_of_number))]
fn part(base: u32, text: &[u8]) -> Option<Option<u32>>
    requires some { 0 < base }
    requires most { base ≤ 16 }
    ensures { result ≡ part_in base text.now }
{
    Some(narrow(number(base, text)?))
}

/// The place of the first point.
fn point(text: &[u8]) -> Option<usize>
    ensures place { result ≡ position is_point text.now }
    ensures within { IfSome result (λ at. at < length text.now) }
{
    text.iter().position(|byte| *byte == b'.')
}

impl PgParts {
    ghost use Rattle.mapparts.specs.PgText.{parts_in};

    /// The parts that a text states; `None` where it is no text of a group.
    #[tactic(auto, unfolding(crate::specs::PgText::parts_in))]
    pub fn read(text: &[u8]) -> Option<PgParts>
        ensures { result ≡ parts_in text.now }
    {
        let point = point(text)?;
        let pool = part(POOL_BASE, &text[..point])?;
        let number = part(NUMBER_BASE, &text[point + 1..])?;
        Some(PgParts { pool, number })
    }
}
