//! Numbers between bounds, and the narrower numbers that they then are.

ghost use Rattle.std.specs.Prelude.{◌≡◌, length, ◌≤◌, IsTrue, ℤ, pos, negsuc, nat_abs, true, ◌≤ℤ◌};
ghost use Rattle.buckets.specs.Buckets.{is_bucket_id};
ghost use Rattle.mapparts.specs.Parts.{is_between, has_between};

use crate::limits::LOWEST_BUCKET;

/// Whether a number is among `low` to `high`.
#[tactic(auto, unfolding(crate::specs::Parts::is_between))]
pub fn is_between(low: i128, high: i128, number: i128) -> bool
    ensures value { result ≡ is_between low high number }
    ensures bounds { result ≡ true → (low ≤ℤ number) × (number ≤ℤ high) }
{
    low <= number && number <= high
}

/// Whether a number can be a bucket's id.
#[tactic(auto, unfolding(crate::specs::Parts::is_between))]
pub fn is_bucket_id(number: i128) -> bool
    ensures value { result ≡ is_bucket_id number }
    ensures item { result ≡ true → IsTrue (is_between (negsuc 65535) (pos 4095) number) }
{
    LOWEST_BUCKET <= number && number < 0
}

/// Whether a list has `low` to `high` entries.
#[tactic(auto, unfolding(crate::specs::Parts::has_between))]
pub fn has_between<T>(low: usize, high: usize, list: &[T]) -> bool
    ensures value { result ≡ has_between low high list.now }
    ensures bounds { result ≡ true → (low ≤ length list.now) × (length list.now ≤ high) }
{
    low <= list.len() && list.len() <= high
}

/// A number within a word, as a word.
#[tactic(auto, unfolding(crate::specs::Parts::is_between))]
pub fn word(number: i128) -> u32
    requires { IsTrue (is_between (pos 0) (pos 4294967295) number) }
    ensures { result ≡ nat_abs number }
{
    number as u32
}

/// A number within a byte, as a byte.
#[tactic(auto, unfolding(crate::specs::Parts::is_between))]
pub fn byte(number: i128) -> u8
    requires { IsTrue (is_between (pos 0) (pos 255) number) }
    ensures { result ≡ nat_abs number }
{
    number as u8
}

/// The id of a bucket or a device, as 32 bits.
#[tactic(auto, unfolding(crate::specs::Parts::is_between))]
pub fn item_id(number: i128) -> i32
    requires { IsTrue (is_between (negsuc 65535) (pos 4095) number) }
    ensures { result ≡ number }
{
    number as i32
}
