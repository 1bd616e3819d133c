//! How many entries two lists with keys have as one.

ghost use Rattle.std.specs.Prelude.{◌≡◌, ◌+◌, ◌^◌, ◌<◌, not, take, length, slice_index_or};
ghost use Rattle.std.specs.List.{fold};
ghost use Rattle.std.specs.List.Sorted.{IsNonDecreasingBy};
ghost use Rattle.keylist.specs.Keys.{has_key};
ghost use Rattle.keylist.specs.Order.{IsRising};
ghost use Rattle.keylist.specs.Puts.{put};

use crate::find::has;
use crate::key::Keyed;

/// Whether the entry at a place has another key than those before it, in ascending order.
fn is_first<K: Keyed>(entries: &[K], at: usize) -> bool
    requires ascending { IsNonDecreasingBy K.key_of entries.now }
    requires inside { at < length entries.now }
    ensures { (d : K)
        → result ≡ not (has_key K.key_of (take at entries.now) (K.key_of (slice_index_or entries.now at d))) }
{
    at == 0 || entries[at - 1].key() < entries[at].key()
}

/// How many entries a list with rising keys has once others, in ascending order, are put into it, each in place of one
/// with its key.
pub fn put_count<K: Keyed>(old: &[K], new: &[K]) -> usize
    requires rising { IsRising K.key_of old.now }
    requires ascending { IsNonDecreasingBy K.key_of new.now }
    requires few { length old.now + length new.now < 2 ^ 64 }
    ensures { result ≡ length (fold (put K.key_of) old.now new.now) }
{
    let mut count = old.len();
    for (at, entry) in new.iter().enumerate() {
        if is_first(new, at) && !has(old, entry.key()) {
            count += 1;
        }
    }
    count
}
