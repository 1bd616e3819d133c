//! Look-ups by halving among entries in ascending order of their keys.

ghost use Rattle.std.specs.Prelude.{◌≡◌, ◌++◌, map, reverse};
ghost use Rattle.std.specs.List.{list_any};
ghost use Rattle.std.specs.List.Sorted.{IsNonDecreasingBy};
ghost use Rattle.std.specs.Option.{option_copied};
ghost use Rattle.keylist.specs.Keys.{is_distinct, has_key, entry_at};
ghost use Rattle.keylist.specs.Order.{IsRising};

use crate::key::Keyed;
use crate::order::are_distinct;

/// Whether an entry has a key, in ascending order; by halving, without memory.
pub fn has<K: Keyed>(entries: &[K], key: u64) -> bool
    requires { IsNonDecreasingBy K.key_of entries.now }
    ensures { result ≡ has_key K.key_of entries.now key }
{
    entries
        .binary_search_by_key(&key, |entry| entry.key())
        .is_ok()
}

/// The entry with a key, each key above those before it; by halving, without memory.
pub fn entry_of<K: Keyed>(entries: &[K], key: u64) -> Option<&K>
    requires { IsRising K.key_of entries.now }
    ensures { option_copied result ≡ entry_at K.key_of entries.now key }
{
    match entries.binary_search_by_key(&key, |entry| entry.key()) {
        Ok(at) => Some(&entries[at]),
        Err(_) => None,
    }
}

/// The last entry with a key, in ascending order; by halving, without memory.
pub fn last_of<K: Keyed>(entries: &[K], key: u64) -> Option<&K>
    requires { IsNonDecreasingBy K.key_of entries.now }
    ensures { option_copied result ≡ entry_at K.key_of (reverse entries.now) key }
{
    let end = entries.partition_point(|entry| entry.key() <= key);
    match entries[..end].last() {
        Some(entry) if entry.key() == key => Some(entry),
        _ => None,
    }
}

/// Whether some entry's key is that of one of the others, which are in ascending order.
pub(crate) fn share_key<K: Keyed, L: Keyed>(some: &[K], others: &[L]) -> bool
    requires { IsNonDecreasingBy L.key_of others.now }
    ensures { result ≡ list_any (λ e. has_key L.key_of others.now (K.key_of e)) some.now }
{
    some.iter().any(
        |entry| -> bool
            requires { IsNonDecreasingBy L.key_of others.now }
        { has(others, entry.key()) },
    )
}

/// Whether no key stands twice in two lists together, each in ascending order.
pub fn are_apart<K: Keyed, L: Keyed>(some: &[K], others: &[L]) -> bool
    requires some { IsNonDecreasingBy K.key_of some.now }
    requires others { IsNonDecreasingBy L.key_of others.now }
    ensures { result ≡ is_distinct (map K.key_of some.now ++ map L.key_of others.now) }
{
    are_distinct(some) && are_distinct(others) && !share_key(some, others)
}
