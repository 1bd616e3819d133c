//! Entries in ascending order of their keys.

ghost use Rattle.std.specs.Prelude.{◌≡◌, map, IfOk};
ghost use Rattle.std.specs.List.Sorted.{IsNonDecreasingBy};
ghost use Rattle.refusal.specs.Outcomes.{refused_unless, Makes};
ghost use Rattle.keylist.specs.Keys.{is_distinct};
ghost use Rattle.keylist.specs.Order.{SortsBy, Rises};

use crate::entries::Entries;
use crate::key::Keyed;
use refusal::{Memory, Refusal};

/// The entries by key upwards, those of one key in their order.
///
/// # Errors
///
/// `Memory` (30) where there is no memory for it.
pub fn sort_vec<K: Keyed>(mut entries: Vec<K>) -> Result<Vec<K>, Memory>
    ensures { IfOk result (λ r. SortsBy K.key_of entries.items r.items) }
{
    entries.sort_by_key(|entry| entry.key())?;
    Ok(entries)
}

/// Whether no key stands twice, in ascending order.
pub fn are_distinct<K: Keyed>(entries: &[K]) -> bool
    requires { IsNonDecreasingBy K.key_of entries.now }
    ensures { result ≡ is_distinct (map K.key_of entries.now) }
{
    entries.is_sorted_by(|a, b| a.key() < b.key())
}

/// The entries in ascending order of their keys, those of one key in their order.
///
/// # Errors
///
/// `Memory` (30) where there is no memory for it.
pub fn sort_entries<K: Keyed>(entries: Entries<K>) -> Result<Entries<K>, Memory>
    ensures { IfOk result (SortsBy K.key_of entries) }
{
    Ok(Entries::new(sort_vec(entries.into_vec())?))
}

/// The entries by key upwards.
///
/// # Errors
///
/// `refusal` where a key stands twice; or `Memory` (30) where there is no memory for it.
pub fn sort_distinct<K: Keyed>(entries: Vec<K>, refusal: Refusal) -> Result<Vec<K>, Refusal>
    ensures { Makes result (refused_unless (is_distinct (map K.key_of entries.items)) refusal)
        (λ r. Rises K.key_of entries.items r.items) }
{
    let entries = sort_vec(entries)?;
    if !are_distinct(&entries) {
        return Err(refusal);
    }
    Ok(entries)
}
