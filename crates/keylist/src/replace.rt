//! Entries put in place of those with their keys, each found by halving.

ghost use Rattle.std.specs.Prelude.{◌≡◌, ◌≤◌, ◌++◌, true, length, take, drop};
ghost use Rattle.std.specs.List.{fold};
ghost use Rattle.keylist.specs.Keys.{has_key};
ghost use Rattle.keylist.specs.Order.{IsRising};
ghost use Rattle.keylist.specs.Puts.{put};

use crate::key::Keyed;

/// Puts an entry in place of the one with its key among the first of a list.
fn replace<K: Keyed + Copy>(list: &mut [K], first: usize, entry: K)
    requires inside { first ≤ length list.old }
    requires rising { IsRising K.key_of (take first list.old) }
    requires there { has_key K.key_of (take first list.old) (K.key_of entry) ≡ true }
    ensures front { take first list.new ≡ put K.key_of (take first list.old) entry }
    ensures back { drop first list.new ≡ drop first list.old }
{
    match list[..first].binary_search_by_key(&entry.key(), |other| other.key()) {
        Ok(at) => list[at] = entry,
        Err(_) => unreachable!(),
    }
}

/// Puts entries each in place of the one with its key among the first of a list, where there is one for all.
pub(crate) fn replace_all<K: Keyed + Copy>(list: &mut [K], first: usize, new: &[K])
    requires inside { first ≤ length list.old }
    requires rising { IsRising K.key_of (take first list.old) }
    requires all_there { length (fold (put K.key_of) (take first list.old) new.now) ≡ first }
    ensures { list.new ≡ fold (put K.key_of) (take first list.old) new.now ++ drop first list.old }
{
    for entry in new {
        replace(list, first, *entry);
    }
}
