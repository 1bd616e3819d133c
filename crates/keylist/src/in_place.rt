//! Lists with keys changed where they stand, in the room that they have.

ghost use Rattle.std.specs.Prelude.{◌≡◌, ◌+◌, ◌≤◌, ◌<◌, [], ◌∷◌, ℕ, true, false, not, cond, take, length, slice_index_or, slice_set, vec_len, vec_capacity, MatchOption};
ghost use Rattle.std.specs.List.{fold, filter};
ghost use Rattle.std.specs.List.Sorted.{IsNonDecreasingBy};
ghost use Rattle.keylist.specs.Keys.{has_key};
ghost use Rattle.keylist.specs.Order.{IsRising};
ghost use Rattle.keylist.specs.Puts.{put, ComesLast};
ghost use Rattle.keylist.specs.Walks.{rest_from, begins_at};

use crate::find::share_key;
use crate::key::Keyed;
use crate::merge::put_count;
use crate::replace::replace_all;
use std::cmp::Ordering;

/// What is left of entries in ascending order from a key on.
fn from<G: Keyed>(gone: &[G], key: u64) -> &[G]
    ensures { result.now ≡ rest_from G.key_of gone.now key }
{
    let below = gone.iter().take_while(|entry| entry.key() < key).count();
    &gone[below..]
}

/// Whether the first entry has a key.
fn begins_at<G: Keyed>(gone: &[G], key: u64) -> bool
    ensures { result ≡ begins_at G.key_of gone.now key }
{
    match gone {
        [first, ..] => first.key() == key,
        [] => false,
    }
}

/// An entry stays, and then stands at a place, or it goes. The place of the next one that stays.
fn keep<K: Keyed + Copy>(list: &mut Vec<K>, place: usize, entry: K, goes: bool) -> usize
    requires { place < vec_len list.old }
    ensures items { list.new.items ≡ cond goes list.old.items (slice_set list.old.items place entry) }
    ensures room { vec_capacity list.new ≡ vec_capacity list.old }
    ensures place { result ≡ cond goes place (place + 1) }
{
    if goes {
        return place;
    }
    list[place] = entry;
    place + 1
}

/// How many entries, in ascending order of their keys, come before a key; by halving.
fn count_below<K: Keyed>(list: &[K], key: u64) -> usize
    requires { IsNonDecreasingBy K.key_of list.now }
    ensures within { result ≤ length list.now }
    ensures below { (k : ℕ) (d : K) → k < result → K.key_of (slice_index_or list.now k d) < key }
    ensures above { (k : ℕ) (d : K)
        → result ≤ k → k < length list.now → key ≤ K.key_of (slice_index_or list.now k d) }
{
    list.partition_point(|entry| entry.key() < key)
}

/// Whether an entry stands at a place that has a key.
fn has_at<K: Keyed>(list: &[K], at: usize, key: u64) -> bool
    ensures inside { result ≡ true → at < length list.now }
    ensures there { (d : K) → result ≡ true → K.key_of (slice_index_or list.now at d) ≡ key }
    ensures other { (d : K)
        → result ≡ false → at < length list.now → K.key_of (slice_index_or list.now at d) ≡ key → ⊥ }
{
    at < list.len() && list[at].key() == key
}

/// Takes away the entry with a key, if there is one: all that stand behind it move at once.
fn take_one<K: Keyed + Copy>(list: &mut Vec<K>, key: u64)
    requires { IsRising K.key_of list.old.items }
    ensures items { list.new.items ≡ filter (λ e. not (has_key (λ k. k) (key ∷ []) (K.key_of e))) list.old.items }
    ensures fewer { vec_len list.new ≤ vec_len list.old }
    ensures room { vec_capacity list.new ≡ vec_capacity list.old }
{
    let at = count_below(list, key);
    if has_at(list, at, key) {
        list.remove(at);
    }
}

/// Takes away the entries whose keys others have, these in ascending order; one walk over the two, from the first that
/// can go on. Where none has such a key nothing is walked over.
fn take_many<K: Keyed + Copy, G: Keyed>(list: &mut Vec<K>, gone: &[G])
    requires list { IsRising K.key_of list.old.items }
    requires gone { IsNonDecreasingBy G.key_of gone.now }
    ensures items { list.new.items ≡ filter (λ e. not (has_key G.key_of gone.now (K.key_of e))) list.old.items }
    ensures fewer { vec_len list.new ≤ vec_len list.old }
    ensures room { vec_capacity list.new ≡ vec_capacity list.old }
{
    if !share_key(gone, list) {
        return;
    }
    let Some(first) = gone.first() else {
        return;
    };
    let start = count_below(list, first.key());
    let mut rest = gone;
    let mut kept = start;
    for at in start..list.len() {
        let entry = list[at];
        rest = from(rest, entry.key());
        kept = keep(list, kept, entry, begins_at(rest, entry.key()));
    }
    list.truncate(kept);
}

/// Takes away the entries whose keys others have, these in ascending order. It takes no memory.
pub fn take_away<K: Keyed + Copy, G: Keyed>(list: &mut Vec<K>, gone: &[G])
    requires list { IsRising K.key_of list.old.items }
    requires gone { IsNonDecreasingBy G.key_of gone.now }
    ensures items { list.new.items ≡ filter (λ e. not (has_key G.key_of gone.now (K.key_of e))) list.old.items }
    ensures fewer { vec_len list.new ≤ vec_len list.old }
    ensures room { vec_capacity list.new ≡ vec_capacity list.old }
{
    match gone {
        [only] => take_one(list, only.key()),
        _ => take_many(list, gone),
    }
}

/// What comes last of two lists with rising keys made one, an entry of `new` in place of one of `old` with its key; how
/// many of `old` are left then, and what is left of `new`.
fn last_of_both<'a, K: Keyed + Copy>(old: &[K], new: &'a [K]) -> Option<(K, usize, &'a [K])>
    requires old { IsRising K.key_of old.now }
    requires new { IsRising K.key_of new.now }
    ensures { MatchOption result (new.now ≡ []) (λ t. ComesLast K.key_of old.now new.now t.0 t.1 t.2.now) }
{
    let (y, news) = new.split_last()?;
    let Some((x, olds)) = old.split_last() else {
        return Some((*y, 0, news));
    };
    Some(match x.key().cmp(&y.key()) {
        Ordering::Less => (*y, old.len(), news),
        Ordering::Equal => (*y, olds.len(), news),
        Ordering::Greater => (*x, olds.len(), new),
    })
}

/// A list is made as long as it will be, by copies of an entry.
fn lengthen<K: Keyed + Copy>(list: &mut Vec<K>, len: usize, entry: K)
    requires longer { vec_len list.old ≤ len }
    requires room { len ≤ vec_capacity list.old }
    ensures front { take (vec_len list.old) list.new.items ≡ list.old.items }
    ensures len { vec_len list.new ≡ len }
    ensures room { vec_capacity list.new ≡ vec_capacity list.old }
{
    for _ in list.len()..len {
        list.push_reserved(entry);
    }
}

/// Puts an entry in place of the one with its key, or, where there is none, before all with greater keys, which move at
/// once, as there is room.
fn put_one<K: Keyed + Copy>(list: &mut Vec<K>, entry: K)
    requires rising { IsRising K.key_of list.old.items }
    requires room { vec_len list.old < vec_capacity list.old }
    ensures items { list.new.items ≡ put K.key_of list.old.items entry }
    ensures room { vec_capacity list.new ≡ vec_capacity list.old }
{
    let at = count_below(list, entry.key());
    if has_at(list, at, entry.key()) {
        list[at] = entry;
        return;
    }
    match list.insert(at, entry) {
        Ok(()) => (),
        Err(_) => unreachable!(),
    }
}

/// Puts the entries of a list with rising keys into another, each in place of one with its key. It moves only what
/// stands behind a key that comes: where no key comes, each entry is put where the one with its key stands, which is
/// found by halving.
fn put_many<K: Keyed + Copy>(list: &mut Vec<K>, new: &[K])
    requires old { IsRising K.key_of list.old.items }
    requires new { IsRising K.key_of new.now }
    requires room { vec_len list.old + length new.now ≤ vec_capacity list.old }
    ensures items { list.new.items ≡ fold (put K.key_of) list.old.items new.now }
    ensures room { vec_capacity list.new ≡ vec_capacity list.old }
{
    let Some(first) = new.first() else {
        return;
    };
    let mut olds = list.len();
    let mut at = put_count(list, new);
    lengthen(list, at, *first);
    let mut news = new;
    while at > olds {
        let Some(last) = last_of_both(&list[..olds], news) else {
            unreachable!();
        };
        at -= 1;
        list[at] = last.0;
        (olds, news) = (last.1, last.2);
    }
    replace_all(list, olds, news);
}

/// Puts the entries of a list with rising keys into another, each in place of one with its key. It takes no memory, as
/// there is room.
pub fn put_all<K: Keyed + Copy>(list: &mut Vec<K>, new: &[K])
    requires old { IsRising K.key_of list.old.items }
    requires new { IsRising K.key_of new.now }
    requires room { vec_len list.old + length new.now ≤ vec_capacity list.old }
    ensures items { list.new.items ≡ fold (put K.key_of) list.old.items new.now }
    ensures room { vec_capacity list.new ≡ vec_capacity list.old }
{
    match new {
        [only] => put_one(list, *only),
        _ => put_many(list, new),
    }
}
