//! The weights of the compat weight set (`choose_args`), which is in force for all pools and all places of a set.

ghost use Rattle.std.specs.Prelude.{◌≡◌};
ghost use Rattle.std.specs.List.{find};
ghost use Rattle.std.specs.Option.{option_copied};
ghost use Rattle.cephimport.specs.WeightSets.{is_compat, is_entry_of, compat_entry_in, compat_entry, in_row, one_row_weight, set_weight, is_long, are_long, entry_fits, set_fits};

use cephbytes::Listed;
use cephmap::{BucketWeights, WeightSet};

/// The compat weight set.
fn compat(sets: &[WeightSet]) -> Option<&WeightSet>
    ensures { option_copied result ≡ find is_compat sets.now }
{
    sets.iter().find(|set| set.pool == -1)
}

/// Whether an entry of a weight set is that of a bucket.
fn is_entry_of(entry: &BucketWeights, id: i32) -> bool
    ensures { result ≡ is_entry_of entry.now id }
{
    i64::from(entry.place) == -1 - i64::from(id)
}

/// What some entries have for a bucket.
fn compat_entry_in(entries: &[BucketWeights], id: i32) -> Option<&BucketWeights>
    ensures { option_copied result ≡ compat_entry_in entries.now id }
{
    entries.iter().find(|entry| is_entry_of(*entry, id))
}

/// What the compat weight set has for a bucket.
fn compat_entry(sets: &[WeightSet], id: i32) -> Option<&BucketWeights>
    ensures { option_copied result ≡ compat_entry sets.now id }
{
    match compat(sets) {
        Some(set) => compat_entry_in(&set.buckets, id),
        None => None,
    }
}

/// The weight at a place of a row, where this is as long as a bucket.
fn in_row(row: &[u32], size: usize, place: usize) -> Option<u32>
    ensures { result ≡ in_row row.now size place }
{
    if row.len() == size {
        row.get(place).copied()
    } else {
        None
    }
}

/// The weight at a place of the one row that there is, where this is as long as a bucket.
fn one_row_weight(rows: &[Listed<u32>], size: usize, place: usize) -> Option<u32>
    ensures { result ≡ one_row_weight rows.now size place }
{
    match rows {
        [row] => in_row(row, size, place),
        _ => None,
    }
}

/// The weight that the compat weight set has for the item at a place of a bucket's items.
#[tactic(auto, unfolding(crate::specs::WeightSets::set_weight))]
pub(crate) fn set_weight(sets: &[WeightSet], id: i32, items: &[i32], place: usize) -> Option<u32>
    ensures { result ≡ set_weight sets.now id items.now place }
{
    match compat_entry(sets, id) {
        Some(entry) => one_row_weight(&entry.weights, items.len(), place),
        None => None,
    }
}

/// Whether a row is as long as a bucket.
fn is_long(row: &[u32], size: usize) -> bool
    ensures { result ≡ is_long row.now size }
{
    row.len() == size
}

/// Whether there is at most one row, and it is as long as a bucket.
fn are_long(rows: &[Listed<u32>], size: usize) -> bool
    ensures { result ≡ are_long rows.now size }
{
    match rows {
        [] => true,
        [row] => is_long(row, size),
        _ => false,
    }
}

/// Whether an entry gives the items of a bucket weights alone, one for each.
fn entry_fits(entry: &BucketWeights, size: usize) -> bool
    ensures { result ≡ entry_fits entry.now size }
{
    let ids: &[i32] = &entry.ids;
    ids.is_empty() && are_long(&entry.weights, size)
}

/// Whether the compat weight set has nothing for a bucket, or gives its items weights alone, one for each.
#[tactic(auto, unfolding(crate::specs::WeightSets::set_fits))]
pub(crate) fn set_fits(sets: &[WeightSet], id: i32, items: &[i32]) -> bool
    ensures { result ≡ set_fits sets.now id items.now }
{
    match compat_entry(sets, id) {
        Some(entry) => entry_fits(entry, items.len()),
        None => true,
    }
}
