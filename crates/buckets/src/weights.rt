//! Whether the weights of a bucket are lawful.

ghost use Rattle.std.specs.Prelude.{◌≡◌, ◌<◌, ◌≤◌, ◌==◌, length};
ghost use Rattle.std.specs.List.{list_all};
ghost use Rattle.buckets.specs.Buckets.{is_even, weights_ok};
ghost use Rattle.buckets.specs.Items.{weight_of};
ghost use Rattle.buckets.specs.Kinds.{most_items};
ghost use Rattle.buckets.specs.Limits.{max_straws};

use crate::bucket::{BucketKind, Item};

/// The weight of some items.
fn total_weight(items: &[Item]) -> u64
    requires { length items.now ≤ max_straws }
    ensures { result ≡ weight_of items.now }
{
    items.iter().map(|item| u64::from(item.weight)).sum()
}

/// Whether each item has this weight.
fn are_all_of(weight: u32, items: &[Item]) -> bool
    ensures { result ≡ list_all (λ i. i.weight == weight) items.now }
{
    items.iter().all(|item| item.weight == weight)
}

/// Whether no two items weigh differently.
fn is_even(items: &[Item]) -> bool
    requires { 0 < length items.now }
    ensures { result ≡ is_even items.now }
{
    are_all_of(items[0].weight, items)
}

/// Whether the weights of the items of a bucket of this kind add up to no more than 4,294,967,295, and in a uniform
/// bucket are all the same.
pub fn are_weights_lawful(kind: BucketKind, items: &[Item]) -> bool
    requires some { 0 < length items.now }
    requires few { length items.now ≤ most_items kind }
    ensures { result ≡ weights_ok kind items.now }
{
    let _ = kind.most_items();
    let fits = total_weight(items) <= u64::from(u32::MAX);
    match kind {
        BucketKind::Uniform => fits && is_even(items),
        BucketKind::List | BucketKind::Tree | BucketKind::Straw2 => fits,
    }
}
