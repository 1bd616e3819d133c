//! Look-ups among buckets by id.

ghost use Rattle.std.specs.Prelude.{◌≡◌, position};
ghost use Rattle.std.specs.Option.{option_copied};
ghost use Rattle.std.specs.Ordering.{int_eq};
ghost use Rattle.crush.specs.Forest.{bucket_at, level_of};
ghost use Rattle.crush.specs.WellFormed.{is_known, IsDescending};

use buckets::Bucket;

/// Whether a bucket has an id.
fn has_id(bucket: &Bucket, id: i32) -> bool
    ensures { result ≡ int_eq bucket.now.id id }
{
    bucket.id == id
}

/// Where the bucket of an id stands among buckets of falling ids: mostly where it does when they are -1, -2 and so on.
pub(crate) fn place_of(buckets: &[Bucket], id: i32) -> Option<usize>
    requires { IsDescending buckets.now }
    ensures { result ≡ position (λ b. int_eq b.id id) buckets.now }
{
    let guess = (!id).cast_unsigned() as usize;
    match buckets.get(guess) {
        Some(bucket) if has_id(bucket, id) => Some(guess),
        _ => buckets.binary_search_by(|bucket| id.cmp(&bucket.id)).ok(),
    }
}

/// The bucket of an id among buckets of falling ids.
pub(crate) fn bucket_of(buckets: &[Bucket], id: i32) -> Option<&Bucket>
    requires { IsDescending buckets.now }
    ensures { option_copied result ≡ bucket_at buckets.now id }
{
    let place = place_of(buckets, id)?;
    Some(&buckets[place])
}

/// The type of an item: that of its bucket, and 0 for a device.
pub(crate) fn level_of(buckets: &[Bucket], item: i32) -> u8
    requires { IsDescending buckets.now }
    ensures { result ≡ level_of buckets.now item }
{
    match bucket_of(buckets, item) {
        Some(bucket) => bucket.level,
        None => 0,
    }
}

/// Whether an item is a device below `max_osd`, or one of the buckets.
pub(crate) fn is_known(buckets: &[Bucket], max_osd: u32, item: i32) -> bool
    requires { IsDescending buckets.now }
    ensures { result ≡ is_known buckets.now max_osd item }
{
    match u32::try_from(item) {
        Ok(device) => device < max_osd,
        Err(_) => bucket_of(buckets, item).is_some(),
    }
}
