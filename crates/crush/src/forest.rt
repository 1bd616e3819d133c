//! Forests of buckets.

ghost use Rattle.std.specs.Prelude.{◌≡◌, IfOk};
ghost use Rattle.crush.specs.Parents.{AreParents};

use crate::met::{SLOTS, slot_of};
use crate::parents::parents_of;
use crate::search::{bucket_of, is_known};
use crate::well_formed::{is_plain_forest, is_well_formed, is_within_limits};
use buckets::Bucket;
use buckets::limits::MAX_DEVICES;
use refusal::{Memory, Refusal};
use std::alloc::Global;
use std::cmp::Reverse;
use std::marker::Model;

/// A forest of buckets, well formed.
#[derive(Debug, Drop)]
pub struct Forest {
    buckets: Vec<Bucket>,
    parents: [u16; SLOTS],
    ghost linked: { ∥ AreParents buckets.items parents ∥₁ },
}

impl Model for Forest {
    ghost use Rattle.std.specs.Prelude.{List};
    ghost use Rattle.buckets.specs.declared.bucket.Bucket.{Bucket};
    ghost use Rattle.crush.specs.WellFormed.{IsForest};

    ghost Value = { List Bucket };

    ghost view = { λ f. f.buckets.items };

    ghost invariant = { λ f. IsForest f.buckets.items };
}

impl Forest {
    ghost use Rattle.std.specs.Prelude.{◌≡◌, ℤ, pos, IfSome, IfOk, IsTrue, IsPermutation, true, is_some};
    ghost use Rattle.std.specs.List.{find};
    ghost use Rattle.std.specs.Option.{option_copied};
    ghost use Rattle.refusal.specs.Outcomes.{Judges, refused_unless};
    ghost use Rattle.crush.specs.Forest.{bucket_at};
    ghost use Rattle.buckets.specs.Buckets.{IsPickable};
    ghost use Rattle.crush.specs.Order.{by_id};
    ghost use Rattle.crush.specs.Paths.{has_item, is_above, ancestor_of};
    ghost use Rattle.crush.specs.WellFormed.{forest_limits_ok, forest_ok, forest_fault, plain_forest_fault, IsForest, IsDescending};

    /// The forest of a plain cluster.
    ///
    /// # Errors
    ///
    /// `BadLimit` (12) where there are more than 512 buckets or 1,024 devices, more than 64 items in a bucket, or an
    /// item above 1,023; else those of [`Forest::stock`].
    pub fn new(buckets: Vec<Bucket>, max_osd: u32) -> Result<Self, Refusal>
        ensures value { Judges result (plain_forest_fault buckets.items max_osd) (λ f. f ≡ by_id buckets.items) }
        ensures same { IfOk result (IsPermutation buckets.items) }
        ensures descending { IfOk result IsDescending }
        ensures buckets { IfOk result (λ f. (id : ℤ) → bucket_at f id ≡ bucket_at buckets.items id) }
    {
        if !is_plain_forest(&buckets, max_osd) {
            return Err(Refusal::BadLimit);
        }
        Forest::stock(buckets, max_osd)
    }

    /// The forest of these buckets over the devices from 0 up to below `max_osd`, its buckets by id from -1 downwards.
    ///
    /// # Errors
    ///
    /// `BadLimit` (12) where it has no bucket or more than 4,096, `max_osd` is not in 1 to 4,096, or a bucket has an id
    /// outside -1 to -65,536, a type outside 1 to 15, no item or more than 64 (in a straw2 bucket 4,096), or an item
    /// outside -65,536 to 4,095 or of weight 0; else `BadForest` (13) where two buckets have one id, an item is no
    /// bucket of the forest and no device below `max_osd`, an item's type is not below its bucket's, an item stands in
    /// the forest twice, or the weights of a bucket come to more than 4,294,967,295 or differ in a uniform bucket.
    pub fn stock(buckets: Vec<Bucket>, max_osd: u32) -> Result<Self, Refusal>
        ensures value { Judges result (forest_fault buckets.items max_osd) (λ f. f ≡ by_id buckets.items) }
        ensures same { IfOk result (IsPermutation buckets.items) }
        ensures descending { IfOk result IsDescending }
        ensures buckets { IfOk result (λ f. (id : ℤ) → bucket_at f id ≡ bucket_at buckets.items id) }
    {
        if !is_within_limits(&buckets, max_osd) {
            return Err(Refusal::BadLimit);
        }
        Forest::of_fitting(buckets, max_osd)
    }

    /// The forest of these buckets, where they and `max_osd` are known to be within the limits.
    ///
    /// # Errors
    ///
    /// `BadForest` (13), as for [`Forest::stock`].
    pub fn of_fitting(buckets: Vec<Bucket>, max_osd: u32) -> Result<Self, Refusal>
        requires { IsTrue (forest_limits_ok buckets.items max_osd) }
        ensures value { Judges result (refused_unless (forest_ok buckets.items max_osd) Refusal.BadForest)
            (λ f. f ≡ by_id buckets.items) }
        ensures same { IfOk result (IsPermutation buckets.items) }
        ensures descending { IfOk result IsDescending }
        ensures buckets { IfOk result (λ f. (id : ℤ) → bucket_at f id ≡ bucket_at buckets.items id) }
    {
        let mut buckets = buckets;
        buckets.sort_unstable_by_key(|bucket| Reverse(bucket.id));
        if !is_well_formed(&buckets, max_osd) {
            return Err(Refusal::BadForest);
        }
        let parents = parents_of(&buckets);
        Ok(Forest { buckets, parents })
    }

    /// The buckets, by id from -1 downwards.
    pub fn buckets(&self) -> &[Bucket]
        ensures value { result.now ≡ self.now }
        ensures forest { IsForest self.now }
    {
        &self.buckets
    }

    /// The bucket of an id.
    pub fn bucket(&self, id: i32) -> Option<&Bucket>
        ensures value { option_copied result ≡ bucket_at self.now id }
        ensures within { IfSome result (λ b. IsPickable b.now) }
    {
        let buckets = &self.buckets;
        if id >= 0 {
            return None;
        }
        bucket_of(buckets, id)
    }

    /// The bucket of type `level` above an item, a device as a rule. There is no more than one.
    pub fn ancestor(&self, item: i32, level: u8) -> Option<i32>
        ensures { result ≡ ancestor_of self.now item level }
    {
        let mut below = item;
        while let Some(bucket) = self.parent(below) {
            if bucket.level == level {
                return Some(bucket.id);
            }
            below = bucket.id;
        }
        None
    }

    /// The bucket of type `level` above the device of a number.
    pub fn ancestor_of_device(&self, osd: u32, level: u8) -> Option<i32>
        ensures { result ≡ ancestor_of self.now (pos osd) level }
    {
        // No bucket of a well-formed forest has a device of so great a number.
        let _ = &self.buckets;
        match i32::try_from(osd) {
            Ok(device) => self.ancestor(device, level),
            Err(_) => None,
        }
    }

    /// Whether a bucket stands above an item: it has it, or a bucket above it.
    pub fn is_above(&self, bucket: i32, item: i32) -> bool
        ensures value { result ≡ is_above self.now bucket item }
        ensures known { result ≡ true → is_some (bucket_at self.now bucket) ≡ true }
    {
        let mut below = item;
        while let Some(parent) = self.parent(below) {
            if parent.id == bucket {
                return true;
            }
            below = parent.id;
        }
        false
    }

    /// Whether a bucket stands above the device of a number.
    pub fn is_above_device(&self, bucket: i32, osd: u32) -> bool
        ensures { result ≡ is_above self.now bucket (pos osd) }
    {
        // No bucket of a well-formed forest has a device of so great a number.
        let _ = &self.buckets;
        match i32::try_from(osd) {
            Ok(device) => self.is_above(bucket, device),
            Err(_) => false,
        }
    }

    // The bucket that has an item.
    fn parent(&self, item: i32) -> Option<&Bucket>
        ensures value { option_copied result ≡ find (has_item item) self.now }
        ensures forest { IsForest self.now }
    {
        let buckets: &[Bucket] = &self.buckets;
        if !is_known(buckets, MAX_DEVICES, item) {
            return None;
        }
        let place = self.parents[slot_of(buckets, item)];
        buckets.get(usize::from(place))
    }

    /// A copy of the forest.
    ///
    /// # Errors
    ///
    /// `Memory` (30) where there is no memory for it.
    pub fn copy(&self, alloc: Global) -> Result<Self, Memory>
        ensures { IfOk result (λ f. f ≡ self.now) }
    {
        Ok(Forest {
            buckets: copies_of(alloc, &self.buckets)?,
            parents: self.parents,
        })
    }
}

/// Copies of some buckets.
fn copies_of(alloc: Global, buckets: &[Bucket]) -> Result<Vec<Bucket>, Memory>
    ensures { IfOk result (λ v. v.items ≡ buckets.now) }
{
    let mut copies = Vec::with_capacity(alloc, buckets.len())?;
    for bucket in buckets {
        copies.push(bucket.copy(alloc)?)?;
    }
    Ok(copies)
}
