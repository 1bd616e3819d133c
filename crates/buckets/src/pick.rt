//! The item that a bucket picks (CRUSH paper, section 3.4; Ceph, mapper.c, `crush_bucket_choose`).

ghost use Rattle.std.specs.Prelude.{◌≡◌, ◌^◌, ◌<◌};
ghost use Rattle.buckets.specs.Items.{weight_of};

use crate::bucket::{Bucket, BucketKind, Item};
use list::list_pick;
use straw2::straw2_pick;
use tree::{tree_pick, tree_picks};
use uniform::{uniform_pick, uniform_picks};

mod list;
mod logarithm;
mod straw2;
mod tree;
mod uniform;

/// The weight of some items.
fn total_weight(items: &[Item]) -> u32
    requires { weight_of items.now < 2 ^ 32 }
    ensures { result ≡ weight_of items.now }
{
    items.iter().map(|item| item.weight).sum()
}

impl Bucket {
    ghost use Rattle.std.specs.Prelude.{◌≡◌, ℕ, ◌<◌, length, slice_index, IfSome};
    ghost use Rattle.buckets.specs.Buckets.{IsPickable};
    ghost use Rattle.buckets.specs.Pick.{place_picked, pick_of, AreFirstPicks};

    /// The item that the bucket picks for an input and a replica number. It takes no memory.
    pub fn pick(&self, x: u32, r: u32) -> i32
        requires { IsPickable self.now }
        ensures { result ≡ pick_of self.now x r }
    {
        self.items[self.place(x, r)].id
    }

    /// The place of that item.
    #[tactic(auto, unfolding(crate::specs::Pick::place_by))]
    fn place(&self, x: u32, r: u32) -> usize
        requires { IsPickable self.now }
        ensures place { result ≡ place_picked self.now x r }
        ensures within { result < length self.now.items }
    {
        let id = self.id.cast_unsigned();
        let items: &[Item] = &self.items;
        match self.kind {
            BucketKind::Uniform => uniform_pick(items.len(), x, id, r),
            BucketKind::List => list_pick(items, x, id, r),
            BucketKind::Tree => tree_pick(items, x, id, r),
            BucketKind::Straw2 => straw2_pick(items, x, r),
        }
    }

    /// The items that the bucket picks for the replica numbers 0 to 3, where together they are less work than apart. It
    /// takes no memory.
    pub fn first_picks(&self, x: u32) -> Option<[i32; 4]>
        requires { IsPickable self.now }
        ensures { IfSome result (AreFirstPicks self.now x) }
    {
        let places = self.first_places(x)?;
        let items: &[Item] = &self.items;
        Some([
            items[places[0]].id,
            items[places[1]].id,
            items[places[2]].id,
            items[places[3]].id,
        ])
    }

    /// The places of those items.
    #[tactic(auto, unfolding(crate::specs::Pick::place_by))]
    fn first_places(&self, x: u32) -> Option<[usize; 4]>
        requires { IsPickable self.now }
        ensures place { IfSome result (λ places. (r : ℕ) → r < 4 → slice_index places r ≡ place_picked self.now x r) }
        ensures within { IfSome result (λ places. (r : ℕ) → r < 4 → slice_index places r < length self.now.items) }
    {
        let id = self.id.cast_unsigned();
        let items: &[Item] = &self.items;
        match self.kind {
            BucketKind::Uniform => Some(uniform_picks(items.len(), x, id)),
            BucketKind::List | BucketKind::Straw2 => None,
            BucketKind::Tree => Some(tree_picks(items, x, id)),
        }
    }
}
