//! Buckets and their items.

use crate::limits::{MAX_ITEMS, MAX_STRAWS};
use keylist::Entries;
use refusal::Memory;
use std::alloc::Global;

/// An item of a bucket.
#[derive(Clone, Copy, Debug, PartialEq, Eq)]
pub struct Item {
    /// A device where it is not negative, 0 to 4,095, else the bucket of that id, -1 to -65,536.
    pub id: i32,
    /// How much of the bucket it takes, above 0, in units of which 65,536 are 1.000.
    pub weight: u32,
}

/// How a bucket picks among its items.
#[derive(Clone, Copy, Debug, PartialEq, Eq)]
pub enum BucketKind {
    /// By an order of its places that the input draws: its items weigh the same.
    Uniform,
    /// By one draw for each item, from the last on.
    List,
    /// By a walk down a binary tree.
    Tree,
    /// By one straw for each item, of a length drawn by its weight: the longest is picked.
    Straw2,
}

impl BucketKind {
    ghost use Rattle.std.specs.Prelude.{◌≡◌, ◌≤◌};
    ghost use Rattle.buckets.specs.Kinds.{most_items};
    ghost use Rattle.buckets.specs.Limits.{max_straws};

    /// How many items a bucket of this kind has at most.
    pub fn most_items(self) -> usize
        ensures value { result ≡ most_items self }
        ensures few { most_items self ≤ max_straws }
    {
        match self {
            BucketKind::Uniform | BucketKind::List | BucketKind::Tree => MAX_ITEMS,
            BucketKind::Straw2 => MAX_STRAWS,
        }
    }
}

/// A bucket.
#[derive(Debug, Drop)]
pub struct Bucket {
    /// Its id, -1 to -65,536.
    pub id: i32,
    /// Its type, 1 to 15, which lies above those of its items. 0 is the type of a device.
    pub level: u8,
    /// How it picks among its items.
    pub kind: BucketKind,
    /// Its items in order: 1 to 64, in a straw2 bucket 1 to 4,096.
    pub items: Entries<Item>,
}

impl Bucket {
    ghost use Rattle.std.specs.Prelude.{◌≡◌, ◌<◌, ◌≤◌, length, IfOk};
    ghost use Rattle.buckets.specs.Kinds.{stride_by};

    /// How far the replica number goes on each round of a choose step that keeps positions and seeks `numrep` items:
    /// `numrep`, and one more in a uniform bucket whose number of items it divides.
    pub fn stride(&self, numrep: u8) -> u32
        requires { 0 < numrep }
        ensures value { result ≡ stride_by self.now.kind numrep (length self.now.items) }
        ensures small { result ≤ 256 }
    {
        let stride = u32::from(numrep);
        match self.kind {
            BucketKind::Uniform if self.items.len() % usize::from(numrep) == 0 => stride + 1,
            BucketKind::Uniform | BucketKind::List | BucketKind::Tree | BucketKind::Straw2 =>
                stride,
        }
    }

    /// A copy of the bucket.
    ///
    /// # Errors
    ///
    /// `Memory` (30) where there is no memory for it.
    pub fn copy(&self, alloc: Global) -> Result<Self, Memory>
        ensures { IfOk result (λ b. b ≡ self.now) }
    {
        Ok(Bucket {
            id: self.id,
            level: self.level,
            kind: self.kind,
            items: self.items.copy(alloc)?,
        })
    }
}
