//! The other sets that a change gives to groups of pools, which all stay in place: only those of pools that get any are
//! kept.

ghost use Rattle.pgtable.specs.PoolPatches.{AreBelow};

use grouptable::GroupPatch;
use refusal::Memory;
use std::alloc::Global;

/// Other sets for groups of the pool that stands at a position.
#[derive(Drop)]
pub(crate) struct PoolPatch {
    pub at: usize,
    pub patch: GroupPatch,
}

/// For each of some pools, by position, other sets for groups of it, if any. A pool that gets none takes no memory.
#[derive(Drop)]
pub(crate) struct GroupPatches {
    pub some: Vec<PoolPatch>,
    pub count: usize,
    ghost below: { AreBelow some.items count },
}

impl GroupPatches {
    ghost use Rattle.std.specs.Prelude.{◌≡◌, ◌++◌, ◌∷◌, [], ◌-◌, ◌<◌, ◌≤◌, length, replicate, None, Some, OnOk};
    ghost use Rattle.mapparts.specs.Limits.{max_pools};
    ghost use Rattle.pgtable.specs.Patches.{patches_of};

    /// For so many pools, none of which gets other sets. It takes no memory.
    pub fn none(alloc: Global, count: usize) -> GroupPatches
        ensures { patches_of result ≡ replicate count None }
    {
        GroupPatches {
            some: Vec::new(alloc),
            count,
        }
    }

    /// More pools, behind the others, that get no other sets: until there are so many.
    pub fn skip_to(&mut self, count: usize)
        requires { length (patches_of self.old) ≤ count }
        ensures { patches_of self.new ≡ patches_of self.old ++ replicate (count - length (patches_of self.old)) None }
    {
        self.count = count;
    }

    /// One pool more, behind the others, that gets other sets; or `Memory` (30).
    fn put(&mut self, patch: GroupPatch) -> Result<(), Memory>
        requires { length (patches_of self.old) < max_pools }
        ensures { OnOk result (patches_of self.new ≡ patches_of self.old ++ Some patch ∷ []) }
    {
        let at = self.count;
        self.some.push(PoolPatch { at, patch })?;
        self.count += 1;
        Ok(())
    }

    /// One pool more, behind the others; or `Memory` (30).
    pub fn push(&mut self, patch: Option<GroupPatch>) -> Result<(), Memory>
        requires { length (patches_of self.old) < max_pools }
        ensures { OnOk result (patches_of self.new ≡ patches_of self.old ++ patch ∷ []) }
    {
        match patch {
            Some(patch) => self.put(patch),
            None => {
                self.skip_to(self.count + 1);
                Ok(())
            }
        }
    }
}
