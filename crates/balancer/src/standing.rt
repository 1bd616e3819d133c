//! Which groups stand on each OSD.

ghost use Rattle.std.specs.Prelude.{◌≡◌, ◌<◌, ◌≤◌, ◌++◌, ◌∷◌, true, [], length, replicate, slice_index_or, IfOk, OnOk, OnErr, List};
ghost use Rattle.mapparts.specs.Limits.{max_groups};
ghost use Rattle.maptypes.specs.Sets.{stands};
ghost use Rattle.balancer.specs.declared.group.Group.{Group};
ghost use Rattle.balancer.specs.Standing.{row_of, put_in, AreLonger, AreRowsOf, IsKnownAt};

use crate::group::Group;
use refusal::Memory;
use std::alloc::Global;
use std::marker::Model;

/// The numbers of groups that stand on one OSD.
#[derive(Drop)]
struct Row {
    numbers: Vec<u32>,
}

impl Model for Row {
    ghost use Rattle.std.specs.Prelude.{List, ℕ};

    ghost Value = { List ℕ };

    ghost view = { λ row. row.numbers.items };
}

impl Row {
    /// A number comes behind the others; or `Memory` (30).
    fn put(&mut self, number: u32) -> Result<(), Memory>
        ensures put { OnOk result (self.new ≡ self.old ++ number ∷ []) }
        ensures same { OnErr result (self.new ≡ self.old) }
    {
        self.numbers.push(number)?;
        Ok(())
    }
}

/// For each OSD, by number, the groups of a pool that stand on it, and some that did.
#[derive(Drop)]
pub(crate) struct Standing {
    rows: Vec<Row>,
}

impl Model for Standing {
    ghost use Rattle.std.specs.Prelude.{List, ℕ};

    ghost Value = { List (List ℕ) };

    ghost view = { λ standing. standing.rows.items };
}

impl Standing {
    /// So many OSDs on which nothing stands; or `Memory` (30).
    fn empty(alloc: Global, count: u32) -> Result<Self, Memory>
        ensures { IfOk result (λ standing. standing ≡ replicate count []) }
    {
        let mut rows = Vec::with_capacity(alloc, count as usize)?;
        for _osd in 0..count {
            rows.push(Row {
                numbers: Vec::new(alloc),
            })?;
        }
        Ok(Standing { rows })
    }

    /// A group stands on an OSD; or `Memory` (30).
    fn put(&mut self, osd: u32, number: u32) -> Result<(), Memory>
        ensures put { OnOk result (self.new ≡ put_in self.old osd number) }
        ensures same { OnErr result (self.new ≡ self.old) }
    {
        let osd = osd as usize;
        if osd < self.rows.len() {
            self.rows[osd].put(number)?;
        }
        Ok(())
    }

    /// A group stands at some places; or `Memory` (30), and then it is known at some of them.
    pub fn add(&mut self, number: u32, places: &[Option<u32>]) -> Result<(), Memory>
        ensures longer { AreLonger number self.old self.new }
        ensures known { OnOk result (IsKnownAt number self.new (λ osd. stands osd places.now ≡ true)) }
    {
        for place in places {
            if let Some(osd) = place {
                self.put(*osd, number)?;
            }
        }
        Ok(())
    }

    /// Where some groups stand, among so many OSDs; or `Memory` (30).
    pub fn new(alloc: Global, groups: &[Group], count: u32) -> Result<Self, Memory>
        requires { length groups.now ≤ max_groups }
        ensures rows { IfOk result (λ standing. AreRowsOf groups.now standing) }
        ensures many { IfOk result (λ standing. length standing ≡ count) }
    {
        let mut standing = Standing::empty(alloc, count)?;
        for (number, group) in groups.iter().enumerate() {
            standing.add(number as u32, group.places.as_slice())?;
        }
        Ok(standing)
    }

    /// The numbers of the groups that stand on an OSD, and of some that did.
    pub fn at(&self, osd: u32) -> &[u32]
        ensures { result.now ≡ row_of self.now osd }
    {
        match self.rows.get(osd as usize) {
            Some(row) => row.numbers.as_slice(),
            None => &[],
        }
    }
}
