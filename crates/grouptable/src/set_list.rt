//! The sets of the groups of a pool side by side, each in as many places as the pool has.

ghost use Rattle.std.specs.Prelude.{◌≡◌, ◌<◌, ◌≤◌, ◌++◌, [], ◌∷◌, ◌+◌, take, drop, length, slice_set, map, IfOk, OnOk};
ghost use Rattle.crush.specs.Limits.{max_size};
ghost use Rattle.mapparts.specs.Limits.{max_groups};
ghost use Rattle.grouptable.specs.Sets.{place_stored, set_of};
ghost use Rattle.grouptable.specs.Stored.{overwritten};

use crate::osd_set::{OsdSet, filled_places};
use refusal::Memory;
use std::alloc::Global;
use std::marker::Model;

/// Sets of at most `width` places, two bytes each.
#[derive(Debug, Drop)]
pub struct SetList {
    width: usize,
    len: usize,
    places: Vec<u16>,
}

impl Model for SetList {
    ghost use Rattle.grouptable.specs.Stored.{AreSideBySide, sets_stored};
    ghost use Rattle.grouptable.specs.Sets.{GroupSets};

    ghost Value = { GroupSets };

    ghost view = { λ l. record { width = l.width; sets = sets_stored l.width l.len l.places.items } };

    ghost invariant = { λ l. AreSideBySide l.width l.len l.places.items };
}

impl SetList {
    /// The list without a set, each of which may have `width` places. It takes no memory.
    pub fn new(alloc: Global, width: usize) -> SetList
        requires { width ≤ max_size }
        ensures { result ≡ record { width = width; sets = [] } }
    {
        SetList {
            width,
            len: 0,
            places: Vec::new(alloc),
        }
    }

    /// The list without a set, with room for `count` sets of `width` places; or `Memory` (30).
    pub fn with_room(alloc: Global, width: usize, count: usize) -> Result<SetList, Memory>
        requires { width ≤ max_size }
        ensures { IfOk result (λ l. l ≡ record { width = width; sets = [] }) }
    {
        Ok(SetList {
            width,
            len: 0,
            places: Vec::with_capacity(alloc, width.saturating_mul(count))?,
        })
    }

    /// One more set; or `Memory` (30).
    pub fn push(&mut self, set: &OsdSet) -> Result<(), Memory>
        requires fits { length set.now ≤ self.old.width }
        requires few { length self.old.sets < max_groups }
        ensures { OnOk result (self.new ≡ record { width = self.old.width; sets = self.old.sets ++ set.now ∷ [] }) }
    {
        self.places.extend_from_slice(set.row(self.width))?;
        self.len += 1;
        Ok(())
    }

    /// All sets of another list, of as many places, behind these; or `Memory` (30).
    pub fn append(&mut self, others: &SetList) -> Result<(), Memory>
        requires width { others.now.width ≡ self.old.width }
        requires few { length self.old.sets + length others.now.sets ≤ max_groups }
        ensures { OnOk result (self.new
            ≡ record { width = self.old.width; sets = self.old.sets ++ others.now.sets }) }
    {
        self.places.extend_from_slice(&others.places)?;
        self.len += others.len;
        Ok(())
    }

    /// How many sets there are.
    pub fn len(&self) -> usize
        ensures value { result ≡ length self.now.sets }
        ensures few { length self.now.sets ≤ max_groups }
    {
        self.len
    }

    /// What is stored of the set of a group.
    pub fn set(&self, group: u32) -> &[u16]
        requires { group < length self.now.sets }
        ensures value { map place_stored result.now ≡ set_of self.now.sets group }
        ensures few { length result.now ≤ max_size }
    {
        filled_places(part(&self.places, group as usize * self.width, self.width))
    }

    /// Another set for a group.
    pub fn put(&mut self, group: u32, set: &OsdSet)
        requires within { group < length self.old.sets }
        requires fits { length set.now ≤ self.old.width }
        ensures { self.new
            ≡ record { width = self.old.width; sets = slice_set self.old.sets group set.now } }
    {
        let row = set.row(self.width);
        write(&mut self.places, group as usize * self.width, row);
    }
}

/// So many of some numbers, from one on.
fn part(numbers: &[u16], at: usize, count: usize) -> &[u16]
    requires { at + count ≤ length numbers.now }
    ensures { result.now ≡ take count (drop at numbers.now) }
{
    &numbers[at..at + count]
}

/// Other numbers in the place of some, from one on.
fn write(numbers: &mut Vec<u16>, at: usize, row: &[u16])
    requires { at + length row.now ≤ length numbers.old.items }
    ensures { numbers.new.items ≡ overwritten at row.now numbers.old.items }
{
    numbers[at..at + row.len()].copy_from_slice(row);
}
