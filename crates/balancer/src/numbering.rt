//! The failure domains of OSDs, numbered.

ghost use Rattle.std.specs.Prelude.{◌≡◌, ◌<◌, length, slice_index_or, IfSome};
ghost use Rattle.balancer.specs.Frames.{domain_in};

use crate::frame::Frame;
use refusal::Memory;
use std::alloc::Global;

/// The numbers of the failure domains of OSDs, and of each domain an OSD.
#[derive(Drop)]
pub(crate) struct Numbering {
    /// For each OSD, by number, the number of its failure domain.
    pub numbers: Vec<u32>,
    /// Of each failure domain, by its number, the first of its OSDs.
    pub firsts: Vec<u32>,
    /// Where a failure domain is numbered: for each bucket, by its id below 0, the number last given to it. It is a
    /// hint, and looked at before it is used.
    hints: Vec<u32>,
}

/// The place of a failure domain among the hints: that of its bucket. None where each OSD is a domain of its own.
fn hint_place(domain: Option<i64>) -> Option<u32> {
    match domain {
        Some(bucket) if bucket < 0 => u32::try_from(bucket.unsigned_abs()).ok(),
        Some(_) => None,
        None => Some(0),
    }
}

/// Which of some OSDs is the first in the failure domain of another, as a hint has it, if it is.
fn find_domain(frame: &Frame, firsts: &[u32], hint: u32, osd: u32) -> Option<usize>
    ensures inside { IfSome result (λ d. d < length firsts.now) }
    ensures same { IfSome result (λ d. domain_in frame.now (slice_index_or firsts.now d 0) ≡ domain_in frame.now osd) }
{
    let number = hint as usize;
    let first = *firsts.get(number)?;
    if frame.domain(first) == frame.domain(osd) {
        Some(number)
    } else {
        None
    }
}

impl Numbering {
    ghost use Rattle.std.specs.Prelude.{◌≡◌, ◌<◌, ◌≤◌, ◌+◌, ◌^◌, [], length, IfOk, OnOk};
    ghost use Rattle.balancer.specs.Marks.{AreNumbered};

    /// The number last given to the failure domain of an OSD; or 0.
    fn hint(&self, place: Option<u32>) -> u32 {
        match place {
            Some(at) => self.hints.get(at as usize).copied().unwrap_or(0),
            None => u32::MAX,
        }
    }

    /// Keeps the number that is given to a failure domain; or `Memory` (30).
    fn keep_hint(&mut self, place: Option<u32>, number: u32) -> Result<(), Memory>
        ensures numbers { self.new.numbers.items ≡ self.old.numbers.items }
        ensures firsts { self.new.firsts.items ≡ self.old.firsts.items }
    {
        let Some(bucket) = place else {
            return Ok(());
        };
        let at = bucket as usize;
        if at >= self.hints.len() {
            self.hints.resize(at + 1, 0)?;
        }
        self.hints[at] = number;
        Ok(())
    }

    /// One OSD more, behind the others; or `Memory` (30).
    fn add(&mut self, frame: &Frame, osd: u32) -> Result<(), Memory>
        requires numbered { AreNumbered frame.now.map.now.map frame.now.pool osd
            self.old.numbers.items self.old.firsts.items }
        requires few { length self.old.firsts.items ≤ osd }
        ensures numbered { OnOk result (AreNumbered frame.now.map.now.map frame.now.pool (osd + 1)
            self.new.numbers.items self.new.firsts.items) }
        ensures few { OnOk result (length self.new.firsts.items ≤ osd + 1) }
    {
        let place = hint_place(frame.domain(osd));
        match find_domain(frame, &self.firsts, self.hint(place), osd) {
            Some(domain) => self.numbers.push(domain as u32)?,
            None => {
                let number = self.firsts.len() as u32;
                self.keep_hint(place, number)?;
                self.numbers.push(number)?;
                self.firsts.push(osd)?;
            }
        }
        Ok(())
    }

    /// The failure domains of all OSDs, by the last type that the pool's rule chooses; or `Memory` (30).
    pub fn new(alloc: Global, frame: &Frame) -> Result<Self, Memory>
        ensures { IfOk result (λ n. AreNumbered frame.now.map.now.map frame.now.pool
            (length frame.now.map.now.map.presences) n.numbers.items n.firsts.items) }
    {
        let mut numbering = Numbering {
            numbers: Vec::with_capacity(alloc, frame.map.max_osd() as usize)?,
            firsts: Vec::new(alloc),
            hints: Vec::new(alloc),
        };
        for osd in 0..frame.map.max_osd() {
            numbering.add(frame, osd)?;
        }
        Ok(numbering)
    }
}
