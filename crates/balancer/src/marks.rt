//! Where no group may go, as far as it is known: by OSD and failure domain.

ghost use Rattle.std.specs.Prelude.{◌≡◌, true, false, length, replicate, slice_set, slice_index_or, IfOk};
ghost use Rattle.balancer.specs.Marks.{is_shut, is_shut_at, domain_number, shut_in, open_in, AreNumbered, NumberAlike};

use crate::frame::Frame;
use crate::numbering::Numbering;
use refusal::Memory;
use std::alloc::Global;
use std::marker::Model;

/// For one OSD that a group would leave: whether it is known of each failure domain, by its
/// number, that no group may go there.
#[derive(Drop)]
struct Row {
    shut: Vec<bool>,
}

impl Model for Row {
    ghost use Rattle.std.specs.Prelude.{List, Bool};

    ghost Value = { List Bool };

    ghost view = { λ row. row.shut.items };
}

impl Row {
    /// A row for `count` failure domains, of which nothing is known yet; or `Memory` (30).
    fn new(alloc: Global, count: usize) -> Result<Self, Memory>
        ensures { IfOk result (λ row. row ≡ replicate count false) }
    {
        let mut shut = Vec::new(alloc);
        shut.resize(count, false)?;
        Ok(Row { shut })
    }

    /// Whether it is known that no group may go to a failure domain.
    fn is_shut(&self, domain: usize) -> bool
        ensures { result ≡ slice_index_or self.now domain false }
    {
        match self.shut.get(domain) {
            Some(mark) => *mark,
            None => false,
        }
    }

    /// Whether it is known from now on that no group may go to a failure domain.
    fn set(&mut self, domain: usize, shut: bool)
        ensures { self.new ≡ slice_set self.old domain shut }
    {
        if domain < self.shut.len() {
            self.shut[domain] = shut;
        }
    }
}

/// For each OSD that a group would leave, by number, and each failure domain that it would come to, whether it is known
/// that no group may go.
#[derive(Drop)]
pub(crate) struct Marks {
    rows: Vec<Row>,
    /// For each OSD, by number, the number of its failure domain.
    numbers: Vec<u32>,
    /// Of each failure domain, by its number, an OSD.
    firsts: Vec<u32>,
}

/// Rows for so many OSDs and failure domains, of which nothing is known yet; or `Memory` (30).
fn blank_rows(alloc: Global, count: u32, domains: usize) -> Result<Vec<Row>, Memory>
    ensures { IfOk result (λ rows. rows.items ≡ replicate count (replicate domains false)) }
{
    let mut rows = Vec::with_capacity(alloc, count as usize)?;
    for _from in 0..count {
        rows.push(Row::new(alloc, domains)?)?;
    }
    Ok(rows)
}

impl Marks {
    ghost use Rattle.std.specs.Prelude.{◌≡◌, List, length, IfOk};
    ghost use Rattle.balancer.specs.declared.group.Group.{Group};
    ghost use Rattle.balancer.specs.Marks.{is_shut, is_shut_at, domain_number, shut_in, open_in, NumberAlike, IsMarked};

    /// What a plan knows at first: nothing; or `Memory` (30).
    pub fn new(alloc: Global, frame: &Frame) -> Result<Self, Memory>
        ensures { IfOk result (λ marks. (groups : List Group) →
            IsMarked frame.now.map.now.map frame.now.pool groups marks) }
    {
        let Numbering {
            numbers,
            firsts,
            ..
        } = Numbering::new(alloc, frame)?;
        let rows = blank_rows(alloc, frame.map.max_osd(), firsts.len())?;
        Ok(Marks {
            rows,
            numbers,
            firsts,
        })
    }

    /// The number of the failure domain of an OSD.
    pub fn number(&self, osd: u32) -> usize
        ensures { result ≡ domain_number self.now.numbers.items osd }
    {
        match self.numbers.get(osd as usize) {
            Some(number) => *number as usize,
            None => 0,
        }
    }

    /// How many failure domains there are.
    pub fn domain_count(&self) -> usize
        ensures { result ≡ length self.now.firsts.items }
    {
        self.firsts.len()
    }

    /// An OSD of a failure domain.
    pub fn first(&self, domain: usize) -> u32
        ensures { result ≡ slice_index_or self.now.firsts.items domain 0 }
    {
        match self.firsts.get(domain) {
            Some(first) => *first,
            None => 0,
        }
    }

    /// Whether it is known that no group may go from an OSD to a failure domain.
    pub fn is_shut_at(&self, from: u32, domain: usize) -> bool
        ensures { result ≡ is_shut_at self.now.rows.items from domain }
    {
        match self.rows.get(from as usize) {
            Some(row) => row.is_shut(domain),
            None => false,
        }
    }

    /// Whether it is known that no group may go from one OSD to another.
    pub fn is_shut(&self, from: u32, to: u32) -> bool
        ensures { result ≡ is_shut self.now from to }
    {
        self.is_shut_at(from, self.number(to))
    }

    /// It is known that no group may go from an OSD to a failure domain.
    pub fn shut(&mut self, from: u32, domain: usize)
        ensures rows { self.new.rows.items ≡ shut_in self.old.rows.items from domain }
        ensures alike { NumberAlike self.new self.old }
    {
        let from = from as usize;
        if from < self.rows.len() {
            self.rows[from].set(domain, true);
        }
    }

    /// It is not known any longer that no group may go from an OSD to a failure domain.
    pub fn open(&mut self, from: u32, domain: usize)
        ensures rows { self.new.rows.items ≡ open_in self.old.rows.items from domain }
        ensures alike { NumberAlike self.new self.old }
    {
        let from = from as usize;
        if from < self.rows.len() {
            self.rows[from].set(domain, false);
        }
    }
}
