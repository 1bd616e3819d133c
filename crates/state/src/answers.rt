//! What is asked of a state.

use crate::state::State;
use epochlog::Keeps;
use maptypes::{Pg, UpSet};
use refusal::Refusal;
use std::alloc::Global;

impl<K: Keeps + Drop> State<K> {
    ghost use Rattle.std.specs.Prelude.{◌≡◌, Some, None};
    ghost use Rattle.std.specs.Result.{result_err};
    ghost use Rattle.osdmap.specs.Placement.{group_fault};
    ghost use Rattle.pgtable.specs.Index.{up_at};
    ghost use Rattle.state.specs.Answers.{osd_fault, FindsUp, FindsCount, FindsGroups};

    /// Where the state takes memory.
    pub fn alloc(&self) -> Global {
        self.alloc
    }

    /// The epoch and the up set of a group. It takes no memory.
    ///
    /// # Errors
    ///
    /// `UnknownPool` (23) where the map has no such pool; else `UnknownGroup` (25) where the pool has no such group.
    pub fn answer_up(&self, pg: Pg) -> Result<(u64, UpSet), Refusal>
        ensures { FindsUp self.now.map pg result }
    {
        match self.table.up(pg) {
            Some(set) => Ok((self.map.epoch(), set)),
            None => Err(self.why_no_group(pg)),
        }
    }

    /// Why there is no group.
    fn why_no_group(&self, pg: Pg) -> Refusal
        requires { up_at self.now.map pg ≡ None }
        ensures { group_fault self.now.map pg ≡ Some result }
    {
        if self.map.pool(pg.pool).is_some() {
            Refusal::UnknownGroup
        } else {
            Refusal::UnknownPool
        }
    }

    /// Whether an OSD exists, or `UnknownOsd` (21).
    fn has_osd(&self, osd: u32) -> Result<(), Refusal>
        ensures { result_err result ≡ osd_fault self.now.map osd }
    {
        if self.map.exists(osd) {
            Ok(())
        } else {
            Err(Refusal::UnknownOsd)
        }
    }

    /// The epoch, and in how many groups' up sets an OSD stands. It takes no memory.
    ///
    /// # Errors
    ///
    /// `UnknownOsd` (21) where the OSD does not exist.
    pub fn answer_count(&self, osd: u32) -> Result<(u64, usize), Refusal>
        ensures { FindsCount self.now.map osd result }
    {
        self.has_osd(osd)?;
        Ok((self.map.epoch(), self.table.count(osd)))
    }

    /// The epoch, and the groups in whose up set an OSD stands, by pool upwards, then by number.
    ///
    /// # Errors
    ///
    /// `UnknownOsd` (21) where the OSD does not exist; else `Memory` (30) where there is no memory for it.
    pub fn answer_groups(&self, alloc: Global, osd: u32) -> Result<(u64, Vec<Pg>), Refusal>
        ensures { FindsGroups (λ groups. groups.items) self.now.map osd result }
    {
        self.has_osd(osd)?;
        Ok((self.map.epoch(), self.table.groups(alloc, osd)?))
    }
}
