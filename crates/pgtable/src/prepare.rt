//! What a change makes of a table.

ghost use Rattle.std.specs.Prelude.{◌≡◌, true, length};
ghost use Rattle.osdmap.specs.Marks.{are_below};
ghost use Rattle.pgtable.specs.Patches.{with_ups};

use crate::patch::Patch;
use crate::rooms::Rooms;
use crate::table::PgTable;
use crate::update::Update;
use maptypes::Change;
use osdmap::OsdMap;
use refusal::Memory;
use std::alloc::Global;
use std::thread::Threads;

/// Some OSDs go up or down.
fn set_ups(ups: &mut [bool], osds: &[u32], up: bool)
    requires { are_below (λ osd. osd) (length ups.old) osds.now ≡ true }
    ensures { ups.new ≡ with_ups up ups.old osds.now }
{
    for osd in osds {
        ups[*osd as usize] = up;
    }
}

impl PgTable {
    ghost use Rattle.std.specs.Prelude.{◌≡◌, ◌<◌, true, length, map, None, ◌+◌, ◌^◌, IfOk};
    ghost use Rattle.osdmap.specs.Marks.{are_below};
    ghost use Rattle.pgtable.specs.Patches.{changed_map, LeadsTo, ups_after};
    ghost use Rattle.osdmap.specs.Changes.{change_fault};
    ghost use Rattle.osdmap.specs.Evals.{evals_of};
    ghost use Rattle.pgtable.specs.After.{IsPatchBy};
    ghost use Rattle.pgtable.specs.Rooms.{RunMore};
    ghost use Rattle.pgtable.specs.Tables.{IsTableOf};

    /// Which OSDs are up after a change; or `Memory` (30).
    fn ups_after(&self, alloc: Global, change: &Change) -> Result<Vec<bool>, Memory>
        requires down { are_below (λ osd. osd) (length self.now.up) change.now.osds.down ≡ true }
        requires up { are_below (λ osd. osd) (length self.now.up) change.now.osds.up ≡ true }
        ensures { IfOk result (λ up. up.items ≡ ups_after self.now.up change.now) }
    {
        let mut up = Vec::from_slice(alloc, &self.up)?;
        set_ups(&mut up, &change.parts().osds.down, false);
        set_ups(&mut up, &change.parts().osds.up, true);
        Ok(up)
    }

    /// The patch that makes of the table the one of the map after a change; or `Memory` (30).
    #[inline(always)]
    fn make_patch<R: AllocGlobal + Threads + Sync>(
        &self,
        rt: &R,
        update: &Update,
        rooms: &mut Rooms,
    ) -> Result<Patch, Memory>
        requires { IsTableOf self.now update.now.before.now.map }
        ensures { IfOk result (IsPatchBy update.now self.now rooms.old rooms.new) }
    {
        update.holds();
        let tables = self.patch_tables(rt, update, rooms)?;
        let up = self.ups_after(rt.alloc(), update.change)?;
        Ok(Patch {
            tables: tables.tables,
            up,
            evals: tables.evals,
        })
    }

    /// All that a change makes of the table of a map that does not refuse it. It tells the evaluations of the change,
    /// and `rooms` count a rule run for each of them, and no other. Where they are many, the rooms run them side by
    /// side, in threads.
    ///
    /// # Errors
    ///
    /// `Memory` (30) where there is no memory for it. `rooms` may then count some of the runs.
    pub fn prepare<R: AllocGlobal + Threads + Sync>(
        &self,
        rt: &R,
        map: &OsdMap,
        change: &Change,
        rooms: &mut Rooms,
    ) -> Result<Patch, Memory>
        requires table { IsTableOf self.now map.now.map }
        requires lawful { change_fault map.now.map change.now ≡ None }
        requires epoch { map.now.map.epoch + 1 < 2 ^ 64 }
        ensures leads { IfOk result (LeadsTo (changed_map map.now.map change.now) self.now) }
        ensures counted { IfOk result (λ p. p.evals ≡ evals_of (changed_map map.now.map change.now) change.now) }
        ensures runs { IfOk result (λ p. RunMore p.evals rooms.old rooms.new) }
    {
        let alloc = rt.alloc();
        if change.leaves_raw_sets() {
            let update = Update::new(alloc, map, change, map, false)?;
            let patch = self.make_patch(rt, &update, rooms)?;
            return Ok(patch);
        }
        let after = map.after(alloc, change)?;
        let update = Update::new(alloc, map, change, &after, true)?;
        let patch = self.make_patch(rt, &update, rooms)?;
        Ok(patch)
    }
}
