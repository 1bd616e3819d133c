//! The map after a change, made where the map stands or beside it.

ghost use Rattle.std.specs.Prelude.{◌≡◌, IfOk, unwrap_or};

use crate::in_place::{change_exceptions, change_pools, set_up, set_weights};
use crate::map::OsdMap;
use maptypes::{Change, CrushMap, Incremental};
use refusal::Memory;
use std::alloc::Global;

/// A copy of a CRUSH map, where there is one.
fn copy_of(alloc: Global, crush: &Option<CrushMap>) -> Result<Option<CrushMap>, Memory>
    ensures { IfOk result (λ copy. copy ≡ crush.now) }
{
    match crush {
        Some(crush) => Ok(Some(crush.copy(alloc)?)),
        None => Ok(None),
    }
}

/// A CRUSH map gives way to one that lies ready, if there is one.
fn replace(crush: &mut CrushMap, ready: &mut Option<CrushMap>)
    ensures crush { crush.new ≡ unwrap_or ready.old crush.old }
{
    if let Some(new) = ready.take() {
        *crush = new;
    }
}

impl OsdMap {
    ghost use Rattle.std.specs.Prelude.{◌≡◌, ◌+◌, ◌^◌, ◌<◌, None, IfOk, OnOk};
    ghost use Rattle.osdmap.specs.Changes.{apply, change_fault};
    ghost use Rattle.osdmap.specs.Stored.{HasRoomFor};

    /// Makes room for a change, so that it can be made without memory, and lays a copy of its forest and rules ready.
    /// What the map says stays, also where this fails.
    ///
    /// # Errors
    ///
    /// `Memory` (30) where there is no memory for it.
    pub fn reserve_for(&mut self, alloc: Global, change: &Change) -> Result<(), Memory>
        ensures same { self.new.map ≡ self.old.map }
        ensures room { OnOk result (HasRoomFor change.now self.new) }
    {
        let parts = change.parts();
        self.pools.reserve(parts.pools.come.len())?;
        self.explicit.reserve(parts.explicit.come.len())?;
        self.items.reserve(parts.items.come.len())?;
        self.ready = copy_of(alloc, &parts.crush)?;
        Ok(())
    }

    /// Makes a change that the map does not refuse, and for which there is room.
    fn change_to(&mut self, epoch: u64, change: &Change)
        requires lawful { change_fault self.old.map change.now ≡ None }
        requires room { HasRoomFor change.now self.old }
        ensures { self.new.map ≡ apply self.old.map (record { epoch = epoch; change = change.now }) }
    {
        let parts = change.parts();
        self.epoch = epoch;
        replace(&mut self.crush, &mut self.ready);
        change_pools(&mut self.pools, &parts.pools);
        set_up(&mut self.presences, &parts.osds.down, false);
        set_up(&mut self.presences, &parts.osds.up, true);
        set_weights(&mut self.weights, &parts.weights);
        change_exceptions(&mut self.explicit, &parts.pools.gone, &parts.explicit);
        change_exceptions(&mut self.items, &parts.pools.gone, &parts.items);
    }

    /// Makes the map the one after an incremental of the next epoch, whose change it does not refuse and for which it
    /// has room. It takes no memory and cannot fail.
    pub fn apply(&mut self, incremental: &Incremental)
        requires next { incremental.now.epoch ≡ self.old.map.epoch + 1 }
        requires lawful { change_fault self.old.map incremental.now.change ≡ None }
        requires room { HasRoomFor incremental.now.change self.old }
        ensures value { self.new.map ≡ apply self.old.map incremental.now }
        ensures next { self.new.map.epoch ≡ self.old.map.epoch + 1 }
    {
        self.change_to(incremental.epoch(), incremental.change());
    }

    /// The map after a change that it does not refuse, one epoch on.
    ///
    /// # Errors
    ///
    /// `Memory` (30) where there is no memory for it.
    pub fn after(&self, alloc: Global, change: &Change) -> Result<OsdMap, Memory>
        requires lawful { change_fault self.now.map change.now ≡ None }
        requires epoch { self.now.map.epoch + 1 < 2 ^ 64 }
        ensures { IfOk result (λ m. m.map ≡ apply self.now.map (record {
          epoch = self.now.map.epoch + 1;
          change = change.now;
        })) }
    {
        let mut next = self.copy(alloc)?;
        next.reserve_for(alloc, change)?;
        next.change_to(self.epoch + 1, change);
        Ok(next)
    }
}
