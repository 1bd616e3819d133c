//! A copy of a map.

use crate::map::OsdMap;
use refusal::Memory;
use std::alloc::Global;

impl OsdMap {
    ghost use Rattle.std.specs.Prelude.{◌≡◌, IfOk};

    /// A copy of the map.
    ///
    /// # Errors
    ///
    /// `Memory` (30) where there is no memory for it.
    pub fn copy(&self, alloc: Global) -> Result<OsdMap, Memory>
        ensures { IfOk result (λ m. m.map ≡ self.now.map) }
    {
        Ok(OsdMap {
            epoch: self.epoch,
            pools: Vec::from_slice(alloc, &self.pools)?,
            presences: self.presences.copy(alloc)?,
            weights: self.weights.copy(alloc)?,
            explicit: Vec::from_slice(alloc, &self.explicit)?,
            items: Vec::from_slice(alloc, &self.items)?,
            crush: self.crush.copy(alloc)?,
            ready: None,
        })
    }
}
