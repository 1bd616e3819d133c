//! A map that no longer changes, held once for all who have it.

ghost use Rattle.std.specs.Prelude.{◌≡◌, IfOk};

use osdmap::OsdMap;
use refusal::Memory;
use std::alloc::Global;
use std::marker::Model;
use std::sync::Arc;

/// A map that no longer changes. Those who share it have it once.
#[derive(Drop)]
pub struct SharedMap {
    map: Arc<OsdMap>,
}

impl Model for SharedMap {
    ghost use Rattle.std.specs.Arc.{arc_value};
    ghost use Rattle.osdmap.specs.Stored.{StoredMap};

    ghost Value = { StoredMap };

    ghost view = { λ s. arc_value s.map };
}

impl SharedMap {
    /// A copy of a map, with one owner.
    ///
    /// # Errors
    ///
    /// `Memory` (30) where there is no memory for it.
    pub fn copy_of(alloc: Global, map: &OsdMap) -> Result<SharedMap, Memory>
        ensures { IfOk result (λ shared. shared.map ≡ map.now.map) }
    {
        Ok(SharedMap {
            map: Arc::new(alloc, map.copy(alloc)?)?,
        })
    }

    /// The same map for one more owner.
    ///
    /// # Errors
    ///
    /// `Memory` (30) where it has as many owners as can be counted.
    pub fn share(&self) -> Result<SharedMap, Memory>
        ensures { IfOk result (λ shared. shared.map ≡ self.now.map) }
    {
        Ok(SharedMap {
            map: Arc::try_clone(&self.map)?,
        })
    }

    /// The map.
    pub fn map(&self) -> &OsdMap
        ensures { result.now ≡ self.now }
    {
        &self.map
    }
}
