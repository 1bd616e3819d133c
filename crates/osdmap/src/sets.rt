//! The sets of OSDs that stand for devices and for places: those that exist, and those that are up.

use crate::map::OsdMap;
use maptypes::{Pool, UpSet};

impl OsdMap {
    ghost use Rattle.std.specs.Prelude.{◌≡◌, ◌≤◌, ◌<◌, length, map, IfSome, option_and_then};
    ghost use Rattle.buckets.specs.Limits.{max_devices};
    ghost use Rattle.maptypes.specs.Sets.{kept_places};
    ghost use Rattle.osdmap.specs.Placement.{existing_osd, up_osd};

    /// The OSD of a device, where there is one that exists.
    fn existing_osd(&self, device: Option<i32>) -> Option<u32>
        ensures value { result ≡ option_and_then (existing_osd self.now.map) device }
        ensures small { IfSome result (λ osd. osd < max_devices) }
    {
        self.holds_together();
        let osd = u32::try_from(device?).ok()?;
        if self.exists(osd) { Some(osd) } else { None }
    }

    /// The OSD of a place, where there is one that is up.
    fn up_osd(&self, place: Option<u16>) -> Option<u32>
        ensures value { result ≡ option_and_then (up_osd self.now.map) place }
        ensures small { IfSome result (λ osd. osd < max_devices) }
    {
        let osd = place?;
        let presence = self.presences.get(usize::from(osd))?;
        if presence.up {
            Some(u32::from(osd))
        } else {
            None
        }
    }

    /// The set of those of some devices that exist, in the way of the pool's kind.
    pub(crate) fn set_of_existing(&self, pool: &Pool, devices: &[Option<i32>]) -> UpSet
        requires { length devices.now ≤ 20 }
        ensures { result ≡ kept_places pool.now.kind (map (option_and_then (existing_osd self.now.map)) devices.now) }
    {
        let mut set = UpSet::new();
        for device in devices {
            set.add(pool.kind(), self.existing_osd(*device));
        }
        set
    }

    /// The set of those OSDs of a set that are up, in the way of the pool's kind.
    pub(crate) fn set_of_up(&self, pool: &Pool, osds: &UpSet) -> UpSet
        ensures { result ≡ kept_places pool.now.kind (map (option_and_then (up_osd self.now.map)) osds.now) }
    {
        let mut set = UpSet::new();
        for place in osds.places() {
            set.add(pool.kind(), self.up_osd(*place));
        }
        set
    }
}
