//! The text of a map states that map and no other.

ghost use Rattle.std.specs.Prelude.{◌≡◌, IfOk};
ghost use Rattle.map_laws.specs.Laws.{IsTextEpoch};
ghost use Rattle.map_laws.specs.TextLaws.{IsThereAndBack};

use crate::maps::{parts_state_one_map, states_itself};
use mapjson::{read_map, write_map};
use mapparts::Profile;
use osdmap::OsdMap;
use refusal::{Memory, Refusal};
use std::alloc::Global;

/// The text of a map of an epoch of 1 to 2,147,483,648 is read back as that map: it has no fault, and states that map
/// and no other.
pub fn written_map_is_read_back(map: &OsdMap)
    ensures { IsThereAndBack map.now.map }
{
    states_itself(map);
    parts_state_one_map();
}

/// A map of an epoch of 1 to 2,147,483,648 written and read back: the same map, or `Memory` (30).
pub fn there_and_back(alloc: Global, map: &OsdMap) -> Result<OsdMap, Memory>
    requires { IsTextEpoch map.now.map.epoch }
    ensures { IfOk result (λ back. back.map ≡ map.now.map) }
{
    written_map_is_read_back(map);
    let text = write_map(alloc, map)?;
    match read_map(alloc, &text, Profile::Stock) {
        Ok(back) => Ok(back),
        Err(Refusal::Memory) => Err(Memory),
        Err(_) => unreachable!(),
    }
}
