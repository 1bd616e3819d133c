//! What is asked of the parts of a map holds in every map, and in every map that lawful changes lead to.

ghost use Rattle.map_laws.specs.Laws.{JournalsKeepMaps, IsTextEpoch, StatesItself, StatesOneMap, LeadsToAMap};

use maptypes::Change;
use osdmap::OsdMap;

/// Each lawful journal of a map that was accepted, whatever epoch it reaches, leads to a map that would be accepted
/// itself: at its own epoch where that is 1 to 2,147,483,648, which is all that a text may have, and at any of these.
pub fn journals_keep_maps()
    ensures { JournalsKeepMaps }
{}

/// A map of an epoch of 1 to 2,147,483,648 is the one that its own parts state, and nothing is wrong with these: what
/// is asked of the parts of a map holds in every map.
pub fn states_itself(map: &OsdMap)
    ensures { IsTextEpoch map.now.map.epoch → StatesItself map.now.map }
{
    map.holds_together();
}

/// Parts state one map: two maps that the same parts state are equal.
pub fn parts_state_one_map()
    ensures { StatesOneMap }
{}

/// A change that the map does not refuse leads to a map in which nothing is wrong either, whatever epoch of 1 to
/// 2,147,483,648 it is given: what a change may do is no more than what a map may be.
pub fn change_leads_to_a_map(map: &OsdMap, change: &Change)
    ensures { LeadsToAMap map.now.map change.now }
{
    map.holds_together();
    let _ = change.parts();
}
