//! What follows from the definitions of an import: the map that a cluster's own map comes in as places what CRUSH over
//! the cluster's own places. Each law is the contract of a function that does nothing, and that nothing calls.
#![tactic(auto)]

ghost use Rattle.import_laws.specs.Picks.{PickAlike};
ghost use Rattle.import_laws.specs.Runs.{PlaceAlike};

/// A bucket of the map, which has no item of weight 0, picks what the cluster's own picks.
pub fn pick_alike()
    ensures { PickAlike }
{}

/// Where a cluster's own map comes in, the map's rule of each pool places what CRUSH over the cluster's own places by
/// the rule of the pool: with its tunables, with counts by the size of the pool, with items of weight 0, and with the
/// buckets and the blocks that the map leaves out.
pub fn place_alike()
    ensures { PlaceAlike }
{}
