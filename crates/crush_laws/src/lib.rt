//! What follows from the definitions of placement: each law is the contract of a function that does nothing, and that
//! nothing calls.
#![tactic(auto)]

ghost use Rattle.crush_laws.specs.Forests.{BucketsLeadDown};
ghost use Rattle.crush_laws.specs.Rules.{RulesAreBlocks};
ghost use Rattle.crush_laws.specs.Picks.{DrawsEachPlaceOnce, UniformPicksEachOnce, ListPicksGreatestWinner, TreePicksWeight, Straw2PicksFirstLongest, LogarithmsAreLow, TreesAreWalkedByNodes, TreesHaveShapes};
ghost use Rattle.crush_laws.specs.WorkedStraws.{StrawsAreCephs};
ghost use Rattle.crush_laws.specs.Descents.{DescentEnds};
ghost use Rattle.crush_laws.specs.Choices.{FirstnIsSegment, IndepIsPositions, IndepKeepsPositions, IndepLooksBack};
ghost use Rattle.crush_laws.specs.Runs.{RunsFit, RunPlacesDevices, RunPlacesReached, RunReadsReached};

/// Each item of a bucket of a forest is a device, or a bucket of a lower type.
pub fn buckets_lead_down()
    ensures { BucketsLeadDown }
{}

/// The lists of steps that are rules are those of one or more blocks.
pub fn rules_are_blocks()
    ensures { RulesAreBlocks }
{}

/// A uniform bucket draws each of its places once.
pub fn uniform_draws_each_place_once()
    ensures { DrawsEachPlaceOnce }
{}

/// At the replica numbers from 0 up to its number of items a uniform bucket picks each of its items once.
pub fn uniform_picks_each_once()
    ensures { UniformPicksEachOnce }
{}

/// A list bucket picks the greatest place whose item wins its draw.
pub fn list_picks_greatest_winner()
    ensures { ListPicksGreatestWinner }
{}

/// A tree bucket picks an item that weighs something.
pub fn tree_picks_weight()
    ensures { TreePicksWeight }
{}

/// A straw2 bucket picks the first place whose item draws the longest straw.
pub fn straw2_picks_first_longest()
    ensures { Straw2PicksFirstLongest }
{}

/// No logarithm of a draw is above that of 1.
pub fn logarithms_are_low()
    ensures { LogarithmsAreLow }
{}

/// Some logarithms, and some picks of straw2 buckets, as Ceph computes them.
pub fn straws_are_cephs()
    ensures { StrawsAreCephs }
{}

/// The walk down a tree is the one by the numbers of its nodes.
pub fn trees_are_walked_by_nodes()
    ensures { TreesAreWalkedByNodes }
{}

/// The depth, the number of nodes, the root and the leaves of trees of 1 to 5 items and of 64.
pub fn trees_have_shapes()
    ensures { TreesHaveShapes }
{}

/// In a forest a descent comes to an item of the wanted type, unless a device of another type stops it.
pub fn descent_ends()
    ensures { DescentEnds }
{}

/// What packing chooses below a bucket has no item twice and no leaf twice, and where the step takes devices none that
/// is out.
pub fn firstn_is_segment()
    ensures { FirstnIsSegment }
{}

/// What choosing for positions leaves has no item twice, and where the step takes devices none that is out.
pub fn indep_is_positions()
    ensures { IndepIsPositions }
{}

/// What a round decided for a position stays through all later rounds.
pub fn indep_keeps_positions()
    ensures { IndepKeepsPositions }
{}

/// What a round makes of a position is decided when it is tried: later positions change nothing.
pub fn indep_looks_back()
    ensures { IndepLooksBack }
{}

/// A rule places no more than the size of the pool.
pub fn runs_fit()
    ensures { RunsFit }
{}

/// What a rule places are devices.
pub fn run_places_devices()
    ensures { RunPlacesDevices }
{}

/// Every device that a rule places is one that it reaches.
pub fn run_places_reached()
    ensures { RunPlacesReached }
{}

/// A rule places by the reweights of the devices that it reaches, and by no other reweight.
pub fn run_reads_reached()
    ensures { RunReadsReached }
{}
