//! What follows from the definitions of where groups are placed: each law is the contract of a function that does
//! nothing. The table of up sets is right by them.
#![tactic(auto)]

ghost use Rattle.placement_laws.specs.Mapping.{MappedReadsNamed, AlikeMapAlike};
ghost use Rattle.placement_laws.specs.Standing.{UpAreMappedAndUp, MappedExist};
ghost use Rattle.placement_laws.specs.Untouched.{OthersStay};

/// The exceptions of a group make of its raw set what the reweights of the OSDs that they name allow, and go by no
/// other reweight.
pub fn mapped_reads_named()
    ensures { MappedReadsNamed }
{}

/// Where the raw set of a group, its exceptions, and the reweights of the OSDs that these name are the same in two
/// maps, so is its mapped set.
pub fn alike_map_alike()
    ensures { AlikeMapAlike }
{}

/// An OSD stands in the up set of a group exactly where it stands in the mapped set and is up: who goes down or comes
/// up changes no mapped set.
pub fn up_are_mapped_and_up()
    ensures { UpAreMappedAndUp }
{}

/// Each OSD of a mapped set exists in the map.
pub fn mapped_exist()
    ensures { MappedExist }
{}

/// A group of the map after a change that is not among the change's evaluations was there before it, with the same
/// mapped set.
pub fn others_stay()
    ensures { OthersStay }
{}
