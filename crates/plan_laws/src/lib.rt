//! What follows from the definitions of plans: each law is the contract of a function that does nothing.
#![tactic(auto)]

ghost use Rattle.plan_laws.specs.Alone.{AloneInGroups};
ghost use Rattle.plan_laws.specs.Toward.{TowardShares};

/// The plan of a pool by itself, where OSDs carry nothing and need be no more than 256ths of one group apart, is the
/// greedy plan in whole groups.
pub fn alone_in_groups()
    ensures { AloneInGroups }
{}

/// The plan of a pool where OSDs carry something is the greedy plan toward shares that are fixed before its first move:
/// each the share of the places by weight, less what the OSD carries.
pub fn toward_shares()
    ensures { TowardShares }
{}
