//! What the lock, the state, the sealed epochs and followers come to together: a law over every interleaving, which is
//! the contract of a function that does nothing.
#![tactic(auto)]

ghost use Rattle.monitor_laws.specs.Law.{HasEvents, HasOneHistory};

/// A law over every number of seats up to 1,024 and every interleaving of their steps. No writer holds the lock beside
/// another holder. Whenever no writer holds it, the map is the first map with the sealed epochs applied in order
/// without gaps; each stored up set is the one that its rule and exceptions define, and the index and counts by OSD are
/// exactly theirs. All looks and changes, by whomever, are of one history. What each follower has read without the lock
/// begins it.
pub fn one_history()
    ensures { HasOneHistory }
{}

/// A law beside it: there are such events, with a change, a look at it and a follower that reads it.
pub fn some_history()
    ensures { HasEvents }
{}
