//! What follows of the grammar: laws that no call needs to run.

ghost use Rattle.cephmap.specs.Laws.{MapsHaveTheirSum};
ghost use Rattle.cephmap.specs.Rooms.{NoListIsRefusedForRoom};

/// Of the bytes of a map that is taken four are the sum of all others.
pub fn maps_have_their_sum()
    ensures { MapsHaveTheirSum }
{}

/// Each list that is there is read: that there is room for its length is a test that refuses none.
pub fn no_list_is_refused_for_room()
    ensures { NoListIsRefusedForRoom }
{}
