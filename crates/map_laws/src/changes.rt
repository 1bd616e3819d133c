//! The order of a change's parts.

ghost use Rattle.map_laws.specs.Laws.{UpAfterDown};

/// The order of a change's parts is part of what it says: an OSD that it names among those that go down and among those
/// that come up is up after it, and would be down if the two acted the other way round. (A map refuses such a change
/// with `DuplicatePart`, 27.)
pub fn up_after_down()
    ensures { UpAfterDown }
{}
