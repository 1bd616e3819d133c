//! The laws of the lock's steps.
ghost use Rattle.ticketlock.specs.Law.{Excludes, ExcludesMade, CanShare};

/// Of at most 1,024 seats that are all idle, with three words of 0, every list of the seven kinds of step leads to
/// words and views that keep the rule, and no seat that writes stands beside another that reads, closes or writes.
pub fn interleavings()
    ensures { Excludes }
{}

/// For the lock as it is made: from one seat, from which up to 1,023 others may be cut off, every list of the steps and
/// of such cuts leads to words and views that keep the rule, and a seat that writes stands beside no other that reads,
/// closes or writes.
pub fn interleavings_made()
    ensures { ExcludesMade }
{}

/// Some list of the steps leads two seats to read at the same time.
pub fn sharing()
    ensures { CanShare }
{}
