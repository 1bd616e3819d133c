//! Why a Ceph monitor takes all exceptions of a group away.

/// Why a monitor takes all exceptions of a group away: of what is wrong the first, in the order in which it looks.
/// Steps are numbered from 0 in the rule of the map.
#[derive(Clone, Copy, Debug, PartialEq, Eq)]
pub enum Cause {
    /// Two OSDs of its set stand below one bucket of the type by which the step chooses leaves.
    Crowded {
        /// The step.
        step: usize,
        /// The one that stands first in the set.
        one: u16,
        /// The other.
        other: u16,
    },
    /// Its set stands below more buckets of a type than the step chooses.
    Spread {
        /// The step.
        step: usize,
        /// Below how many.
        buckets: usize,
    },
    /// A place of a block has no OSD below the bucket that is taken for it.
    Outside {
        /// The step that emits the block.
        step: usize,
        /// What stands at the place.
        place: Option<u16>,
    },
    /// A place of its set has no OSD below any bucket that the rule takes.
    Unreached(Option<u16>),
    /// An OSD of its set is out.
    Out(u16),
    /// Its explicit set is what the rule gives.
    IdleSet,
    /// Its explicit set has more or fewer places than the pool's size.
    SetLength,
    /// None of its pairs leads from an OSD that the rule gives to one that is in.
    IdlePairs,
}
