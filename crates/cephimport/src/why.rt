//! Why a cluster's map does not come in.

ghost use Rattle.cephimport.specs.declared.why.ImportError.TheVariants as errors;
ghost use Rattle.std.specs.Prelude.{◌≡◌};

use std::alloc::{AllocError, AllocFailed};

/// Why a cluster's map does not come in as one map.
#[derive(Clone, Copy, Debug, PartialEq, Eq)]
pub enum StaysOut {
    /// A straw bucket is in use.
    StrawBucket,
    /// A bucket in use hashes by another function than rjenkins.
    BucketHash,
    /// Rules take an item from several trees, or it stands twice in one: the cluster takes several maps, or none.
    SeveralTrees,
    /// A bucket in use has a device that is no OSD of the cluster.
    UnknownOsd,
    /// A tunable is not jewel's, and no step of a rule sets it to that number.
    Tunable,
    /// The compat weight set (`choose_args`) does not fit a straw2 bucket in use: it has weights by place there, other
    /// ids, or not one weight for each item.
    WeightSet,
    /// A pool has a weight set of its own.
    PoolWeightSet,
    /// A pool is without `hashpspool`, or hashes the names of its objects by another function than rjenkins.
    PoolHash,
    /// An exception leads to an OSD that does not exist.
    ExceptionOsd,
    /// A rule that is used is neither for copies nor for coded parts.
    RuleKind,
    /// A rule that is used has a step of a word that no map has.
    RuleStep,
    /// A rule that is used has more steps than a map has.
    RuleLength,
    /// A rule has a negative count, and the pools that have it are of several sizes, or there are none.
    RuleCount,
    /// A number or a length is outside the limits of maps.
    Limit,
}

impl StaysOut {
    ghost use Rattle.std.specs.Prelude.{◌≡◌};
    ghost use Rattle.cephimport.specs.Why.{why_name};

    /// Its name.
    pub fn name(&self) -> &'static str
        ensures { result.now ≡ why_name self.now }
    {
        match self {
            StaysOut::StrawBucket => "StrawBucket",
            StaysOut::BucketHash => "BucketHash",
            StaysOut::SeveralTrees => "SeveralTrees",
            StaysOut::UnknownOsd => "UnknownOsd",
            StaysOut::Tunable => "Tunable",
            StaysOut::WeightSet => "WeightSet",
            StaysOut::PoolWeightSet => "PoolWeightSet",
            StaysOut::PoolHash => "PoolHash",
            StaysOut::ExceptionOsd => "ExceptionOsd",
            StaysOut::RuleKind => "RuleKind",
            StaysOut::RuleStep => "RuleStep",
            StaysOut::RuleLength => "RuleLength",
            StaysOut::RuleCount => "RuleCount",
            StaysOut::Limit => "Limit",
        }
    }
}

/// Why no parts were made.
#[derive(Debug, Drop)]
pub enum ImportError {
    /// Out of memory.
    Memory,
    /// The map does not come in.
    StaysOut(StaysOut),
}

impl From<StaysOut> for ImportError {
    ghost from_gives = { λ w e. e ≡ errors.StaysOut w };

    fn from(why: StaysOut) -> ImportError {
        ImportError::StaysOut(why)
    }
}

impl From<AllocError> for ImportError {
    ghost from_gives = { λ _ e. e ≡ errors.Memory };

    fn from(_error: AllocError) -> ImportError {
        ImportError::Memory
    }
}

impl<T: Drop> From<AllocFailed<T>> for ImportError {
    ghost from_gives = { λ _ e. e ≡ errors.Memory };

    fn from(_failed: AllocFailed<T>) -> ImportError {
        ImportError::Memory
    }
}
