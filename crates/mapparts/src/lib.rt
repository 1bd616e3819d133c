//! Maps and changes as texts state them: parts whose numbers are any whole numbers, and which of them are within the
//! limits. The values that such parts stand for are those of `maptypes`.
//!
//! - `limits`, `profile`: the limits, of all maps and by profile, and which of them hold
//! - `parts`, `change`: the parts of maps, and those of changes by families
//! - `numbers`, `numeral`: numbers between bounds, and numbers that digits write
//! - `pg_parts`: the parts of a group in its text
//! - `limited`, `pools`, `fits`, `change_fits`: whether parts, maps and changes are within the limits
#![tactic(auto)]

pub mod change;
pub mod change_fits;
pub mod fits;
pub mod limited;
pub mod limits;
pub mod numbers;
mod numeral;
pub mod parts;
pub mod pg_parts;
mod pools;
pub mod profile;

pub use change::{ExceptionChanges, OsdChanges, PoolChanges, RawChange, ReweightPart};
pub use limited::Limited;
pub use numeral::number;
pub use parts::{
    BucketPart, ChoosePart, CrushParts, ExceptionPart, GrowPart, ItemPart, MapParts, OsdPart,
    PairPart, PoolPart, RulePart, StepPart,
};
pub use pg_parts::PgParts;
pub use profile::Profile;
