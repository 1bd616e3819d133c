//! The limits of a plan.

/// How many moves a plan may have at most. The least is 1.
pub const MAX_MOVES: u32 = 1_024;

/// The least number of 256ths of a group by which two OSDs may have to be apart: those of one group.
pub const LEAST_APART: u32 = 256;
