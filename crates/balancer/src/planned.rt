//! What a plan answers.

use maptypes::Change;

/// The moves of a plan, as a change of the map that they were planned for.
#[derive(Debug, Drop)]
pub struct PlannedChange {
    /// It gives each group that is moved all its pairs, and does nothing else.
    pub change: Change,
    /// How many moves it is.
    pub moves: usize,
}
