//! Moves.

/// The move of a group of a pool from one OSD to another, by one more pair among its exceptions.
#[derive(Clone, Copy, Debug, PartialEq, Eq)]
pub struct Move {
    /// The number of the group: 0 to 65,535.
    pub group: u32,
    /// The OSD that the group leaves: 0 to 4,095.
    pub from: u32,
    /// The OSD that comes in its place: 0 to 4,095.
    pub to: u32,
}
