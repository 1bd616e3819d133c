//! OSDs: whether they exist and are up, and their reweights.

/// Whether an OSD exists, and whether it is up.
#[derive(Clone, Copy, Debug, PartialEq, Eq)]
pub struct Presence {
    /// Whether it exists.
    pub exists: bool,
    /// Whether it is up, which only one that exists is.
    pub up: bool,
}

/// What a map has of an OSD.
#[derive(Clone, Copy, Debug, PartialEq, Eq)]
pub struct OsdState {
    /// Whether it exists.
    pub exists: bool,
    /// Whether it is up, which only one that exists is.
    pub up: bool,
    /// The reweight, in parts of 65,536: 0 to 65,536.
    pub weight: u32,
}
