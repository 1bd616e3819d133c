//! The steps of rules.

/// What a rule serves: copies, which may change their places, or coded parts, which keep them.
#[derive(Clone, Copy, Debug, PartialEq, Eq)]
pub enum RuleKind {
    /// Copies: a place without an OSD closes up.
    Replicated,
    /// Coded parts: a place without an OSD stays empty.
    Erasure,
}

/// Whether the items chosen are packed, or keep their positions.
#[derive(Clone, Copy, Debug, PartialEq, Eq)]
pub enum Mode {
    /// Packed: rules of copies choose so.
    Firstn,
    /// At their positions: rules of coded parts choose so.
    Indep,
}

/// What a choose step of a rule says.
#[derive(Clone, Copy, Debug, PartialEq, Eq)]
pub struct Choose {
    /// How the items stand that are chosen.
    pub mode: Mode,
    /// Whether a device is taken below each of them.
    pub to_leaf: bool,
    /// How many are chosen below each bucket, 0 to 20. 0 stands for the size of the pool.
    pub count: u8,
    /// Their type, 0 to 15. 0 is the type of a device.
    pub level: u8,
}

/// A step of a rule.
#[derive(Clone, Copy, Debug, PartialEq, Eq)]
pub enum Step {
    /// How often each later choose step tries for an item, 1 to 200: up to the next step of this kind. A rule begins
    /// with 51.
    SetChooseTries(u8),
    /// How often each later choose step tries for a leaf below a bucket that it chose, 1 to 200: up to the next step of
    /// this kind. A rule begins with 1.
    SetChooseleafTries(u8),
    /// What the replica number of a bucket adds to that of its leaf, 0 to 4, in each later choose step that packs: up
    /// to the next step of this kind. A rule begins with 1.
    SetChooseleafVaryR(u8),
    /// Whether leaves are sought in the same way however many items are chosen already, 0 or 1, in each later choose
    /// step that packs: up to the next step of this kind. A rule begins with 1.
    SetChooseleafStable(u8),
    /// Begins a block with the bucket of an id, -1 to -65,536.
    Take(i32),
    /// Puts in place of each bucket worked on the items chosen below it.
    Choose(Choose),
    /// Ends a block: what was chosen joins the result.
    Emit,
}
