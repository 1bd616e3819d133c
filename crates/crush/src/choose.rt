//! What choosing goes by and comes to.

use buckets::Bucket;

/// How often a choose step tries, and from which replica number on a step that packs seeks a leaf.
#[derive(Clone, Copy, Debug)]
pub struct Tries {
    /// How many descents there are for each replica or position.
    pub total: u8,
    /// How many descents there are below each chosen bucket for its leaf.
    pub leaf: u8,
    /// What the replica number of a bucket adds to that of its leaf: nothing at 0, else the number halved once less
    /// often than this says.
    pub vary: u8,
    /// Whether that is all, where this is not 0. Where it is 0, how many items are chosen already is added.
    pub stable: u8,
}

/// An item that a bucket picked, and the replica number with which it did.
#[derive(Clone, Copy)]
pub struct Picked {
    /// The item: a device where it is not negative, else a bucket.
    pub item: i32,
    /// The replica number, below 2^31.
    pub r: u32,
}

/// An item that was chosen, and its leaf.
#[derive(Clone, Copy, Debug)]
pub struct Choice {
    /// The item: a device where it is not negative, else a bucket.
    pub item: i32,
    /// The device that was taken below it: the item itself where the step takes no leaves.
    pub leaf: i32,
}

/// What one try for a replica comes to.
#[derive(Clone, Copy)]
pub enum Attempt {
    /// The replica is given up: the picks led to a device where another type is wanted.
    Abandoned,
    /// Another try may do better.
    Failed,
    /// An item for the replica.
    Chosen(Choice),
}

/// A position of a placement that keeps its positions.
#[derive(Clone, Copy)]
pub enum Position {
    /// Still to be filled.
    Open,
    /// Never to be filled: the picks led to a device where another type is wanted.
    Hole,
    /// Held by an item.
    Filled(Choice),
}

/// The replica numbers of a descent: `base`, and further on each round.
#[derive(Clone, Copy)]
pub(crate) struct Draw {
    pub numrep: u8,
    pub base: u32,
    pub round: u8,
}

impl Draw {
    ghost use Rattle.std.specs.Prelude.{◌≡◌, ◌+◌, ◌^◌, ◌<◌, ◌≤◌};
    ghost use Rattle.crush.specs.Indep.{replica_number};

    /// The replica number at a bucket.
    #[tactic(auto, unfolding(crate::specs::Indep::replica_number))]
    pub(crate) fn at(self, bucket: &Bucket) -> u32
        requires some { 0 < self.numrep }
        requires fits { self.base < 2 ^ 31 }
        ensures value { result ≡ replica_number self.numrep self.base self.round bucket.now }
        ensures small { result ≤ self.base + 65280 }
    {
        if self.round == 0 {
            return self.base;
        }
        self.base + bucket.stride(self.numrep) * u32::from(self.round)
    }
}

impl Position {
    ghost use Rattle.std.specs.Prelude.{◌≡◌, true, None};
    ghost use Rattle.crush.specs.Indep.{is_open, leaf_at};

    /// Whether the position is still to be filled.
    pub fn is_open(self) -> bool
        ensures value { result ≡ is_open self }
        ensures empty { result ≡ true → leaf_at self ≡ None }
    {
        matches!(self, Position::Open)
    }

    /// The device of a filled position.
    pub fn leaf(self) -> Option<i32>
        ensures { result ≡ leaf_at self }
    {
        match self {
            Position::Filled(choice) => Some(choice.leaf),
            Position::Open | Position::Hole => None,
        }
    }
}
