//! What befalls a lock, and what a seat knows of it. Contracts alone speak of these: no value of them is made.

use std::collections::LinkedList;

/// What a ticket is drawn for.
pub enum Kind {
    /// To share the value with other readers.
    Read,
    /// To have the value alone.
    Write,
}

/// Where a seat stands, with its ticket.
pub enum Stage {
    /// It has no ticket.
    Idle,
    /// It waits with a ticket.
    Waiting(u64, Kind),
    /// It has seen its ticket in the reader word, and is the next to enter.
    Next(u64),
    /// It has entered to read: it holds the lock.
    Reading(u64),
    /// It has seen its ticket in the writer word: it holds the lock alone.
    Writing(u64),
    /// It has written, and has let the next reader enter.
    Closing(u64),
}

/// The view of a seat.
pub struct View {
    /// Where it stands.
    pub stage: Stage,
    /// How often it has drawn.
    pub draws: u64,
    /// How often it has looked.
    pub looks: u64,
    /// The word that its last look found.
    pub noted: u64,
    /// How many seats may still be cut off from it.
    pub spare: u64,
}

/// A step of a seat.
pub enum Step {
    /// It draws a ticket.
    Draws(Kind),
    /// It looks at the reader word.
    ReaderLooks,
    /// It looks at the writer word.
    WriterLooks,
    /// It enters to read.
    ReaderEnters,
    /// It has read, and leaves.
    ReaderLeaves,
    /// It has written, and lets the next reader enter.
    WriterCloses,
    /// It leaves, and lets the next writer enter.
    WriterLeaves,
}

/// What befalls a lock.
pub enum Event {
    /// The seat of this number takes a step.
    Took(Step, u64),
    /// Another seat is cut off from the seat of this number.
    CutOff(u64),
}

/// What a seat knows of its lock.
pub struct Sight {
    /// Where it stands.
    pub view: View,
    /// All events up to its last step.
    pub seen: LinkedList<Event>,
    /// The steps that it has taken.
    pub mine: LinkedList<Step>,
}
