//! The tokens of a caller. Each has a place at the lock's words, whose view says where its seat stands.
ghost use Rattle.std.specs.Prelude.{◌≡◌};
ghost use Rattle.ticketlock.specs.declared.view.Stage.TheVariants.{Idle, Waiting, Reading, Writing};
ghost use Rattle.ticketlock.specs.declared.view.Kind.TheVariants.{Read, Write};
ghost use Rattle.ticketlock.specs.Standing.{stage_of};

use crate::table::Place;
use std::marker::PhantomData;

/// A caller that has no ticket. It may move to another thread, or be dropped.
#[derive(Drop)]
pub struct Seat {
    pub(crate) place: Place,
    pub ghost idle: { stage_of place ≡ Idle },
}

/// A caller that waits to read. It must be spent, and stays in its thread.
pub struct QueuedRead {
    pub(crate) place: Place,
    pub(crate) ticket: u64,
    pub(crate) here: PhantomData<*const ()>,
    pub ghost waits: { stage_of place ≡ Waiting ticket Read },
}

/// A caller that waits to write. It must be spent, and stays in its thread.
pub struct QueuedWrite {
    pub(crate) place: Place,
    pub(crate) ticket: u64,
    pub(crate) here: PhantomData<*const ()>,
    pub ghost waits: { stage_of place ≡ Waiting ticket Write },
}

/// A caller whose turn to read has come. It must be spent, and stays in its thread.
pub struct TurnRead {
    pub(crate) place: Place,
    pub(crate) ticket: u64,
    pub(crate) here: PhantomData<*const ()>,
    pub ghost reads: { stage_of place ≡ Reading ticket },
}

/// A caller whose turn to write has come. It must be spent, and stays in its thread.
pub struct TurnWrite {
    pub(crate) place: Place,
    pub(crate) ticket: u64,
    pub(crate) here: PhantomData<*const ()>,
    pub ghost writes: { stage_of place ≡ Writing ticket },
}
