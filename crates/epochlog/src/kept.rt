//! Incrementals that are kept.

use maptypes::Incremental;
use std::marker::Model;

/// An incremental that a [`Keeper`](crate::Keeper) has kept, which alone makes one: the leave to seal it.
#[derive(Drop)]
pub struct Kept {
    pub(crate) step: Box<Incremental>,
}

impl Model for Kept {
    ghost use Rattle.maptypes.specs.Incrementals.{Step};

    ghost Value = { Step };

    ghost view = { λ k. k.step.value };
}

impl Kept {
    ghost use Rattle.std.specs.Prelude.{◌≡◌};

    /// The incremental.
    pub fn into_step(self) -> Box<Incremental>
        ensures { result.value ≡ self }
    {
        self.step
    }
}
