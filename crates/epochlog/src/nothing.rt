//! The store of a monitor that keeps its journal in memory alone.

use crate::keeps::{Keeps, NotKept};
use maptypes::Incremental;

/// Keeps nothing, and never fails: a crash leaves no journal.
#[derive(Clone, Copy, Debug, Drop)]
pub struct Nothing;

impl Keeps for Nothing {
    ghost use Rattle.std.specs.Prelude.{⊤};

    ghost holds = { λ _ _. ⊤ };

    ghost may_leave = { λ _ _. ⊥ };

    ghost may_fail = { ⊥ };

    ghost settled = { λ _ _ _ _ may. absurd may };

    fn keep(&mut self, _step: &Incremental) -> Result<(), NotKept> {
        Ok(())
    }

    fn forgets(&self) -> bool {
        true
    }
}
