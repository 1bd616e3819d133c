//! The steps that parts within the limits state.

ghost use Rattle.std.specs.Prelude.{◌≡◌, true, map, IfOk};
ghost use Rattle.std.specs.List.{list_all};
ghost use Rattle.mapparts.specs.Parts.{step_fits};
ghost use Rattle.maptypes.specs.Values.{step_of};

use crush::{Choose, Step};
use mapparts::StepPart;
use mapparts::numbers::{byte, item_id};
use std::alloc::{AllocError, Global};

/// The step that a part within the limits states.
fn step_of(part: &StepPart) -> Step
    requires { step_fits part.now ≡ true }
    ensures { result ≡ step_of part.now }
{
    match part {
        StepPart::SetChooseTries(tries) => Step::SetChooseTries(byte(*tries)),
        StepPart::SetChooseleafTries(tries) => Step::SetChooseleafTries(byte(*tries)),
        StepPart::SetChooseleafVaryR(vary) => Step::SetChooseleafVaryR(byte(*vary)),
        StepPart::SetChooseleafStable(stable) => Step::SetChooseleafStable(byte(*stable)),
        StepPart::Take(bucket) => Step::Take(item_id(*bucket)),
        StepPart::Choose(choose) => Step::Choose(Choose {
            mode: choose.mode,
            to_leaf: choose.to_leaf,
            count: byte(choose.count),
            level: byte(choose.level),
        }),
        StepPart::Emit => Step::Emit,
    }
}

/// The steps that parts within the limits state, in their order.
pub(crate) fn steps_of(alloc: Global, parts: &[StepPart]) -> Result<Vec<Step>, AllocError>
    requires { list_all step_fits parts.now ≡ true }
    ensures { IfOk result (λ steps. steps.items ≡ map step_of parts.now) }
{
    let mut steps = Vec::with_capacity(alloc, parts.len())?;
    for part in parts {
        steps.push(step_of(part))?;
    }
    Ok(steps)
}
