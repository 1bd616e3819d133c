//! Why an incremental is not sealed.

ghost use Rattle.std.specs.Prelude.{◌≡◌, codes};

use refusal::Refusal;
use std::fmt;
use thiserror::Error;

/// 32: the cell of the epoch did not take the incremental.
#[derive(Clone, Copy, Debug, PartialEq, Eq, Error)]
pub struct NotSealed;

impl NotSealed {
    /// Its number.
    pub fn number(&self) -> u8
        ensures { result ≡ 32 }
    {
        32
    }

    /// Its name.
    pub fn name(&self) -> &'static str
        ensures { result.now ≡ codes "NotSealed" }
    {
        "NotSealed"
    }
}

impl fmt::Display for NotSealed {
    ghost use Rattle.std.specs.Prelude.{Some, codes};

    ghost output = { λ _. Some (codes "NotSealed") };

    fn fmt<W: fmt::Write>(&self, f: &mut fmt::Formatter<W>) -> fmt::Result {
        f.write_str(self.name())
    }
}

impl From<NotSealed> for Refusal {
    ghost use Rattle.std.specs.Prelude.{◌≡◌};
    ghost use Rattle.refusal.specs.declared.refused.Refusal.TheVariants.{NotSealed as Untaken};

    ghost from_gives = { λ _ r. r ≡ Untaken };

    fn from(_not_sealed: NotSealed) -> Refusal {
        Refusal::NotSealed
    }
}
