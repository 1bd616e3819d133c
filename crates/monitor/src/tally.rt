//! How many changes each member has made: a count that the member and the state under the lock know, and that rises
//! only by both. None of it does anything at run time but to find the place of a count that takes no byte.

ghost use Rattle.std.specs.Prelude.{◌≡◌, ◌+◌, length, All, IfOk};
ghost use Rattle.monitor.specs.Tallies.{names_of, total_of, IsTallyOf, IsNewTallyOf};

use refusal::Memory;
use std::alloc::Global;
use tip::{Kept, Mine, pair};

/// How many changes a member has made: its count stands at this place among those of its monitor.
#[derive(Drop)]
pub struct Tally {
    pub(crate) at: usize,
    pub(crate) mine: Mine,
}

/// Counts for so many members, none of whom has made a change, and their tallies.
pub(crate) fn tallies(alloc: Global, members: u32) -> Result<(Vec<Kept>, Vec<Tally>), Memory>
    ensures kept { IfOk result (λ r. length (names_of r.0.items) ≡ members) }
    ensures none { IfOk result (λ r. total_of r.0.items ≡ 0) }
    ensures each { IfOk result (λ r. All (IsNewTallyOf (names_of r.0.items)) r.1.items) }
    ensures many { IfOk result (λ r. length r.1.items ≡ members) }
{
    let mut kept = Vec::with_capacity(alloc, members as usize)?;
    let mut tallies = Vec::with_capacity(alloc, members as usize)?;
    for at in 0..members {
        let (own, mine) = pair();
        kept.push(own)?;
        tallies.push(Tally {
            at: at as usize,
            mine,
        })?;
    }
    Ok((kept, tallies))
}

/// The count of a member rises.
pub(crate) fn raise(kept: &mut Vec<Kept>, tally: &mut Tally, more: u64)
    requires { IsTallyOf (names_of kept.old.items) tally.old }
    ensures names { names_of kept.new.items ≡ names_of kept.old.items }
    ensures total { total_of kept.new.items ≡ total_of kept.old.items + more }
    ensures own { IsTallyOf (names_of kept.new.items) tally.new }
    ensures count { tally.new.mine.count ≡ tally.old.mine.count + more }
{
    kept[tally.at].rise(&mut tally.mine, more);
}

/// That all changes are a member's, where there is no other.
pub(crate) fn agree(kept: &Vec<Kept>, tally: &Tally)
    requires { IsTallyOf (names_of kept.now.items) tally.now }
    ensures { length (names_of kept.now.items) ≡ 1 → tally.now.mine.count ≡ total_of kept.now.items }
{
    kept[tally.at].agrees(&tally.mine);
}
