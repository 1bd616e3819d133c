//! Stores that find no memory, fail or do not forget, by examples.

use crate::examples::incremental;
use epochlog::{Keeper, Keeps, NotKept, Nothing};
use maptypes::Incremental;
use std::alloc::Global;
use std::test::Fail;

// Takes one incremental, then finds no memory for one, and then fails; it counts how often it is asked. Nothing is
// known of what it holds.
#[derive(Drop)]
struct Narrow {
    asked: u8,
}

impl Keeps for Narrow {
    ghost use Rattle.std.specs.Prelude.{⊤};

    ghost holds = { λ _ _. ⊤ };

    ghost may_leave = { λ _ _. ⊥ };

    ghost may_fail = { ⊤ };

    ghost settled = { λ _ _ _ _ may. absurd may };

    fn keep(&mut self, _step: &Incremental) -> Result<(), NotKept> {
        self.asked = self.asked.saturating_add(1);
        match self.asked {
            1 => Ok(()),
            2 => Err(NotKept::Memory),
            _ => Err(NotKept::Failed),
        }
    }

    fn forgets(&self) -> bool {
        false
    }
}

#[test]
fn a_failed_store_is_asked_nothing_more(rt: HostRuntime) {
    let mut keeper = Keeper::new(Narrow { asked: 0 });
    let mut answers = [0; 5];
    for answer in &mut answers {
        if let Some(step) = incremental(rt.alloc(), 2) {
            *answer = keeper
                .keep(step)
                .err()
                .map_or(1, |refused| refused.number());
        }
    }
    assert_eq!(rt; answers, [1, 30, 35, 35, 35]);
    assert_eq!(rt; keeper.store().asked, 3);
}

// What a keeper answers that is asked to keep an incremental: the number of the refusal, or 1.
fn ask<K: Keeps + Drop>(keeper: &mut Keeper<K>, alloc: Global) -> u8 {
    let Some(step) = incremental(alloc, 2) else {
        return 30;
    };
    keeper
        .keep(step)
        .err()
        .map_or(1, |refused| refused.number())
}

// What the keeper of a store answers before and after it forgets an incremental.
fn ask_around_forget<K: Keeps + Drop>(store: K, alloc: Global) -> [u8; 2] {
    let mut keeper = Keeper::new(store);
    let before = ask(&mut keeper, alloc);
    keeper.forget();
    [before, ask(&mut keeper, alloc)]
}

#[test]
fn a_store_that_holds_what_is_forgotten_counts_as_failed(rt: HostRuntime) {
    assert_eq!(rt; ask_around_forget(Narrow { asked: 0 }, rt.alloc()), [1, 35]);
    assert_eq!(rt; ask_around_forget(Nothing, rt.alloc()), [1, 1]);
}
