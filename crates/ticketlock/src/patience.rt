//! What a caller that waits does between two tries.

use crossbeam_utils::Backoff;

/// How often a try follows another at once, before the thread backs off.
const MAX_QUICK_TRIES: u32 = 200;

/// The tries of a caller that waits. The first follow one another at once, since a hold is short; then it backs off,
/// which lets other threads run: the one that is waited for may have no processor.
#[derive(Drop)]
pub(crate) struct Patience {
    tries: u32,
    backoff: Backoff,
}

impl Patience {
    /// Before the first try.
    pub fn new() -> Patience {
        Patience {
            tries: 0,
            backoff: Backoff::new(),
        }
    }

    /// After a try that failed.
    pub fn wait(&mut self) {
        if self.tries < MAX_QUICK_TRIES {
            self.tries += 1;
        } else {
            self.backoff.snooze();
        }
    }
}
