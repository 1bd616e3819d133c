//! Who is told that a store has failed, or that the journal of a run is full, and who signs each change.

use journalstore::StoreError;
use std::alloc::AllocError;
use std::io::Stderr;
use std::sync::Arc;
use std::sync::atomic::{AtomicBool, Ordering};
use std::time::Clock;

/// Tells on standard error that a store has failed, and that the journal of a run is nearly full and full, and notes
/// it. Others may note it together. It signs each change, with the time and the word of whoever makes it.
#[derive(Drop)]
pub struct Witness {
    stderr: Stderr,
    /// Set once a store has failed.
    failed: Arc<AtomicBool>,
    /// Set once the journal is full.
    full: Arc<AtomicBool>,
    /// How many changes the journal has room for.
    journal: u32,
    /// What has the machine's clock.
    rt: HostRuntime,
    /// The word of whoever makes the changes, where there is one.
    by: Option<String>,
}

impl Witness {
    /// One who has seen nothing yet of a run whose journal has room for so many changes, and has no word.
    ///
    /// # Errors
    ///
    /// Memory is short.
    pub fn new(rt: &HostRuntime, journal: u32) -> Result<Witness, AllocError> {
        Ok(Witness {
            stderr: rt.stderr(),
            failed: Arc::new(rt.alloc(), AtomicBool::new(false))?,
            full: Arc::new(rt.alloc(), AtomicBool::new(false))?,
            journal,
            rt: *rt,
            by: None,
        })
    }

    /// Another who notes what this one notes, and has no word.
    ///
    /// # Errors
    ///
    /// There are too many.
    pub fn again(&self) -> Result<Witness, AllocError> {
        Ok(Witness {
            stderr: self.stderr,
            failed: Arc::try_clone(&self.failed)?,
            full: self.full_mark()?,
            journal: self.journal,
            rt: self.rt,
            by: None,
        })
    }

    /// The same with a word, by which changes are signed. Where it has a space they are not signed at all.
    ///
    /// # Errors
    ///
    /// Memory is short.
    pub fn signing(self, word: &str) -> Result<Witness, AllocError> {
        let by = String::from_str(self.rt.alloc(), word)?;
        Ok(Witness {
            by: Some(by),
            ..self
        })
    }

    /// What is set once the journal is full.
    ///
    /// # Errors
    ///
    /// There are too many who have it.
    pub fn full_mark(&self) -> Result<Arc<AtomicBool>, AllocError> {
        Ok(Arc::try_clone(&self.full)?)
    }

    /// Milliseconds since 1970 by the machine's clock; 0 where it tells none.
    fn now(&self) -> u64 {
        match self.rt.since_1970() {
            Ok(time) => u64::try_from(time.as_millis()).unwrap_or(0),
            Err(_) => 0,
        }
    }

    /// The note of a change that is made now in a store of this life.
    pub(crate) fn sign(&self, life: i64) -> Result<String, AllocError> {
        let made = self.now();
        match &self.by {
            Some(by) => format!(in self.rt.alloc(); "life={life},made={made},by={by} "),
            None => format!(in self.rt.alloc(); "life={life},made={made} "),
        }
    }

    /// Tells why a store has failed: a line on standard error.
    pub(crate) fn tell(&self, error: StoreError) {
        let _ = eprint!(self.stderr; "store: {error}\n");
        self.failed.store(true, Ordering::SeqCst);
    }

    /// Tells where the journal is nine tenths full, and where it is full, by how many changes the run has made.
    pub(crate) fn count(&self, made: u64) {
        let most = u64::from(self.journal);
        if made == most {
            let _ = eprint!(self.stderr; "journal: full, so this run takes no more changes\n");
            self.full.store(true, Ordering::SeqCst);
        } else if made == most * 9 / 10 {
            let _ = eprint!(self.stderr; "journal: {made} of {most} changes\n");
        }
    }

    /// Whether one of those who note together has seen a failure.
    pub fn has_seen_failure(&self) -> bool {
        self.failed.load(Ordering::SeqCst)
    }

    /// Whether one of those who note together has seen that the journal is full.
    pub fn has_seen_full(&self) -> bool {
        self.full.load(Ordering::SeqCst)
    }
}
