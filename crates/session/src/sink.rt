//! Where the answers of a session go.
ghost use Rattle.std.specs.Prelude.{◌≡◌, ◌++◌, ℕ, List, false, OnOk, OnErr, is_err};
ghost use Rattle.session.specs.Sinks.{HasPut};

use std::alloc::Global;
use thiserror::Error;

/// A write that failed.
#[derive(Clone, Copy, Debug, PartialEq, Eq, Error)]
#[error("the write failed")]
pub struct WriteFailed;

/// Takes the bytes of answers.
pub trait Sink {
    ghost use Rattle.std.specs.Prelude.{◌≡◌, ℕ, List, Bool, true, false, OnOk, is_err};
    ghost use Rattle.session.specs.Sinks.{is_refused, PutsFirst};

    /// The bytes put so far.
    ghost written: { Self → List ℕ };

    /// Whether a write has failed, or has taken nothing of a text that is not empty.
    ghost has_failed: { Self → Bool };

    /// Whether a write may wait for somebody.
    ghost waits: { Self → Bool };

    /// Whether bytes that were put may not be out yet.
    ghost holds_back: { Self → Bool };

    /// Whether so many are not out yet that a session is to have them out before the next line.
    ghost is_filled: { Self → Bool };

    /// Puts the first of the bytes behind those before, and answers how many.
    ///
    /// # Errors
    ///
    /// `WriteFailed` where the write fails: it puts none, and no other may follow it.
    fn write(&mut self, bytes: &[u8]) -> Result<usize, WriteFailed>
        requires { has_failed self.old ≡ false }
        ensures puts { PutsFirst (written self.old) bytes.now (written self.new) result }
        ensures fails { has_failed self.new ≡ is_refused bytes.now result }
        ensures waits { waits self.new ≡ waits self.old };

    /// Whether a write has failed, or has taken nothing of a text that is not empty.
    fn failed(&self) -> bool
        ensures { result ≡ has_failed self.now };

    /// Whether a write may wait for somebody. A session puts no answer to such a sink while it holds the lock.
    fn may_wait(&self) -> bool
        ensures { result ≡ waits self.now };

    /// Has all out that was put so far, and may wait for that.
    ///
    /// # Errors
    ///
    /// `WriteFailed` where that fails: no write may follow it.
    fn flush(&mut self) -> Result<(), WriteFailed>
        requires { has_failed self.old ≡ false }
        ensures same { written self.new ≡ written self.old }
        ensures out { OnOk result (holds_back self.new ≡ false) }
        ensures room { OnOk result (is_filled self.new ≡ false) }
        ensures fails { has_failed self.new ≡ is_err result };

    /// Whether so much is held back that a session is to have it out before the next line.
    fn is_full(&self) -> bool
        ensures full { result ≡ is_filled self.now }
        ensures held { result ≡ true → holds_back self.now ≡ true };
}

/// Puts all the bytes.
///
/// # Errors
///
/// `WriteFailed` where the sink has failed. The sink then has a beginning of the bytes.
pub fn write_whole<W: Sink>(sink: &mut W, bytes: &[u8]) -> Result<(), WriteFailed>
    requires { W.has_failed sink.old ≡ false }
    ensures whole { OnOk result (W.written sink.new ≡ W.written sink.old ++ bytes.now) }
    ensures part { OnErr result ((rest : List ℕ) × HasPut (W.written sink.old) bytes.now rest (W.written sink.new)) }
    ensures failed { W.has_failed sink.new ≡ is_err result }
    ensures waits { W.waits sink.new ≡ W.waits sink.old }
{
    let mut rest = bytes;
    while !rest.is_empty() {
        let taken = sink.write(rest)?;
        if taken == 0 {
            return Err(WriteFailed);
        }
        rest = &rest[taken..];
    }
    Ok(())
}

/// A sink that keeps the bytes. It fails where it finds no memory.
#[derive(Debug, Drop)]
pub struct Buffer {
    bytes: Vec<u8>,
    failed: bool,
}

impl Buffer {
    ghost use Rattle.std.specs.Prelude.{◌≡◌, [], false};
    ghost use Rattle.session.specs.Buffers.{bytes_of, is_short};

    /// An empty buffer.
    pub fn new(alloc: Global) -> Buffer
        ensures bytes { bytes_of result ≡ [] }
        ensures failed { is_short result ≡ false }
    {
        Buffer {
            bytes: Vec::new(alloc),
            failed: false,
        }
    }

    /// The bytes put so far.
    pub fn bytes(&self) -> &[u8]
        ensures { result.now ≡ bytes_of self.now }
    {
        &self.bytes
    }
}

impl Sink for Buffer {
    ghost use Rattle.std.specs.Prelude.{false};

    ghost written = { λ b. b.bytes.items };

    ghost has_failed = { λ b. b.failed };

    ghost waits = { λ _. false };

    ghost holds_back = { λ _. false };

    ghost is_filled = { λ _. false };

    fn write(&mut self, bytes: &[u8]) -> Result<usize, WriteFailed> {
        if self.bytes.extend_from_slice(bytes).is_err() {
            self.failed = true;
            return Err(WriteFailed);
        }
        Ok(bytes.len())
    }

    fn failed(&self) -> bool {
        self.failed
    }

    fn may_wait(&self) -> bool {
        false
    }

    fn flush(&mut self) -> Result<(), WriteFailed> {
        Ok(())
    }

    fn is_full(&self) -> bool {
        false
    }
}
