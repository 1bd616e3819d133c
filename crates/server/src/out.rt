//! A writer as a sink that keeps answers until a session has them out.
ghost use Rattle.std.specs.Prelude.{◌≡◌, ℕ, List, false};
ghost use Rattle.server.specs.Outs.{IsPutOut};

use session::{Sink, WriteFailed};
use std::alloc::Global;
use std::io;
use std::marker::Model;
use std::snapshot::Snapshot;

/// With so many bytes or more a sink is full. It keeps room for as many once they are out.
const FULL: usize = 65_536;

/// Bytes that are not out yet.
#[derive(Drop)]
struct Kept {
    bytes: Vec<u8>,
}

/// The bytes that are out, which only proofs read. It takes no memory.
#[derive(Drop)]
struct Gone {
    ghost bytes: { List ℕ },
}

impl Model for Gone {
    ghost use Rattle.std.specs.Borrow.{ftrue};

    ghost also_owns = { λ _. ftrue };
}

impl Gone {
    ghost use Rattle.std.specs.Prelude.{◌≡◌, [], ◌++◌};

    /// None.
    fn new() -> Gone
        ensures { result.bytes ≡ [] }
    {
        Gone {}
    }

    /// These behind those before.
    fn with(_before: &Gone, _kept: &Kept) -> Gone
        ensures { result.bytes ≡ _before.now.bytes ++ _kept.now.bytes.items }
    {
        Gone {}
    }
}

/// A writer, with the answers that are not out yet. A write keeps bytes, and waits for nobody; `flush` writes them.
/// Until it has failed, the writer has what is out behind what it had at first, where its contents are known.
#[derive(Drop)]
pub struct Out<W: io::Write> {
    to: W,
    first: Snapshot<W>,
    gone: Gone,
    kept: Kept,
    failed: bool,
    short: bool,
    ghost out: { failed ≡ false → IsPutOut gone.bytes (W.contents first.value) (W.contents to) },
}

impl<W: io::Write> Out<W> {
    ghost use Rattle.std.specs.Prelude.{◌≡◌, [], ◌++◌, false};

    /// A sink that nothing has been put to.
    pub fn new(alloc: Global, to: W) -> Out<W>
        ensures failed { result.failed ≡ false }
        ensures none { result.gone.bytes ++ result.kept.bytes.items ≡ [] }
        ensures writer { result.to ≡ to }
        ensures short { result.short ≡ false }
    {
        let first = Snapshot::of(&to);
        Out {
            to,
            first,
            gone: Gone::new(),
            kept: Kept {
                bytes: Vec::new(alloc),
            },
            failed: false,
            short: false,
        }
    }

    /// Whether it has failed because memory ran out.
    pub fn is_short(&self) -> bool
        ensures { result ≡ self.now.short }
    {
        self.short
    }
}

impl<W: io::Write> Sink for Out<W> {
    ghost use Rattle.std.specs.Prelude.{◌≡◌, ◌++◌, true, false, OnOk, OnErr, is_err, vec_len};
    ghost use Rattle.session.specs.Sinks.{is_refused, PutsFirst};
    ghost use Rattle.server.specs.Outs.{are_there, are_many};

    ghost written = { λ out. out.gone.bytes ++ out.kept.bytes.items };

    ghost has_failed = { λ out. out.failed };

    ghost waits = { λ _. false };

    ghost holds_back = { λ out. are_there (vec_len out.kept.bytes) };

    ghost is_filled = { λ out. are_many (vec_len out.kept.bytes) };

    /// Keeps the bytes. The writer is not touched, so nobody is waited for.
    fn write(&mut self, bytes: &[u8]) -> Result<usize, WriteFailed>
        requires { self.old.failed ≡ false }
        ensures puts { PutsFirst (self.old.gone.bytes ++ self.old.kept.bytes.items) bytes.now
            (self.new.gone.bytes ++ self.new.kept.bytes.items) result }
        ensures fails { self.new.failed ≡ is_refused bytes.now result }
        ensures waits { self.new.to ≡ self.old.to }
        ensures first { self.new.first ≡ self.old.first }
        ensures short { OnErr result (self.new.short ≡ true) }
    {
        if self.kept.bytes.extend_from_slice(bytes).is_err() {
            self.failed = true;
            self.short = true;
            return Err(WriteFailed);
        }
        Ok(bytes.len())
    }

    fn failed(&self) -> bool
        ensures { result ≡ self.now.failed }
    {
        self.failed
    }

    fn may_wait(&self) -> bool
        ensures { result ≡ false }
    {
        false
    }

    /// Writes what is kept, until all of it is out at the writer.
    fn flush(&mut self) -> Result<(), WriteFailed>
        requires { self.old.failed ≡ false }
        ensures same { self.new.gone.bytes ++ self.new.kept.bytes.items
            ≡ self.old.gone.bytes ++ self.old.kept.bytes.items }
        ensures out { OnOk result (vec_len self.new.kept.bytes ≡ 0) }
        ensures fails { self.new.failed ≡ is_err result }
        ensures first { self.new.first ≡ self.old.first }
        ensures short { self.new.short ≡ self.old.short }
    {
        if self.kept.bytes.is_empty() {
            return Ok(());
        }
        if self.to.write_all(&self.kept.bytes).is_err() {
            self.failed = true;
            return Err(WriteFailed);
        }
        self.gone = Gone::with(&self.gone, &self.kept);
        self.kept.bytes.clear();
        self.kept.bytes.shrink_to(FULL);
        Ok(())
    }

    fn is_full(&self) -> bool
        ensures full { result ≡ are_many (vec_len self.now.kept.bytes) }
        ensures held { result ≡ true → are_there (vec_len self.now.kept.bytes) ≡ true }
    {
        FULL <= self.kept.bytes.len()
    }
}
