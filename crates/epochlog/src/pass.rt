//! What a reader has seen of a row of epochs.
ghost use Rattle.std.specs.Prelude.{◌≡◌, ◌+◌, ◌≤◌, length};
ghost use Rattle.epochlog.specs.Epochs.{Begins, OneBegins, longer, IsNumbered, epoch_of};

use maptypes::Incremental;
use std::marker::Model;

/// What a reader has seen of one row: the incrementals of its first epochs, without a gap. It takes a few words,
/// however many those are, and may be shown to many threads.
#[derive(Drop)]
pub struct Pass {
    pub(crate) first: u64,
    pub(crate) seen: sealed::Pass<Incremental>,
}

impl Model for Pass {
    ghost use Rattle.epochlog.specs.Epochs.{Seen, IsNumbered, IsRowSize};
    ghost use Rattle.std.specs.Prelude.{length};

    ghost Value = { Seen };

    ghost view = { λ p. record { row = record { first = p.first; cells = p.seen.row }; history = p.seen.history } };

    ghost invariant = { λ p. IsNumbered p.first p.seen.history × IsRowSize p.first (length p.seen.row) };
}

impl Pass {
    /// The epoch of the last incremental that it has seen, and the row's first epoch where it has seen none.
    pub fn epoch(&self) -> u64
        ensures epoch { result ≡ epoch_of self.now }
        ensures place { result ≡ self.now.row.first + length self.now.history }
        ensures numbered { IsNumbered self.now.row.first self.now.history }
        ensures within { length self.now.history ≤ length self.now.row.cells }
    {
        self.first + self.seen.len() as u64
    }

    /// After it the history of one is known to begin the history of the other.
    pub fn meet(&mut self, other: &mut Pass)
        requires { self.old.row ≡ other.old.row }
        ensures mine { self.new ≡ self.old }
        ensures theirs { other.new ≡ other.old }
        ensures begins { OneBegins self.old.history other.old.history }
    {
        self.seen.meet(&other.seen);
    }

    /// The history becomes the longer of the two, which the shorter begins.
    pub fn join(&mut self, other: &Pass)
        requires { self.old.row ≡ other.now.row }
        ensures row { self.new.row ≡ self.old.row }
        ensures history { self.new.history ≡ longer self.old.history other.now.history }
        ensures mine { Begins self.old.history self.new.history }
        ensures theirs { Begins other.now.history self.new.history }
    {
        self.seen.join(&other.seen);
    }
}
