//! What a reader has seen of a row.
ghost use Rattle.std.specs.Prelude.{◌≡◌, ◌+◌, ◌<◌, ◌≤◌, [], ◌∷◌, ◌++◌, length, vec_len, take, drop, IfSome, IsSome, slice_get};
ghost use Rattle.sealed.specs.History.{Begins, OneBegins, longer};
ghost use Rattle.sealed.specs.Tokens.{cells_of, values_of};

use crate::known::Known;
use once_cell::race::Note;
use std::marker::Model;

/// What a reader has seen of one row: the values of its first cells. It takes a few words, however many those are,
/// and may be shown to many threads.
#[derive(Drop)]
pub struct Pass<T> {
    // What is known of each cell of the row. The first `len` know their value.
    tokens: Vec<Known<T>>,
    len: usize,
}

impl<T> Model for Pass<T> {
    ghost use Rattle.std.specs.Prelude.{◌≡◌, length};
    ghost use Rattle.sealed.specs.History.{PassFacts};
    ghost use Rattle.sealed.specs.Tokens.{cells_of, values_of};

    ghost Value = { PassFacts T };

    ghost view = { λ p. record { row = cells_of p.tokens.items; history = values_of p.len p.tokens.items } };

    ghost invariant = { λ p. length (values_of p.len p.tokens.items) ≡ p.len };
}

// Two who know the values of the same first cells know the same values.
fn agree<T>(mine: &Vec<Known<T>>, theirs: &Vec<Known<T>>, count: usize)
    requires cells { cells_of mine.now.items ≡ cells_of theirs.now.items }
    requires mine { length (values_of count mine.now.items) ≡ count }
    requires theirs { length (values_of count theirs.now.items) ≡ count }
    ensures { values_of count mine.now.items ≡ values_of count theirs.now.items }
{
    for i in 0..count {
        mine[i].agrees(&theirs[i]);
    }
}

// The first tokens of one become those of another.
fn copy<T>(mine: &mut Vec<Known<T>>, theirs: &Vec<Known<T>>, count: usize)
    requires mine { count ≤ vec_len mine.old }
    requires theirs { count ≤ vec_len theirs.now }
    ensures { mine.new.items ≡ take count theirs.now.items ++ drop count mine.old.items }
{
    for i in 0..count {
        mine[i] = theirs[i].again();
    }
}

impl<T> Pass<T> {
    /// A pass that has seen nothing.
    pub(crate) fn unread(tokens: Vec<Known<T>>) -> Pass<T>
        ensures row { result.row ≡ cells_of tokens.items }
        ensures history { result.history ≡ [] }
    {
        Pass { tokens, len: 0 }
    }

    /// How many values it has seen, at most as many as the row has cells.
    pub fn len(&self) -> usize
        ensures len { result ≡ length self.now.history }
        ensures within { length self.now.history ≤ length self.now.row }
    {
        self.len
    }

    /// How many cells the row has.
    pub fn capacity(&self) -> usize
        ensures { result ≡ length self.now.row }
    {
        self.tokens.len()
    }

    /// What is known of a value that it has seen.
    pub(crate) fn token(&self, index: usize) -> &Known<T>
        requires { index < length self.now.history }
        ensures cell { slice_get self.now.row index ≡ Some result.now.cell }
        ensures known { result.now.known ≡ slice_get self.now.history index }
    {
        &self.tokens[index]
    }

    /// Adds what a note knows of the next cell.
    pub(crate) fn grow(&mut self, note: &mut Note<T>)
        requires cell { slice_get self.old.row (length self.old.history) ≡ Some note.old.cell }
        requires known { IsSome note.old.known }
        ensures row { self.new.row ≡ self.old.row }
        ensures history { IfSome note.old.known (λ x. self.new.history ≡ self.old.history ++ x ∷ []) }
    {
        self.tokens[self.len] = Known::of(note);
        self.len += 1;
    }

    /// After it the history of one is known to begin the history of the other.
    pub fn meet(&self, other: &Pass<T>)
        requires { self.now.row ≡ other.now.row }
        ensures { OneBegins self.now.history other.now.history }
    {
        let both = self.len.min(other.len);
        agree(&self.tokens, &other.tokens, both);
    }

    /// The history becomes the longer of the two, which the shorter begins.
    pub fn join(&mut self, other: &Pass<T>)
        requires { self.old.row ≡ other.now.row }
        ensures row { self.new.row ≡ self.old.row }
        ensures history { self.new.history ≡ longer self.old.history other.now.history }
        ensures mine { Begins self.old.history self.new.history }
        ensures theirs { Begins other.now.history self.new.history }
    {
        self.meet(other);
        if self.len < other.len {
            copy(&mut self.tokens, &other.tokens, other.len);
            self.len = other.len;
        }
    }
}
