//! What a session asks before each command.

/// Says whether a session may go on.
pub trait Gate {
    ghost use Rattle.std.specs.Prelude.{◌≡◌, ℕ, Bool, true};

    /// The answers that may come for the line of a number.
    ghost lets: { Self → ℕ → Bool → Type 0 };

    /// Whether the line of this number, from 1, may be done. A session asks before each line that is not empty; `false`
    /// ends it.
    fn pass(&self, line: u64) -> bool
        ensures { lets self.now line result };

    /// Whether it lets every line through at once. A session does not ask such a gate while it holds the lock for
    /// several lines; another gate it asks before it takes the lock for a line.
    fn is_open(&self) -> bool
        ensures { result ≡ true → (line : ℕ) → lets self.now line true };
}

/// The gate that lets every line through.
#[derive(Clone, Copy, Debug, PartialEq, Eq)]
pub struct Open;

impl Gate for Open {
    ghost use Rattle.std.specs.Prelude.{◌≡◌, true};

    ghost lets = { λ _ _ passes. passes ≡ true };

    fn pass(&self, _line: u64) -> bool {
        true
    }

    fn is_open(&self) -> bool {
        true
    }
}
