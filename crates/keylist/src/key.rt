//! What has a key among its like.

/// What has a key among its like: a number of 64 bits, by which lists are sorted and looked up.
pub trait Keyed: Drop {
    ghost use Rattle.std.specs.Prelude.{◌≡◌, ℕ};

    ghost key_of: { Self → ℕ };

    /// The key.
    fn key(&self) -> u64
        ensures { result ≡ key_of self.now };
}

impl Keyed for u32 {
    ghost key_of = { λ number. number };

    fn key(&self) -> u64 {
        u64::from(*self)
    }
}
