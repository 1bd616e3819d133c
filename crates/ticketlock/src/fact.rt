//! What is stated of the values of a lock.

/// A type whose values lie in a lock. Its fact is stated of the value that the lock was made with and a present one;
/// each value that a guard lends first and each value that is put back meets it.
pub trait Fact {
    /// The fact, of the first value and the present one.
    ghost fact: { Self → Self → Type 0 };
}
