//! A lock whose callers draw tickets: readers share the locked value, a writer has it alone, and each value that is
//! lent or put back meets a fact that its type states. `specs/Rule.antt` has the words, the steps and their rule.
//!
//! - `lock`, `limits`, `error`: the lock and its seats, its limits, and why none is made
//! - `fact`: what is stated of the values of a lock
//! - `tokens`, `turn`: the tokens of a caller, and a turn of either kind
//! - `reading`, `writing`: the way of a reader, and that of a writer
//! - `read_guard`, `write_guard`: what shares the lock, and what has it alone
//! - `waiting`, `patience`: the calls that wait, and what a caller does between two tries
//! - `table`, `words`: the lock's words and the rule over them, and the steps on the words
//! - `slots`: the value, in one of two slots
//! - `view`, `laws`: what a seat knows of the lock, and the laws of the lock's steps
//! - `tests`, `tests/steps`, `tests/threads`: that the calls get through, in one thread and in several
#![tactic(auto)]

pub mod error;
pub mod fact;
pub mod laws;
pub mod limits;
pub mod lock;
mod patience;
pub mod read_guard;
mod reading;
mod slots;
mod table;
#[cfg(test)]
mod tests;
pub mod tokens;
pub mod turn;
pub mod view;
mod waiting;
mod words;
pub mod write_guard;
mod writing;

pub use error::LockError;
pub use fact::Fact;
pub use laws::{interleavings, sharing};
pub use lock::{Ended, Lock};
pub use read_guard::ReadGuard;
pub use tokens::{QueuedRead, QueuedWrite, Seat, TurnRead, TurnWrite};
pub use turn::Turn;
pub use words::LastWords;
pub use write_guard::WriteGuard;
