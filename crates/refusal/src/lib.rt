//! Every refusal of the service, by number and name, and the words in which contracts say when one comes.
//!
//! - `refused`: every refusal, its number and its name
//! - `memory`: the refusal of calls that fail only if memory runs out
#![tactic(auto)]

mod memory;
mod refused;

pub use memory::Memory;
pub use refused::Refusal;
