//! Sessions over the map of a monitor, whose journal any store may keep: scripts that are there, and live sessions of
//! files and streams, a thread for each.
//!
//! - `part`: where a session's lines come from and its answers go
//! - `runs`, `players`: a run of sessions, and their threads
//! - `playing`, `left`: what one thread plays, and what is left of its session
//! - `system`: what a run has of the machine
//! - `out`, `until`: a writer as a sink, and a reader that ends at a mark
//! - `failure`, `fault`: what of a live session fails, and why nothing is served
#![tactic(auto)]

mod failure;
mod fault;
mod left;
mod out;
mod part;
mod players;
mod playing;
mod runs;
mod system;
mod until;

pub use failure::Failure;
pub use fault::Fault;
pub use part::{Part, Source, Streams, Target};
pub use runs::{First, MAX_SCRIPTS, Terms, serve, serve_map};
pub use system::System;
