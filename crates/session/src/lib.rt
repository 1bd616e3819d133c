//! A session: a script of commands, and the answers to them.
//!
//! - `command`, `parse`, `line`: what a line may ask for, how it is read, and the lines of a text
//! - `desk`, `gate`, `progress`: what sessions share, what lets a line through, and what a session has of its own
//! - `asking`, `following`, `watch`: how a command is done at the monitor and by the follower; the looks of an `await`
//! - `pool_sets`: the up sets of all groups of a pool, as text
//! - `reply`, `text`, `telling`, `sink`: the line of an answer, and how it is put where answers go
//! - `lines`, `holding`: one line after another, and questions that follow one another in one hold of the lock
//! - `session`, `reading`: a script that is there, and one whose lines come while it runs
//! - `error`: why a session stops before its end
#![tactic(auto)]

mod asking;
mod command;
mod desk;
mod error;
mod following;
mod gate;
mod holding;
mod line;
mod lines;
mod parse;
mod pool_sets;
mod progress;
mod reading;
mod reply;
mod session;
mod sink;
mod telling;
mod text;
mod watch;

pub use desk::Desk;
pub use error::SessionError;
pub use gate::{Gate, Open};
pub use sink::{Buffer, Sink, WriteFailed, write_whole};
