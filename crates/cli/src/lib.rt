//! What the programs have in common: the arguments of their command lines, the files that these name, and how a run
//! ends.
//!
//! - `choices`: what a command line asks of sessions, and why it asks for no run
//! - `arguments`: the arguments, and what the parser finds for them
//! - `files`: the files and streams that they name
//! - `ending`, `telling`: how a run ends, and what it tells then
#![tactic(auto)]

mod arguments;
mod choices;
mod ending;
mod files;
mod telling;

pub use arguments::{
    journal_option, line_error, path_in, session_options, stock_option, to_option,
};
pub use choices::{LineError, SessionOptions};
pub use ending::Ending;
pub use files::{check_streams, parts_of, read};
pub use telling::{end_run, put_served, tell_line};
