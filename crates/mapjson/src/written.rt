//! What is written of maps and changes, token by token.

mod change;
mod exceptions;
mod forest;
mod map;
mod pools;
mod value;

pub(crate) use change::write_parts;
pub(crate) use value::WriteJson;
