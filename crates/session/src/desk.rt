//! What the sessions of a monitor share.

use epochlog::{Keeps, Nothing};
use monitor::Monitor;
use std::alloc::Global;

/// Where sessions ask: their monitor, what its calls need, and the gate of their lines.
#[derive(Drop)]
pub struct Desk<'a, R, G, K: Keeps + Drop = Nothing> {
    /// Where answers and followers take memory.
    pub alloc: Global,
    /// What the waits for the monitor's lock need.
    pub rt: &'a R,
    /// The monitor.
    pub monitor: &'a Monitor<K>,
    /// What each session asks before a line.
    pub gate: &'a G,
}
