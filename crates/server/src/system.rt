//! The runtimes of a run.

/// What a run has of the machine.
#[derive(Drop)]
pub struct System<'a, R> {
    /// What threads, waits, memory and what is told need.
    pub rt: &'a R,
    /// What opens the files of live sessions, and has standard input and output.
    pub host: &'a HostRuntime,
}
