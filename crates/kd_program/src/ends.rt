use kd_loops::{Sink, Source};

/// The standard streams of a command.
#[derive(Drop)]
pub struct StandardEnds<R: Source, O: Sink, E: Sink> {
    /// Standard input.
    pub input: R,
    /// Standard output.
    pub output: O,
    /// Standard error.
    pub faults: E,
}
