use crate::SteadySource;

/// Bytes that came from a connection, some of which were given.
#[derive(Drop)]
pub struct Part {
    /// Whose bytes they are.
    pub from: u32,
    /// Those that were not given yet.
    pub rest: SteadySource,
}
