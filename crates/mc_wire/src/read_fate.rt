/// What becomes of a read of a link in memory.
#[derive(Clone, Copy)]
pub enum ReadFate {
    /// It gives what is left.
    Goes,
    /// It is quiet.
    Rests,
    /// It fails.
    Fails,
}
