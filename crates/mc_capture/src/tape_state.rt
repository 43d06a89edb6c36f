/// How far a capture is that a taped lobby writes.
#[derive(Clone, Copy, Debug, PartialEq, Eq)]
pub enum TapeState {
    /// Nothing is written yet.
    Blank,
    /// The head is written, and a record of all that happened since.
    Written,
    /// The sink failed, and nothing more is written to it.
    Failed,
}
