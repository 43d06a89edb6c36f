/// What a link answers to a read.
#[derive(Clone, Copy, Debug, PartialEq, Eq)]
pub enum Got {
    /// So many bytes came, one at least, which stand at the front of the buffer.
    Bytes(usize),
    /// Nothing more comes.
    End,
    /// Nothing came this time.
    Quiet,
}
