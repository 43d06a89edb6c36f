/// What goes wrong in a call of a link in memory. Reads and writes are numbered apart, each from 0,
/// those that go wrong too.
#[derive(Clone, Copy, Debug, PartialEq, Eq)]
pub enum LinkTrouble {
    /// Each `connect` fails.
    FailConnect,
    /// The read with this number fails.
    FailRead(u64),
    /// The write with this number fails.
    FailWrite(u64),
    /// The read with this number is quiet.
    QuietRead(u64),
}
