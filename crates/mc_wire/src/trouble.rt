/// What goes wrong in a call of a lobby in memory. Nexts and writes are numbered apart, each from
/// 0, those that go wrong too.
#[derive(Clone, Copy, Debug, PartialEq, Eq)]
pub enum Trouble {
    /// Each `listen` fails.
    FailListen,
    /// The `next` with this number fails.
    FailNext(u64),
    /// The write with this number stalls.
    StallWrite(u64),
    /// The write with this number is to a broken connection.
    BreakWrite(u64),
    /// The write with this number takes so many bytes, held to one at least and to the piece.
    ShortWrite(u64, usize),
}
