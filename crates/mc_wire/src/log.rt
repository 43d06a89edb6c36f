use mc_bytes::Octets;

/// What a lobby of connections answered or did. A log has these in the order in which they
/// happened; the number in an entry is that of its connection.
#[derive(Drop)]
pub enum LogEntry {
    /// The connection joined.
    Joined(u32),
    /// The connection sent these bytes.
    Came(u32, Octets),
    /// The connection left.
    Left(u32),
    /// A tick came.
    Ticked,
    /// The lobby ended.
    Ended,
    /// These bytes were put to the connection.
    Put(u32, Octets),
    /// A write to the connection stalled.
    Stalled(u32),
    /// A write to the connection broke.
    Broke(u32),
    /// The connection was closed.
    Closed(u32),
}
