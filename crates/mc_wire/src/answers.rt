/// What a lobby answers when it is asked for what comes next.
#[derive(Clone, Copy, Debug, PartialEq, Eq)]
pub enum Event {
    /// The connection joined.
    Join(u32),
    /// The connection sent so many bytes, which stand at the front of the buffer.
    Bytes(u32, usize),
    /// The connection left.
    Gone(u32),
    /// A tick came.
    Tick,
    /// Nothing more comes.
    End,
}

/// What a lobby answers to a write.
#[derive(Clone, Copy, Debug, PartialEq, Eq)]
pub enum Wrote {
    /// So many first bytes of the piece were taken, one at least.
    Took(usize),
    /// Nothing was taken this time.
    Stalled,
    /// The connection takes nothing any more.
    Broken,
}

/// What a lobby gives ticks by.
#[derive(Clone, Copy, Debug, PartialEq, Eq)]
pub enum Pace {
    /// A clock, twenty in a second.
    Clock,
    /// Its turns, whenever the connections brought nothing for some of them.
    Turns,
}
