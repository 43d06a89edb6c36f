use mc_fields::PacketFault;
use mc_frame::FrameFault;

/// Why a client that logs in may not play.
#[derive(Clone, Copy, Debug, PartialEq, Eq)]
pub enum Refusal {
    /// It speaks another protocol than 47.
    Version,
    /// Its name has a character that no name has, or none.
    Name,
    /// A player in play has the same identifier.
    Taken,
    /// As many players are in play as may be, or no entity number is left.
    Full,
}

/// Why a connection was closed.
#[derive(Clone, Copy, Debug, PartialEq, Eq)]
pub enum Cause {
    /// Its bytes can't be cut into frames.
    Frame(FrameFault),
    /// A frame of it spells no packet.
    Packet(PacketFault),
    /// A movement packet has a number that stands for none.
    BadNumber,
    /// It left too many beats without an answer.
    Silent,
    /// It left.
    Gone,
    /// A write to it broke.
    Broke,
    /// It would have been owed more bytes than an outbox holds.
    Backlog,
    /// It may not play.
    Refused(Refusal),
    /// It asked for the status, and its ping was answered.
    Done,
    /// Too many connections were there.
    Crowded,
}
