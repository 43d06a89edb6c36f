use crate::others::Told;
use mc_bytes::NoMemory;
use mc_fields::Spot;
use std::fmt;
use std::fmt::Display;

/// What is wrong behind a row.
#[derive(Clone, Copy)]
pub enum Fault {
    NoMemory,
    /// The row is none.
    Row,
    /// A client was sent bytes that are no frame, or a frame that is no packet.
    Packet(u32),
    /// A client was told to see itself, or who it sees already.
    Spawn(u32, i32),
    /// A client was told something of who it does not see.
    Unseen(u32, i32),
    /// A client sees another that is out of its view, or does not see one that is in it.
    View(u32, i32),
    /// A client was told another place or look than those of another.
    Spot(u32, Told, Spot),
}

impl From<NoMemory> for Fault {
    fn from(_: NoMemory) -> Fault {
        Fault::NoMemory
    }
}

impl Display for Fault {
    fn fmt<W: fmt::Write>(&self, f: &mut fmt::Formatter<W>) -> fmt::Result {
        // Dear to prove, for seven arms that each write a text of their own.
        match self {
            Fault::NoMemory => write!(f, "out of memory"),
            Fault::Row => write!(f, "no such row"),
            Fault::Packet(client) => write!(f, "{client} was sent no packet"),
            Fault::Spawn(client, eid) => write!(f, "{client} was told that {eid} comes"),
            Fault::Unseen(client, eid) => write!(
                f,
                "{client} was told of {eid}, which it does not see"
            ),
            Fault::View(client, eid) => write!(f, "{client} sees {eid}, or is to see it"),
            Fault::Spot(client, told, spot) => put_spots(*client, told, spot, f),
        }
    }
}

/// Writes where a client was told that another is, and where that is.
fn put_spots<W: fmt::Write>(
    client: u32,
    told: &Told,
    spot: &Spot,
    f: &mut fmt::Formatter<W>,
) -> fmt::Result {
    write!(f, "{client} was told of {}: ", told.eid)?;
    put_spot(&told.spot, f)?;
    write!(f, " head {}, and it is at ", told.head)?;
    put_spot(spot, f)
}

/// Writes a place and a look.
fn put_spot<W: fmt::Write>(spot: &Spot, f: &mut fmt::Formatter<W>) -> fmt::Result {
    write!(f, "{} {} {} ", spot.x, spot.y, spot.z)?;
    write!(f, "{} {}", spot.yaw, spot.pitch)
}

/// A fault, and the number of the row behind which it was found.
#[derive(Clone, Copy)]
pub struct Stop {
    pub number: u32,
    pub fault: Fault,
}

impl Display for Stop {
    fn fmt<W: fmt::Write>(&self, f: &mut fmt::Formatter<W>) -> fmt::Result {
        write!(f, "row {}: {}", self.number, self.fault)
    }
}
