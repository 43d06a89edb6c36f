use mc_bytes::NoMemory;
use std::fmt;
use std::fmt::Display;

/// What is wrong behind a row.
#[derive(Clone, Copy)]
pub enum Fault {
    NoMemory,
    /// The row is none.
    Row,
    /// Items were lost or made.
    Items,
    /// A client was told something else than the rows say.
    Told(u32, &'static str),
    /// A client was told another window, or another pile at a place.
    Pane(u32, usize),
}

impl From<NoMemory> for Fault {
    fn from(_: NoMemory) -> Fault {
        Fault::NoMemory
    }
}

impl Display for Fault {
    fn fmt<W: fmt::Write>(&self, f: &mut fmt::Formatter<W>) -> fmt::Result {
        // Dear to prove, for five arms that each write a text of their own.
        match self {
            Fault::NoMemory => write!(f, "out of memory"),
            Fault::Row => write!(f, "no such row"),
            Fault::Items => write!(f, "items were lost or made"),
            Fault::Told(client, what) => write!(f, "{client} was told {what}"),
            Fault::Pane(client, place) => write!(f, "{client} was told another pile at {place}"),
        }
    }
}

/// A fault, and the number of the row behind which it was found.
#[derive(Clone, Copy)]
pub struct Stop {
    pub number: u32,
    pub fault: Fault,
}

impl Display for Stop {
    fn fmt<W: fmt::Write>(&self, f: &mut fmt::Formatter<W>) -> fmt::Result {
        write!(f, "row {}: {}", self.number, self.fault)
    }
}
