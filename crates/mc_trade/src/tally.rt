use std::fmt;
use std::fmt::Display;

/// How many rows were played, and how many packets told of windows and cells.
#[derive(Clone, Copy)]
pub struct Tally {
    pub events: u32,
    pub ticks: u32,
    pub opened: u32,
    pub closed: u32,
    pub windows: u32,
    pub slots: u32,
    pub answers: u32,
    pub changes: u32,
    pub several: u32,
}

impl Tally {
    /// Nothing.
    pub fn new() -> Tally {
        Tally {
            events: 0,
            ticks: 0,
            opened: 0,
            closed: 0,
            windows: 0,
            slots: 0,
            answers: 0,
            changes: 0,
            several: 0,
        }
    }
}

/// Counts one more.
pub fn count(number: &mut u32) {
    *number = number.saturating_add(1);
}

impl Display for Tally {
    fn fmt<W: fmt::Write>(&self, f: &mut fmt::Formatter<W>) -> fmt::Result {
        // Dear to prove, for the nine numbers that are written and the ways out between them.
        write!(f, "{} events, {} ticks: ", self.events, self.ticks)?;
        write!(f, "each client was told its window and the cells, by ")?;
        write!(f, "{} windows that opened, ", self.opened)?;
        write!(
            f,
            "{} that closed, {} whole ones, ",
            self.closed, self.windows
        )?;
        write!(f, "{} slots, {} answers, ", self.slots, self.answers)?;
        write!(f, "{} cells, {} of several", self.changes, self.several)
    }
}
