use std::fmt;
use std::fmt::Display;

/// How many rows were played, and how many packets told of others; of a packet about several that
/// are seen no more, each counts.
#[derive(Clone, Copy)]
pub struct Tally {
    pub acts: u32,
    pub ticks: u32,
    pub spawns: u32,
    pub ends: u32,
    pub steps: u32,
    pub turned: u32,
    pub turns: u32,
    pub jumps: u32,
    pub heads: u32,
}

impl Tally {
    /// Nothing.
    pub fn new() -> Tally {
        Tally {
            acts: 0,
            ticks: 0,
            spawns: 0,
            ends: 0,
            steps: 0,
            turned: 0,
            turns: 0,
            jumps: 0,
            heads: 0,
        }
    }
}

/// Counts one more.
pub fn count(number: &mut u32) {
    *number = number.saturating_add(1);
}

impl Display for Tally {
    fn fmt<W: fmt::Write>(&self, f: &mut fmt::Formatter<W>) -> fmt::Result {
        // Dear to prove, for the nine numbers that are written and the ways out between them.
        write!(f, "{} moves, {} ticks: ", self.acts, self.ticks)?;
        write!(f, "each client was told where the others are, by ")?;
        write!(f, "{} spawns, {} ends, ", self.spawns, self.ends)?;
        write!(
            f,
            "{} steps, {} steps with a look, ",
            self.steps, self.turned
        )?;
        write!(f, "{} looks, {} jumps, ", self.turns, self.jumps)?;
        write!(f, "{} heads", self.heads)
    }
}
