ghost use Rattle.std.specs.Prelude.{◌≡◌, ◌-◌};
ghost use Rattle.mc_devices.specs.Limits.{first_allowance, next_allowance};

use super::limits::{ALLOWANCE_MAX, ALLOWANCE_STALLED, ALLOWANCE_TICK};
use std::marker::Model;

/// How many bytes may still be read from a connection. It grows at each tick, so that who sends
/// little is read at once, and who sends much is not read more than the others.
#[derive(Drop)]
pub struct Allowance {
    bytes: usize,
}

impl Model for Allowance {
    ghost use Rattle.std.specs.Prelude.{ℕ};

    ghost Value = { ℕ };

    ghost view = { λ allowance. allowance.bytes };
}

impl Allowance {
    /// The most that there may be.
    pub fn new() -> Allowance
        ensures { result ≡ first_allowance }
    {
        Allowance {
            bytes: ALLOWANCE_MAX,
        }
    }

    /// How many bytes it is.
    pub fn bytes(&self) -> usize
        ensures { result ≡ self.now }
    {
        self.bytes
    }

    /// Takes off what was read.
    pub fn spend(&mut self, count: usize)
        ensures { self.new ≡ self.old - count }
    {
        self.bytes = self.bytes.saturating_sub(count);
    }

    /// Grows at a tick, and less where a write to the connection is stalled.
    pub fn grow(&mut self, is_stalled: bool)
        ensures { self.new ≡ next_allowance is_stalled self.old }
    {
        let more = if is_stalled {
            ALLOWANCE_STALLED
        } else {
            ALLOWANCE_TICK
        };
        self.bytes = self.bytes.saturating_add(more).min(ALLOWANCE_MAX);
    }
}
