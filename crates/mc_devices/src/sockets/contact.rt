ghost use Rattle.std.specs.Prelude.{◌≡◌, ◌↔◌, IsTrue};
ghost use Rattle.mc_devices.specs.Limits.{IsSilent};

use super::limits::{UNASKED_MAX, UNHEARD_MAX};

/// When the server was last to write to a connection, and when the connection last sent something.
#[derive(Drop)]
pub struct Contact {
    pub asked: u64,
    pub heard: u64,
}

impl Contact {
    /// That of a connection that joins.
    pub fn new(now: u64) -> Contact
        ensures { result ≡ record { asked = now; heard = now } }
    {
        Contact {
            asked: now,
            heard: now,
        }
    }

    /// Says whether nothing was to be written, or nothing came, for too long.
    pub fn is_silent(&self, now: u64) -> bool
        ensures { IsTrue result ↔ IsSilent self.now.asked self.now.heard now }
    {
        now.saturating_sub(self.asked) >= UNASKED_MAX
            || now.saturating_sub(self.heard) >= UNHEARD_MAX
    }
}
