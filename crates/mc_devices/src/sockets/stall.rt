ghost use Rattle.std.specs.Prelude.{◌≡◌, ◌↔◌, IsTrue};
ghost use Rattle.mc_devices.specs.Limits.{HasPaused, HasStalledLong};

use super::limits::{STALL_MAX, STALL_PAUSE};

/// Since when a connection takes nothing, and when it was last written to.
#[derive(Clone, Copy)]
pub struct Stall {
    pub since: u64,
    pub tried: u64,
}

impl Stall {
    /// That of a connection that takes nothing for the first time.
    pub fn new(now: u64) -> Stall
        ensures { result ≡ record { since = now; tried = now } }
    {
        Stall {
            since: now,
            tried: now,
        }
    }

    /// What it is after the connection took nothing once more.
    pub fn again(self, now: u64) -> Stall
        ensures { result ≡ record self { tried = now } }
    {
        Stall {
            since: self.since,
            tried: now,
        }
    }

    /// Says whether the connection is to be written to again.
    pub fn has_paused(&self, now: u64) -> bool
        ensures { IsTrue result ↔ HasPaused self.now.tried now }
    {
        now.saturating_sub(self.tried) >= STALL_PAUSE
    }

    /// Says whether the connection has taken nothing for too long.
    pub fn is_long(&self, now: u64) -> bool
        ensures { IsTrue result ↔ HasStalledLong self.now.since now }
    {
        now.saturating_sub(self.since) >= STALL_MAX
    }
}
