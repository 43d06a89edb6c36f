ghost use Rattle.std.specs.Prelude.{◌≡◌};
ghost use Rattle.std.specs.Duration.{as_nanos};
ghost use Rattle.mc_devices.specs.Limits.{counted_nanos};

use super::limits::STEP_MAX;
use std::time::{Clock, Duration, Instant};

/// How many nanoseconds a millisecond has.
const MILLISECOND: u64 = 1_000_000;

/// How long the lobby was awake by the clock. Of a step between two looks that is longer than it
/// should be a part counts only, so that a machine which was asleep is not taken for clients that
/// were silent.
#[derive(Drop)]
pub struct Watch {
    last: Option<Instant>,
    nanos: u64,
}

impl Watch {
    /// One that was not looked at yet.
    pub fn new() -> Watch {
        Watch {
            last: None,
            nanos: 0,
        }
    }

    /// Looks at the clock, and says what it shows, where it can be read.
    pub fn look(&mut self, clock: &impl Clock) -> Option<Instant> {
        let now = Instant::now(clock).ok()?;
        if let Some(last) = self.last {
            let step = counted(now.duration_since(last));
            self.nanos = self.nanos.saturating_add(step);
        }
        self.last = Some(now);
        Some(now)
    }

    /// How many milliseconds the lobby had been awake at the last look.
    pub fn awake(&self) -> u64 {
        self.nanos / MILLISECOND
    }
}

/// How many nanoseconds of a step count.
fn counted(step: Duration) -> u64
    ensures { result ≡ counted_nanos (as_nanos step) }
{
    let nanos = u64::try_from(step.as_nanos()).unwrap_or(u64::MAX);
    nanos.min(STEP_MAX * MILLISECOND)
}
