use super::limits::{SLEEP_MAX, TICK_PERIOD, TICK_ROUNDS, TICKS_LATE};
use std::thread;
use std::time::{Clock, Duration, Instant};

/// When ticks come by a clock.
#[derive(Drop)]
pub struct Ticker {
    due: Option<Instant>,
    slept: Option<Instant>,
    rounds: u64,
}

impl Ticker {
    /// One whose first tick comes a period after it was first asked.
    pub fn new() -> Ticker {
        Ticker {
            due: None,
            slept: None,
            rounds: 0,
        }
    }

    /// Notes that a round ended.
    pub fn count_round(&mut self) {
        self.rounds = self.rounds.saturating_add(1);
    }

    /// Says whether a tick comes, by what the clock shows, where it can be read.
    pub fn ask(&mut self, now: Option<Instant>) -> bool {
        if !self.is_due(now) && self.rounds < TICK_ROUNDS {
            return false;
        }
        self.rounds = 0;
        true
    }

    /// Says whether a tick is due by the clock, and sets when the next one is.
    fn is_due(&mut self, now: Option<Instant>) -> bool {
        let Some(now) = now else {
            return false;
        };
        let period = Duration::from_millis(TICK_PERIOD);
        let Some(due) = self.due else {
            self.due = now.checked_add(period);
            return false;
        };
        if now < due {
            return false;
        }
        let late = now
            .duration_since(due)
            .min(Duration::from_millis(TICKS_LATE * TICK_PERIOD));
        self.due = now
            .checked_sub(late)
            .and_then(|due| due.checked_add(period));
        true
    }

    /// Sleeps until the next tick is due, or, where somebody is there, for as long as a sleep may
    /// take. Where the clock can't be read or stands still there is no sleep, since the rounds
    /// count then.
    pub fn sleep(&mut self, clock: &impl Clock, is_alone: bool) {
        let Some(due) = self.due else {
            return;
        };
        let Ok(now) = Instant::now(clock) else {
            return;
        };
        if self.slept != Some(now) {
            self.slept = Some(now);
            thread::sleep(clock, nap(due.duration_since(now), is_alone));
        }
    }
}

/// How long to sleep where the next tick is due after a time.
fn nap(left: Duration, is_alone: bool) -> Duration {
    if is_alone {
        left
    } else {
        left.min(Duration::from_millis(SLEEP_MAX))
    }
}
