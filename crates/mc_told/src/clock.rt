ghost use Rattle.std.specs.Prelude.{◌≡◌, ◌≤◌, ◌++◌, OnOk, None};
ghost use Rattle.mc_model.specs.Delta.{beat_packets, is_told, time_packets};
ghost use Rattle.mc_sending.specs.Sending.{play_bytes};
ghost use Rattle.mc_told.specs.Telling.{age_now, beat_now};

mod fields;

use mc_bytes::NoMemory;
use mc_model::{beat_at, shown_age, time_of_day};
use mc_packets::Down;
use mc_sending::put_made;

/// The beat and the age that a client was told last, None before the first tick.
#[derive(Clone, Copy)]
pub struct Clock {
    /// The beat.
    pub beat: Option<i32>,
    /// The age.
    pub age: Option<i64>,
}

impl Clock {
    /// Nothing was told.
    pub fn new() -> Clock
        ensures { result ≡ record { beat = None; age = None } }
    {
        Clock {
            beat: None,
            age: None,
        }
    }

    /// Whether the client was told this beat last.
    pub fn was_told(&self, beat: i32) -> bool
        ensures { result ≡ is_told self.now.beat beat }
    {
        match self.beat {
            Some(told) => told == beat,
            None => false,
        }
    }

    /// Whether the client was told this age last.
    fn was_told_age(&self, age: i64) -> bool
        ensures { result ≡ is_told self.now.age age }
    {
        match self.age {
            Some(told) => told == age,
            None => false,
        }
    }

    /// Appends the frame of the beat, unless that was told last.
    fn put_beat(&self, age: u64, out: &mut Vec<u8>) -> Result<(), NoMemory>
        requires { age ≤ 1000000000 }
        ensures { OnOk result (out.new.items
            ≡ out.old.items ++ play_bytes (beat_packets self.now.beat (beat_now age))) }
    {
        let beat = beat_at(age);
        if self.was_told(beat) {
            return Ok(());
        }
        put_made(Down::KeepAlive(beat), out)
    }

    /// Appends the frame of the age and the time of day, unless that age was told last.
    fn put_time(&self, age: u64, out: &mut Vec<u8>) -> Result<(), NoMemory>
        requires { age ≤ 1000000000 }
        ensures { OnOk result (out.new.items
            ≡ out.old.items ++ play_bytes (time_packets self.now.age (age_now age))) }
    {
        let shown = shown_age(age);
        if self.was_told_age(shown) {
            return Ok(());
        }
        put_made(Down::Time(shown, time_of_day(shown)), out)
    }

    /// Appends the frames of the beat and of the age, each unless it was told last.
    pub fn put_age(&self, age: u64, out: &mut Vec<u8>) -> Result<(), NoMemory>
        requires { age ≤ 1000000000 }
        ensures { OnOk result (out.new.items ≡ out.old.items ++ play_bytes
            (beat_packets self.now.beat (beat_now age)
            ++ time_packets self.now.age (age_now age))) }
    {
        self.put_beat(age, out)?;
        self.put_time(age, out)
    }

    /// Keeps the beat and the age that are told at an age of the world.
    pub fn keep(&mut self, age: u64)
        requires { age ≤ 1000000000 }
        ensures { self.new ≡ record { beat = beat_now age; age = age_now age } }
    {
        self.beat = Some(beat_at(age));
        self.age = Some(shown_age(age));
    }
}
