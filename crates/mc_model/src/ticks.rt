ghost use Rattle.std.specs.Prelude.{◌≡◌, ◌≤◌};
ghost use lib.IntN.{pos};
ghost use Rattle.mc_model.specs.Ticks.{beat_at, shown_age, time_of_day};

/// How many ticks old a world gets; from then on its age stands still.
pub const AGE_MAX: u64 = 1_000_000_000;
/// How many ticks a beat lasts.
pub const BEAT_TICKS: u64 = 100;
/// How many ticks the age stands for that clients are told.
pub const SHOWN_TICKS: u64 = 20;
/// How many ticks a day has.
pub const DAY_TICKS: i64 = 24_000;
/// How many beats a client may leave without an answer.
pub const MISSED_MAX: u32 = 7;

/// The beat of an age.
pub fn beat_at(age: u64) -> i32
    requires { age ≤ 1000000000 }
    ensures { result ≡ pos (beat_at age) }
{
    (age / BEAT_TICKS) as i32
}

/// The age that clients are told at an age.
pub fn shown_age(age: u64) -> i64
    requires { age ≤ 1000000000 }
    ensures { result ≡ pos (shown_age age) }
{
    (age - age % SHOWN_TICKS) as i64
}

/// The time of day at an age that clients are told.
pub fn time_of_day(age: i64) -> i64
    ensures { result ≡ time_of_day age }
{
    age.rem_euclid(DAY_TICKS)
}
