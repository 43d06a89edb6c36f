//! How long a client is waited for, how much of it is taken, and how ticks come. Times are in
//! milliseconds.

/// How long a connection stays to which nothing is to be written.
pub const UNASKED_MAX: u64 = 30_000;

/// How long a connection stays that sends nothing.
pub const UNHEARD_MAX: u64 = 60_000;

/// How long a write may take no byte until its connection is broken.
pub const STALL_MAX: u64 = 30_000;

/// How long a connection that took nothing is left alone before it is written to again.
pub const STALL_PAUSE: u64 = 5;

/// How many bytes are read from a connection in a turn.
pub const READ_MAX: usize = 2_048;

/// How many bytes a connection may send at once.
pub const ALLOWANCE_MAX: usize = 16_384;

/// How many bytes more it may send at each tick.
pub const ALLOWANCE_TICK: usize = 2_048;

/// How many bytes more it may send at a tick while a write to it is stalled.
pub const ALLOWANCE_STALLED: usize = 256;

/// How much time counts at most between two looks at the clock.
pub const STEP_MAX: u64 = 250;

/// How long it is from a tick to the next.
pub const TICK_PERIOD: u64 = 50;

/// How many periods late a tick may be; ticks that are later are left out for good, so that five at
/// most come at once.
pub const TICKS_LATE: u64 = 4;

/// After how many rounds since the last one a tick comes whatever the clock says.
pub const TICK_ROUNDS: u64 = 50_000_000;

/// After how many rounds in turn that brought nothing a tick comes by turns.
pub const QUIET_ROUNDS: u64 = 64;

/// How long a sleep takes at most while somebody is there.
pub const SLEEP_MAX: u64 = 4;

/// How many connections linger at most.
pub const LINGERING_MAX: usize = 64;

/// How many ticks a connection lingers at most.
pub const LINGERING_TICKS: u64 = 20;
