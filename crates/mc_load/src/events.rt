//! How much happens in a load.

ghost use Rattle.std.specs.Prelude.{◌≡◌, ◌≤◌, length};
ghost use Rattle.mc_load.specs.Load.{load_events};

/// How many events a load of so many clients and ticks has.
pub fn event_count(clients: u32, ticks: u32) -> u32
    requires clients { clients ≤ 50 }
    requires ticks { ticks ≤ 10000 }
    ensures { result ≡ length (load_events clients ticks) }
{
    2 * clients + ticks * (clients + 1)
}
