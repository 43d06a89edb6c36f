//! Taking all that connections are owed, counted.

ghost use Rattle.std.specs.Prelude.{◌≡◌, ◌≢◌, false, Some, ℕ, IfOk, OnOk, length};
ghost use Rattle.std.specs.List.{AllByRecursion};
ghost use Rattle.mc_model.specs.declared.cause.Cause.TheVariants.{Backlog};
ghost use Rattle.mc_model.specs.Run.{cause_in, owed_in};
ghost use Rattle.mc_model.specs.World.{World};
ghost use Rattle.mc_events.specs.Served.{age_of};
ghost use Rattle.mc_events.specs.Stands.{Stands};
ghost use Rattle.mc_measure.specs.Plays.{bytes_taken, each_owed};
ghost use Rattle.mc_measure.specs.Settling.{NoneFull, all_forgotten, all_taken, settled};
ghost use Rattle.mc_measure.specs.Settling.{taken, takings};

use mc_bytes::NoMemory;
use mc_events::Server;
use mc_model::Cause;

/// Takes all that a connection is owed, and answers how many bytes that is.
fn take_owed(server: &mut Server, connection: u32) -> Result<u64, NoMemory>
    ensures taken { (w : World) → Stands server.old w → IfOk result (λ count.
        Stands server.new (taken connection w) × (count ≡ length (owed_in connection w))) }
    ensures age { age_of server.new ≡ age_of server.old }
{
    let mut total = 0_u64;
    'taking: loop {
        let count = server.front(connection).len();
        if count == 0 {
            return Ok(total);
        }
        // No memory holds more bytes than that.
        let Some(more) = total.checked_add(count as u64) else {
            return Err(NoMemory);
        };
        server.took(connection, count);
        total = more;
    }
}

/// Takes all that some connections are owed, one after another, and answers how many bytes that
/// is.
fn take_all(server: &mut Server, connections: &[u32]) -> Result<u64, NoMemory>
    ensures taken { (w : World) → Stands server.old w → IfOk result (λ count.
        Stands server.new (all_taken connections.now w)
        × (count ≡ each_owed connections.now w)) }
    ensures age { age_of server.new ≡ age_of server.old }
{
    let mut total = 0_u64;
    for connection in connections {
        let count = take_owed(server, *connection)?;
        // No memory holds more bytes than that.
        let Some(more) = total.checked_add(count) else {
            return Err(NoMemory);
        };
        total = more;
    }
    Ok(total)
}

/// Forgets those of some connections that are closed and owed nothing.
fn forget_all(server: &mut Server, connections: &[u32])
    ensures forgotten { (w : World) → Stands server.old w →
        Stands server.new (all_forgotten connections.now w) }
    ensures age { age_of server.new ≡ age_of server.old }
{
    for connection in connections {
        server.forget(*connection);
    }
}

/// Whether a connection was closed since more was due to it than its outbox holds.
fn is_full(server: &Server, connection: u32) -> bool
    ensures { (w : World) → Stands server.now w → result ≡ false →
        cause_in connection w ≢ Some Backlog }
{
    matches!(server.cause(connection), Some(Cause::Backlog))
}

/// Whether one of some connections was closed so.
fn is_any_full(server: &Server, connections: &[u32]) -> bool
    ensures { (w : World) → Stands server.now w → result ≡ false →
        AllByRecursion (λ (k : ℕ). cause_in k w ≢ Some Backlog) connections.now }
{
    for connection in connections {
        if is_full(server, *connection) {
            return true;
        }
    }
    false
}

/// Takes all that each connection is owed, forgets those that are closed, and answers how many
/// bytes were taken. It copies none of them. Out of memory also where an outbox was too small for
/// what was due.
pub fn settle(server: &mut Server) -> Result<u64, NoMemory>
    ensures settled { (w : World) → Stands server.old w → IfOk result (λ count.
        Stands server.new (settled w) × (count ≡ bytes_taken w (takings w)) × NoneFull w) }
    ensures age { age_of server.new ≡ age_of server.old }
{
    let pending = server.pending()?;
    if is_any_full(server, &pending) {
        return Err(NoMemory);
    }
    let count = take_all(server, &pending)?;
    forget_all(server, &pending);
    Ok(count)
}
