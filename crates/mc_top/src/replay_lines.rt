ghost use Rattle.std.specs.Prelude.{◌≡◌, [], IfOk, OnOk, OnErr, IsErrOf};
ghost use Rattle.hex.specs.Hex.{encode_lower};
ghost use Rattle.mc_wire.specs.Count.{Rose, StandsOrRises};
ghost use Rattle.mc_wire.specs.Stream.{Grows};
ghost use Rattle.mc_model.specs.Run.{owed_in};
ghost use Rattle.mc_model.specs.World.{World};
ghost use Rattle.mc_events.specs.Served.{age_of};
ghost use Rattle.mc_events.specs.Stands.{Stands};
ghost use Rattle.mc_text.specs.Passes.{Breaks, Passes};
ghost use Rattle.mc_measure.specs.Settling.{settled};
ghost use Rattle.mc_top.specs.ReplayText.{lines_after};
ghost use Rattle.mc_measure.specs.Settling.{taken, forgotten, all_taken};
ghost use Rattle.mc_top.specs.Replaying.{TakesFront, sent_in, shut_in};
ghost use Rattle.mc_measure.specs.Settling.{all_forgotten};
ghost use Rattle.mc_top.specs.Replaying.{all_sent, all_shut};

use mc_events::Server;
use mc_text::{HEX_PIECE, Unfinished, put, put_hex, write_out};
use mc_wire::Sink;
use std::alloc::Global;

/// Takes the first bytes that a connection is owed and puts them as hex, and says whether there
/// were any.
fn take_front<O: Sink>(
    server: &mut Server,
    connection: u32,
    lines: &mut Vec<u8>,
    out: &mut O,
) -> Result<bool, Unfinished>
    ensures taken { (w : World) → Stands server.old w → IfOk result (λ more.
        TakesFront connection w server.new (O.held out.old) (O.held out.new)
        lines.old.items lines.new.items more) }
    ensures breaks { (w : World) → Stands server.old w → OnErr result
        (Breaks (O.held out.old) (O.held out.new) lines.old.items
        (encode_lower (owed_in connection w))) }
    ensures age { age_of server.new ≡ age_of server.old }
    ensures failed { IsErrOf result Unfinished.Failed → Rose (O.faults out.old) (O.faults out.new) }
    ensures counts { StandsOrRises (O.faults out.old) (O.faults out.new) }
{
    let front = server.front(connection);
    let count = front.len().min(HEX_PIECE);
    if count == 0 {
        return Ok(false);
    }
    put_hex(&front[..count], lines, out)?;
    server.took(connection, count);
    Ok(true)
}

/// Takes all that a connection is owed and puts it as hex, piece by piece.
fn take_owed<O: Sink>(
    server: &mut Server,
    connection: u32,
    lines: &mut Vec<u8>,
    out: &mut O,
) -> Result<(), Unfinished>
    ensures taken { (w : World) → Stands server.old w → OnOk result
        (Stands server.new (taken connection w)
        × Passes (O.held out.old) (O.held out.new) lines.old.items
        (encode_lower (owed_in connection w)) lines.new.items []) }
    ensures breaks { (w : World) → Stands server.old w → OnErr result
        (Breaks (O.held out.old) (O.held out.new) lines.old.items
        (encode_lower (owed_in connection w))) }
    ensures age { age_of server.new ≡ age_of server.old }
    ensures failed { IsErrOf result Unfinished.Failed → Rose (O.faults out.old) (O.faults out.new) }
    ensures counts { StandsOrRises (O.faults out.old) (O.faults out.new) }
{
    for _piece in 0..u64::MAX {
        if !take_front(server, connection, lines, out)? {
            return Ok(());
        }
    }
    // No memory holds so many pieces.
    Err(Unfinished::NoMemory)
}

/// Takes all that a connection is owed, and puts the line that tells it, where it is owed anything.
fn put_sent<O: Sink>(
    alloc: Global,
    server: &mut Server,
    connection: u32,
    lines: &mut Vec<u8>,
    out: &mut O,
) -> Result<(), Unfinished>
    ensures taken { (w : World) → Stands server.old w → OnOk result
        (Stands server.new (taken connection w)
        × Passes (O.held out.old) (O.held out.new)
        lines.old.items (sent_in connection w) lines.new.items []) }
    ensures breaks { (w : World) → Stands server.old w → OnErr result
        (Breaks (O.held out.old) (O.held out.new) lines.old.items (sent_in connection w)) }
    ensures age { age_of server.new ≡ age_of server.old }
    ensures failed { IsErrOf result Unfinished.Failed → Rose (O.faults out.old) (O.faults out.new) }
    ensures counts { StandsOrRises (O.faults out.old) (O.faults out.new) }
{
    // Dear to prove: each step between the borrows of the server can fail.
    if server.front(connection).is_empty() {
        return Ok(());
    }
    let head = format!(in alloc; "sent {connection} ")?;
    put(head.as_bytes(), lines, out)?;
    take_owed(server, connection, lines, out)?;
    put(b"\n", lines, out)?;
    Ok(())
}

/// Takes all that some connections are owed, one after another, and puts the lines that tell it.
fn put_all_sent<O: Sink>(
    alloc: Global,
    server: &mut Server,
    connections: &[u32],
    lines: &mut Vec<u8>,
    out: &mut O,
) -> Result<(), Unfinished>
    ensures taken { (w : World) → Stands server.old w → OnOk result
        (Stands server.new (all_taken connections.now w)
        × Passes (O.held out.old) (O.held out.new)
        lines.old.items (all_sent connections.now w) lines.new.items []) }
    ensures breaks { (w : World) → Stands server.old w → OnErr result
        (Breaks (O.held out.old) (O.held out.new) lines.old.items (all_sent connections.now w)) }
    ensures age { age_of server.new ≡ age_of server.old }
    ensures failed { IsErrOf result Unfinished.Failed → Rose (O.faults out.old) (O.faults out.new) }
    ensures counts { StandsOrRises (O.faults out.old) (O.faults out.new) }
{
    for connection in connections {
        put_sent(alloc, server, *connection, lines, out)?;
    }
    Ok(())
}

/// Forgets a connection that is closed and owed nothing, and puts the line that tells it.
fn put_shut<O: Sink>(
    alloc: Global,
    server: &mut Server,
    connection: u32,
    lines: &mut Vec<u8>,
    out: &mut O,
) -> Result<(), Unfinished>
    ensures forgotten { (w : World) → Stands server.old w → OnOk result
        (Stands server.new (forgotten connection w)
        × Passes (O.held out.old) (O.held out.new)
        lines.old.items (shut_in connection w) lines.new.items []) }
    ensures breaks { (w : World) → Stands server.old w → OnErr result
        (Breaks (O.held out.old) (O.held out.new) lines.old.items (shut_in connection w)) }
    ensures age { age_of server.new ≡ age_of server.old }
    ensures failed { IsErrOf result Unfinished.Failed → Rose (O.faults out.old) (O.faults out.new) }
    ensures counts { StandsOrRises (O.faults out.old) (O.faults out.new) }
{
    if !server.done(connection) {
        return Ok(());
    }
    let line = format!(in alloc; "shut {connection}\n")?;
    put(line.as_bytes(), lines, out)?;
    server.forget(connection);
    Ok(())
}

/// Forgets those of some connections that are closed and owed nothing, one after another, and puts
/// the lines that tell it.
fn put_all_shut<O: Sink>(
    alloc: Global,
    server: &mut Server,
    connections: &[u32],
    lines: &mut Vec<u8>,
    out: &mut O,
) -> Result<(), Unfinished>
    ensures forgotten { (w : World) → Stands server.old w → OnOk result
        (Stands server.new (all_forgotten connections.now w)
        × Passes (O.held out.old) (O.held out.new)
        lines.old.items (all_shut connections.now w) lines.new.items []) }
    ensures breaks { (w : World) → Stands server.old w → OnErr result
        (Breaks (O.held out.old) (O.held out.new) lines.old.items (all_shut connections.now w)) }
    ensures age { age_of server.new ≡ age_of server.old }
    ensures failed { IsErrOf result Unfinished.Failed → Rose (O.faults out.old) (O.faults out.new) }
    ensures counts { StandsOrRises (O.faults out.old) (O.faults out.new) }
{
    for connection in connections {
        put_shut(alloc, server, *connection, lines, out)?;
    }
    Ok(())
}

/// Takes all that connections are owed, forgets those that are closed, and writes the lines that
/// tell it; it looks once at each connection, and only at those that are pending again. `lines` is room for those that wait to be written; none waits before or after.
pub fn put_lines<O: Sink>(
    alloc: Global,
    server: &mut Server,
    lines: &mut Vec<u8>,
    out: &mut O,
) -> Result<(), Unfinished>
    requires { lines.old.items ≡ [] }
    ensures settled { (w : World) → Stands server.old w → OnOk result
        (Stands server.new (settled w) × Grows (O.held out.old) (O.held out.new) (lines_after w)) }
    ensures breaks { (w : World) → Stands server.old w → OnErr result
        (Breaks (O.held out.old) (O.held out.new) [] (lines_after w)) }
    ensures age { age_of server.new ≡ age_of server.old }
    ensures failed { IsErrOf result Unfinished.Failed → Rose (O.faults out.old) (O.faults out.new) }
    ensures counts { StandsOrRises (O.faults out.old) (O.faults out.new) }
{
    let connections = server.pending()?;
    put_all_sent(alloc, server, &connections, lines, out)?;
    put_all_shut(alloc, server, &connections, lines, out)?;
    write_out(lines, out)?;
    Ok(())
}
