//! The events of a load, played one after another.

ghost use Rattle.std.specs.Prelude.{◌≡◌, ◌<◌, ◌≤◌, ◌+◌, ◌*◌, ◌∷◌, ◌++◌, ℕ, [], IfOk, OnOk, map};
ghost use Rattle.std.specs.List.{flat_map, range_with_len};
ghost use Rattle.mc_model.specs.Run.{AreBytes};
ghost use Rattle.mc_model.specs.Step.{came};
ghost use Rattle.mc_model.specs.World.{World};
ghost use Rattle.mc_events.specs.Inputs.{age_after, event_of};
ghost use Rattle.mc_events.specs.Served.{age_of};
ghost use Rattle.mc_server.specs.Minded.{StandsFor};
ghost use Rattle.mc_load.specs.Load.{arrival, client_turn, load_events, load_round};
ghost use Rattle.mc_measure.specs.Plays.{HasPlayed, event_most};

use crate::taking::settle;
use mc_bytes::NoMemory;
use mc_entities::Mind;
use mc_load::{put_arrival, put_turn};
use mc_server::{Input, Server, Serving};
use std::alloc::Global;

/// Plays one event, and answers how many bytes were taken after it.
fn play<M: Mind>(server: &mut Server<M>, input: Input<'_>) -> Result<u64, NoMemory>
    requires young { input ≡ Input.Tick → age_of server.old.inner < 1000000000 }
    ensures played { (w : World) → AreBytes (event_of input.entry ∷ []) →
        StandsFor (⟦<Server<M> as Serving>⟧.value server.old) w →
        IfOk result (HasPlayed (event_of input.entry ∷ []) w
        (⟦<Server<M> as Serving>⟧.value server.new)) }
    ensures age { OnOk result
        (age_of server.new.inner ≡ age_after input.entry (age_of server.old.inner)) }
{
    server.event(input)?;
    settle(&mut server.inner)
}

/// Plays that bytes of a client come.
fn hear<M: Mind>(server: &mut Server<M>, client: u32, bytes: &[u8]) -> Result<u64, NoMemory>
    ensures played { (w : World) → StandsFor (⟦<Server<M> as Serving>⟧.value server.old) w →
        IfOk result (HasPlayed (came client bytes.now ∷ []) w
        (⟦<Server<M> as Serving>⟧.value server.new)) }
    ensures age { OnOk result (age_of server.new.inner ≡ age_of server.old.inner) }
{
    play(server, Input::Bytes(client, bytes))
}

/// Plays that a client joins and comes. `bytes` is room for what it sends.
fn arrive<M: Mind>(
    alloc: Global,
    server: &mut Server<M>,
    client: u32,
    bytes: &mut Vec<u8>,
) -> Result<u128, NoMemory>
    requires { client < 50 }
    ensures played { (w : World) → StandsFor (⟦<Server<M> as Serving>⟧.value server.old) w →
        IfOk result (HasPlayed (arrival client) w (⟦<Server<M> as Serving>⟧.value server.new)) }
    ensures age { OnOk result (age_of server.new.inner ≡ age_of server.old.inner) }
    ensures few { IfOk result (λ count. count ≤ 2 * event_most) }
{
    let joined = play(server, Input::Join(client))?;
    bytes.clear();
    put_arrival(alloc, client, bytes)?;
    let came = hear(server, client, bytes.as_slice())?;
    Ok(u128::from(joined) + u128::from(came))
}

/// Plays that all clients join and come, one after another.
fn arrive_all<M: Mind>(
    alloc: Global,
    server: &mut Server<M>,
    clients: u32,
    bytes: &mut Vec<u8>,
) -> Result<u128, NoMemory>
    requires { clients ≤ 50 }
    ensures played { (w : World) → StandsFor (⟦<Server<M> as Serving>⟧.value server.old) w →
        IfOk result (HasPlayed (flat_map arrival (range_with_len 0 clients)) w
        (⟦<Server<M> as Serving>⟧.value server.new)) }
    ensures age { OnOk result (age_of server.new.inner ≡ age_of server.old.inner) }
    ensures few { IfOk result (λ count. count ≤ 100 * event_most) }
{
    let mut total = 0_u128;
    for client in 0..clients {
        total += arrive(alloc, server, client, bytes)?;
    }
    Ok(total)
}

/// Plays what a client sends before a tick. `bytes` is room for that.
fn turn<M: Mind>(
    alloc: Global,
    server: &mut Server<M>,
    client: u32,
    tick: u32,
    bytes: &mut Vec<u8>,
) -> Result<u64, NoMemory>
    requires client { client < 50 }
    requires tick { tick ≤ 10000 }
    ensures played { (w : World) → StandsFor (⟦<Server<M> as Serving>⟧.value server.old) w →
        IfOk result (HasPlayed (client_turn tick client ∷ []) w
        (⟦<Server<M> as Serving>⟧.value server.new)) }
    ensures age { OnOk result (age_of server.new.inner ≡ age_of server.old.inner) }
{
    bytes.clear();
    put_turn(alloc, client, tick, bytes)?;
    hear(server, client, bytes.as_slice())
}

/// Plays what all clients send before a tick, one after another.
fn turn_all<M: Mind>(
    alloc: Global,
    server: &mut Server<M>,
    clients: u32,
    tick: u32,
    bytes: &mut Vec<u8>,
) -> Result<u128, NoMemory>
    requires clients { clients ≤ 50 }
    requires tick { tick ≤ 10000 }
    ensures played { (w : World) → StandsFor (⟦<Server<M> as Serving>⟧.value server.old) w →
        IfOk result (HasPlayed (map (client_turn tick) (range_with_len 0 clients)) w
        (⟦<Server<M> as Serving>⟧.value server.new)) }
    ensures age { OnOk result (age_of server.new.inner ≡ age_of server.old.inner) }
    ensures few { IfOk result (λ count. count ≤ 50 * event_most) }
{
    let mut total = 0_u128;
    for client in 0..clients {
        total += u128::from(turn(alloc, server, client, tick, bytes)?);
    }
    Ok(total)
}

/// Plays what all clients send before a tick, and the tick.
fn play_round<M: Mind>(
    alloc: Global,
    server: &mut Server<M>,
    clients: u32,
    tick: u32,
    bytes: &mut Vec<u8>,
) -> Result<u128, NoMemory>
    requires clients { clients ≤ 50 }
    requires tick { tick ≤ 10000 }
    requires young { age_of server.old.inner < 1000000000 }
    ensures played { (w : World) → StandsFor (⟦<Server<M> as Serving>⟧.value server.old) w →
        IfOk result (HasPlayed (load_round clients tick) w
        (⟦<Server<M> as Serving>⟧.value server.new)) }
    ensures age { OnOk result (age_of server.new.inner ≡ age_of server.old.inner + 1) }
    ensures few { IfOk result (λ count. count ≤ 51 * event_most) }
{
    let sent = turn_all(alloc, server, clients, tick, bytes)?;
    let ticked = play(server, Input::Tick)?;
    Ok(sent + u128::from(ticked))
}

/// Plays so many ticks, before each of which all clients send something.
fn play_rounds<M: Mind>(
    alloc: Global,
    server: &mut Server<M>,
    clients: u32,
    ticks: u32,
    bytes: &mut Vec<u8>,
) -> Result<u128, NoMemory>
    requires clients { clients ≤ 50 }
    requires ticks { ticks ≤ 10000 }
    requires young { age_of server.old.inner + ticks ≤ 1000000000 }
    ensures played { (w : World) → StandsFor (⟦<Server<M> as Serving>⟧.value server.old) w →
        IfOk result (HasPlayed (flat_map (load_round clients) (range_with_len 1 ticks)) w
        (⟦<Server<M> as Serving>⟧.value server.new)) }
    ensures few { IfOk result (λ count. count ≤ 510000 * event_most) }
{
    let mut total = 0_u128;
    for done in 0..ticks {
        total += play_round(alloc, server, clients, done + 1, bytes)?;
    }
    Ok(total)
}

/// Plays a load of so many clients and ticks, and answers how many bytes were taken in it. Its
/// events are made one by one.
pub fn play_load<M: Mind>(
    alloc: Global,
    server: &mut Server<M>,
    clients: u32,
    ticks: u32,
) -> Result<u128, NoMemory>
    requires clients { clients ≤ 50 }
    requires ticks { ticks ≤ 10000 }
    requires young { age_of server.old.inner + ticks ≤ 1000000000 }
    ensures played { (w : World) → StandsFor (⟦<Server<M> as Serving>⟧.value server.old) w →
        IfOk result (HasPlayed (load_events clients ticks) w
        (⟦<Server<M> as Serving>⟧.value server.new)) }
{
    let mut bytes = Vec::new(alloc);
    let arrived = arrive_all(alloc, server, clients, &mut bytes)?;
    let played = play_rounds(alloc, server, clients, ticks, &mut bytes)?;
    Ok(arrived + played)
}
