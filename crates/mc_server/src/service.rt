ghost use Rattle.std.specs.Prelude.{◌≡◌, ◌≢◌, ◌+◌, ◌<◌, ◌≤◌, ◌^◌, ℕ, List, true, Err, IfOk, None};
ghost use Rattle.std.specs.Prelude.{Some, length};
ghost use Rattle.std.specs.FinMap.{empty};
ghost use Rattle.std.specs.Option.{MatchOption};
ghost use Rattle.mc_wire.specs.declared.log.LogEntry.{LogEntry};
ghost use Rattle.mc_wire.specs.LobbyAnswers.{IsInBuffer, event_entry};
ghost use Rattle.mc_wire.specs.LobbyTold.{LobbyTold, with_entries, with_port};
ghost use Rattle.mc_wire.specs.Becoming.{HasLogged, ToldBecomes};
ghost use Rattle.mc_wire.specs.Count.{Rose};
ghost use Rattle.mc_wire.specs.LobbyCounts.{StandOrRise};
ghost use Rattle.mc_model.specs.Game.{AreSettings};
ghost use Rattle.mc_model.specs.Minds.{Start};
ghost use Rattle.mc_model.specs.World.{World, new_world};
ghost use Rattle.mc_events.specs.Asking.{ours_there};
ghost use Rattle.mc_events.specs.Served.{age_of};
ghost use Rattle.mc_events.specs.Stands.{Stands};
ghost use Rattle.mc_server.specs.Minded.{StandsFor};
ghost use Rattle.mc_server.specs.Drives.{Drove, DroveNew, is_join, one_if};
ghost use Rattle.mc_server.specs.TurnParts.{IsInputOf};

mod turn;

use crate::server::{Server, Serving};
use crate::service::turn::take_turn;
use mc_bytes::NoMemory;
use mc_entities::Mind;
use mc_events::Input;
use mc_wire::{Event, Lobby};
use std::alloc::{AllocError, Global};

/// How many bytes a lobby may give at once.
const BUFFER: usize = 65_536;

/// How long a lobby is served, and on which port it is to listen.
#[derive(Clone, Copy, Debug, PartialEq, Eq)]
pub struct Budget {
    /// The port.
    pub port: u16,
    /// After so many ticks it ends well.
    pub ticks: u32,
    /// After so many events it ends in any case.
    pub events: u64,
}

/// What was counted while a lobby was served.
#[derive(Clone, Copy, Debug, PartialEq, Eq)]
pub struct Tally {
    /// How many connections joined.
    pub joins: u64,
    /// How many were closed for something else than that they left, broke or were done.
    pub closed: u64,
}

/// How serving a lobby ended well.
#[derive(Clone, Copy, Debug, PartialEq, Eq)]
pub enum Ended {
    /// All ticks came.
    Ticks(Tally),
    /// The lobby ended before.
    Closed(Tally),
}

/// Why serving a lobby ended.
#[derive(Clone, Copy, Debug, PartialEq, Eq)]
pub enum DriveFault {
    /// The lobby could not listen on the port.
    Listen,
    /// The lobby could not say what comes next.
    Next,
    /// So many events came, all that may, before the last tick.
    Events(u64),
    /// Out of memory.
    NoMemory,
}

impl From<NoMemory> for DriveFault {
    ghost use Rattle.mc_server.specs.declared.service.DriveFault.TheVariants as faults;

    ghost from_gives = { λ _ fault. fault ≡ faults.NoMemory };

    fn from(_refusal: NoMemory) -> DriveFault {
        DriveFault::NoMemory
    }
}

impl From<AllocError> for DriveFault {
    ghost use Rattle.mc_server.specs.declared.service.DriveFault.TheVariants as faults;

    ghost from_gives = { λ _ fault. fault ≡ faults.NoMemory };

    fn from(_refusal: AllocError) -> DriveFault {
        DriveFault::NoMemory
    }
}

/// So many zeros.
fn zeros(alloc: Global, count: usize) -> Result<Vec<u8>, AllocError>
    ensures { IfOk result (λ bytes. length bytes.items ≡ count) }
{
    vec![in alloc; 0u8; count]
}

/// What an event of a lobby is to the server, with the bytes that stand in the buffer; None where
/// the lobby ended.
fn input_of(event: Event, buffer: &[u8]) -> Option<Input<'_>>
    requires { IsInBuffer event buffer.now }
    ensures { MatchOption result (event ≡ Event.End)
        (λ input. IsInputOf (event_entry event buffer.now) input) }
{
    match event {
        Event::Join(k) => Some(Input::Join(k)),
        Event::Bytes(k, n) => Some(Input::Bytes(k, &buffer[..n])),
        Event::Gone(k) => Some(Input::Gone(k)),
        Event::Tick => Some(Input::Tick),
        Event::End => None,
    }
}

/// How many join in an event.
fn joining(event: Event) -> u64
    ensures is { (buffer : List ℕ) → result ≡ one_if (is_join (event_entry event buffer)) }
    ensures few { result ≤ 1 }
{
    match event {
        Event::Join(_) => 1,
        _ => 0,
    }
}

/// What was counted, with the connections that are still there.
fn counted(server: &mc_events::Server, joins: u64, closed: u64) -> Tally
    ensures joins { result.joins ≡ joins }
    ensures closed { (w : World) → Stands server.now w → closed + ours_there w < 2 ^ 64 →
        result.closed ≡ closed + ours_there w }
{
    Tally {
        joins,
        closed: closed.saturating_add(server.ours() as u64),
    }
}

/// Serves a lobby that listens, turn by turn.
fn serve<L: Lobby, M: Mind>(
    server: &mut Server<M>,
    lobby: &mut L,
    budget: Budget,
    buffer: &mut [u8],
) -> Result<Ended, DriveFault>
    requires listening { L.listens lobby.old ≡ true }
    requires young { age_of server.old.inner ≡ 0 }
    requires ticks { (1 ≤ budget.ticks) × (budget.ticks ≤ 1000000000) }
    requires room { 0 < length buffer.old }
    ensures drove { (w : World) → StandsFor (⟦<Server<M> as Serving>⟧.value server.old) w →
        w.links ≡ empty → Drove (λ (told : LobbyTold). told) budget
        (L.told lobby.old) (L.told lobby.new) w server.new.inner result }
    ensures logs { HasLogged (L.told lobby.old) (L.told lobby.new) }
    ensures heard { result ≢ Err DriveFault.Listen }
    ensures failed { result ≡ Err DriveFault.Next →
        Rose (L.counts lobby.old).faults (L.counts lobby.new).faults }
    ensures falls { StandOrRise (L.counts lobby.old) (L.counts lobby.new) }
{
    // Dear to prove: a loop with an exit for each way to end.
    let mut joins = 0;
    // There are no more connections than turns, so this sum is exact.
    let mut closed: u64 = 0;
    for _round in 0..budget.events {
        let Ok(event) = lobby.next(buffer) else {
            return Err(DriveFault::Next);
        };
        let Some(input) = input_of(event, buffer) else {
            return Ok(Ended::Closed(counted(&server.inner, joins, closed)));
        };
        joins += joining(event);
        closed = closed.saturating_add(take_turn(server, lobby, input)?);
        if server.age() == u64::from(budget.ticks) {
            return Ok(Ended::Ticks(counted(&server.inner, joins, closed)));
        }
    }
    Err(DriveFault::Events(budget.events))
}

/// Serves a lobby: listens on a port, and then hands each event to the server, writes to each
/// connection what it is owed, in pieces of at most 65,536 bytes, and closes those that are closed
/// and owed nothing, until the ticks have come or the lobby ends. Where memory runs out, the turns
/// that were done until then keep the whole promise.
pub fn drive<L: Lobby, M: Mind>(
    server: &mut Server<M>,
    lobby: &mut L,
    budget: Budget,
) -> Result<Ended, DriveFault>
    requires young { age_of server.old.inner ≡ 0 }
    requires port { 1 ≤ budget.port }
    requires ticks { (1 ≤ budget.ticks) × (budget.ticks ≤ 1000000000) }
    requires events { 1 ≤ budget.events }
    ensures drove { (start : Start) → AreSettings start.settings.players start.settings.cap →
        StandsFor (⟦<Server<M> as Serving>⟧.value server.old) (new_world start) → DroveNew budget
        (L.told lobby.old) (L.told lobby.new) start server.new.inner result }
    ensures asks { (entries : List LogEntry) × ToldBecomes (L.told lobby.old) (L.told lobby.new)
        (λ told. with_entries entries (with_port budget.port told)) }
    ensures unheard { result ≡ Err DriveFault.Listen →
        Rose (L.counts lobby.old).faults (L.counts lobby.new).faults }
    ensures failed { result ≡ Err DriveFault.Next →
        Rose (L.counts lobby.old).faults (L.counts lobby.new).faults }
    ensures falls { StandOrRise (L.counts lobby.old) (L.counts lobby.new) }
{
    let Ok(()) = lobby.listen(budget.port) else {
        return Err(DriveFault::Listen);
    };
    let mut buffer = zeros(server.inner.allocator(), BUFFER)?;
    serve(server, lobby, budget, buffer.as_mut_slice())
}
