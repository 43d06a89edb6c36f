ghost use Rattle.std.specs.Prelude.{◌≡◌, ◌≢◌, ◌<◌, ◌≤◌, ◌^◌, ℕ, List, Option, map, false};
ghost use Rattle.mc_wire.specs.declared.log.LogEntry.{LogEntry};
ghost use Rattle.mc_wire.specs.Becoming.{ToldBecomes};
ghost use Rattle.mc_wire.specs.Count.{Rose};
ghost use Rattle.mc_wire.specs.LobbyTold.{with_entries, with_port};
ghost use Rattle.mc_capture.specs.TapedView.{mark_of};
ghost use Rattle.mc_capture.specs.TapeStart.{FaultsSince, IsTape, start_of};
ghost use Rattle.mc_model.specs.Game.{AreSettings};
ghost use Rattle.mc_model.specs.Minds.{Start};
ghost use Rattle.mc_model.specs.World.{new_world};
ghost use Rattle.mc_server.specs.Drives.{DroveNew};
ghost use Rattle.mc_server.specs.Minded.{StandsFor};
ghost use Rattle.mc_events.specs.Served.{age_of};
ghost use Rattle.mc_words.specs.Arguments.{CanServe};
ghost use Rattle.mc_words.specs.Devices.{LinkDevice, devices};
ghost use Rattle.mc_top.specs.RecordPromise.{Records};
ghost use Rattle.mc_top.specs.Recording.{IsLost, ended_recording};
ghost use Rattle.mc_top.specs.ServePromise.{budget_of};

use crate::serve::{budget_of, ended_by};
use crate::world::new_server;
use mc_capture::{Started, TapeState, Taped, TapedSince};
use mc_entities::Mind;
use mc_server::{Budget, DriveFault, Server, Serving, drive};
use mc_wire::{Lobby, Sink};
use mc_words::{Ended, ServeOptions};
use std::alloc::Global;
use std::marker::Brand;

/// A lobby that was served with a capture.
#[derive(Drop)]
struct Recorded<'a, L, O> {
    /// How serving it ended.
    end: Result<mc_server::Ended, DriveFault>,
    /// The lobby and the output, with how far the capture is.
    taped: Taped<'a, L, O>,
}

/// How the command ends where serving ended so: an output that failed comes first, since the lobby
/// was asked for nothing more then.
fn ended_recording(failed: bool, end: Result<mc_server::Ended, DriveFault>) -> Ended
    ensures { result ≡ ended_recording failed end }
{
    if failed {
        return Ended::WriteFault;
    }
    match end {
        Ok(_) => Ended::Done,
        Err(fault) => ended_by(fault),
    }
}

/// Serves a lobby, and writes all that happens as a capture. What holds of both since its start is
/// told by the type, so it is kept through a loop over any lobby.
fn drive_taped<'a, L: Lobby, O: Sink, M: Mind, S: Started>(
    server: &mut Server<M>,
    budget: Budget,
    taped: Taped<'a, L, O>,
) -> Recorded<'a, L, O>
    requires young { age_of server.old.inner ≡ 0 }
    requires port { 1 ≤ budget.port }
    requires ticks { (1 ≤ budget.ticks) × (budget.ticks ≤ 1000000000) }
    requires events { 1 ≤ budget.events }
    requires start { start_of L.told L.counts O.held O.faults taped ≡ S.start }
    requires blank { taped.state ≡ TapeState.Blank }
    requires heard { taped.heard ≡ false }
    requires own_faults { taped.own_faults ≡ 0 }
    requires small { (L.counts taped.lobby.now).faults < 2 ^ 64 }
    ensures lobby { result.taped.lobby.ghost_name ≡ taped.entry.lobby.ghost_name }
    ensures sink { result.taped.out.ghost_name ≡ taped.entry.out.ghost_name }
    ensures drove { (start : Start) → AreSettings start.settings.players start.settings.cap →
        StandsFor (⟦<Server<M> as Serving>⟧.value server.old) (new_world start) → DroveNew budget
        (L.told taped.entry.lobby.now) (L.told result.taped.lobby.now) start server.new.inner
        result.end }
    ensures asks { (entries : List LogEntry) × ToldBecomes (L.told taped.entry.lobby.now)
        (L.told result.taped.lobby.now)
        (λ told. with_entries entries (with_port budget.port told)) }
    ensures lost { result.taped.state ≢ TapeState.Failed → IsLost result.end → Rose
        (L.counts taped.entry.lobby.now).faults (L.counts result.taped.lobby.now).faults }
    ensures tape { IsTape S.start (L.told result.taped.lobby.now)
        (mark_of O.held O.faults result.taped) }
    ensures faults { FaultsSince S.start (mark_of O.held O.faults result.taped) }
{
    let mut since = TapedSince::<'a, L, O, S>::new(taped);
    let end = drive(server, &mut since, budget);
    Recorded {
        end,
        taped: since.into_taped(),
    }
}

/// The command `serve` with a capture: it tells the lobby the pace, serves it with a server of a new
/// world, and writes all that happens.
pub fn record<L: Lobby, O: Sink, M: Mind>(
    alloc: Global,
    options: ServeOptions,
    lobby: &mut L,
    out: &mut O,
    minds: Vec<M>,
) -> Ended
    requires { CanServe options }
    ensures { (link : LinkDevice) (left : Option (List ℕ)) (reads : ℕ) →
        Records (map (λ mind. M.plan mind) minds.items) options result
        (devices (L.told lobby.old) (L.counts lobby.old) link left reads
        (O.held out.old) (O.faults out.old))
        (devices (L.told lobby.new) (L.counts lobby.new) link left reads
        (O.held out.new) (O.faults out.new)) }
{
    lobby.pace(options.pace);
    let Ok(mut server) = new_server(alloc, options.world, minds) else {
        return Ended::NoMemory;
    };
    let taped = Taped::new(lobby, out);
    let recorded = drive_taped::<L, O, M, Brand>(&mut server, budget_of(options), taped);
    drop(server);
    ended_recording(recorded.taped.sink_failed(), recorded.end)
}
