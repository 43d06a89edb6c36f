ghost use Rattle.std.specs.Prelude.{◌≡◌, ◌+◌, ◌≤◌, [], ◌∷◌, OnOk, OnErr, IsErrOf, map, replicate};
ghost use Rattle.mc_wire.specs.Count.{Rose, StandsOrRises};
ghost use Rattle.mc_wire.specs.Stream.{Grows};
ghost use Rattle.mc_model.specs.Step.{ticked};
ghost use Rattle.mc_model.specs.Game.{AreSettings};
ghost use Rattle.mc_model.specs.World.{World, new_world};
ghost use Rattle.mc_events.specs.Inputs.{event_of};
ghost use Rattle.mc_events.specs.Served.{age_of};
ghost use Rattle.mc_server.specs.Minded.{StandsFor};
ghost use Rattle.mc_words.specs.Delivers.{Delivered};
ghost use Rattle.mc_words.specs.Devices.{streams};
ghost use Rattle.mc_words.specs.Told.{Tells};
ghost use Rattle.mc_top.specs.ReplayText.{line_events, events_of, replay_text};
ghost use Rattle.mc_top.specs.Replaying.{HasPlayed, HasStopped, line_ticks, ticks_of, input_ticks};
ghost use Rattle.mc_top.specs.ReplayPromise.{IsScriptText, Plays, replay_told, start_of};

use crate::replay_lines::put_lines;
use crate::world::new_server;
use mc_entities::Mind;
use mc_server::{Input, Server, Serving};
use mc_wire::{InputError, Sink, Source};
use mc_text::{Unfinished, read_text};
use mc_words::{BadInput, Ended, Script, ScriptError, ScriptEvent, WorldOptions};
use std::alloc::Global;

/// Plays one event, and writes its lines as they come. `lines` is room for those that wait.
fn play<O: Sink, M: Mind>(
    alloc: Global,
    server: &mut Server<M>,
    input: Input<'_>,
    lines: &mut Vec<u8>,
    out: &mut O,
) -> Result<(), Unfinished>
    requires young { age_of server.old.inner + input_ticks input ≤ 1000000000 }
    ensures played { (w : World) → StandsFor (⟦<Server<M> as Serving>⟧.value server.old) w →
        OnOk result (HasPlayed (event_of input.entry ∷ []) w
        (⟦<Server<M> as Serving>⟧.value server.new) (O.held out.old) (O.held out.new)) }
    ensures stopped { (w : World) → StandsFor (⟦<Server<M> as Serving>⟧.value server.old) w →
        OnErr result (HasStopped (event_of input.entry ∷ []) w (O.held out.old) (O.held out.new)) }
    ensures age { OnOk result
        (age_of server.new.inner ≡ age_of server.old.inner + input_ticks input.entry) }
    ensures failed { IsErrOf result Unfinished.Failed → Rose (O.faults out.old) (O.faults out.new) }
    ensures counts { StandsOrRises (O.faults out.old) (O.faults out.new) }
{
    lines.clear();
    server.event(input)?;
    put_lines(alloc, &mut server.inner, lines, out)?;
    Ok(())
}

/// Plays so many ticks.
fn play_ticks<O: Sink, M: Mind>(
    alloc: Global,
    server: &mut Server<M>,
    count: u32,
    lines: &mut Vec<u8>,
    out: &mut O,
) -> Result<(), Unfinished>
    requires young { age_of server.old.inner + count ≤ 1000000000 }
    ensures played { (w : World) → StandsFor (⟦<Server<M> as Serving>⟧.value server.old) w →
        OnOk result (HasPlayed (replicate count ticked) w
        (⟦<Server<M> as Serving>⟧.value server.new) (O.held out.old) (O.held out.new)) }
    ensures stopped { (w : World) → StandsFor (⟦<Server<M> as Serving>⟧.value server.old) w →
        OnErr result (HasStopped (replicate count ticked) w (O.held out.old) (O.held out.new)) }
    ensures age { OnOk result (age_of server.new.inner ≡ age_of server.old.inner + count) }
    ensures failed { IsErrOf result Unfinished.Failed → Rose (O.faults out.old) (O.faults out.new) }
    ensures counts { StandsOrRises (O.faults out.old) (O.faults out.new) }
{
    for _tick in 0..count {
        play(alloc, server, Input::Tick, lines, out)?;
    }
    Ok(())
}

/// Plays what a line of a script says.
fn play_line<O: Sink, M: Mind>(
    alloc: Global,
    server: &mut Server<M>,
    event: &ScriptEvent,
    lines: &mut Vec<u8>,
    out: &mut O,
) -> Result<(), Unfinished>
    requires young { age_of server.old.inner + line_ticks event.now ≤ 1000000000 }
    ensures played { (w : World) → StandsFor (⟦<Server<M> as Serving>⟧.value server.old) w →
        OnOk result (HasPlayed (line_events event.now) w
        (⟦<Server<M> as Serving>⟧.value server.new) (O.held out.old) (O.held out.new)) }
    ensures stopped { (w : World) → StandsFor (⟦<Server<M> as Serving>⟧.value server.old) w →
        OnErr result (HasStopped (line_events event.now) w (O.held out.old) (O.held out.new)) }
    ensures age { OnOk result
        (age_of server.new.inner ≡ age_of server.old.inner + line_ticks event.now) }
    ensures failed { IsErrOf result Unfinished.Failed → Rose (O.faults out.old) (O.faults out.new) }
    ensures counts { StandsOrRises (O.faults out.old) (O.faults out.new) }
{
    match event {
        ScriptEvent::Joined(connection) => {
            play(alloc, server, Input::Join(*connection), lines, out)
        }
        ScriptEvent::Came(connection, bytes) => play(
            alloc,
            server,
            Input::Bytes(*connection, bytes.as_slice()),
            lines,
            out,
        ),
        ScriptEvent::Gone(connection) => {
            play(alloc, server, Input::Gone(*connection), lines, out)
        }
        ScriptEvent::Ticks(count) => play_ticks(alloc, server, *count, lines, out),
    }
}

/// Plays a script.
fn play_all<O: Sink, M: Mind>(
    alloc: Global,
    server: &mut Server<M>,
    events: &[ScriptEvent],
    out: &mut O,
) -> Result<(), Unfinished>
    requires young { age_of server.old.inner + ticks_of events.now ≤ 1000000000 }
    ensures played { (w : World) → StandsFor (⟦<Server<M> as Serving>⟧.value server.old) w →
        OnOk result (HasPlayed (events_of events.now) w
        (⟦<Server<M> as Serving>⟧.value server.new) (O.held out.old) (O.held out.new)) }
    ensures stopped { (w : World) → StandsFor (⟦<Server<M> as Serving>⟧.value server.old) w →
        OnErr result (HasStopped (events_of events.now) w (O.held out.old) (O.held out.new)) }
    ensures failed { IsErrOf result Unfinished.Failed → Rose (O.faults out.old) (O.faults out.new) }
    ensures counts { StandsOrRises (O.faults out.old) (O.faults out.new) }
{
    let mut lines = Vec::new(alloc);
    for event in events {
        play_line(alloc, server, event, &mut lines, out)?;
    }
    Ok(())
}

/// Plays a script on a server of a new world.
fn play_script<O: Sink, M: Mind>(
    alloc: Global,
    options: WorldOptions,
    script: &Script,
    out: &mut O,
    minds: Vec<M>,
) -> Result<(), Unfinished>
    requires settings { AreSettings options.players options.view }
    requires young { ticks_of script.now.events.items ≤ 1000000000 }
    ensures played { OnOk result (Grows (O.held out.old) (O.held out.new)
        (replay_text (new_world (start_of (map (λ mind. M.plan mind) minds.items) options))
        (events_of script.now.events.items))) }
    ensures stopped { OnErr result (HasStopped (events_of script.now.events.items)
        (new_world (start_of (map (λ mind. M.plan mind) minds.items) options))
        (O.held out.old) (O.held out.new)) }
    ensures failed { IsErrOf result Unfinished.Failed → Rose (O.faults out.old) (O.faults out.new) }
    ensures counts { StandsOrRises (O.faults out.old) (O.faults out.new) }
{
    let mut server = new_server(alloc, options, minds)?;
    let played = play_all(alloc, &mut server, &script.events, out);
    drop(server);
    played
}

/// Plays what a text says as a script, and gives the text's first fault.
fn tell_script<O: Sink, M: Mind>(
    alloc: Global,
    options: WorldOptions,
    text: Vec<u8>,
    out: &mut O,
    minds: Vec<M>,
) -> Result<Option<BadInput>, Unfinished>
    requires { AreSettings options.players options.view }
    ensures told { Tells
        (replay_told (start_of (map (λ mind. M.plan mind) minds.items) options) text.items) result
        (O.held out.old) (O.held out.new) (O.faults out.old) (O.faults out.new) }
    ensures script { IsErrOf result Unfinished.Failed → IsScriptText text.items }
{
    let script = match Script::read(alloc, &text) {
        Ok(script) => script,
        Err(ScriptError::Bad(bad)) => return Ok(Some(bad)),
        Err(ScriptError::NoMemory) => return Err(Unfinished::NoMemory),
    };
    // The text is as long as all that happens in it, and nothing more is read of it.
    drop(text);
    play_script(alloc, options, &script, out, minds)?;
    Ok(None)
}

/// The command `replay`: it reads a script of events, plays it on a server of a new world, and
/// writes after each event what each connection is owed.
pub fn replay<I: Source, O: Sink, M: Mind>(
    alloc: Global,
    options: WorldOptions,
    input: &mut I,
    out: &mut O,
    minds: Vec<M>,
) -> Ended
    requires { AreSettings options.players options.view }
    ensures delivered { Delivered
        (replay_told (start_of (map (λ mind. M.plan mind) minds.items) options)) result
        (streams (I.left input.old) (I.faults input.old) (O.held out.old) (O.faults out.old))
        (streams (I.left input.new) (I.faults input.new) (O.held out.new) (O.faults out.new)) }
    ensures plays { Plays (start_of (map (λ mind. M.plan mind) minds.items) options) result
        (I.left input.old) }
{
    let text = match read_text(alloc, input) {
        Ok(text) => text,
        Err(InputError::Failed) => return Ended::ReadFault,
        Err(InputError::NoMemory) => return Ended::NoMemory,
    };
    Ended::told(tell_script(alloc, options, text, out, minds))
}
