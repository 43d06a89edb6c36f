ghost use Rattle.std.specs.Prelude.{◌≡◌, ◌∷◌, ◌<◌, ◌≤◌, ℕ, [], true, IfOk, OnOk, map};
ghost use Rattle.mc_wire.specs.declared.log.LogEntry.{LogEntry};
ghost use Rattle.mc_wire.specs.Becoming.{HasLogged};
ghost use Rattle.mc_wire.specs.LobbyCounts.{StandOrRise};
ghost use Rattle.mc_model.specs.Turns.{done_in};
ghost use Rattle.mc_model.specs.World.{World};
ghost use Rattle.mc_events.specs.Asking.{pending_in};
ghost use Rattle.mc_events.specs.Inputs.{age_after};
ghost use Rattle.mc_events.specs.Served.{age_of};
ghost use Rattle.mc_events.specs.Stands.{Stands};
ghost use Rattle.mc_server.specs.Minded.{StandsFor};
ghost use Rattle.mc_server.specs.Drives.{one_if};
ghost use Rattle.mc_server.specs.TurnParts.{HasClosed, HasSent, HasSentAll, HasTurned, HoldsDone};
ghost use Rattle.mc_server.specs.TurnParts.{IsInputOf, closing_of};

use crate::server::{Server, Serving};
use mc_bytes::NoMemory;
use mc_entities::{Mind, Planned};
use mc_events::Input;
use mc_links::is_ours;
use mc_wire::{Lobby, Wrote};

/// The most bytes of one write.
const PIECE_MAX: usize = 65_536;

/// Writes to a connection what it is owed, piece by piece, until that is nothing or a write stalls
/// or breaks.
fn send<L: Lobby>(server: &mut mc_events::Server, lobby: &mut L, k: u32) -> Result<(), NoMemory>
    requires listening { L.listens lobby.old ≡ true }
    ensures sent { (w : World) → Stands server.old w →
        OnOk result (HasSent k (L.told lobby.old) (L.told lobby.new) w server.new) }
    ensures age { OnOk result (age_of server.new ≡ age_of server.old) }
    ensures logs { HasLogged (L.told lobby.old) (L.told lobby.new) }
    ensures hears { L.listens lobby.new ≡ true }
    ensures falls { StandOrRise (L.counts lobby.old) (L.counts lobby.new) }
{
    'sending: loop {
        let front = server.front(k);
        let count = front.len().min(PIECE_MAX);
        if count == 0 {
            return Ok(());
        }
        match lobby.write(k, &front[..count]) {
            Wrote::Took(n) => server.took(k, n),
            Wrote::Stalled => return Ok(()),
            Wrote::Broken => {
                server.event::<Planned>(Input::Broke(k), &mut [])?;
                return Ok(());
            }
        }
    }
}

/// Writes to each connection that is pending what it is owed, one after another.
fn send_all<L: Lobby>(
    server: &mut mc_events::Server,
    lobby: &mut L,
    pending: &[u32],
) -> Result<(), NoMemory>
    requires listening { L.listens lobby.old ≡ true }
    ensures sent { (w : World) → Stands server.old w → pending.now ≡ pending_in w →
        OnOk result (HasSentAll (L.told lobby.old) (L.told lobby.new) w server.new) }
    ensures age { OnOk result (age_of server.new ≡ age_of server.old) }
    ensures logs { HasLogged (L.told lobby.old) (L.told lobby.new) }
    ensures hears { L.listens lobby.new ≡ true }
    ensures falls { StandOrRise (L.counts lobby.old) (L.counts lobby.new) }
{
    for k in pending {
        send(server, lobby, *k)?;
    }
    Ok(())
}

/// One where it is true.
fn one_if(there: bool) -> usize
    ensures is { result ≡ one_if there }
    ensures small { result ≤ 1 }
{
    if there { 1 } else { 0 }
}

/// Closes a connection and forgets it, where it is closed in the server and owed nothing. It
/// answers how many it so closed that the server had closed itself.
fn close<L: Lobby>(server: &mut mc_events::Server, lobby: &mut L, k: u32) -> u64
    requires listening { L.listens lobby.old ≡ true }
    ensures closed { (w : World) → Stands server.old w →
        HasClosed (closing_of w k) (L.told lobby.old) (L.told lobby.new) w server.new result }
    ensures few { result ≤ 1 }
    ensures age { age_of server.new ≡ age_of server.old }
    ensures logs { HasLogged (L.told lobby.old) (L.told lobby.new) }
    ensures hears { L.listens lobby.new ≡ true }
    ensures falls { StandOrRise (L.counts lobby.old) (L.counts lobby.new) }
{
    if !server.done(k) {
        return 0;
    }
    let count = one_if(is_ours(server.cause(k))) as u64;
    lobby.close(k);
    server.forget(k);
    count
}

/// Closes each of the connections that is closed in the server and owed nothing. It answers how
/// many of these the server had closed itself.
fn close_all<L: Lobby>(server: &mut mc_events::Server, lobby: &mut L, pending: &[u32]) -> u64
    requires listening { L.listens lobby.old ≡ true }
    ensures closed { (w : World) → Stands server.old w → HoldsDone w pending.now →
        HasClosed (map LogEntry.Closed (done_in w)) (L.told lobby.old) (L.told lobby.new) w
        server.new result }
    ensures age { age_of server.new ≡ age_of server.old }
    ensures logs { HasLogged (L.told lobby.old) (L.told lobby.new) }
    ensures hears { L.listens lobby.new ≡ true }
    ensures falls { StandOrRise (L.counts lobby.old) (L.counts lobby.new) }
{
    let mut count = 0;
    for k in pending {
        count += close(server, lobby, *k);
    }
    count
}

/// Does a turn: hands what happened to the server, writes to each connection what it is owed, and
/// closes those that are closed in the server and owed nothing. It answers how many of these the
/// server had closed itself.
pub fn take_turn<L: Lobby, M: Mind>(
    server: &mut Server<M>,
    lobby: &mut L,
    input: Input<'_>,
) -> Result<u64, NoMemory>
    requires listening { L.listens lobby.old ≡ true }
    requires young { input ≡ Input.Tick → age_of server.old.inner < 1000000000 }
    ensures turned { (w : World) (entry : LogEntry) →
        StandsFor (⟦<Server<M> as Serving>⟧.value server.old) w → IsInputOf entry input.entry →
        IfOk result (λ count. HasTurned entry (L.told lobby.old) (L.told lobby.new) w
        (⟦<Server<M> as Serving>⟧.value server.new) count) }
    ensures age { OnOk result
        (age_of server.new.inner ≡ age_after input.entry (age_of server.old.inner)) }
    ensures logs { HasLogged (L.told lobby.old) (L.told lobby.new) }
    ensures hears { L.listens lobby.new ≡ true }
    ensures falls { StandOrRise (L.counts lobby.old) (L.counts lobby.new) }
{
    server.event(input)?;
    let pending = server.inner.pending()?;
    send_all(&mut server.inner, lobby, &pending)?;
    Ok(close_all(&mut server.inner, lobby, &pending))
}
