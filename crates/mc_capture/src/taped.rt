//! A lobby that records.
//!
//! `Taped` borrows a lobby and a sink. Each call says what it writes (`Writes`: all of some bytes,
//! or a first part of them where the sink fails, or nothing after that), and a call that is passed
//! on says of the lobby what the lobby says of itself. So the capture of a run is the head, and then
//! what each entry of the log comes to, in the order of the calls (`tape`).
//!
//! It has fields of its own for what no lobby tells: `state` says whether the head is written;
//! `heard` is what it listens by, so that no record comes before the head; and `own_faults` counts
//! what it answers by itself. What a loop over any lobby leaves of all that is said by `TapedSince`.

ghost use Rattle.std.specs.Prelude.{◌≡◌, ◌≢◌, ◌<◌, ◌≤◌, ◌↔◌, ◌||◌, ◌⊎◌, [], ◌∷◌, length};
ghost use Rattle.std.specs.Prelude.{true, false, is_ok, IsErr, IfOk, OnErr};
ghost use Rattle.mc_wire.specs.Count.{Rose};
ghost use Rattle.mc_wire.specs.LobbyTold.{with_port, with_pace};
ghost use Rattle.mc_wire.specs.Becoming.{ToldBecomes, Logs};
ghost use Rattle.mc_wire.specs.LobbyCounts.{NoneFalls, HasCause};
ghost use Rattle.mc_wire.specs.LobbyAnswers.{event_entry, wrote_entry, IsInBuffer, IsInPiece};
ghost use Rattle.mc_wire.specs.LobbyAnswers.{RaisesLeast};
ghost use Rattle.mc_capture.specs.Grammar.{record_with, most_bytes};
ghost use Rattle.mc_capture.specs.Tape.{Writes, carried_by, entry_bytes};
ghost use Rattle.mc_capture.specs.Tape.{head_behind, own_after};
ghost use Rattle.mc_capture.specs.TapedView.{counts_in, listens_in, mark_of};
ghost use Rattle.mc_capture.specs.declared.record.TheConstants.{BYTES_MAX, KINDS};

use crate::record::{BYTES_MAX, HEAD};
use crate::tape_state::TapeState;
use crate::writer::write_parts;
use mc_wire::{Event, Failed, Lobby, LogEntry, Pace, Sink, Wrote, write_all};

/// The kinds of the records of what happened.
const JOINED: u8 = 0;

const CAME: u8 = 1;

const LEFT: u8 = 2;

const TICKED: u8 = 3;

const PUT: u8 = 4;

const BROKE: u8 = 5;

const CLOSED: u8 = 6;

/// A lobby that passes each call on to another, and writes what happened as a capture into a sink.
///
/// - The head of the capture is written by the first `listen`, before that is passed on, and each
///   record by the call that makes it. Nothing is written before, and no call takes memory.
/// - Of a buffer or a piece at most 65,536 bytes are passed on, so that each record is one.
/// - Once the sink failed, nothing more is written to it. Each later `next` fails and is not passed
///   on; all other calls still are. A call in which the sink fails answers what the lobby answered.
/// - It counts the faults of the lobby and its own answers to a sink that failed.
#[derive(Drop)]
pub struct Taped<'a, L, O> {
    /// The lobby.
    pub lobby: &'a mut L,
    /// The sink.
    pub out: &'a mut O,
    /// How far the capture is.
    pub state: TapeState,
    /// Whether a `listen` answered Ok.
    pub heard: bool,
    /// How many calls failed for a sink that failed before, or 2^64 - 1 where that is larger.
    pub own_faults: u64,
}

/// Writes the head of a capture, where nothing is written yet.
fn begin<O: Sink>(state: TapeState, out: &mut O) -> TapeState
    ensures writes { Writes
        (record { state = state; held = O.held out.old; faults = O.faults out.old })
        (record { state = result; held = O.held out.new; faults = O.faults out.new })
        (head_behind state) }
    ensures begun { result ≢ TapeState.Blank }
{
    match state {
        TapeState::Blank => match write_all(out, &HEAD) {
            Ok(()) => TapeState::Written,
            Err(_) => TapeState::Failed,
        },
        TapeState::Written => TapeState::Written,
        TapeState::Failed => TapeState::Failed,
    }
}

/// Writes a record, unless the sink failed before.
fn add<O: Sink>(state: TapeState, kind: u8, k: u32, bytes: &[u8], out: &mut O) -> TapeState
    requires kind { kind < KINDS }
    requires size { length bytes.now ≤ most_bytes kind }
    ensures writes { Writes
        (record { state = state; held = O.held out.old; faults = O.faults out.old })
        (record { state = result; held = O.held out.new; faults = O.faults out.new })
        (record_with kind k bytes.now) }
{
    if state == TapeState::Failed {
        return TapeState::Failed;
    }
    match write_parts(kind, k, bytes, out) {
        Ok(()) => TapeState::Written,
        Err(_) => TapeState::Failed,
    }
}

/// Writes the record of an event, where it has one.
fn add_event<O: Sink>(state: TapeState, event: Event, buf: &[u8], out: &mut O) -> TapeState
    requires within { IsInBuffer event buf.now }
    requires size { length buf.now ≤ BYTES_MAX }
    ensures writes { Writes
        (record { state = state; held = O.held out.old; faults = O.faults out.old })
        (record { state = result; held = O.held out.new; faults = O.faults out.new })
        (entry_bytes (event_entry event buf.now)) }
{
    match event {
        Event::Join(k) => add(state, JOINED, k, &[], out),
        Event::Bytes(k, n) => add(state, CAME, k, &buf[..n], out),
        Event::Gone(k) => add(state, LEFT, k, &[], out),
        Event::Tick => add(state, TICKED, 0, &[], out),
        Event::End => state,
    }
}

/// Writes the record of what a write answered, where it has one.
fn add_write<O: Sink>(
    state: TapeState,
    wrote: Wrote,
    k: u32,
    piece: &[u8],
    out: &mut O,
) -> TapeState
    requires within { IsInPiece wrote (length piece.now) }
    requires size { length piece.now ≤ BYTES_MAX }
    ensures writes { Writes
        (record { state = state; held = O.held out.old; faults = O.faults out.old })
        (record { state = result; held = O.held out.new; faults = O.faults out.new })
        (entry_bytes (wrote_entry wrote k piece.now)) }
{
    match wrote {
        Wrote::Took(n) => add(state, PUT, k, &piece[..n], out),
        Wrote::Broken => add(state, BROKE, k, &[], out),
        Wrote::Stalled => state,
    }
}

impl<'a, L: Lobby, O: Sink> Taped<'a, L, O> {
    /// A taped lobby, of which nothing is written yet.
    pub fn new(lobby: &'a mut L, out: &'a mut O) -> Taped<'a, L, O>
        ensures lobby { result.lobby.ghost_name ≡ lobby.entry.ghost_name }
        ensures out { result.out.ghost_name ≡ out.entry.ghost_name }
        ensures lobby_now { result.lobby.now ≡ lobby.old }
        ensures out_now { result.out.now ≡ out.old }
        ensures blank { result.state ≡ TapeState.Blank }
        ensures heard { result.heard ≡ false }
        ensures own_faults { result.own_faults ≡ 0 }
    {
        Taped {
            lobby,
            out,
            state: TapeState::Blank,
            heard: false,
            own_faults: 0,
        }
    }

    /// Says whether the sink failed.
    pub fn sink_failed(&self) -> bool
        ensures { result ≡ true ↔ (self.now.state ≡ TapeState.Failed) }
    {
        self.state == TapeState::Failed
    }
}

impl<'a, L: Lobby, O: Sink> Lobby for Taped<'a, L, O> {
    ghost told = { λ taped. L.told taped.lobby.now };

    ghost listens = { λ taped. listens_in L.listens taped };

    ghost counts = { λ taped. counts_in L.counts taped };

    ghost least = { λ taped. L.least taped.lobby.now };

    fn pace(&mut self, pace: Pace)
        ensures tells { ToldBecomes (L.told self.old.lobby.now) (L.told self.new.lobby.now)
            (with_pace pace) }
        ensures hears { listens_in L.listens self.new ≡ listens_in L.listens self.old }
        ensures least { L.least self.old.lobby.now ≤ L.least self.new.lobby.now }
        ensures falls { NoneFalls (counts_in L.counts self.old) (counts_in L.counts self.new) }

        // It is passed on, and all else is as before.
        ensures lobby { self.new.lobby.ghost_name ≡ self.old.lobby.ghost_name }
        ensures inner { NoneFalls (L.counts self.old.lobby.now) (L.counts self.new.lobby.now) }
        ensures rest { self.new ≡ record self.old { lobby = self.new.lobby } }
    {
        self.lobby.pace(pace);
    }

    fn listen(&mut self, port: u16) -> Result<(), Failed>
        ensures tells { ToldBecomes (L.told self.old.lobby.now) (L.told self.new.lobby.now)
            (with_port port) }
        ensures hears { listens_in L.listens self.new ≡
            (listens_in L.listens self.old || is_ok result) }
        ensures least { L.least self.old.lobby.now ≤ L.least self.new.lobby.now }
        ensures failed { OnErr result (Rose (counts_in L.counts self.old).faults
            (counts_in L.counts self.new).faults) }
        ensures falls { NoneFalls (counts_in L.counts self.old) (counts_in L.counts self.new) }

        // The head is written where it is not yet, and the call is passed on.
        ensures writes { Writes (mark_of O.held O.faults self.old)
            (mark_of O.held O.faults self.new) (head_behind self.old.state) }
        ensures begun { self.new.state ≢ TapeState.Blank }
        ensures cause { OnErr result (Rose (L.counts self.old.lobby.now).faults
            (L.counts self.new.lobby.now).faults) }
        ensures inner { NoneFalls (L.counts self.old.lobby.now) (L.counts self.new.lobby.now) }
        ensures lobby { self.new.lobby.ghost_name ≡ self.old.lobby.ghost_name }
        ensures out { self.new.out.ghost_name ≡ self.old.out.ghost_name }
        ensures own_faults { self.new.own_faults ≡ self.old.own_faults }
    {
        self.state = begin(self.state, self.out);
        self.lobby.listen(port)?;
        self.heard = true;
        Ok(())
    }

    fn next(&mut self, buf: &mut [u8]) -> Result<Event, Failed>
        requires listening { listens_in L.listens self.old ≡ true }
        requires room { 0 < length buf.old }
        ensures tells { IfOk result (λ event. Logs (L.told self.old.lobby.now)
            (L.told self.new.lobby.now) (event_entry event buf.new ∷ [])) }
        ensures within { IfOk result (λ event. IsInBuffer event buf.new) }
        ensures least { L.least self.old.lobby.now ≤ L.least self.new.lobby.now }
        ensures raises { IfOk result (λ event. RaisesLeast event (L.least self.old.lobby.now)
            (L.least self.new.lobby.now)) }
        ensures kept { OnErr result (L.told self.new.lobby.now ≡ L.told self.old.lobby.now) }
        ensures hears { listens_in L.listens self.new ≡ listens_in L.listens self.old }
        ensures failed { OnErr result (Rose (counts_in L.counts self.old).faults
            (counts_in L.counts self.new).faults) }
        ensures falls { NoneFalls (counts_in L.counts self.old) (counts_in L.counts self.new) }

        // The event's record is written; a call after the sink failed is not passed on.
        ensures writes { IfOk result (λ event. Writes (mark_of O.held O.faults self.old)
            (mark_of O.held O.faults self.new) (entry_bytes (event_entry event buf.new))) }
        ensures size { IfOk result
            (λ event. carried_by (event_entry event buf.new) ≤ BYTES_MAX) }
        ensures unwritten { OnErr result ((self.new.out ≡ self.old.out)
            × (self.new.state ≡ self.old.state)) }
        ensures after_fault { self.old.state ≡ TapeState.Failed →
            IsErr result × (self.new.lobby ≡ self.old.lobby) }
        ensures cause { OnErr result ((self.old.state ≡ TapeState.Failed) ⊎ Rose
            (L.counts self.old.lobby.now).faults (L.counts self.new.lobby.now).faults) }
        ensures inner { self.old.state ≢ TapeState.Failed →
            NoneFalls (L.counts self.old.lobby.now) (L.counts self.new.lobby.now) }
        ensures lobby { self.new.lobby.ghost_name ≡ self.old.lobby.ghost_name }
        ensures out { self.new.out.ghost_name ≡ self.old.out.ghost_name }
        ensures heard { self.new.heard ≡ self.old.heard }
        ensures own_faults { self.new.own_faults ≡ own_after self.old.state self.old.own_faults }
    {
        if self.state == TapeState::Failed {
            self.own_faults = self.own_faults.saturating_add(1);
            return Err(Failed);
        }
        let size = buf.len().min(BYTES_MAX as usize);
        let room = &mut buf[..size];
        let event = self.lobby.next(room)?;
        self.state = add_event(self.state, event, room, self.out);
        Ok(event)
    }

    fn write(&mut self, k: u32, piece: &[u8]) -> Wrote
        requires listening { listens_in L.listens self.old ≡ true }
        requires some { 0 < length piece.now }
        ensures tells { Logs (L.told self.old.lobby.now) (L.told self.new.lobby.now)
            (wrote_entry result k piece.now ∷ []) }
        ensures cause { HasCause result (length piece.now) (counts_in L.counts self.old)
            (counts_in L.counts self.new) }
        ensures hears { listens_in L.listens self.new ≡ listens_in L.listens self.old }
        ensures least { L.least self.old.lobby.now ≤ L.least self.new.lobby.now }
        ensures falls { NoneFalls (counts_in L.counts self.old) (counts_in L.counts self.new) }

        // The record of what was taken is written.
        ensures writes { Writes (mark_of O.held O.faults self.old)
            (mark_of O.held O.faults self.new) (entry_bytes (wrote_entry result k piece.now)) }
        ensures size { carried_by (wrote_entry result k piece.now) ≤ BYTES_MAX }
        ensures inner { NoneFalls (L.counts self.old.lobby.now) (L.counts self.new.lobby.now) }
        ensures lobby { self.new.lobby.ghost_name ≡ self.old.lobby.ghost_name }
        ensures out { self.new.out.ghost_name ≡ self.old.out.ghost_name }
        ensures heard { self.new.heard ≡ self.old.heard }
        ensures own_faults { self.new.own_faults ≡ self.old.own_faults }
    {
        let piece = &piece[..piece.len().min(BYTES_MAX as usize)];
        let wrote = self.lobby.write(k, piece);
        self.state = add_write(self.state, wrote, k, piece, self.out);
        wrote
    }

    fn close(&mut self, k: u32)
        requires listening { listens_in L.listens self.old ≡ true }
        ensures tells { Logs (L.told self.old.lobby.now) (L.told self.new.lobby.now)
            (LogEntry.Closed k ∷ []) }
        ensures hears { listens_in L.listens self.new ≡ listens_in L.listens self.old }
        ensures least { L.least self.old.lobby.now ≤ L.least self.new.lobby.now }
        ensures falls { NoneFalls (counts_in L.counts self.old) (counts_in L.counts self.new) }

        // Its record is written.
        ensures writes { Writes (mark_of O.held O.faults self.old)
            (mark_of O.held O.faults self.new) (entry_bytes (LogEntry.Closed k)) }
        ensures inner { NoneFalls (L.counts self.old.lobby.now) (L.counts self.new.lobby.now) }
        ensures lobby { self.new.lobby.ghost_name ≡ self.old.lobby.ghost_name }
        ensures out { self.new.out.ghost_name ≡ self.old.out.ghost_name }
        ensures heard { self.new.heard ≡ self.old.heard }
        ensures own_faults { self.new.own_faults ≡ self.old.own_faults }
    {
        self.lobby.close(k);
        self.state = add(self.state, CLOSED, k, &[], self.out);
    }
}
