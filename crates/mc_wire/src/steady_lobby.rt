ghost use Rattle.std.specs.Prelude.{◌≡◌, ◌<◌, ◌≤◌, ◌↔◌, Some, [], ◌∷◌, length, true, false};
ghost use Rattle.std.specs.Prelude.{option_map, IsOk, IsSome, IfOk, IfSome};
ghost use Rattle.std.specs.Option.{option_copied};
ghost use Rattle.mc_wire.specs.LobbyTold.{nothing_called, with_port, with_pace};
ghost use Rattle.mc_wire.specs.Becoming.{ToldBecomes, Logs};
ghost use Rattle.mc_wire.specs.LobbyAnswers.{event_entry, wrote_entry, IsInBuffer, IsInPiece};
ghost use Rattle.mc_wire.specs.LobbyAnswers.{RaisesLeast};
ghost use Rattle.mc_wire.specs.Events.{AreEvents, IsNextEvent, least_after};

use crate::lobby_record::{LobbyRecord, note, note_event, note_pace, note_port, note_write};
use crate::upcoming::Upcoming;
use crate::{Event, Failed, Lobby, LogEntry, Pace, Wrote};
use std::alloc::Global;
use std::marker::Model;

/// A lobby in memory that never fails, stalls or breaks. Where there is no memory for what it
/// answered it tells nothing from then on, and answers as it otherwise would.
#[derive(Drop)]
pub struct SteadyLobby {
    kept: Option<LobbyRecord>,
    upcoming: Upcoming,
    is_listening: bool,
}

impl Model for SteadyLobby {
    ghost use Rattle.mc_wire.specs.LobbyState.{SteadyState};

    ghost Value = { SteadyState };

    ghost view = { λ lobby. record {
      told = lobby.kept;
      left = lobby.upcoming.left;
      least = lobby.upcoming.least;
      listens = lobby.is_listening;
    } };
}

impl SteadyLobby {
    /// A lobby that gives these events, and then the end. `None` where the numbers of those that
    /// join do not rise, or an entry is no event: joined, left, a tick, or one byte at least.
    pub fn new(alloc: Global, events: Vec<LogEntry>) -> Option<SteadyLobby>
        ensures some { IsSome result ↔ AreEvents 0 events.items }
        ensures first { IfSome result (λ lobby. lobby ≡ record {
          told = Some nothing_called;
          left = events.items;
          least = 0;
          listens = false;
        }) }
    {
        let upcoming = Upcoming::new(events)?;
        Some(SteadyLobby {
            kept: Some(LobbyRecord::new(alloc)),
            upcoming,
            is_listening: false,
        })
    }

    /// The log of its answers, or `None` where it no longer tells it.
    pub fn log(&self) -> Option<&[LogEntry]>
        ensures { option_copied result ≡ option_map (λ told. told.log) self.now.told }
    {
        match &self.kept {
            Some(kept) => Some(kept.log()),
            None => None,
        }
    }

    /// Notes that it was asked to listen on a port.
    pub(crate) fn ask(&mut self, port: u16)
        ensures tells { ToldBecomes self.old.told self.new.told (with_port port) }
        ensures after { self.new ≡ record self.old { told = self.new.told } }
    {
        note_port(&mut self.kept, port);
    }

    /// Begins to listen.
    pub(crate) fn begin(&mut self)
        ensures { self.new ≡ record self.old { listens = true } }
    {
        self.is_listening = true;
    }

    /// Notes what a write answered.
    pub(crate) fn wrote(&mut self, wrote: Wrote, k: u32, piece: &[u8])
        requires within { IsInPiece wrote (length piece.now) }
        ensures tells { Logs self.old.told self.new.told (wrote_entry wrote k piece.now ∷ []) }
        ensures after { self.new ≡ record self.old { told = self.new.told } }
    {
        note_write(&mut self.kept, wrote, k, piece);
    }
}

impl Lobby for SteadyLobby {
    ghost use Rattle.mc_wire.specs.LobbyCounts.{no_counts};

    ghost told = { λ lobby. lobby.told };

    ghost listens = { λ lobby. lobby.listens };

    ghost counts = { λ _. no_counts };

    ghost least = { λ lobby. lobby.least };

    fn pace(&mut self, pace: Pace)
        ensures tells { ToldBecomes self.old.told self.new.told (with_pace pace) }

        // What it leaves in the lobby.
        ensures after { self.new ≡ record self.old { told = self.new.told } }
    {
        note_pace(&mut self.kept, pace);
    }

    fn listen(&mut self, port: u16) -> Result<(), Failed>
        ensures steady { IsOk result }
        ensures tells { ToldBecomes self.old.told self.new.told (with_port port) }

        // What it leaves in the lobby.
        ensures after { self.new ≡ record self.old { told = self.new.told; listens = true } }
    {
        self.ask(port);
        self.begin();
        Ok(())
    }

    fn next(&mut self, buf: &mut [u8]) -> Result<Event, Failed>
        requires listening { self.old.listens ≡ true }
        requires room { 0 < length buf.old }
        ensures steady { IsOk result }
        ensures tells { IfOk result
            (λ event. Logs self.old.told self.new.told (event_entry event buf.new ∷ [])) }
        ensures within { IfOk result (λ event. IsInBuffer event buf.new) }
        ensures raises { IfOk result (λ event. RaisesLeast event self.old.least self.new.least) }

        // The exact answer, and what it leaves in the lobby and in the buffer.
        ensures event { IfOk result
            (λ event. IsNextEvent event buf.old buf.new self.old.left self.new.left) }
        ensures after { IfOk result (λ event. self.new ≡ record self.old {
          told = self.new.told;
          left = self.new.left;
          least = least_after event self.old.least;
        }) }
    {
        let event = self.upcoming.take(buf);
        note_event(&mut self.kept, event, buf);
        Ok(event)
    }

    fn write(&mut self, k: u32, piece: &[u8]) -> Wrote
        requires listening { self.old.listens ≡ true }
        requires some { 0 < length piece.now }
        ensures tells { Logs self.old.told self.new.told (LogEntry.Put k piece.now ∷ []) }

        // The exact answer, and what it leaves in the lobby.
        ensures all { result ≡ Wrote.Took (length piece.now) }
        ensures after { self.new ≡ record self.old { told = self.new.told } }
    {
        let wrote = Wrote::Took(piece.len());
        self.wrote(wrote, k, piece);
        wrote
    }

    fn close(&mut self, k: u32)
        requires listening { self.old.listens ≡ true }
        ensures tells { Logs self.old.told self.new.told (LogEntry.Closed k ∷ []) }

        // What it leaves in the lobby.
        ensures after { self.new ≡ record self.old { told = self.new.told } }
    {
        note(&mut self.kept, LogEntry::Closed(k));
    }
}
