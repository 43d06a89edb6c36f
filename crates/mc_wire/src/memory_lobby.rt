ghost use Rattle.std.specs.Prelude.{◌≡◌, ◌<◌, ◌≤◌, ◌↔◌, ◌||◌, Some, [], ◌∷◌, length, true, false};
ghost use Rattle.std.specs.Prelude.{is_ok, option_map, IsErr, IsSome, IfOk, IfSome, OnOk, OnErr};
ghost use Rattle.std.specs.Prelude.{Contains};
ghost use Rattle.std.specs.Option.{option_copied};
ghost use Rattle.mc_wire.specs.Count.{Rose, raised};
ghost use Rattle.mc_wire.specs.LobbyTold.{nothing_called, with_port, with_pace};
ghost use Rattle.mc_wire.specs.Becoming.{ToldBecomes, Logs};
ghost use Rattle.mc_wire.specs.LobbyCounts.{no_counts, with_fault, with_write, NoneFalls, HasCause};
ghost use Rattle.mc_wire.specs.LobbyAnswers.{event_entry, wrote_entry, IsInBuffer, RaisesLeast};
ghost use Rattle.mc_wire.specs.Events.{AreEvents, IsNextEvent, least_after};
ghost use Rattle.mc_wire.specs.Troubles.{write_answer};

use crate::troubles::Troubles;
use crate::{Event, Failed, Lobby, LogEntry, Pace, SteadyLobby, Trouble, Wrote};
use std::alloc::Global;
use std::marker::Model;

/// A lobby in memory, some of whose calls go wrong. Where there is no memory for what it answered
/// it tells nothing from then on, and answers as it otherwise would.
#[derive(Drop)]
pub struct MemoryLobby {
    steady: SteadyLobby,
    troubles: Troubles,
}

impl Model for MemoryLobby {
    ghost use Rattle.mc_wire.specs.LobbyState.{LobbyState};
    ghost use Rattle.mc_wire.specs.LobbyCounts.{NoneFalls};

    ghost Value = { LobbyState };

    ghost view = { λ lobby. record {
      told = lobby.steady.told;
      left = lobby.steady.left;
      least = lobby.steady.least;
      listens = lobby.steady.listens;
      troubles = lobby.troubles.troubles;
      nexts = lobby.troubles.nexts;
      writes = lobby.troubles.writes;
      counts = lobby.troubles.counts;
    } };

    ghost invariant = { λ lobby. NoneFalls lobby.troubles.counts lobby.troubles.counts };
}

impl MemoryLobby {
    /// A lobby that gives these events, and then the end, whose calls go wrong by these troubles.
    /// `None` where the numbers of those that join do not rise, or an entry is no event: joined,
    /// left, a tick, or one byte at least.
    pub fn new(alloc: Global, events: Vec<LogEntry>, troubles: Vec<Trouble>) -> Option<Self>
        ensures some { IsSome result ↔ AreEvents 0 events.items }
        ensures first { IfSome result (λ lobby. lobby ≡ record {
          told = Some nothing_called;
          left = events.items;
          least = 0;
          listens = false;
          troubles = troubles.items;
          nexts = 0;
          writes = 0;
          counts = no_counts;
        }) }
    {
        let steady = SteadyLobby::new(alloc, events)?;
        Some(MemoryLobby {
            steady,
            troubles: Troubles::new(troubles),
        })
    }

    /// The log of its answers, or `None` where it no longer tells it.
    pub fn log(&self) -> Option<&[LogEntry]>
        ensures { option_copied result ≡ option_map (λ told. told.log) self.now.told }
    {
        self.steady.log()
    }
}

impl Lobby for MemoryLobby {
    ghost told = { λ lobby. lobby.told };

    ghost listens = { λ lobby. lobby.listens };

    ghost counts = { λ lobby. lobby.counts };

    ghost least = { λ lobby. lobby.least };

    fn pace(&mut self, pace: Pace)
        ensures tells { ToldBecomes self.old.told self.new.told (with_pace pace) }
        ensures falls { NoneFalls self.old.counts self.new.counts }

        // What it leaves in the lobby.
        ensures after { self.new ≡ record self.old { told = self.new.told } }
    {
        self.steady.pace(pace);
    }

    fn listen(&mut self, port: u16) -> Result<(), Failed>
        ensures tells { ToldBecomes self.old.told self.new.told (with_port port) }
        ensures hears { self.new.listens ≡ (self.old.listens || is_ok result) }
        ensures failed { OnErr result (Rose self.old.counts.faults self.new.counts.faults) }
        ensures falls { NoneFalls self.old.counts self.new.counts }

        // When it fails, and what it leaves in the lobby.
        ensures fails { IsErr result ↔ Contains self.old.troubles Trouble.FailListen }
        ensures ok { OnOk result (self.new ≡ record self.old {
          told = self.new.told;
          listens = true;
        }) }
        ensures err { OnErr result (self.new ≡ record self.old {
          told = self.new.told;
          counts = with_fault self.old.counts;
        }) }
    {
        self.steady.ask(port);
        self.troubles.listen()?;
        self.steady.begin();
        Ok(())
    }

    fn next(&mut self, buf: &mut [u8]) -> Result<Event, Failed>
        requires listening { self.old.listens ≡ true }
        requires room { 0 < length buf.old }
        ensures tells { IfOk result
            (λ event. Logs self.old.told self.new.told (event_entry event buf.new ∷ [])) }
        ensures within { IfOk result (λ event. IsInBuffer event buf.new) }
        ensures least { self.old.least ≤ self.new.least }
        ensures raises { IfOk result (λ event. RaisesLeast event self.old.least self.new.least) }
        ensures failed { OnErr result (Rose self.old.counts.faults self.new.counts.faults) }
        ensures falls { NoneFalls self.old.counts self.new.counts }

        // The exact answer, and what it leaves in the lobby and in the buffer.
        ensures fails { IsErr result ↔
            Contains self.old.troubles (Trouble.FailNext self.old.nexts) }
        ensures event { IfOk result
            (λ event. IsNextEvent event buf.old buf.new self.old.left self.new.left) }
        ensures ok { IfOk result (λ event. self.new ≡ record self.old {
          told = self.new.told;
          left = self.new.left;
          least = least_after event self.old.least;
          nexts = raised self.old.nexts;
        }) }
        ensures err { OnErr result (self.new ≡ record self.old {
          nexts = raised self.old.nexts;
          counts = with_fault self.old.counts;
        }) }
        ensures untouched { OnErr result (buf.new ≡ buf.old) }
    {
        self.troubles.next()?;
        self.steady.next(buf)
    }

    fn write(&mut self, k: u32, piece: &[u8]) -> Wrote
        requires listening { self.old.listens ≡ true }
        requires some { 0 < length piece.now }
        ensures tells { Logs self.old.told self.new.told (wrote_entry result k piece.now ∷ []) }
        ensures cause { HasCause result (length piece.now) self.old.counts self.new.counts }
        ensures falls { NoneFalls self.old.counts self.new.counts }

        // The exact answer, and what it leaves in the lobby.
        ensures is { result ≡ write_answer self.old.troubles self.old.writes (length piece.now) }
        ensures after { self.new ≡ record self.old {
          told = self.new.told;
          writes = raised self.old.writes;
          counts = with_write result self.old.counts;
        } }
    {
        let wrote = self.troubles.write(piece.len());
        self.steady.wrote(wrote, k, piece);
        wrote
    }

    fn close(&mut self, k: u32)
        requires listening { self.old.listens ≡ true }
        ensures tells { Logs self.old.told self.new.told (LogEntry.Closed k ∷ []) }
        ensures falls { NoneFalls self.old.counts self.new.counts }

        // What it leaves in the lobby.
        ensures after { self.new ≡ record self.old { told = self.new.told } }
    {
        self.steady.close(k);
    }
}
