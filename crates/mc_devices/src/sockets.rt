ghost use Rattle.std.specs.Prelude.{◌≡◌, ◌<◌, true, false, length, is_some};
ghost use Rattle.mc_wire.specs.LobbyCounts.{no_counts};

mod allowance;
mod connection;
mod contact;
mod limits;
mod lingering;
mod listening;
mod rounds;
mod stall;
mod ticker;
mod watch;

use listening::Listening;
use mc_wire::{Event, Failed, Lobby, Pace, Wrote};
use rounds::Rounds;
use std::marker::Model;
use std::net::Net;
use std::time::Clock;

/// A lobby over sockets on 127.0.0.1, which tells no log. Before it is told a pace, ticks come by
/// the clock.
#[derive(Drop)]
pub struct SocketLobby<'r, R> {
    rt: &'r R,
    listening: Option<Listening>,
    rounds: Rounds,
    faults: u64,
    stalls: u64,
    breaks: u64,
}

impl<'r, R> Model for SocketLobby<'r, R> {
    ghost use Rattle.std.specs.Prelude.{is_some};
    ghost use Rattle.mc_wire.specs.LobbyCounts.{NoneFalls};
    ghost use Rattle.mc_devices.specs.Sockets.{SocketLobbyState, counts_of};

    ghost Value = { SocketLobbyState };

    ghost view = { λ lobby. record {
      listens = is_some lobby.listening;
      least = lobby.rounds;
      counts = counts_of lobby.faults lobby.stalls lobby.breaks;
    } };

    ghost invariant = { λ lobby. NoneFalls
        (counts_of lobby.faults lobby.stalls lobby.breaks)
        (counts_of lobby.faults lobby.stalls lobby.breaks) };
}

impl<'r, R: AllocGlobal> SocketLobby<'r, R> {
    /// A lobby that does not listen yet.
    pub fn new(rt: &'r R) -> SocketLobby<'r, R>
        ensures { result ≡ record { listens = false; least = 0; counts = no_counts } }
    {
        SocketLobby {
            rt,
            listening: None,
            rounds: Rounds::new(rt.alloc()),
            faults: 0,
            stalls: 0,
            breaks: 0,
        }
    }
}

impl<'r, R> SocketLobby<'r, R> {
    /// The port on which it listens, if it does.
    pub fn port(&self) -> Option<u16>
        ensures { is_some result ≡ self.now.listens }
    {
        match &self.listening {
            Some(listening) => Some(listening.port),
            None => None,
        }
    }
}

impl<'r, R: Net + Clock + Eprint> Lobby for SocketLobby<'r, R> {
    ghost use Rattle.std.specs.Prelude.{None};

    ghost told = { λ _. None };

    ghost listens = { λ lobby. lobby.listens };

    ghost counts = { λ lobby. lobby.counts };

    ghost least = { λ lobby. lobby.least };

    fn pace(&mut self, pace: Pace) {
        self.rounds.set_pace(pace);
    }

    fn listen(&mut self, port: u16) -> Result<(), Failed> {
        match Listening::new(self.rt, port) {
            Ok(listening) => {
                let _ = eprintln!(self.rt; "listening on 127.0.0.1:{}", listening.port);
                self.listening = Some(listening);
                Ok(())
            }
            Err(error) => {
                self.faults = self.faults.saturating_add(1);
                let _ = eprintln!(self.rt; "craft47: cannot listen on 127.0.0.1:{port}: {error}");
                Err(Failed)
            }
        }
    }

    fn next(&mut self, buf: &mut [u8]) -> Result<Event, Failed> {
        if let Some(listening) = &mut self.listening
            && let Some(event) = self.rounds.next(self.rt, listening, buf)
        {
            return Ok(event);
        }
        self.faults = self.faults.saturating_add(1);
        Err(Failed)
    }

    fn write(&mut self, k: u32, piece: &[u8]) -> Wrote {
        let wrote = self.rounds.write(k, piece);
        match wrote {
            Wrote::Took(_) => {}
            Wrote::Stalled => self.stalls = self.stalls.saturating_add(1),
            Wrote::Broken => self.breaks = self.breaks.saturating_add(1),
        }
        wrote
    }

    fn close(&mut self, k: u32) {
        self.rounds.close(k);
    }
}
