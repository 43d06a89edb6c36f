ghost use Rattle.std.specs.Prelude.{◌≡◌, ◌<◌, ◌≤◌, ◌||◌, None, [], ◌∷◌, length, true, is_ok, IfOk};
ghost use Rattle.std.specs.Prelude.{OnErr};
ghost use Rattle.mc_wire.specs.Count.{Rose};

use mc_wire::{Event, Failed, Lobby, MemoryLobby, Pace, Wrote};

/// A lobby in memory that tells nothing of itself.
#[derive(Drop)]
pub struct Untold {
    lobby: MemoryLobby,
}

impl Untold {
    /// One that answers as another does.
    pub fn new(lobby: MemoryLobby) -> Untold {
        Untold { lobby }
    }
}

impl Lobby for Untold {
    ghost told = { λ untold. None };

    ghost listens = { λ untold. untold.lobby.listens };

    ghost counts = { λ untold. untold.lobby.counts };

    ghost least = { λ untold. untold.lobby.least };

    fn pace(&mut self, pace: Pace) {
        self.lobby.pace(pace);
    }

    fn listen(&mut self, port: u16) -> Result<(), Failed> {
        self.lobby.listen(port)
    }

    fn next(&mut self, buf: &mut [u8]) -> Result<Event, Failed> {
        self.lobby.next(buf)
    }

    fn write(&mut self, k: u32, piece: &[u8]) -> Wrote {
        self.lobby.write(k, piece)
    }

    fn close(&mut self, k: u32) {
        self.lobby.close(k);
    }
}
