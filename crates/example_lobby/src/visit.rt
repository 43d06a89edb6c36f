//! A lobby of one's own.

ghost use Rattle.std.specs.Prelude.{◌≡◌, ◌<◌, ◌≤◌, ◌||◌, None, [], ◌∷◌, length, true, is_ok, IfOk};
ghost use Rattle.std.specs.Prelude.{OnErr};
ghost use Rattle.mc_wire.specs.Count.{Rose};

use mc_wire::{Event, Failed, Lobby, Pace, Wrote};

/// The number of the one connection.
const VISITOR: u32 = 1;

/// The handshake and the login of a client that is called Al.
const LOGIN: &[u8] = b"\x0f\x00\x2f\x09localhost\x63\xdd\x02\x04\x00\x02Al";

/// A lobby with one visitor, which joins, logs in, stays for so many ticks and goes. It takes all
/// that is written to it, and counts it.
#[derive(Drop)]
pub struct Visit {
    listens: bool,
    /// Whether the visitor joined.
    joined: bool,
    /// How many bytes of its login it sent.
    sent: usize,
    /// How many ticks are still to come.
    ticks: u8,
    /// How many bytes it took.
    taken: u64,
}

impl Visit {
    /// A visit of so many ticks.
    pub fn new(ticks: u8) -> Visit {
        Visit {
            listens: false,
            joined: false,
            sent: 0,
            ticks,
            taken: 0,
        }
    }

    /// How many bytes the visitor took.
    pub fn taken(&self) -> u64 {
        self.taken
    }
}

impl Lobby for Visit {
    ghost use Rattle.std.specs.Prelude.{if◌then◌else◌};
    ghost use Rattle.mc_wire.specs.LobbyCounts.{no_counts};

    // It keeps no log of its answers, so a promise over that says nothing of it.
    ghost told = { λ visit. None };

    ghost listens = { λ visit. visit.listens };

    // Nothing fails, stalls or breaks.
    ghost counts = { λ visit. no_counts };

    // Nobody joins behind the visitor.
    ghost least = { λ visit. if visit.joined then 2 else 1 };

    fn pace(&mut self, _pace: Pace) {}

    fn listen(&mut self, _port: u16) -> Result<(), Failed> {
        self.listens = true;
        Ok(())
    }

    fn next(&mut self, buf: &mut [u8]) -> Result<Event, Failed> {
        if !self.joined {
            self.joined = true;
            return Ok(Event::Join(VISITOR));
        }
        let rest = LOGIN.get(self.sent..).unwrap_or(&[]);
        let count = rest.len().min(buf.len());
        if count > 0 {
            buf[..count].copy_from_slice(&rest[..count]);
            self.sent = self.sent.saturating_add(count);
            return Ok(Event::Bytes(VISITOR, count));
        }
        if self.ticks > 0 {
            self.ticks -= 1;
            return Ok(Event::Tick);
        }
        Ok(Event::End)
    }

    fn write(&mut self, _k: u32, piece: &[u8]) -> Wrote {
        self.taken = self.taken.saturating_add(piece.len() as u64);
        Wrote::Took(piece.len())
    }

    fn close(&mut self, _k: u32) {}
}
