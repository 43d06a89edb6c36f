ghost use Rattle.std.specs.Prelude.{◌≡◌, ◌<◌, ◌≤◌, ◌||◌, [], ◌∷◌, length, true, is_ok, IfOk, OnErr};
ghost use Rattle.mc_wire.specs.Count.{Rose};
ghost use Rattle.mc_wire.specs.LobbyTold.{with_port, with_pace};
ghost use Rattle.mc_wire.specs.Becoming.{ToldBecomes, Logs};
ghost use Rattle.mc_wire.specs.LobbyCounts.{NoneFalls, HasCause};
ghost use Rattle.mc_wire.specs.LobbyAnswers.{event_entry, wrote_entry, IsInBuffer, RaisesLeast};

use crate::{Event, Failed, LogEntry, Pace, Wrote};

/// Where a server listens: it gives what connections do and when ticks come, and takes what is
/// written to connections. It is a device of the outside, or one in memory.
pub trait Lobby {
    ghost use Rattle.std.specs.Prelude.{ℕ, Bool, Option};
    ghost use Rattle.mc_wire.specs.LobbyTold.{LobbyTold};
    ghost use Rattle.mc_wire.specs.LobbyCounts.{LobbyCounts};

    // The ports, the pace and the log, where it tells them.
    ghost told: { Self → Option LobbyTold };

    // Whether a `listen` answered Ok.
    ghost listens: { Self → Bool };

    // How many failures, stalls and breaks it has counted.
    ghost counts: { Self → LobbyCounts };

    // The least number that the next connection to join may have.
    ghost least: { Self → ℕ };

    /// Takes the pace in which ticks are to come.
    fn pace(&mut self, pace: Pace)
        ensures tells { ToldBecomes (told self.old) (told self.new) (with_pace pace) }
        ensures hears { listens self.new ≡ listens self.old }
        ensures least { least self.old ≤ least self.new }
        ensures falls { NoneFalls (counts self.old) (counts self.new) };

    /// Listens on a port. A failure tells the port, too.
    fn listen(&mut self, port: u16) -> Result<(), Failed>
        ensures tells { ToldBecomes (told self.old) (told self.new) (with_port port) }
        ensures hears { listens self.new ≡ (listens self.old || is_ok result) }
        ensures least { least self.old ≤ least self.new }
        ensures failed { OnErr result (Rose (counts self.old).faults (counts self.new).faults) }
        ensures falls { NoneFalls (counts self.old) (counts self.new) };

    /// Answers what comes next; bytes that came stand at the front of the buffer, one at least. A
    /// failure tells nothing. The number of whoever joins is above all earlier ones.
    fn next(&mut self, buf: &mut [u8]) -> Result<Event, Failed>
        requires listening { listens self.old ≡ true }
        requires room { 0 < length buf.old }
        ensures tells { IfOk result
            (λ event. Logs (told self.old) (told self.new) (event_entry event buf.new ∷ [])) }
        ensures within { IfOk result (λ event. IsInBuffer event buf.new) }
        ensures least { least self.old ≤ least self.new }
        ensures raises { IfOk result
            (λ event. RaisesLeast event (least self.old) (least self.new)) }
        ensures kept { OnErr result (told self.new ≡ told self.old) }
        ensures hears { listens self.new ≡ listens self.old }
        ensures failed { OnErr result (Rose (counts self.old).faults (counts self.new).faults) }
        ensures falls { NoneFalls (counts self.old) (counts self.new) };

    /// Writes some first part of a piece to a connection, one byte at least, unless it stalls or is
    /// broken.
    fn write(&mut self, k: u32, piece: &[u8]) -> Wrote
        requires listening { listens self.old ≡ true }
        requires some { 0 < length piece.now }
        ensures tells { Logs (told self.old) (told self.new) (wrote_entry result k piece.now ∷ []) }
        ensures cause { HasCause result (length piece.now) (counts self.old) (counts self.new) }
        ensures hears { listens self.new ≡ listens self.old }
        ensures least { least self.old ≤ least self.new }
        ensures falls { NoneFalls (counts self.old) (counts self.new) };

    /// Closes a connection.
    fn close(&mut self, k: u32)
        requires listening { listens self.old ≡ true }
        ensures tells { Logs (told self.old) (told self.new) (LogEntry.Closed k ∷ []) }
        ensures hears { listens self.new ≡ listens self.old }
        ensures least { least self.old ≤ least self.new }
        ensures falls { NoneFalls (counts self.old) (counts self.new) };
}
