ghost use Rattle.std.specs.Prelude.{◌≡◌, ◌<◌, ◌≤◌, [], ◌∷◌, length, true, IfOk, OnErr};
ghost use Rattle.mc_wire.specs.Count.{Rose};
ghost use Rattle.mc_wire.specs.LinkTold.{Exchanges, ToldByRead, ToldByWrite};
ghost use Rattle.mc_wire.specs.LinkStage.{after_connect, after_read, IsGot, FewerAnswers};
ghost use Rattle.mc_wire.specs.LinkCounts.{NeitherFalls, ReadHasCause};

use crate::{Failed, Got};

/// A client's way to a server: it gives what the server sends, and takes what is written to it. It
/// is a device of the outside, or one in memory.
pub trait Link {
    ghost use Rattle.std.specs.Prelude.{ℕ, Option};
    ghost use Rattle.mc_wire.specs.LinkTold.{LinkTold};
    ghost use Rattle.mc_wire.specs.LinkStage.{LinkStage};
    ghost use Rattle.mc_wire.specs.LinkCounts.{LinkCounts};

    // The ports of all `connect` calls, the bytes still to be read and those taken, where it tells
    // them.
    ghost told: { Self → Option LinkTold };

    // Whether it is connected, whether it has ended since, and its run of quiet reads.
    ghost stage: { Self → LinkStage };

    // How many failures and quiet reads it has counted.
    ghost counts: { Self → LinkCounts };

    // How many answers with bytes it has still to give, at most.
    ghost answers: { Self → ℕ };

    /// Connects to a port. A failure tells the port, too.
    fn connect(&mut self, port: u16) -> Result<(), Failed>
        ensures tells { Exchanges (told self.old) (told self.new) (port ∷ []) [] [] }
        ensures stands { stage self.new ≡ after_connect result (stage self.old) }
        ensures failed { OnErr result (Rose (counts self.old).faults (counts self.new).faults) }
        ensures falls { NeitherFalls (counts self.old) (counts self.new) }
        ensures fewer { answers self.new ≤ answers self.old };

    /// Reads into the front of the buffer what the server sent, one byte at least, unless nothing
    /// came this time or nothing more comes. A failure leaves what the link tells.
    fn read(&mut self, buf: &mut [u8]) -> Result<Got, Failed>
        requires connected { (stage self.old).connected ≡ true }
        requires room { 0 < length buf.old }
        ensures within { IsGot result buf.new }
        ensures tells { ToldByRead result buf.new (told self.old) (told self.new) }
        ensures stands { stage self.new ≡ after_read result (stage self.old) }
        ensures cause { ReadHasCause result (counts self.old) (counts self.new) }
        ensures falls { NeitherFalls (counts self.old) (counts self.new) }
        ensures fewer { FewerAnswers result (answers self.old) (answers self.new) };

    /// Writes some first part of the piece, and says how many bytes that is, one at least. A
    /// failure leaves what the link tells.
    fn write(&mut self, piece: &[u8]) -> Result<usize, Failed>
        requires connected { (stage self.old).connected ≡ true }
        requires some { 0 < length piece.now }
        ensures took { IfOk result (λ n. (0 < n) × (n ≤ length piece.now)) }
        ensures tells { ToldByWrite result piece.now (told self.old) (told self.new) }
        ensures stands { stage self.new ≡ stage self.old }
        ensures failed { OnErr result (Rose (counts self.old).faults (counts self.new).faults) }
        ensures falls { NeitherFalls (counts self.old) (counts self.new) }
        ensures fewer { answers self.new ≤ answers self.old };
}
