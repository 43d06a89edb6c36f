ghost use Rattle.std.specs.Prelude.{◌≡◌, ℕ, ◌<◌, ◌≤◌, length, take, IfOk, OnOk, OnErr};
ghost use Rattle.std.specs.Io.KnownBytes.{Appends};
ghost use Rattle.mc_wire.specs.Count.{Rose, NeverFalls, raised};

use mc_wire::{Failed, Sink};
use std::io::Write;
use std::marker::Model;

/// A sink over a writer of the outside, which tells nothing of what it took. A piece that it
/// answers for has left the writer's buffer.
#[derive(Drop)]
pub struct WriterSink<W> {
    writer: W,
    faults: u64,
}

impl<W> Model for WriterSink<W> {
    ghost use Rattle.mc_devices.specs.Edge.{OutputState};

    ghost Value = { OutputState W };

    ghost view = { λ sink. record { writer = sink.writer; faults = sink.faults } };
}

impl<W> WriterSink<W> {
    /// A sink that has counted no failure yet.
    pub fn new(writer: W) -> WriterSink<W>
        ensures { result ≡ record { writer = writer; faults = 0 } }
    {
        WriterSink { writer, faults: 0 }
    }
}

impl<W: Write> Sink for WriterSink<W> {
    ghost use Rattle.std.specs.Prelude.{None};

    ghost held = { λ _. None };

    ghost faults = { λ sink. sink.faults };

    fn write(&mut self, piece: &[u8]) -> Result<usize, Failed>
        requires { 0 < length piece.now }
        ensures took { IfOk result (λ n. (0 < n) × (n ≤ length piece.now)) }
        ensures failed { OnErr result (Rose self.old.faults self.new.faults) }
        ensures counts { NeverFalls self.old.faults self.new.faults }

        // A failure is counted once, and an answer is not.
        ensures ok { OnOk result (self.new.faults ≡ self.old.faults) }
        ensures err { OnErr result (self.new.faults ≡ raised self.old.faults) }

        // What the writer takes, where it tells it. A failure may leave some first part taken.
        ensures grows { IfOk result (λ n.
            Appends (W.contents self.old.writer) (W.contents self.new.writer) (take n piece.now)) }
        ensures part { OnErr result ((n : ℕ) ×
            Appends (W.contents self.old.writer) (W.contents self.new.writer) (take n piece.now)) }
    {
        let faults = self.faults;
        if let Ok(count) = self.writer.write(piece)
            && count > 0
            && self.writer.flush().is_ok()
        {
            return Ok(count);
        }
        self.faults = faults.saturating_add(1);
        Err(Failed)
    }
}
