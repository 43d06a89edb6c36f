ghost use Rattle.std.specs.Prelude.{◌≡◌, ◌-◌, ◌^◌, ◌<◌, ◌≤◌, length, take, IfOk, OnOk, OnErr};
ghost use Rattle.std.specs.Io.KnownBytes.{Consumes, IsAtEnd, Keeps};
ghost use Rattle.mc_wire.specs.Count.{Rose, NeverFalls, raised};

use mc_wire::{Failed, Source};
use std::io::Read;
use std::marker::Model;

/// A source over a reader of the outside, which tells nothing of what is left. Once it has given
/// 2^64 - 1 answers it fails.
#[derive(Drop)]
pub struct ReaderSource<R> {
    reader: R,
    faults: u64,
    answers: u64,
}

impl<R> Model for ReaderSource<R> {
    ghost use Rattle.mc_devices.specs.Edge.{InputState};

    ghost Value = { InputState R };

    ghost view = { λ source. record {
      reader = source.reader;
      faults = source.faults;
      answers = source.answers;
    } };
}

impl<R> ReaderSource<R> {
    /// A source that has counted no failure yet.
    pub fn new(reader: R) -> ReaderSource<R>
        ensures { result ≡ record { reader = reader; faults = 0; answers = 2 ^ 64 - 1 } }
    {
        ReaderSource {
            reader,
            faults: 0,
            answers: u64::MAX,
        }
    }
}

impl<R: Read> Source for ReaderSource<R> {
    ghost use Rattle.std.specs.Prelude.{None};

    ghost left = { λ _. None };

    ghost faults = { λ source. source.faults };

    ghost answers = { λ source. source.answers };

    fn read(&mut self, buf: &mut [u8]) -> Result<usize, Failed>
        requires { 0 < length buf.old }
        ensures within { IfOk result (λ n. n ≤ length buf.new) }
        ensures failed { OnErr result (Rose self.old.faults self.new.faults) }
        ensures counts { NeverFalls self.old.faults self.new.faults }
        ensures falls { IfOk result (λ n. 0 < n → self.new.answers < self.old.answers) }

        // A failure is counted once, and an answer is not.
        ensures ok { OnOk result (self.new.faults ≡ self.old.faults) }
        ensures err { OnErr result (self.new.faults ≡ raised self.old.faults) }

        // What the reader gives, where it tells it.
        ensures given { IfOk result (λ n.
            Consumes (R.remaining self.old.reader) (R.remaining self.new.reader) (take n buf.new)) }
        ensures end { result ≡ Ok 0 → IsAtEnd (R.remaining self.new.reader) }
        ensures kept { OnErr result
            (Keeps (R.remaining self.old.reader) (R.remaining self.new.reader)) }
    {
        let faults = self.faults;
        let answers = self.answers;
        if answers > 0
            && let Ok(count) = self.reader.read(buf)
        {
            self.answers = answers - 1;
            return Ok(count);
        }
        self.faults = faults.saturating_add(1);
        Err(Failed)
    }
}
