ghost use Rattle.std.specs.Prelude.{◌≡◌, ◌<◌, ◌≤◌, [], ◌++◌, ◌↔◌, length, take, drop, min, IsErr};
ghost use Rattle.std.specs.Prelude.{IfOk, OnErr, Contains};
ghost use Rattle.mc_wire.specs.Count.{Rose, NeverFalls, raised};

use crate::plan::Plan;
use crate::{Failed, Source, SteadySource};
use std::marker::Model;

/// A source in memory, some of whose reads fail.
#[derive(Drop)]
pub struct MemorySource {
    steady: SteadySource,
    plan: Plan,
}

impl Model for MemorySource {
    ghost use Rattle.mc_wire.specs.State.{SourceState};

    ghost Value = { SourceState };

    ghost view = { λ source. record {
      left = source.steady;
      fails = source.plan.fails;
      calls = source.plan.calls;
      faults = source.plan.faults;
    } };
}

impl MemorySource {
    /// A source with all of the bytes left, whose reads with these numbers fail. Reads are numbered
    /// from 0, those that fail too.
    pub fn new(bytes: Vec<u8>, fails: Vec<u64>) -> MemorySource
        ensures { result ≡
            record { left = bytes.items; fails = fails.items; calls = 0; faults = 0 } }
    {
        MemorySource {
            steady: SteadySource::new(bytes),
            plan: Plan::new(fails),
        }
    }

    /// The bytes that are left.
    pub fn left(&self) -> &[u8]
        ensures { result.now ≡ self.now.left }
    {
        self.steady.left()
    }
}

impl Source for MemorySource {
    ghost use Rattle.std.specs.Prelude.{Some, length};

    ghost left = { λ source. Some source.left };

    ghost faults = { λ source. source.faults };

    ghost answers = { λ source. length source.left };

    fn read(&mut self, buf: &mut [u8]) -> Result<usize, Failed>
        requires { 0 < length buf.old }
        ensures within { IfOk result (λ n. n ≤ length buf.new) }
        ensures given { IfOk result (λ n. self.old.left ≡ take n buf.new ++ self.new.left) }
        ensures end { result ≡ Ok 0 → self.new.left ≡ [] }
        ensures kept { OnErr result (self.new.left ≡ self.old.left) }
        ensures failed { OnErr result (Rose self.old.faults self.new.faults) }
        ensures counts { NeverFalls self.old.faults self.new.faults }
        ensures falls { IfOk result (λ n. 0 < n → length self.new.left < length self.old.left) }

        // The exact answer, and what it leaves in the source and in the buffer.
        ensures fails { IsErr result ↔ Contains self.old.fails self.old.calls }
        ensures many { IfOk result (λ n. n ≡ min (length buf.old) (length self.old.left)) }
        ensures ok { IfOk result (λ n. self.new ≡ record self.old {
          left = drop n self.old.left;
          calls = raised self.old.calls;
        }) }
        ensures err { OnErr result (self.new ≡ record self.old {
          calls = raised self.old.calls;
          faults = raised self.old.faults;
        }) }
        ensures bytes { IfOk result (λ n. buf.new ≡ take n self.old.left ++ drop n buf.old) }
        ensures untouched { OnErr result (buf.new ≡ buf.old) }
    {
        self.plan.call()?;
        self.steady.read(buf)
    }
}
