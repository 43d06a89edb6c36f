ghost use Rattle.std.specs.Prelude.{◌≡◌, ◌<◌, ◌≤◌, ◌↔◌, Some, [], length, IsErr, IfOk, OnOk, OnErr};
ghost use Rattle.std.specs.Prelude.{Contains};
ghost use Rattle.std.specs.Option.{option_copied};
ghost use Rattle.mc_wire.specs.Count.{Rose, NeverFalls, raised};
ghost use Rattle.mc_wire.specs.Stream.{Grows};

use crate::plan::Plan;
use crate::{Failed, Sink, SteadySink};
use std::alloc::Global;
use std::marker::Model;

/// A sink in memory, some of whose writes fail. Where there is no memory for what it took it tells
/// nothing from then on, and answers as it otherwise would.
#[derive(Drop)]
pub struct MemorySink {
    steady: SteadySink,
    plan: Plan,
}

impl Model for MemorySink {
    ghost use Rattle.mc_wire.specs.State.{SinkState};

    ghost Value = { SinkState };

    ghost view = { λ sink. record {
      held = sink.steady;
      fails = sink.plan.fails;
      calls = sink.plan.calls;
      faults = sink.plan.faults;
    } };
}

impl MemorySink {
    /// A sink that holds nothing yet, whose writes with these numbers fail. Writes are numbered
    /// from 0, those that fail too.
    pub fn new(alloc: Global, fails: Vec<u64>) -> MemorySink
        ensures { result ≡ record { held = Some []; fails = fails.items; calls = 0; faults = 0 } }
    {
        MemorySink {
            steady: SteadySink::new(alloc),
            plan: Plan::new(fails),
        }
    }

    /// The bytes that it holds, or `None` where it no longer tells them.
    pub fn held(&self) -> Option<&[u8]>
        ensures { option_copied result ≡ self.now.held }
    {
        self.steady.held()
    }
}

impl Sink for MemorySink {
    ghost held = { λ sink. sink.held };

    ghost faults = { λ sink. sink.faults };

    fn write(&mut self, piece: &[u8]) -> Result<usize, Failed>
        requires { 0 < length piece.now }
        ensures took { IfOk result (λ n. (0 < n) × (n ≤ length piece.now)) }
        ensures grows { OnOk result (Grows self.old.held self.new.held piece.now) }
        ensures kept { OnErr result (self.new.held ≡ self.old.held) }
        ensures failed { OnErr result (Rose self.old.faults self.new.faults) }
        ensures counts { NeverFalls self.old.faults self.new.faults }

        // The exact answer, and what it leaves in the sink.
        ensures fails { IsErr result ↔ Contains self.old.fails self.old.calls }
        ensures many { IfOk result (λ n. n ≡ length piece.now) }
        ensures ok { OnOk result (self.new ≡ record self.old {
          held = self.new.held;
          calls = raised self.old.calls;
        }) }
        ensures err { OnErr result (self.new ≡ record self.old {
          calls = raised self.old.calls;
          faults = raised self.old.faults;
        }) }
    {
        self.plan.call()?;
        self.steady.write(piece)
    }
}
