ghost use Rattle.std.specs.Prelude.{◌≡◌, ◌↔◌, IsErr, OnOk, OnErr, Contains};
ghost use Rattle.mc_wire.specs.Count.{NeverFalls, raised};

use crate::Failed;
use std::marker::Model;

/// Which calls of a device fail, by number, and how many calls and failures there were. Both counts
/// stand still at their type's end.
#[derive(Drop)]
pub struct Plan {
    fails: Vec<u64>,
    calls: u64,
    faults: u64,
}

impl Model for Plan {
    ghost use Rattle.mc_wire.specs.State.{PlanState};

    ghost Value = { PlanState };

    ghost view = { λ plan. record {
      fails = plan.fails.items;
      calls = plan.calls;
      faults = plan.faults;
    } };
}

impl Plan {
    /// The plan before the first call.
    pub fn new(fails: Vec<u64>) -> Plan
        ensures { result ≡ record { fails = fails.items; calls = 0; faults = 0 } }
    {
        Plan {
            fails,
            calls: 0,
            faults: 0,
        }
    }

    /// The next call: whether it fails.
    pub fn call(&mut self) -> Result<(), Failed>
        ensures fails { IsErr result ↔ Contains self.old.fails self.old.calls }
        ensures ok { OnOk result (self.new ≡ record self.old { calls = raised self.old.calls }) }
        ensures err { OnErr result (self.new ≡ record self.old {
          calls = raised self.old.calls;
          faults = raised self.old.faults;
        }) }
        ensures counts { NeverFalls self.old.faults self.new.faults }
    {
        let faults = self.faults;
        let is_failing = self.fails.contains(&self.calls);
        self.calls = self.calls.saturating_add(1);
        if is_failing {
            self.faults = faults.saturating_add(1);
            return Err(Failed);
        }
        Ok(())
    }
}
