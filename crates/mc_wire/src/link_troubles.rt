ghost use Rattle.std.specs.Prelude.{◌≡◌, List, ◌∷◌, ◌↔◌, IsErr, OnOk, OnErr, IfSome, IfNone};
ghost use Rattle.std.specs.Prelude.{Contains};
ghost use Rattle.mc_wire.specs.Count.{raised};
ghost use Rattle.mc_wire.specs.LinkCounts.{no_link_counts, with_link_fault, NeitherFalls};
ghost use Rattle.mc_wire.specs.LinkTroubles.{read_fate, with_fate};

use crate::read_fate::ReadFate;
use crate::{Failed, LinkTrouble};
use std::marker::Model;

/// Which calls of a link go wrong, and how many there were. All counts stand still at their type's
/// end.
#[derive(Drop)]
pub struct LinkTroubles {
    troubles: Vec<LinkTrouble>,
    reads: u64,
    writes: u64,
    faults: u64,
    quiets: u64,
}

impl Model for LinkTroubles {
    ghost use Rattle.std.specs.Prelude.{◌<◌, ◌^◌};
    ghost use Rattle.mc_wire.specs.LinkTroubles.{LinkTroublesState};

    ghost Value = { LinkTroublesState };

    ghost view = { λ kept. record {
      troubles = kept.troubles.items;
      reads = kept.reads;
      writes = kept.writes;
      counts = record { faults = kept.faults; quiets = kept.quiets };
    } };

    ghost invariant = { λ kept. (kept.faults < 2 ^ 64) × (kept.quiets < 2 ^ 64) };
}

impl LinkTroubles {
    /// The troubles before the first call.
    pub fn new(troubles: Vec<LinkTrouble>) -> LinkTroubles
        ensures { result ≡ record {
          troubles = troubles.items;
          reads = 0;
          writes = 0;
          counts = no_link_counts;
        } }
    {
        LinkTroubles {
            troubles,
            reads: 0,
            writes: 0,
            faults: 0,
            quiets: 0,
        }
    }

    /// Says whether a `connect` fails.
    pub fn connect(&mut self) -> Result<(), Failed>
        ensures fails { IsErr result ↔ Contains self.old.troubles LinkTrouble.FailConnect }
        ensures ok { OnOk result (self.new ≡ self.old) }
        ensures err { OnErr result (self.new ≡ record self.old {
          counts = with_link_fault self.old.counts;
        }) }
        ensures falls { NeitherFalls self.old.counts self.new.counts }
    {
        let faults = self.faults;
        if self.troubles.contains(&LinkTrouble::FailConnect) {
            self.faults = faults.saturating_add(1);
            return Err(Failed);
        }
        Ok(())
    }

    /// Counts a read, and says what becomes of it.
    pub fn read(&mut self) -> ReadFate
        ensures is { result ≡ read_fate self.old.troubles self.old.reads }
        ensures after { self.new ≡ record self.old {
          reads = raised self.old.reads;
          counts = with_fate result self.old.counts;
        } }
        ensures falls { NeitherFalls self.old.counts self.new.counts }
    {
        let fate = fate_of(self.troubles.as_slice(), self.reads);
        self.reads = self.reads.saturating_add(1);
        match fate {
            ReadFate::Goes => {}
            ReadFate::Rests => self.quiets = self.quiets.saturating_add(1),
            ReadFate::Fails => self.faults = self.faults.saturating_add(1),
        }
        fate
    }

    /// Counts a write, and says whether it fails.
    pub fn write(&mut self) -> Result<(), Failed>
        ensures fails { IsErr result ↔
            Contains self.old.troubles (LinkTrouble.FailWrite self.old.writes) }
        ensures ok { OnOk result (self.new ≡ record self.old { writes = raised self.old.writes }) }
        ensures err { OnErr result (self.new ≡ record self.old {
          writes = raised self.old.writes;
          counts = with_link_fault self.old.counts;
        }) }
        ensures falls { NeitherFalls self.old.counts self.new.counts }
    {
        let faults = self.faults;
        let is_failing = self.troubles.contains(&LinkTrouble::FailWrite(self.writes));
        self.writes = self.writes.saturating_add(1);
        if is_failing {
            self.faults = faults.saturating_add(1);
            return Err(Failed);
        }
        Ok(())
    }
}

/// Says what becomes of the read of a number.
fn fate_of(troubles: &[LinkTrouble], number: u64) -> ReadFate
    ensures { result ≡ read_fate troubles.now number }
{
    for trouble in troubles {
        if let Some(fate) = decided(*trouble, number) {
            return fate;
        }
    }
    ReadFate::Goes
}

/// Says what becomes of the read of a number by a trouble, `None` where the trouble is another
/// call's.
fn decided(trouble: LinkTrouble, number: u64) -> Option<ReadFate>
    ensures is { IfSome result (λ fate. (rest : List LinkTrouble) →
        read_fate (trouble ∷ rest) number ≡ fate) }
    ensures none { IfNone result ((rest : List LinkTrouble) →
        read_fate (trouble ∷ rest) number ≡ read_fate rest number) }
{
    match trouble {
        LinkTrouble::FailRead(i) if i == number => Some(ReadFate::Fails),
        LinkTrouble::QuietRead(i) if i == number => Some(ReadFate::Rests),
        _ => None,
    }
}
