ghost use Rattle.std.specs.Prelude.{◌≡◌, ◌<◌, ◌↔◌, List, ◌∷◌, IsErr, OnOk, OnErr, IfSome, IfNone};
ghost use Rattle.std.specs.Prelude.{Contains};
ghost use Rattle.mc_wire.specs.Count.{raised};
ghost use Rattle.mc_wire.specs.LobbyCounts.{no_counts, with_fault, with_write, NoneFalls, HasCause};
ghost use Rattle.mc_wire.specs.LobbyAnswers.{IsInPiece};
ghost use Rattle.mc_wire.specs.Troubles.{write_answer};

use crate::{Failed, Trouble, Wrote};
use std::marker::Model;

/// Which calls of a lobby go wrong, and how many there were. All counts stand still at their type's
/// end.
#[derive(Drop)]
pub struct Troubles {
    troubles: Vec<Trouble>,
    nexts: u64,
    writes: u64,
    faults: u64,
    stalls: u64,
    breaks: u64,
}

impl Model for Troubles {
    ghost use Rattle.std.specs.Prelude.{◌<◌, ◌^◌};
    ghost use Rattle.mc_wire.specs.Troubles.{TroublesState};

    ghost Value = { TroublesState };

    ghost view = { λ kept. record {
      troubles = kept.troubles.items;
      nexts = kept.nexts;
      writes = kept.writes;
      counts = record { faults = kept.faults; stalls = kept.stalls; breaks = kept.breaks };
    } };

    ghost invariant = { λ kept.
        (kept.faults < 2 ^ 64) × (kept.stalls < 2 ^ 64) × (kept.breaks < 2 ^ 64) };
}

impl Troubles {
    /// The troubles before the first call.
    pub fn new(troubles: Vec<Trouble>) -> Troubles
        ensures { result ≡ record {
          troubles = troubles.items;
          nexts = 0;
          writes = 0;
          counts = no_counts;
        } }
    {
        Troubles {
            troubles,
            nexts: 0,
            writes: 0,
            faults: 0,
            stalls: 0,
            breaks: 0,
        }
    }

    /// Says whether a `listen` fails.
    pub fn listen(&mut self) -> Result<(), Failed>
        ensures fails { IsErr result ↔ Contains self.old.troubles Trouble.FailListen }
        ensures ok { OnOk result (self.new ≡ self.old) }
        ensures err { OnErr result (self.new ≡ record self.old {
          counts = with_fault self.old.counts;
        }) }
        ensures falls { NoneFalls self.old.counts self.new.counts }
    {
        let faults = self.faults;
        if self.troubles.contains(&Trouble::FailListen) {
            self.faults = faults.saturating_add(1);
            return Err(Failed);
        }
        Ok(())
    }

    /// Counts a `next`, and says whether it fails.
    pub fn next(&mut self) -> Result<(), Failed>
        ensures fails { IsErr result ↔
            Contains self.old.troubles (Trouble.FailNext self.old.nexts) }
        ensures ok { OnOk result (self.new ≡ record self.old { nexts = raised self.old.nexts }) }
        ensures err { OnErr result (self.new ≡ record self.old {
          nexts = raised self.old.nexts;
          counts = with_fault self.old.counts;
        }) }
        ensures falls { NoneFalls self.old.counts self.new.counts }
    {
        let faults = self.faults;
        let is_failing = self.troubles.contains(&Trouble::FailNext(self.nexts));
        self.nexts = self.nexts.saturating_add(1);
        if is_failing {
            self.faults = faults.saturating_add(1);
            return Err(Failed);
        }
        Ok(())
    }

    /// Counts a write of so many bytes, and says what it answers.
    pub fn write(&mut self, size: usize) -> Wrote
        requires some { 0 < size }
        ensures is { result ≡ write_answer self.old.troubles self.old.writes size }
        ensures after { self.new ≡ record self.old {
          writes = raised self.old.writes;
          counts = with_write result self.old.counts;
        } }
        ensures cause { HasCause result size self.old.counts self.new.counts }
        ensures falls { NoneFalls self.old.counts self.new.counts }
    {
        let wrote = answer_of(self.troubles.as_slice(), self.writes, size);
        self.writes = self.writes.saturating_add(1);
        match wrote {
            Wrote::Took(_) => {}
            Wrote::Stalled => self.stalls = self.stalls.saturating_add(1),
            Wrote::Broken => self.breaks = self.breaks.saturating_add(1),
        }
        wrote
    }
}

/// Answers what a write of this number and size does.
fn answer_of(troubles: &[Trouble], number: u64, size: usize) -> Wrote
    requires some { 0 < size }
    ensures is { result ≡ write_answer troubles.now number size }
    ensures within { IsInPiece result size }
{
    for trouble in troubles {
        if let Some(wrote) = decided(*trouble, number, size) {
            return wrote;
        }
    }
    Wrote::Took(size)
}

/// Answers what a write of this number and size does by a trouble, or `None` where the trouble is
/// another call's.
fn decided(trouble: Trouble, number: u64, size: usize) -> Option<Wrote>
    requires some { 0 < size }
    ensures is { IfSome result (λ wrote. (rest : List Trouble) →
        write_answer (trouble ∷ rest) number size ≡ wrote) }
    ensures none { IfNone result ((rest : List Trouble) →
        write_answer (trouble ∷ rest) number size ≡ write_answer rest number size) }
    ensures within { IfSome result (λ wrote. IsInPiece wrote size) }
{
    match trouble {
        Trouble::StallWrite(i) if i == number => Some(Wrote::Stalled),
        Trouble::BreakWrite(i) if i == number => Some(Wrote::Broken),
        Trouble::ShortWrite(i, count) if i == number => Some(Wrote::Took(count.max(1).min(size))),
        _ => None,
    }
}
